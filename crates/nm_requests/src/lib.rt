//! NBD requests, cut out of the receive buffer without a copy, and their judging.
//!
//! However a stream comes in pieces, a reader hands out its requests in order, each once and each
//! with the payload that follows its header; where it stops, the stream itself ends so. `judge`
//! says by one table what a request asks for.
#![tactic(auto)]

pub use fault::Fault;
pub use judging::judge;
pub use request::Request;
pub use request_reader::RequestReader;
pub use task::Task;

mod blocks;
mod cutting;
mod fault;
mod judging;
pub mod laws;
mod received;
mod request;
mod request_reader;
mod task;
