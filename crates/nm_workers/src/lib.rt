//! One client's session over several targets at once: a thread for each target that is needed, one
//! that reads, and the caller's, which owns the session's core and its writer.
//!
//! What goes out is what happened in the session, whatever the threads do. Replies go out in the
//! order in which the requests are done.
#![tactic(auto)]

pub use negotiation::negotiate;
pub use session::{Backend, Finished, serve_many, transmit};
pub use spin_wait::{BusyPoll, SpinToken};

mod dispatcher;
mod job;
pub mod laws;
mod messages;
mod negotiation;
mod permits;
mod pool;
mod read_buffer;
mod read_by;
mod reader;
mod requests;
mod room_pool;
mod round;
mod session;
mod spin_wait;
mod worker;
