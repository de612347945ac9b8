//! One client's session as a pure machine: the client's bytes and the outcomes of its requests go
//! in, requests for a target and the bytes of the replies come out.
#![tactic(auto)]

pub use called::Called;
pub use calling::call;
pub use cut_reader::CutReader;
pub use cut_writer::CutWriter;
pub use end::End;
pub use ended_by::EndedBy;
pub use io::{feed_piece, send_out};
pub use limit::Limit;
pub use next::Next;
pub use outcome::Outcome;
pub use phase::Phase;
pub use refused::Refused;
pub use serve_fault::ServeFault;
pub use served::Served;
pub use session_core::SessionCore;
pub use session_log::SessionLog;
pub use target::Target;
pub use target_fault::TargetFault;

mod buffer_pool;
mod called;
mod calling;
mod chunks;
mod cut_reader;
mod cut_writer;
mod dispatch;
mod end;
mod ended_by;
mod ending;
mod io;
pub mod laws;
mod limit;
mod next;
mod outcome;
mod outstanding;
mod payload_room;
mod phase;
mod refused;
mod serve_fault;
mod served;
mod session_core;
mod session_log;
mod stage;
mod target;
mod target_fault;
