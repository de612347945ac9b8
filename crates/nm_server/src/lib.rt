//! The server `nbdmirror` as a library: the sessions over the mirror, the threads of a server, and
//! the program itself.
//!
//! `start` reads the command line, opens the legs, listens, and serves until a `quit`: that it is
//! safe is proved, and that a request's call moves the counts of its pass as the mirror's own call
//! does.
#![tactic(auto)]

mod absent;
mod control_meanwhile;
mod counted_calls;
mod equipment;
mod file_calls;
pub mod laws;
mod log_ends;
mod mirror_calls;
mod mirror_log;
mod mirror_target;
mod program;
mod run;
mod serving;
mod sessions;

pub use crate::file_calls::call_mirror;
pub use crate::log_ends::LogEnds;
pub use crate::mirror_calls::MirrorCalls;
pub use crate::mirror_log::MirrorLog;
pub use crate::mirror_target::{MirrorTarget, NotingTarget};
pub use crate::program::{refuse_words, start};
