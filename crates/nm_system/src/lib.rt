//! What the operating system tells of a leg and of this process.
//!
//! `is_in_use` says whether a leg is mounted or otherwise in use, `identity_of` what tells it from
//! all others, `Limits` what the process may use
//! at most, and `take_standard_streams` keeps standard input, output and error from becoming legs.
//! `is_journal` says whether standard error goes to the system's journal; `holder_of_port` and
//! `holder_of_path` name the process that listens where another is to.
#![tactic(auto)]

mod identity;
mod in_use;
mod journal;
mod kernel_tables;
mod limits;
mod socket_holder;
mod standard_streams;
mod system_files;

pub use crate::identity::identity_of;
pub use crate::in_use::is_in_use;
pub use crate::journal::is_journal;
pub use crate::limits::{Limits, is_below};
pub use crate::socket_holder::{Process, holder_of_path, holder_of_port};
pub use crate::standard_streams::take_standard_streams;
