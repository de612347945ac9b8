//! A leg on a medium such as a file, whose rules are proved over every medium.
//!
//! `Medium` says what a medium is asked for, and what an honest one does. `FileLeg` keeps the
//! blocks of one stripe in one: over an honest medium it is an honest leg. `MemMedium` is an honest
//! medium in memory, and `FuseMedium` fails calls for tests. `SharedFile` is a file that is opened
//! once for several legs, and `FileUser` the medium of one of them, which promises nothing of its
//! contents. `CalledMedium` is a medium that several threads call at once, and `FilePlace` a leg in
//! one.
#![tactic(auto)]

pub use backing_file::BackingFile;
pub use called_medium::CalledMedium;
pub use file_leg::FileLeg;
pub use file_look::FileLook;
pub use file_place::FilePlace;
pub use file_user::FileUser;
pub use fuse_medium::FuseMedium;
pub use medium::Medium;
pub use mem_medium::MemMedium;
pub use shared_file::SharedFile;
pub use sync_counts::{is_covered, may_have_lost};

mod backing_file;
mod called_medium;
mod called_runs;
mod file_leg;
mod file_look;
mod file_place;
mod file_user;
mod fuse_medium;
pub mod laws;
mod leg_memory;
mod medium;
mod mem_medium;
mod region_writes;
mod runs;
mod shared_file;
mod splice;
mod sync_counts;
mod zeroes;
