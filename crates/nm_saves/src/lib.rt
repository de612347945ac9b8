//! The files that keep a mirror's superblock, one beside each leg, and how a superblock is saved.
//!
//! A save of one file writes the slot that its superblock is not in, and syncs. A save of all files
//! writes those of the legs that the superblock names first, and no other before all of these have
//! it.
#![tactic(auto)]

pub use found::found_beside;
pub use saved::Saved;
pub use saving::FailedFiles;
pub use slot_file::SlotFile;
pub use superblock_file::SuperblockFile;
pub use superblock_files::SuperblockFiles;

mod file;
mod fitting;
mod found;
mod knowing;
mod named;
mod renewing;
mod rereading;
mod saved;
mod saving;
mod slot_file;
mod superblock_file;
mod superblock_files;
mod writing;
