//! Files of superblocks that hold none yet.

use crate::late_slots::LateSlots;
use crate::leg_opening::lock_opened;
use crate::limited_file::CallLimit;
use nm_reports::Unopened;
use nm_saves::SuperblockFile;
use std::alloc::Global;
use std::fs::File;
use std::io;
use std::io::ErrorKind;

/// Why a file is not opened where there is no memory.
pub fn no_memory() -> Unopened {
    Unopened::by(io::Error::from(ErrorKind::OutOfMemory))
}

/// The superblock's file that was opened, if it was, locked and with no superblock in it.
pub fn blank_file(
    alloc: Global,
    opened: io::Result<File>,
    limit: &CallLimit,
) -> Result<SuperblockFile<LateSlots>, Unopened> {
    let Ok(slots) = LateSlots::here(alloc, lock_opened(opened)?, 0, limit) else {
        return Err(no_memory());
    };
    match SuperblockFile::create(slots) {
        Ok(made) => Ok(made),
        Err(error) => Err(Unopened::by(error)),
    }
}

/// The slots inside a leg with no superblock in them, and zeroes behind them.
pub fn blank_window(slots: LateSlots) -> Result<SuperblockFile<LateSlots>, Unopened> {
    if let Err(error) = slots.clear() {
        return Err(Unopened::by(error));
    }
    match SuperblockFile::create(slots) {
        Ok(made) => Ok(made),
        Err(error) => Err(Unopened::by(error)),
    }
}
