//! A file of the system as a superblock's file.
ghost use Rattle.std.specs.Prelude.{false};
ghost use Rattle.nm_saves.specs.SlotFile.{unknown};

use crate::slot_file::SlotFile;
use std::fs::File;
use std::io;
use std::io::ErrorKind;
use std::os::fd::AsRawFd;
use std::os::unix::fs::FileExt;

/// Asks `posix_fadvise` to drop what the cache has.
const DONTNEED: i32 = 4;

// Where a slot begins.
fn place_of(second: bool) -> u64 {
    if second { 4096 } else { 0 }
}

// Fails where a call did not reach the whole slot.
fn check_whole(many: usize) -> io::Result<()> {
    if many != 4096 {
        return Err(io::Error::from(ErrorKind::UnexpectedEof));
    }
    Ok(())
}

/// Nothing is promised of its contents. That the cache drops what it has is asked, and not looked
/// at: a file system that has no cache refuses, and needs none dropped.
impl SlotFile for File {
    ghost honest = { false };

    ghost held = { λ _. unknown };

    fn settle(&mut self) -> io::Result<()> {
        self.sync_data()?;
        let _ = libc::posix_fadvise(self.as_raw_fd(), 0, 8192, DONTNEED);
        Ok(())
    }

    fn read_slot(&mut self, second: bool, into: &mut [u8; 4096]) -> io::Result<()> {
        check_whole(self.read_at(into, place_of(second))?)
    }

    fn write_slot(&mut self, second: bool, bytes: &[u8; 4096]) -> io::Result<()> {
        check_whole(self.write_at(bytes, place_of(second))?)
    }

    fn sync(&mut self) -> io::Result<()> {
        self.sync_data()
    }
}
