//! The file of a superblock, which may be opened later than the server starts.
ghost use Rattle.std.specs.Prelude.{false};
ghost use Rattle.nm_saves.specs.SlotFile.{unknown};

use crate::late_file::LateFile;
use crate::limited_file::{CallLimit, LimitedFile, share_limit};
use crate::window::WINDOW_BYTES;
use nm_file_leg::BackingFile;
use nm_saves::SlotFile;
use std::alloc::{AllocError, Global};
use std::fs::File;
use std::io;
use std::io::ErrorKind;
use std::os::fd::AsRawFd;
use std::sync::Arc;

/// How many bytes a slot has.
const SLOT_BYTES: usize = 4096;

/// How many pieces of as many bytes a leg has for its superblock.
const WINDOW_PIECES: u64 = WINDOW_BYTES / SLOT_BYTES as u64;

/// A superblock's file: one that was found or made at the start, or that of a leg that was not
/// here. Until the latter is opened it has no superblock, and takes none.
#[derive(Drop)]
pub struct LateSlots {
    file: LimitedFile,
    // Where the first slot begins.
    first: u64,
}

// Whether all bytes are zeroes.
fn are_zeroes(bytes: &[u8; SLOT_BYTES]) -> bool {
    for byte in bytes {
        if *byte != 0 {
            return false;
        }
    }
    true
}

// Fails where a call did not reach the whole slot.
fn check_whole(many: usize) -> io::Result<()> {
    if many != SLOT_BYTES {
        return Err(io::Error::from(ErrorKind::UnexpectedEof));
    }
    Ok(())
}

impl LateSlots {
    /// Those of a file that is open, from this byte on, under the limit of its leg's calls.
    pub fn here(
        alloc: Global,
        file: File,
        first: u64,
        limit: &CallLimit,
    ) -> Result<LateSlots, AllocError> {
        Ok(LateSlots {
            file: LimitedFile::of(alloc, LateFile::opened(file, 0), limit)?,
            first,
        })
    }

    /// Those of a file that is opened later.
    pub fn late(
        file: Arc<LateFile>,
        first: u64,
        limit: &CallLimit,
    ) -> Result<LateSlots, AllocError> {
        Ok(LateSlots {
            file: LimitedFile::new(file, share_limit(limit)?),
            first,
        })
    }

    /// The same slots of the same file.
    pub fn share(&self) -> Result<LateSlots, AllocError> {
        Ok(LateSlots {
            file: self.file.share()?,
            first: self.first,
        })
    }

    // Where a slot begins.
    fn place_of(&self, second: bool) -> u64 {
        let within = if second { SLOT_BYTES as u64 } else { 0 };
        self.first.saturating_add(within)
    }

    // Where this piece of the bytes begins that a leg has for its superblock: as many as a slot
    // has.
    fn piece_at(&self, piece: u64) -> u64 {
        self.first
            .saturating_add(piece.saturating_mul(SLOT_BYTES as u64))
    }

    /// Whether all the bytes are zeroes that a leg has for its superblock, of which these slots are
    /// the first.
    pub fn is_clear(&self) -> io::Result<bool> {
        let mut bytes = [0; SLOT_BYTES];
        for piece in 0..WINDOW_PIECES {
            let found = self.file.read_bytes(self.piece_at(piece), &mut bytes)?;
            check_whole(found)?;
            if !are_zeroes(&bytes) {
                return Ok(false);
            }
        }
        Ok(true)
    }

    /// Makes them zeroes, durably.
    pub fn clear(&self) -> io::Result<()> {
        for piece in 0..WINDOW_PIECES {
            let written = self
                .file
                .write_bytes(self.piece_at(piece), &[0; SLOT_BYTES])?;
            check_whole(written)?;
        }
        self.file.sync_bytes()
    }
}

/// Nothing is promised of its contents. That the cache drops what it has is asked, and not looked
/// at: a file system that has no cache refuses, and needs none dropped.
impl SlotFile for LateSlots {
    ghost honest = { false };

    ghost held = { λ _. unknown };

    fn settle(&mut self) -> io::Result<()> {
        if let Some(file) = self.file.late().file() {
            self.file.sync_bytes()?;
            let from = self.first.min(i64::MAX as u64) as i64;
            let _ = libc::posix_fadvise(file.as_raw_fd(), from, 0, libc::POSIX_FADV_DONTNEED);
        }
        Ok(())
    }

    fn read_slot(&mut self, second: bool, into: &mut [u8; 4096]) -> io::Result<()> {
        if self.file.late().file().is_none() {
            into.fill(0);
            return Ok(());
        }
        check_whole(self.file.read_bytes(self.place_of(second), into)?)
    }

    fn write_slot(&mut self, second: bool, bytes: &[u8; 4096]) -> io::Result<()> {
        check_whole(self.file.write_bytes(self.place_of(second), bytes)?)
    }

    fn sync(&mut self) -> io::Result<()> {
        self.file.sync_bytes()
    }
}
