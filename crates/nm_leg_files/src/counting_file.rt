//! A leg's file of which the calls are counted, so that a long comparison can report its progress,
//! and of which those that fail are noted.
ghost use Rattle.std.specs.Prelude.{◌≡◌, ◌≤◌, false, length, IfOk};
ghost use Rattle.nm_file_leg.specs.Media.{unknown};

use crate::limited_file::LimitedFile;
use nm_file_leg::{FileUser, Medium, SharedFile};
use nm_reports::{FileCall, LegCall, LegCounts, LegTrouble};
use std::alloc::AllocError;
use std::io;
use std::sync::Arc;
use std::sync::atomic::{AtomicU64, Ordering};

/// How many bytes were read of all legs.
pub type BytesRead = Arc<AtomicU64>;

/// A stripe's user of a leg's file, and the count of what is read of all legs.
///
/// Nothing is promised of its contents: that it is honest is a premise of whoever rests on it.
#[derive(Drop)]
pub struct CountingFile {
    file: FileUser<LimitedFile>,
    // The same file, to see whether it is open.
    shared: Arc<SharedFile<LimitedFile>>,
    // How many bytes it has, or is to have.
    bytes: u64,
    read: BytesRead,
    trouble: Arc<LegTrouble>,
    counts: Arc<LegCounts>,
}

impl CountingFile {
    /// This user of a shared file of so many bytes, whose calls are counted, and those that fail
    /// are noted here. While the file is not open it tells these bytes as its length, so that a leg
    /// can be made of it, and all other calls fail.
    pub fn new(
        file: FileUser<LimitedFile>,
        shared: &Arc<SharedFile<LimitedFile>>,
        bytes: u64,
        read: &BytesRead,
        trouble: &Arc<LegTrouble>,
        counts: &Arc<LegCounts>,
    ) -> Result<Self, AllocError>
        ensures { IfOk result (λ counting. counting.file ≡ file) }
    {
        Ok(CountingFile {
            file,
            shared: Arc::try_clone(shared)?,
            bytes,
            read: Arc::try_clone(read)?,
            trouble: Arc::try_clone(trouble)?,
            counts: Arc::try_clone(counts)?,
        })
    }
}

impl CountingFile {
    // Notes a call that failed: for whoever tells of the leg, and for what clients are answered.
    fn note_fault(&self, call: FileCall, at: u64, error: Option<&io::Error>) {
        self.trouble.note(call, at, error);
        self.counts.note_fault(error);
    }

    // Reads the bytes once again that a read left out which came short, so that it is known why:
    // how many it found. The file may have been cut there.
    fn read_rest(&mut self, at: u64, rest: &mut [u8]) -> usize {
        match self.file.read_at(at, rest) {
            Ok(found) => {
                self.counts.note(LegCall::Read, Some(found));
                if found < rest.len() {
                    self.note_fault(FileCall::Read, at.saturating_add(found as u64), None);
                    let _ = Medium::len(self);
                }
                found
            }
            Err(error) => {
                self.note_fault(FileCall::Read, at, Some(&error));
                self.counts.note(LegCall::Read, None);
                0
            }
        }
    }

    // Reads on where a read found so many bytes, which may be fewer than there is room for: before
    // bytes that cannot be read the system gives those before them. How many were found in all.
    fn read_on(&mut self, at: u64, found: usize, into: &mut [u8]) -> usize
        ensures { result ≤ length into.new }
    {
        if found >= into.len() {
            return into.len();
        }
        if found == 0 {
            self.note_fault(FileCall::Length, at, None);
            return 0;
        }
        let end = at.saturating_add(found as u64);
        let more = self.read_rest(end, &mut into[found..]);
        found.saturating_add(more).min(into.len())
    }

    // Notes a write that came short, as on a full file system: why is what a write of the rest is
    // answered.
    fn note_short(&mut self, at: u64, bytes: &[u8], moved: usize) {
        let Some(rest) = bytes.get(moved..) else {
            return;
        };
        if rest.is_empty() {
            return;
        }
        let at = at.saturating_add(moved as u64);
        match self.file.write_at(at, rest) {
            Ok(_) => self.note_fault(FileCall::Write, at, None),
            Err(error) => self.note_fault(FileCall::Write, at, Some(&error)),
        }
    }
}

impl Medium for CountingFile {
    ghost honest = { false };

    ghost held = { λ _. unknown };

    ghost tells = { λ _. false };

    ghost doubted = { λ _. false };

    fn read_at(&mut self, at: u64, into: &mut [u8]) -> io::Result<usize> {
        match self.file.read_at(at, into) {
            Ok(first) => {
                self.counts.note(LegCall::Read, Some(first));
                let found = self.read_on(at, first, into);
                self.trouble.failed_reads().clear(at, found as u64);
                self.read.fetch_add(found as u64, Ordering::SeqCst);
                Ok(found)
            }
            Err(error) => {
                self.note_fault(FileCall::Read, at, Some(&error));
                self.counts.note(LegCall::Read, None);
                Err(error)
            }
        }
    }

    fn write_at(&mut self, at: u64, bytes: &[u8]) -> io::Result<usize> {
        let written = self.file.write_at(at, bytes);
        match &written {
            Ok(moved) => {
                self.trouble.failed_reads().clear(at, *moved as u64);
                self.counts.note(LegCall::Write, Some(*moved));
                self.note_short(at, bytes, *moved);
            }
            Err(error) => {
                self.note_fault(FileCall::Write, at, Some(error));
                self.counts.note(LegCall::Write, None);
            }
        }
        written
    }

    fn sync(&mut self) -> io::Result<()> {
        let synced = self.file.sync();
        match &synced {
            Ok(()) => self.counts.note(LegCall::Sync, Some(0)),
            Err(error) => {
                self.note_fault(FileCall::Sync, 0, Some(error));
                self.counts.note(LegCall::Sync, None);
            }
        }
        synced
    }

    fn len(&self) -> io::Result<u64> {
        if self.shared.file().late().file().is_none() {
            return Ok(self.bytes);
        }
        let length = self.file.len();
        match &length {
            Ok(bytes) if *bytes >= self.bytes => (),
            Ok(_) => self.note_fault(FileCall::Length, 0, None),
            Err(error) => self.note_fault(FileCall::Length, 0, Some(error)),
        }
        length
    }

    fn is_hole(&self, at: u64, many: usize) -> bool {
        self.file.is_hole(at, many)
    }

    fn tells_loss(&self) -> bool {
        self.file.tells_loss()
    }

    fn is_doubted(&self) -> bool {
        self.trouble.doubts().is_doubted()
    }
}
