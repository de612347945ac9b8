//! What of a leg's file failed last.

use crate::failed_reads::{FailedRead, FailedReads};
use crate::leg_doubts::LegDoubts;
use crate::outage::LastOutage;
use nm_mirror::Returning;
use std::alloc::{AllocError, Global};
use std::io::ErrorKind;
use std::sync::atomic::{AtomicBool, AtomicU32, AtomicU64, Ordering};
use std::{fmt, io};

/// The system's number of the error of a call that is not made while another one of the leg hangs.
pub const NOT_MADE: i32 = 125;

/// The system's number of the error of a call that has no answer in time.
const NO_ANSWER: i32 = 62;

/// A call of a leg's file.
#[derive(Clone, Copy, PartialEq, Eq)]
pub enum FileCall {
    Read,
    Write,
    Sync,
    Length,
}

impl FileCall {
    // The number by which it is kept.
    fn number(self) -> u64 {
        match self {
            FileCall::Read => 0,
            FileCall::Write => 1,
            FileCall::Sync => 2,
            FileCall::Length => 3,
        }
    }

    // The call that has this number.
    fn of(number: u64) -> FileCall {
        match number {
            0 => FileCall::Read,
            1 => FileCall::Write,
            2 => FileCall::Sync,
            _ => FileCall::Length,
        }
    }
}

/// A call of a leg's file that failed.
///
/// It prints as `a write at byte 4096 failed: Input/output error (os error 5)`.
#[derive(Clone, Copy)]
pub struct Trouble {
    call: FileCall,
    at: u64,
    error: Option<io::Error>,
}

impl Trouble {
    /// This read failed.
    pub(crate) fn of_read(failed: &FailedRead) -> Trouble {
        Trouble {
            call: FileCall::Read,
            at: failed.at,
            error: failed.error,
        }
    }

    // Writes which call failed.
    fn write_call<W: fmt::Write>(&self, f: &mut fmt::Formatter<W>) -> fmt::Result {
        let at = self.at;
        match self.call {
            FileCall::Read => write!(f, "a read at byte {at} failed"),
            FileCall::Write => write!(f, "a write at byte {at} failed"),
            FileCall::Sync => f.write_str("a sync failed"),
            FileCall::Length if self.error.is_some() => f.write_str("its length cannot be read"),
            FileCall::Length => f.write_str("it has not the length that it had"),
        }
    }
}

impl fmt::Display for Trouble {
    fn fmt<W: fmt::Write>(&self, f: &mut fmt::Formatter<W>) -> fmt::Result {
        self.write_call(f)?;
        match &self.error {
            Some(error) if error.kind() == ErrorKind::StorageFull => {
                f.write_str(": no space left on its file system")
            }
            Some(error) => write!(f, ": {error}"),
            None => Ok(()),
        }
    }
}

/// The last call of a leg's file that failed and is not told yet, and what the leg may have lost by
/// such calls. The stripes of the leg note it, whoever tells of the leg takes it; none of them
/// waits.
#[derive(Drop)]
pub struct LegTrouble {
    // Whether somebody is at the fields below.
    is_taken: AtomicBool,
    is_new: AtomicBool,
    // Whether the file was ever found shorter than at the start.
    was_cut: AtomicBool,
    call: AtomicU64,
    at: AtomicU64,
    // The system's number of the error, or 0.
    error: AtomicU32,
    doubts: LegDoubts,
    failed_reads: FailedReads,
    // The name of its file.
    name: String,
    outage: LastOutage,
    // The system's number of the error with which its name was last opened in vain, or 0.
    unopened: AtomicU32,
}

// Whether the error is that there is no space left.
fn is_no_space(error: Option<&io::Error>) -> bool {
    match error {
        Some(error) => error.kind() == ErrorKind::StorageFull,
        None => false,
    }
}

// Whether the error tells what an earlier call has lost: the system gave it for none of its own.
fn is_of_an_earlier_call(error: Option<&io::Error>) -> bool {
    match error {
        Some(error) => error.raw_os_error().is_none(),
        None => false,
    }
}

impl LegTrouble {
    /// Nothing has failed yet of the file of this name.
    pub fn new(alloc: Global, name: &str) -> Result<LegTrouble, AllocError> {
        Ok(LegTrouble {
            is_taken: AtomicBool::new(false),
            is_new: AtomicBool::new(false),
            was_cut: AtomicBool::new(false),
            call: AtomicU64::new(0),
            at: AtomicU64::new(0),
            error: AtomicU32::new(0),
            doubts: LegDoubts::new(),
            failed_reads: FailedReads::new(alloc)?,
            name: String::from_str(alloc, name)?,
            outage: LastOutage::none(),
            unopened: AtomicU32::new(0),
        })
    }

    /// The name of its file.
    pub fn name(&self) -> &str {
        self.name.as_str()
    }

    /// Since when the leg is out, and why.
    pub fn outage(&self) -> &LastOutage {
        &self.outage
    }

    /// Notes that the leg's name was opened again: with this error of the system, if in vain.
    pub fn note_opened(&self, error: Option<&io::Error>) {
        let number = match error {
            Some(error) => error.raw_os_error().unwrap_or(0),
            None => 0,
        };
        self.unopened
            .store(number.cast_unsigned(), Ordering::SeqCst);
    }

    /// Why the leg's name was last opened in vain, if it was.
    pub fn unopened(&self) -> Option<io::Error> {
        match self.unopened.load(Ordering::SeqCst).cast_signed() {
            0 => None,
            number => Some(io::Error::from_raw_os_error(number)),
        }
    }

    /// Where reads failed.
    pub fn failed_reads(&self) -> &FailedReads {
        &self.failed_reads
    }

    /// What the leg may have lost.
    pub fn doubts(&self) -> &LegDoubts {
        &self.doubts
    }

    // Notes what the leg may have lost by a call that failed. A sync that fails since an earlier
    // one did was noted then.
    fn note_doubt(&self, call: FileCall, at: u64, error: Option<&io::Error>) {
        match call {
            FileCall::Read => {
                self.failed_reads.note(at, error);
                self.doubts.note_unread(at);
            }
            FileCall::Write if is_no_space(error) => self.doubts.note_full(),
            FileCall::Sync if is_of_an_earlier_call(error) => (),
            FileCall::Write | FileCall::Sync | FileCall::Length => self.doubts.note_failure(),
        }
    }

    // Whether a call that failed so is not told, but the one that hung first: it was not made since
    // that one hangs, or hangs beside it.
    fn hides(&self, number: i32) -> bool {
        let hangs = self.error.load(Ordering::SeqCst).cast_signed() == NO_ANSWER;
        let is_untold = self.is_new.load(Ordering::SeqCst);
        hangs && (number == NOT_MADE || number == NO_ANSWER && is_untold)
    }

    /// Notes a call that failed, at this byte. Of several at a time one is noted.
    pub fn note(&self, call: FileCall, at: u64, error: Option<&io::Error>) {
        self.note_doubt(call, at, error);
        if call == FileCall::Length && error.is_none() {
            self.was_cut.store(true, Ordering::SeqCst);
        }
        if self.is_taken.swap(true, Ordering::SeqCst) {
            return;
        }
        let number = match error {
            Some(error) => error.raw_os_error().unwrap_or(0),
            None => 0,
        };
        if self.hides(number) {
            self.is_new.store(true, Ordering::SeqCst);
            self.is_taken.store(false, Ordering::SeqCst);
            return;
        }
        self.call.store(call.number(), Ordering::SeqCst);
        self.at.store(at, Ordering::SeqCst);
        self.error.store(number.cast_unsigned(), Ordering::SeqCst);
        self.is_new.store(true, Ordering::SeqCst);
        self.is_taken.store(false, Ordering::SeqCst);
    }

    /// Whether the file was ever found shorter than at the start.
    pub fn was_cut(&self) -> bool {
        self.was_cut.load(Ordering::SeqCst)
    }

    /// Forgets what failed, for another file in the leg's place.
    pub fn forget(&self) {
        self.was_cut.store(false, Ordering::SeqCst);
        self.is_new.store(false, Ordering::SeqCst);
        self.failed_reads.forget();
        self.note_opened(None);
        self.doubts.forget(Returning::Everywhere);
    }

    /// Forgets that the read at this byte was what failed last, which is told.
    pub fn forget_read(&self, at: u64) {
        if self.is_taken.swap(true, Ordering::SeqCst) {
            return;
        }
        let is_read = self.call.load(Ordering::SeqCst) == FileCall::Read.number();
        if is_read && self.at.load(Ordering::SeqCst) == at {
            self.is_new.store(false, Ordering::SeqCst);
        }
        self.is_taken.store(false, Ordering::SeqCst);
    }

    /// Takes what failed last, if something has since this was last asked.
    pub fn take(&self) -> Option<Trouble> {
        if self.is_taken.swap(true, Ordering::SeqCst) {
            return None;
        }
        let is_new = self.is_new.swap(false, Ordering::SeqCst);
        let trouble = Trouble {
            call: FileCall::of(self.call.load(Ordering::SeqCst)),
            at: self.at.load(Ordering::SeqCst),
            error: match self.error.load(Ordering::SeqCst).cast_signed() {
                0 => None,
                number => Some(io::Error::from_raw_os_error(number)),
            },
        };
        self.is_taken.store(false, Ordering::SeqCst);
        if is_new { Some(trouble) } else { None }
    }
}
