//! The calls of a leg's file, counted.

use std::io;
use std::sync::atomic::{AtomicU64, Ordering};

/// What a call of a leg's file does.
#[derive(Clone, Copy, PartialEq, Eq)]
pub enum LegCall {
    /// It reads.
    Read,
    /// It writes.
    Write,
    /// It makes durable what was written.
    Sync,
}

impl LegCall {
    /// Each of them.
    pub const ALL: [LegCall; 3] = [LegCall::Read, LegCall::Write, LegCall::Sync];

    /// Its name in the metrics.
    pub fn name(self) -> &'static str {
        match self {
            LegCall::Read => "read",
            LegCall::Write => "write",
            LegCall::Sync => "sync",
        }
    }
}

/// What is counted of a leg's calls.
#[derive(Clone, Copy, PartialEq, Eq)]
pub enum LegNumber {
    /// How many there were.
    Calls,
    /// How many bytes they moved.
    Bytes,
    /// How many failed.
    Errors,
}

// The calls of one kind.
#[derive(Drop)]
struct Counts {
    calls: AtomicU64,
    bytes: AtomicU64,
    errors: AtomicU64,
}

impl Counts {
    // None so far.
    fn new() -> Counts {
        Counts {
            calls: AtomicU64::new(0),
            bytes: AtomicU64::new(0),
            errors: AtomicU64::new(0),
        }
    }
}

/// The calls of a leg's file, those of clients, copies and comparisons alike. A leg's stripes count
/// into it.
#[derive(Drop)]
pub struct LegCounts {
    reads: Counts,
    writes: Counts,
    syncs: Counts,
    // How many calls failed since the file system had no space left, and how many for another
    // reason.
    full: AtomicU64,
    other_faults: AtomicU64,
}

impl LegCounts {
    /// None so far.
    pub fn new() -> LegCounts {
        LegCounts {
            reads: Counts::new(),
            writes: Counts::new(),
            syncs: Counts::new(),
            full: AtomicU64::new(0),
            other_faults: AtomicU64::new(0),
        }
    }

    // Those of one kind.
    fn of(&self, call: LegCall) -> &Counts {
        match call {
            LegCall::Read => &self.reads,
            LegCall::Write => &self.writes,
            LegCall::Sync => &self.syncs,
        }
    }

    /// Counts a call that moved so many bytes, or failed.
    pub fn note(&self, call: LegCall, moved: Option<usize>) {
        let own = self.of(call);
        own.calls.fetch_add(1, Ordering::SeqCst);
        match moved {
            Some(0) => (),
            Some(bytes) => {
                own.bytes.fetch_add(bytes as u64, Ordering::SeqCst);
            }
            None => {
                own.errors.fetch_add(1, Ordering::SeqCst);
            }
        }
    }

    /// Notes why a call failed: with this error of the system, or with none, as where the file was
    /// found shorter than it was.
    pub fn note_fault(&self, error: Option<&io::Error>) {
        let is_full = error.is_some_and(|error| error.kind() == io::ErrorKind::StorageFull);
        let faults = if is_full {
            &self.full
        } else {
            &self.other_faults
        };
        faults.fetch_add(1, Ordering::SeqCst);
    }

    /// Whether a call failed since the file system had no space left.
    pub fn was_full(&self) -> bool {
        self.full.load(Ordering::SeqCst) > 0
    }

    /// Whether a call failed for another reason.
    pub fn failed_otherwise(&self) -> bool {
        self.other_faults.load(Ordering::SeqCst) > 0
    }

    /// This number of the calls of one kind.
    pub fn get(&self, call: LegCall, number: LegNumber) -> u64 {
        let own = self.of(call);
        let counter = match number {
            LegNumber::Calls => &own.calls,
            LegNumber::Bytes => &own.bytes,
            LegNumber::Errors => &own.errors,
        };
        counter.load(Ordering::SeqCst)
    }
}
