//! Whether a leg may have lost what was written to it.

use nm_mirror::Returning;
use std::sync::atomic::{AtomicBool, AtomicU64, Ordering};

// What a failed read counts for, and what any other failure does: in one number, so that both are
// seen at once. The lower half counts all failures, the upper half those that are no reads.
const READ: u64 = 1;

const OTHER: u64 = (1 << 32) | 1;

/// What failed of a leg since somebody last looked.
#[derive(Clone, Copy, PartialEq, Eq)]
pub enum Failure {
    /// Reads alone, the last one at this byte.
    Read(u64),
    /// Another call: the leg fails as a whole.
    Whole,
}

/// What failed of a leg since it last came back. Its stripes note it, whoever cares for the leg
/// looks; none of them waits.
///
/// A call that fails may be the first that a disk fails which lost its power: then the leg lacks
/// what it was written and not synced, in stripes too that saw no failure. Only a write that found
/// no space, and a read that failed while others do not, are a matter of one stripe. From a failure
/// until the leg comes back it is in doubt, whatever succeeds meanwhile.
#[derive(Drop)]
pub struct LegDoubts {
    // What failed so far; what of it somebody has looked at; and what is of the past, since the leg
    // came back after it.
    failures: AtomicU64,
    handled: AtomicU64,
    forgotten: AtomicU64,
    // Where a read failed last.
    unread_at: AtomicU64,
    // Whether a write found no space since the leg came back.
    was_full: AtomicBool,
    // Whether somebody took the leg out since.
    was_taken_out: AtomicBool,
}

// A count of nothing.
fn none() -> AtomicU64 {
    AtomicU64::new(0)
}

impl LegDoubts {
    /// Nothing has failed yet.
    pub fn new() -> LegDoubts {
        LegDoubts {
            failures: none(),
            handled: none(),
            forgotten: none(),
            unread_at: none(),
            was_full: AtomicBool::new(false),
            was_taken_out: AtomicBool::new(false),
        }
    }

    /// Notes a call with which the leg fails as a whole.
    pub fn note_failure(&self) {
        self.failures.fetch_add(OTHER, Ordering::SeqCst);
    }

    /// Notes a read that failed at this byte.
    pub fn note_unread(&self, at: u64) {
        self.unread_at.store(at, Ordering::SeqCst);
        self.failures.fetch_add(READ, Ordering::SeqCst);
    }

    /// Notes a write that found no space.
    pub fn note_full(&self) {
        self.was_full.store(true, Ordering::SeqCst);
    }

    /// Notes that somebody takes the leg out.
    pub fn note_taken_out(&self) {
        self.was_taken_out.store(true, Ordering::SeqCst);
    }

    // What failed so far.
    fn failures(&self) -> u64 {
        self.failures.load(Ordering::SeqCst)
    }

    /// Whether the leg may have lost what it was written, in any stripe.
    pub fn is_doubted(&self) -> bool {
        self.failures() != self.forgotten.load(Ordering::SeqCst)
    }

    /// Whether a read failed since the leg came back.
    pub fn has_unread(&self) -> bool {
        let past = self.forgotten.load(Ordering::SeqCst);
        let since = self.failures().wrapping_sub(past);
        since & 0xffff_ffff > since >> 32
    }

    /// What failed that nobody looked at yet, if something did, and up to where that is: for
    /// `handle`.
    pub fn new_failure(&self) -> Option<(Failure, u64)> {
        let seen = self.failures();
        let handled = self.handled.load(Ordering::SeqCst);
        if seen == handled {
            return None;
        }
        if seen >> 32 != handled >> 32 {
            return Some((Failure::Whole, seen));
        }
        let at = self.unread_at.load(Ordering::SeqCst);
        Some((Failure::Read(at), seen))
    }

    /// What failed up to there was looked at, and the leg was taken out where it has to be. It
    /// stays in doubt. Whether it is the first that was since the leg came back.
    pub fn handle(&self, seen: u64) -> bool {
        let before = self.handled.swap(seen, Ordering::SeqCst);
        before == self.forgotten.load(Ordering::SeqCst)
    }

    /// How the leg comes back: where it is out, if it only found no space, and else everywhere.
    pub fn returning(&self) -> Returning {
        let was_taken_out = self.was_taken_out.load(Ordering::SeqCst);
        if self.was_full.load(Ordering::SeqCst) && !self.is_doubted() && !was_taken_out {
            Returning::WhereOut
        } else {
            Returning::Everywhere
        }
    }

    /// The leg is out wherever it can be, and comes back so, or another file has its place: what
    /// failed so far is of the past.
    pub fn forget(&self, returning: Returning) {
        self.was_full.store(false, Ordering::SeqCst);
        if returning == Returning::Everywhere {
            let seen = self.failures();
            self.was_taken_out.store(false, Ordering::SeqCst);
            self.handled.store(seen, Ordering::SeqCst);
            self.forgotten.store(seen, Ordering::SeqCst);
        }
    }
}
