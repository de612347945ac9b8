//! Tells how far the comparison of the legs is.
ghost use Rattle.std.specs.Prelude.{◌≤◌};

use crate::log_lines::LogLines;
use crossbeam_channel::{Receiver, RecvTimeoutError};
use nm_service::Mebibytes;
use std::alloc::Global;
use std::sync::Wait;
use std::sync::atomic::{AtomicU64, Ordering};
use std::time::{Clock, Duration, Instant};

/// How many seconds pass between two lines.
const PAUSE_SECONDS: u64 = 1;

/// How many bytes a block has.
const BLOCK_BYTES: u64 = nm_replay::BLOCK_BYTES as u64;

/// The comparison of a mirror's legs, as it goes on.
#[derive(Clone, Copy, Drop)]
pub struct Comparison<'a> {
    /// How many legs are compared.
    pub legs: usize,
    /// How many bytes all of them have.
    pub bytes: u64,
    /// How many of these were read so far.
    pub read: &'a AtomicU64,
}

// How many per cent of all bytes were read.
fn percent_of(read: u64, all: u64) -> u64
    ensures { result ≤ 100 }
{
    (read / (all / 100).max(1)).min(100)
}

impl Comparison<'_> {
    /// How many per cent of it are done.
    pub fn percent(&self) -> u64
        ensures { result ≤ 100 }
    {
        percent_of(self.read.load(Ordering::SeqCst), self.bytes)
    }
}

// Tells in a line how much was read in so many seconds, and how long the rest will take at that
// rate.
fn tell<R: Wait>(
    rt: &R,
    alloc: Global,
    comparison: &Comparison<'_>,
    seconds: u64,
    lines: &LogLines,
) {
    let read = comparison.read.load(Ordering::SeqCst);
    let rate = read / seconds.max(1);
    let left = comparison.bytes.saturating_sub(read) / rate.max(1);
    let legs = comparison.legs;
    let done = Mebibytes::of_blocks(read / BLOCK_BYTES);
    let all = Mebibytes::of_blocks(comparison.bytes / BLOCK_BYTES);
    let mebibytes = rate >> 20;
    lines.inform(
        rt,
        format!(in alloc;
            "comparing {legs} legs: {done} of {all} read, {mebibytes} MiB/s, {left} s left"
        ),
    );
}

/// Tells each second how far the comparison is, until it has ended: then the sender is gone.
pub fn tell_progress<R: Wait + Clock>(
    rt: &R,
    alloc: Global,
    ended: &Receiver<()>,
    comparison: &Comparison<'_>,
    lines: &LogLines,
) {
    let Ok(begun) = Instant::now(rt) else {
        return;
    };
    for _ in rt.forever() {
        let Err(RecvTimeoutError::Timeout) = ended.recv_timeout(
            rt,
            Duration::from_secs(PAUSE_SECONDS),
        ) else {
            return;
        };
        if let Ok(passed) = begun.elapsed(rt) {
            tell(rt, alloc, comparison, passed.as_secs(), lines);
        }
    }
}
