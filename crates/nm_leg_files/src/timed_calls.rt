//! Calls of a leg's files that are left behind where they take too long.
ghost use Rattle.std.specs.Prelude.{◌≡◌, ◌≤◌, length, IfOk};

use crate::answer_bell::sleep_a_millisecond;
use crate::call_seat::{Asked, CallSeat};
use crate::late_file::LateFile;
use nm_reports::NOT_MADE;
use std::alloc::{AllocError, Global};
use std::io::ErrorKind;
use std::sync::atomic::{AtomicBool, AtomicU64, Ordering};
use std::sync::{Arc, Wait};
use std::thread::Threads;
use std::{io, thread};

/// How long a call may take at most, in seconds: a day.
const MOST_SECONDS: u32 = 86_400;

/// The system's number of the error of a call that has no answer in time.
const ETIME: i32 = 62;

/// The threads that make the calls of a leg's files, and how long who asks waits for one.
///
/// A call that takes longer is left: it has failed, and until it has returned every other call of
/// the leg fails at once. So a call that was left ends before any later one begins, and what it may
/// still write is written before the leg's blocks are copied again: the leg is not attached before.
/// That is what `SharedFile` needs of calls that failed: who writes marks that before its call
/// looks whether one was left, and who leaves a sync notes that before it looks for such marks.
#[derive(Drop)]
pub struct TimedCalls {
    seats: Vec<CallSeat>,
    // In milliseconds.
    limit: i32,
    // Whether calls have that limit: those of the start have none.
    is_limited: AtomicBool,
    // How many calls were left and have not returned.
    left: AtomicU64,
}

// The error of a call that has no answer in time.
fn no_answer() -> io::Error {
    io::Error::from_raw_os_error(ETIME)
}

// The error of a call that is not made while another one hangs.
fn not_made() -> io::Error {
    io::Error::from_raw_os_error(NOT_MADE)
}

// Makes the calls of one seat.
fn serve<R: Wait>(rt: &R, calls: &TimedCalls, number: usize) {
    if let Some(seat) = calls.seats.get(number) {
        seat.serve(rt, &calls.left);
    }
}

impl TimedCalls {
    /// Calls of so many threads, each of which may take so many seconds. No thread runs yet.
    pub fn new(alloc: Global, threads: u8, seconds: u32) -> Result<TimedCalls, AllocError> {
        let mut seats = Vec::new(alloc);
        for _ in 0..threads {
            seats.push(CallSeat::new(alloc)?)?;
        }
        Ok(TimedCalls {
            seats,
            limit: seconds.min(MOST_SECONDS) as i32 * 1_000,
            is_limited: AtomicBool::new(false),
            left: AtomicU64::new(0),
        })
    }

    /// Starts the threads, which run until the program ends: one whose call hangs cannot be waited
    /// for. Whether all were started.
    pub fn start<R>(rt: &R, calls: &Arc<TimedCalls>) -> bool
    where
        R: Threads + Wait + Copy + Send + 'static,
    {
        for number in 0..calls.seats.len() {
            let Ok(theirs) = Arc::try_clone(calls) else {
                return false;
            };
            let own = *rt;
            if thread::spawn(rt, move || serve(&own, &theirs, number)).is_err() {
                return false;
            }
        }
        true
    }

    /// From now on calls have their limit: the start is over.
    pub fn begin(&self) {
        self.is_limited.store(true, Ordering::SeqCst);
    }

    // How many milliseconds a call may take.
    fn limit(&self) -> i32 {
        if self.is_limited.load(Ordering::SeqCst) {
            self.limit
        } else {
            MOST_SECONDS as i32 * 1_000
        }
    }

    /// Whether a call was left that has not returned.
    pub fn has_left(&self) -> bool {
        self.left.load(Ordering::SeqCst) != 0
    }

    // Takes a seat that nobody has.
    fn free_seat(&self) -> Option<&CallSeat> {
        self.seats.iter().find(|seat| seat.take())
    }

    // Takes a seat, once one is free, and says how many milliseconds are left for its call.
    fn take_seat(&self) -> io::Result<(&CallSeat, i32)> {
        let limit = self.limit();
        for waited in 0..limit {
            if self.has_left() {
                return Err(not_made());
            }
            if let Some(seat) = self.free_seat() {
                return Ok((seat, limit.saturating_sub(waited)));
            }
            sleep_a_millisecond();
        }
        Err(no_answer())
    }

    // Leaves the call of this seat, unless it has returned meanwhile. Whether it was left.
    fn leave(&self, seat: &CallSeat) -> bool {
        self.left.fetch_add(1, Ordering::SeqCst);
        if seat.leave() {
            return true;
        }
        self.left.fetch_sub(1, Ordering::SeqCst);
        false
    }

    // Has a call made, and waits for its answer as long as it may take.
    fn call(
        &self,
        file: &Arc<LateFile>,
        asked: Asked,
        at: u64,
        bytes: &[u8],
        into: &mut [u8],
    ) -> io::Result<u64>
        ensures { length into.new ≡ length into.old }
    {
        let theirs = Arc::try_clone(file)?;
        let (seat, time) = self.take_seat()?;
        if !seat.ask(theirs, asked, at, bytes) {
            return Err(io::Error::from(ErrorKind::Other));
        }
        if !seat.wait(time) && self.leave(seat) {
            return Err(no_answer());
        }
        seat.answer(into)
    }

    /// Reads bytes, and says how many it found: a region's at most.
    pub(crate) fn read(&self, file: &Arc<LateFile>, at: u64, into: &mut [u8]) -> io::Result<usize>
        ensures count { IfOk result (λ n. n ≤ length into.new) }
    {
        let found = self.call(file, Asked::Read(into.len()), at, &[], into)?;
        Ok((found as usize).min(into.len()))
    }

    /// Writes bytes, and says how many: a region's at most.
    pub(crate) fn write(&self, file: &Arc<LateFile>, at: u64, bytes: &[u8]) -> io::Result<usize> {
        let moved = self.call(file, Asked::Write(bytes.len()), at, bytes, &mut [])?;
        Ok(moved as usize)
    }

    /// Makes durable what was written.
    pub(crate) fn sync(&self, file: &Arc<LateFile>) -> io::Result<()> {
        self.call(file, Asked::Sync, 0, &[], &mut [])?;
        Ok(())
    }

    /// How many bytes the file has.
    pub(crate) fn count(&self, file: &Arc<LateFile>) -> io::Result<u64> {
        self.call(file, Asked::Length, 0, &[], &mut [])
    }

    /// Makes the file durable, and says when it was changed last: 0 where that is unknown.
    pub(crate) fn settled_time(&self, file: &Arc<LateFile>) -> u64 {
        self.call(file, Asked::Changed, 0, &[], &mut [])
            .unwrap_or(0)
    }

    /// Whether no data stand in these bytes. Where there is no answer in time, it is not known.
    pub(crate) fn has_hole(&self, file: &Arc<LateFile>, at: u64, many: usize) -> bool {
        matches!(self.call(file, Asked::Hole(many), at, &[], &mut []), Ok(1))
    }
}
