//! Where one thread makes calls of a leg's files for others.
ghost use Rattle.std.specs.Prelude.{◌≤◌, length, IfOk};

use crate::answer_bell::AnswerBell;
use crate::late_file::LateFile;
use nm_file_leg::BackingFile;
use std::alloc::{AllocError, Global};
use std::io;
use std::io::ErrorKind;
use std::sync::atomic::{AtomicU64, Ordering};
use std::sync::{Arc, Mutex, Wait};
use std::thread::Parker;

/// How many bytes a call moves at most: a region's.
const ROOM: usize = 64 << 10;

/// Nobody has the seat.
const FREE: u64 = 0;

/// Somebody has it, and has not asked yet.
const TAKEN: u64 = 1;

/// The thread is to make the call, or makes it.
const ASKED: u64 = 2;

/// The call has returned.
const ANSWERED: u64 = 3;

/// Who asked waits no longer, and the call has not returned.
const LEFT: u64 = 4;

/// A call of a file.
#[derive(Clone, Copy, PartialEq, Eq)]
pub(crate) enum Asked {
    /// A read of so many bytes.
    Read(usize),
    /// A write of so many bytes.
    Write(usize),
    /// A sync.
    Sync,
    /// The file's length.
    Length,
    /// Whether no data stand in so many bytes.
    Hole(usize),
    /// A sync, and the time of the file's last change.
    Changed,
}

// What a thread is asked for, and its answer. The bytes that a call moves stay here, where a call
// that was left may still write them.
#[derive(Drop)]
struct Work {
    file: Option<Arc<LateFile>>,
    asked: Asked,
    at: u64,
    room: Vec<u8>,
    answer: io::Result<u64>,
}

// The first bytes of a row, as many as it has of these.
fn first_bytes(bytes: &[u8], many: usize) -> &[u8] {
    match bytes.get(..many) {
        Some(own) => own,
        None => bytes,
    }
}

// The first bytes of a row that is written, as many as it has of these.
fn first_room(bytes: &mut [u8], many: usize) -> &mut [u8] {
    let many = many.min(bytes.len());
    &mut bytes[..many]
}

// Copies the bytes that both have.
fn copy_bytes(from: &[u8], into: &mut [u8]) -> usize
    ensures { result ≤ length into.new }
{
    let many = from.len().min(into.len());
    into[..many].copy_from_slice(&from[..many]);
    many
}

// Makes a call.
fn call(file: &LateFile, asked: Asked, at: u64, room: &mut [u8]) -> io::Result<u64> {
    match asked {
        Asked::Read(many) => {
            let found = file.read_bytes(at, first_room(room, many))?;
            Ok(found as u64)
        }
        Asked::Write(many) => {
            let moved = file.write_bytes(at, first_bytes(room, many))?;
            Ok(moved as u64)
        }
        Asked::Sync => {
            file.sync_bytes()?;
            Ok(0)
        }
        Asked::Length => file.count_bytes(),
        Asked::Hole(many) => Ok(u64::from(file.has_hole(at, many))),
        Asked::Changed => Ok(file.settled_time()),
    }
}

impl Work {
    // Nothing is asked for.
    fn new(alloc: Global) -> Result<Work, AllocError> {
        Ok(Work {
            file: None,
            asked: Asked::Sync,
            at: 0,
            room: vec![in alloc; 0; ROOM]?,
            answer: Ok(0),
        })
    }

    // Takes what is asked for.
    fn set(&mut self, file: Arc<LateFile>, asked: Asked, at: u64, bytes: &[u8]) {
        self.file = Some(file);
        self.asked = asked;
        self.at = at;
        copy_bytes(bytes, self.room.as_mut_slice());
    }

    // Makes the call that was asked for, and lets go of its file.
    fn run(&mut self) {
        let file = self.file.take();
        self.answer = match &file {
            Some(file) => call(file, self.asked, self.at, self.room.as_mut_slice()),
            None => Err(io::Error::from(ErrorKind::NotFound)),
        };
    }
}

/// Where one thread makes calls of a leg's files for others, one after the other.
#[derive(Drop)]
pub(crate) struct CallSeat {
    state: AtomicU64,
    // Only who has the seat locks it, and the thread once it is asked.
    work: Mutex<Work>,
    asked: Parker,
    answered: AnswerBell,
}

impl CallSeat {
    /// A seat that nobody has.
    pub(crate) fn new(alloc: Global) -> Result<CallSeat, AllocError> {
        Ok(CallSeat {
            state: AtomicU64::new(FREE),
            work: Mutex::new(Work::new(alloc)?),
            asked: Parker::new(),
            answered: AnswerBell::new()?,
        })
    }

    // Goes from one state to another, where it is in that. Whether it was.
    fn step(&self, from: u64, to: u64) -> bool {
        let state = &self.state;
        state
            .compare_exchange(from, to, Ordering::SeqCst, Ordering::SeqCst)
            .is_ok()
    }

    /// Takes the seat, if nobody has it.
    pub(crate) fn take(&self) -> bool {
        self.step(FREE, TAKEN)
    }

    /// Has the thread make a call for who has the seat. A write moves these bytes, as far as there
    /// is room. Whether it was asked; otherwise the seat is free again.
    pub(crate) fn ask(&self, file: Arc<LateFile>, asked: Asked, at: u64, bytes: &[u8]) -> bool {
        let Some(mut work) = self.work.try_lock() else {
            self.state.store(FREE, Ordering::SeqCst);
            return false;
        };
        work.set(file, asked, at, bytes);
        drop(work);
        self.state.store(ASKED, Ordering::SeqCst);
        self.asked.unpark();
        true
    }

    /// Waits for the answer, for at most so many milliseconds. Whether it came.
    pub(crate) fn wait(&self, milliseconds: i32) -> bool {
        self.answered.wait(milliseconds)
    }

    /// Leaves the call to the thread, unless it has returned. Whether it was left.
    pub(crate) fn leave(&self) -> bool {
        self.step(ASKED, LEFT)
    }

    /// The answer of a call that has returned, and the bytes that it found. The seat is free again.
    pub(crate) fn answer(&self, into: &mut [u8]) -> io::Result<u64> {
        self.answered.take();
        let answer = match self.work.try_lock() {
            Some(work) => {
                copy_bytes(&work.room, into);
                work.answer
            }
            None => Err(io::Error::from(ErrorKind::Other)),
        };
        self.state.store(FREE, Ordering::SeqCst);
        answer
    }

    // Makes the call that is asked for, if one is. Whether who asked had left it.
    fn serve_one<R: Wait>(&self, rt: &R) -> bool {
        if !matches!(self.state.load(Ordering::SeqCst), ASKED | LEFT) {
            return false;
        }
        self.work.lock(rt).run();
        if self.step(ASKED, ANSWERED) {
            self.answered.ring();
            return false;
        }
        self.state.store(FREE, Ordering::SeqCst);
        true
    }

    /// Makes calls as they are asked for, and takes those that were left off this count once they
    /// have returned.
    pub(crate) fn serve<R: Wait>(&self, rt: &R, left: &AtomicU64) {
        for _ in rt.forever() {
            self.asked.park(rt);
            if self.serve_one(rt) {
                left.fetch_sub(1, Ordering::SeqCst);
            }
        }
    }
}
