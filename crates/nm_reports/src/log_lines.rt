//! Log lines that no session waits for.

use crate::elapsed::milliseconds_since;
use crate::incidents::{Incident, Incidents};
use crate::log_form::LogForm;
use nm_replay::Memory;
use nm_service::{LineQueue, Severity};
use std::alloc::{AllocError, Global};
use std::io::Eprint;
use std::sync::{Arc, Condvar, Mutex, Wait};
use std::thread;
use std::thread::Threads;
use std::time::{Clock, Duration, Instant};

/// How many milliseconds the end of the server waits for the last lines.
const LAST_MILLISECONDS: u64 = 1_000;

/// How many incidents that were only counted are told at once, at most.
const MOST_INCIDENTS: usize = 16;

// A line that is not written yet.
#[derive(Drop)]
struct LogLine {
    severity: Severity,
    text: String,
}

// What the thread that writes lines does next.
#[derive(Drop)]
enum Next {
    Write(LogLine),
    TellLost(u64),
    End,
}

// The lines that wait, whether one is being written, and whether none is to come.
#[derive(Drop)]
struct Waiting {
    queue: LineQueue<LogLine>,
    is_writing: bool,
    is_closed: bool,
}

impl Waiting {
    // Whether the thread that writes has nothing to do.
    fn is_idle(&self) -> bool {
        self.queue.is_empty() && !self.is_closed
    }

    // What is to be done next. It counts as being written until this is called again.
    fn next(&mut self) -> Next {
        self.is_writing = true;
        if let Some(line) = self.queue.next() {
            return Next::Write(line);
        }
        let lost = self.queue.take_lost();
        if lost > 0 {
            return Next::TellLost(lost);
        }
        self.is_writing = false;
        Next::End
    }
}

/// The lines that a server's threads log. A thread of its own writes them: it alone waits where
/// standard error takes nothing. Lines that find no room meanwhile are lost, and counted.
#[derive(Drop)]
pub struct LogLines {
    alloc: Global,
    begun: Option<Instant>,
    waiting: Mutex<Waiting>,
    changed: Condvar,
    incidents: Mutex<Incidents>,
}

impl LogLines {
    /// No lines, with room for those that wait.
    fn new(alloc: Global, begun: Option<Instant>) -> Result<LogLines, AllocError> {
        Ok(LogLines {
            alloc,
            begun,
            waiting: Mutex::new(Waiting {
                queue: LineQueue::new(alloc)?,
                is_writing: false,
                is_closed: false,
            }),
            changed: Condvar::new(),
            incidents: Mutex::new(Incidents::new(alloc)?),
        })
    }

    /// No lines, and a thread that writes those that come, in this form, until the lines are
    /// closed.
    pub fn start<R>(rt: &R, alloc: Global, form: LogForm) -> Result<Arc<LogLines>, Memory>
    where
        R: Threads + Wait + Clock + Eprint + Copy + Send + 'static,
    {
        let Ok(lines) = LogLines::new(alloc, Instant::now(rt).ok()) else {
            return Err(Memory);
        };
        let Ok(lines) = Arc::new(alloc, lines) else {
            return Err(Memory);
        };
        let Ok(theirs) = Arc::try_clone(&lines) else {
            return Err(Memory);
        };
        let own = *rt;
        match thread::spawn(rt, move || write_lines(&own, &theirs, form)) {
            Ok(_) => Ok(lines),
            Err(_) => Err(Memory),
        }
    }

    // Takes a line, or counts it as lost.
    fn put<R: Wait>(&self, rt: &R, severity: Severity, text: Result<String, AllocError>) {
        let mut waiting = self.waiting.lock(rt);
        match text {
            Ok(text) => waiting.queue.put(LogLine { severity, text }),
            Err(_) => waiting.queue.lose(),
        }
        drop(waiting);
        self.changed.notify_all();
    }

    /// Takes a line that tells of progress.
    pub fn inform<R: Wait>(&self, rt: &R, text: Result<String, AllocError>) {
        self.put(rt, Severity::Info, text);
    }

    /// Takes a line that warns.
    pub fn warn<R: Wait>(&self, rt: &R, text: Result<String, AllocError>) {
        self.put(rt, Severity::Warning, text);
    }

    /// Takes a line on what may cost data.
    pub fn alert<R: Wait>(&self, rt: &R, text: Result<String, AllocError>) {
        self.put(rt, Severity::Error, text);
    }

    /// Takes a line that warns of an incident, unless the last one on such was taken too short a
    /// time ago: then it is counted.
    pub fn warn_of<R: Wait + Clock>(
        &self,
        rt: &R,
        incident: Incident,
        text: Result<String, AllocError>,
    ) {
        let Ok(text) = text else {
            return self.warn(rt, Err(AllocError));
        };
        let now = milliseconds_since(rt, &self.begun);
        let due = self.incidents.lock(rt).note(incident, now, text);
        if let Some(told) = due {
            self.warn(rt, told.line(self.alloc));
        }
    }

    /// Takes lines on the incidents that were only counted, where it is time for them.
    pub fn flush_incidents<R: Wait + Clock>(&self, rt: &R) {
        self.flush_until(rt, milliseconds_since(rt, &self.begun));
    }

    // Takes lines on the incidents that were only counted, where it is time for them by then.
    fn flush_until<R: Wait>(&self, rt: &R, now: u64) {
        for _ in 0..MOST_INCIDENTS {
            let due = self.incidents.lock(rt).flush(now);
            match due {
                Some(told) => self.warn(rt, told.line(self.alloc)),
                None => return,
            }
        }
    }

    // Waits for something to write, or the end.
    fn next<R: Wait>(&self, rt: &R) -> Next {
        let mut waiting = self.waiting.lock(rt);
        waiting.is_writing = false;
        self.changed.notify_all();
        let mut waiting = self
            .changed
            .wait_while(rt, waiting, |waiting| waiting.is_idle());
        waiting.next()
    }

    /// Ends the thread that writes, once the lines so far are written. Waits a second for that at
    /// most: where standard error takes nothing, they are lost.
    pub fn close<R: Wait + Clock>(&self, rt: &R) {
        self.flush_until(rt, u64::MAX);
        let mut waiting = self.waiting.lock(rt);
        waiting.is_closed = true;
        self.changed.notify_all();
        let within = Duration::from_millis(LAST_MILLISECONDS);
        let _ = self
            .changed
            .wait_timeout_while(rt, waiting, within, |waiting| {
                waiting.is_writing || !waiting.queue.is_empty()
            });
    }
}

// Writes the lines that come, until they are closed.
fn write_lines<R: Wait + Clock + Eprint>(rt: &R, lines: &LogLines, form: LogForm) {
    for _ in rt.forever() {
        let _ = match lines.next(rt) {
            Next::Write(LogLine { severity, text }) => {
                let stamp = form.stamp(rt, severity);
                eprintln!(rt; "{stamp}{text}")
            }
            Next::TellLost(count) => {
                let stamp = form.stamp(rt, Severity::Warning);
                eprintln!(rt; "{stamp}{count} lines were lost: standard error took no more")
            }
            Next::End => return,
        };
    }
}
