//! What the control port answers before there is a mirror.

use crossbeam_channel::{Receiver, RecvTimeoutError};
use nm_commands::{Fed, LineRoom};
use nm_connections::{Listener, Stream, TimedStream};
use nm_reports::Comparison;
use std::alloc::Global;
use std::cell::Cell;
use std::io;
use std::io::{Read, Write};
use std::sync::Wait;
use std::time::{Clock, Duration, Instant};

/// How many seconds a connection has for a line and its answer: the next one waits meanwhile.
const LINE_SECONDS: u64 = 1;

/// How many milliseconds pass from one look for a connection to the next.
const BETWEEN_LOOKS_MILLISECONDS: u64 = 20;

/// How many bytes of a connection are read at once.
const ROOM: usize = 256;

// Whether these bytes bring the line to its end; none where it is too long.
fn ends_line(room: &mut LineRoom, bytes: &[u8]) -> Option<bool> {
    for byte in bytes {
        match room.feed(*byte) {
            Fed::More => (),
            Fed::Whole => return Some(true),
            Fed::TooLong => return None,
        }
    }
    Some(false)
}

// Whether a connection sends a line.
fn has_line<R: Wait, I: Read>(rt: &R, reader: &mut I) -> bool {
    let mut room = LineRoom::new();
    let mut piece = [0u8; ROOM];
    for _ in rt.forever() {
        let Ok(count) = reader.read(&mut piece) else {
            return false;
        };
        if count == 0 {
            return false;
        }
        match ends_line(&mut room, &piece[..count]) {
            Some(false) => (),
            Some(true) => return true,
            None => return false,
        }
    }
    unreachable!()
}

// Answers the first line of a connection, whatever it is, by how far the comparison is.
fn answer<R: Wait + Clock>(
    rt: &R,
    alloc: Global,
    stream: &Stream,
    comparison: &Comparison<'_>,
) -> io::Result<()> {
    let begun = Cell::new(Instant::now(rt)?);
    let within = Duration::from_secs(LINE_SECONDS);
    if !has_line(rt, &mut TimedStream::new(rt, stream, &begun, within)) {
        return Ok(());
    }
    let percent = comparison.percent();
    let text = format!(in alloc; "starting: comparing {percent} %\n")?;
    TimedStream::new(rt, stream, &begun, within).write_all(text.as_bytes())
}

/// Answers a line of each connection of the control port by how far the comparison is, until that
/// has ended: then the sender is gone.
pub fn answer_meanwhile<R: Wait + Clock>(
    rt: &R,
    alloc: Global,
    control: &Listener,
    ended: &Receiver<()>,
    comparison: &Comparison<'_>,
) {
    if control.set_nonblocking(true).is_err() {
        return;
    }
    for _ in rt.forever() {
        let Err(RecvTimeoutError::Timeout) = ended.recv_timeout(
            rt,
            Duration::from_millis(BETWEEN_LOOKS_MILLISECONDS),
        ) else {
            break;
        };
        if let Ok((stream, _)) = control.accept() {
            let _ = answer(rt, alloc, &stream, comparison);
        }
    }
    let _ = control.set_nonblocking(false);
}
