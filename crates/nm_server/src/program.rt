//! The whole program: from its command line to its exit status.
ghost use Rattle.std.specs.Prelude.{◌≡◌};
ghost use Rattle.clap.specs.Values.{kind_of};
ghost use Rattle.nm_reports.specs.StartFault.{IsExitStatus, TellsFault};
ghost use Rattle.nm_reports.specs.StartFault.{status_of, status_of_words};

use crate::absent::tell_absent;
use crate::run::run;
use clap::Error;
use clap::error::ErrorKind;
use nm_commands::{Settings, settings, write_words};
use nm_leg_files::OpensLegs;
use nm_reports::{LogForm, LogLines, StartFault, put_fault, tell_reason};
use nm_starts::check_stack;
use nm_system::Limits;
use std::alloc::Global;
use std::convert::AsStr;
use std::fs::File;
use std::io;
use std::io::{Eprint, ErrorKind as IoErrorKind, Write};
use std::net::{Net, TcpListener, TcpStream};
use std::random::RandomSource;
use std::rt::{Env, Files};
use std::sync::Wait;
use std::thread::Threads;
use std::time::Clock;

// Tells why the server does not start or does not end well. What cannot be written is lost.
fn tell_fault<E: Write>(fault: &StartFault, err: &mut E) -> u8
    ensures status { result ≡ status_of fault.now }
    ensures fault { TellsFault result }
{
    let _ = writeln!(err, "{fault}");
    let _ = err.flush();
    fault.status()
}

// Tells the same, and before it which file or address is meant, and why it is refused.
fn tell_ended<P: OpensLegs, E: Write>(
    alloc: Global,
    opener: &P,
    settings: &Settings<'_>,
    fault: &StartFault,
    err: &mut E,
) -> u8
    ensures status { result ≡ status_of fault.now }
    ensures fault { TellsFault result }
{
    let _ = tell_reason(alloc, fault, settings, err);
    let _ = tell_absent(alloc, opener, fault, settings, err);
    put_fault(fault, settings, err);
    let _ = err.flush();
    fault.status()
}

// Writes what clap says, and returns the exit status. What cannot be written is lost.
fn tell_text<W: Write>(error: &Error, to: &mut W, status: u8) -> u8
    ensures { result ≡ status }
{
    let _ = write!(to, "{error}");
    let _ = to.flush();
    status
}

// Tells why the words are no command line, or what they ask for: the help and the version are no
// error.
fn tell_words<O: Write, E: Write>(error: &Error, out: &mut O, err: &mut E) -> u8
    ensures status { result ≡ status_of_words (kind_of error.now) }
    ensures exit { IsExitStatus result }
{
    match error.kind() {
        ErrorKind::OutOfMemory => tell_fault(&StartFault::Memory, err),
        ErrorKind::DisplayHelp | ErrorKind::DisplayVersion => tell_text(error, out, 0),
        _ => tell_text(error, err, 2),
    }
}

// The limits of the process, unless a thread would run out of its stack: this one too, in what
// reads the words.
fn limits_of<R: Files<File = File>>(rt: &R, alloc: Global) -> Result<Limits, StartFault> {
    let limits = Limits::read(rt, alloc)?;
    check_stack(&limits)?;
    Ok(limits)
}

// Whether the words ask for the table of the control port's words, which no help tells of.
fn ask_for_table<S: AsStr>(words: &[S]) -> bool {
    words.len() == 2 && words[1].as_str() == "--words"
}

/// Tells why the words of the command line could not be had, and returns the exit status.
pub fn refuse_words<E: Write>(error: &io::Error, err: &mut E) -> u8
    ensures { TellsFault result }
{
    if error.kind() == IoErrorKind::OutOfMemory {
        return tell_fault(&StartFault::Memory, err);
    }
    tell_fault(&StartFault::NotUtf8, err)
}

/// Runs the server that these words ask for, the first of them the program's name, and returns the
/// exit status. The thread that attaches legs again opens their files by `opener`.
///
/// 0 after a `quit`, or where the words ask for the help, the version, or by `--words` for those of
/// the control port, which `out` has then.
/// Otherwise `err` says why: status 2 for words that are no command line, 3 for
/// settings or legs that do not fit, 4 where it cannot listen, 5 out of memory, 6 where what the
/// stripes have had is not what the sessions counted, 7 where no master is named and the legs
/// differ, 8 after a `quit` where a stripe had stopped.
pub fn start<R, P: OpensLegs + Sync, S: AsStr, O: Write, E: Write>(
    rt: &R,
    alloc: Global,
    opener: &P,
    words: &[S],
    out: &mut O,
    err: &mut E,
) -> u8
where
    R: Threads
        + Wait
        + Sync
        + Copy
        + Send
        + Clock
        + Eprint
        + Env
        + RandomSource
        + Files<File = File>
        + Net<Listener = TcpListener, Stream = TcpStream>
        + 'static,
    ensures { IsExitStatus result }
{
    let limits = match limits_of(rt, alloc) {
        Ok(limits) => limits,
        Err(fault) => return tell_fault(&fault, err),
    };
    if ask_for_table(words) {
        let _ = write_words(out);
        return 0;
    }
    let mut settings = match settings(alloc, words) {
        Ok(settings) => settings,
        Err(error) => return tell_words(&error, out, err),
    };
    let Ok(lines) = LogLines::start(rt, alloc, LogForm::of(rt, alloc)) else {
        return tell_fault(&StartFault::Memory, err);
    };
    let ended = run(rt, alloc, opener, &mut settings, &limits, out, &lines);
    lines.close(rt);
    match ended {
        Ok(()) => 0,
        Err(fault) => tell_ended(alloc, opener, &settings, &fault, err),
    }
}
