//! How log lines begin.

use jiff::Timestamp;
use nm_service::Severity;
use nm_system::is_journal;
use std::alloc::Global;
use std::fmt;
use std::fs::File;
use std::rt::{Env, Files};
use std::time::{Clock, Duration, SystemTime};

/// How log lines begin.
#[derive(Clone, Copy, PartialEq, Eq)]
pub enum LogForm {
    /// With their level, as the system's journal reads it.
    Journal,
    /// With the time, in UTC.
    Time,
}

/// What one line begins with.
#[derive(Clone, Copy, Drop)]
pub enum Stamp {
    /// The level.
    Level(Severity),
    /// The second.
    Time(Timestamp),
    /// Nothing, where the clock cannot be read.
    Nothing,
}

impl LogForm {
    /// How lines begin that go to standard error: with their level where that is the journal.
    pub fn of<R: Files<File = File> + Env>(rt: &R, alloc: Global) -> LogForm {
        if is_journal(rt, alloc) {
            LogForm::Journal
        } else {
            LogForm::Time
        }
    }

    /// What a line begins with that is written now.
    pub fn stamp<R: Clock>(self, rt: &R, severity: Severity) -> Stamp {
        match self {
            LogForm::Journal => Stamp::Level(severity),
            LogForm::Time => match second(rt) {
                Some(second) => Stamp::Time(second),
                None => Stamp::Nothing,
            },
        }
    }
}

// The present second.
fn second<R: Clock>(rt: &R) -> Option<Timestamp> {
    let now = SystemTime::now(rt).ok()?;
    let passed: Duration = now.duration_since(SystemTime::UNIX_EPOCH).ok()?;
    Timestamp::from_second(i64::try_from(passed.as_secs()).ok()?).ok()
}

impl fmt::Display for Stamp {
    fn fmt<W: fmt::Write>(&self, f: &mut fmt::Formatter<W>) -> fmt::Result {
        match self {
            Stamp::Level(severity) => f.write_str(severity.priority()),
            Stamp::Time(second) => write!(f, "{second} "),
            Stamp::Nothing => Ok(()),
        }
    }
}
