//! What may happen again and again, so that not each time has a line.

use nm_service::Repeats;
use std::alloc::{AllocError, Global};

/// How many milliseconds pass at least from one line on an incident to the next.
const BETWEEN_MILLISECONDS: u64 = 1_000;

/// How many milliseconds pass at least from one line on refused clients to the next.
const REFUSED_MILLISECONDS: u64 = 60_000;

/// What may happen again and again.
#[derive(Clone, Copy, PartialEq, Eq)]
pub enum Incident {
    /// A session broke off.
    SessionFailed,
    /// A client found no free place.
    ClientRefused,
    /// A client's connection could not be taken.
    ClientNotAccepted,
    /// A connection of the control port could not be taken.
    ControlNotAccepted,
    /// A connection of the control port found no place.
    ControlDropped,
}

/// Each incident.
const ALL: [Incident; 5] = [
    Incident::SessionFailed,
    Incident::ClientRefused,
    Incident::ClientNotAccepted,
    Incident::ControlNotAccepted,
    Incident::ControlDropped,
];

/// A line that is to be told, and how many incidents it stands for.
#[derive(Drop)]
pub struct Told {
    /// What it says of the last one.
    pub text: String,
    /// How many there were since the last such line.
    pub count: u64,
}

impl Told {
    /// The line, with how many more there were.
    pub fn line(self, alloc: Global) -> Result<String, AllocError> {
        let Told { text, count } = self;
        if count <= 1 {
            return Ok(text);
        }
        let more = count - 1;
        format!(in alloc; "{text} (and {more} more since the last such line)")
    }
}

// How often one incident happened, and what is to be said of the last time, where it was not told.
#[derive(Drop)]
struct Series {
    of: Incident,
    repeats: Repeats,
    last: Option<String>,
}

impl Series {
    // It has not happened yet.
    fn new(of: Incident) -> Series {
        let between = match of {
            Incident::ClientRefused => REFUSED_MILLISECONDS,
            _ => BETWEEN_MILLISECONDS,
        };
        Series {
            of,
            repeats: Repeats::new(between),
            last: None,
        }
    }

    // Notes that it happens at this time, and gives what is to be told of it now.
    fn note(&mut self, now: u64, text: String) -> Option<Told> {
        match self.repeats.note(now) {
            Some(count) => {
                self.last = None;
                Some(Told { text, count })
            }
            None => {
                self.last = Some(text);
                None
            }
        }
    }

    // Gives what was not told, where it is time for a line.
    fn flush(&mut self, now: u64) -> Option<Told> {
        let count = self.repeats.flush(now)?;
        let text = self.last.take()?;
        Some(Told { text, count })
    }
}

/// What happened again and again, and is told in at most one line a second of each kind; refused
/// clients in one a minute.
#[derive(Drop)]
pub struct Incidents {
    series: Vec<Series>,
}

impl Incidents {
    /// Nothing has happened yet.
    pub fn new(alloc: Global) -> Result<Incidents, AllocError> {
        let mut series = Vec::new(alloc);
        for of in ALL {
            series.push(Series::new(of))?;
        }
        Ok(Incidents { series })
    }

    /// Notes an incident at this time, in milliseconds, and gives what is to be told now.
    pub fn note(&mut self, incident: Incident, now: u64, text: String) -> Option<Told> {
        for one in &mut self.series {
            if one.of == incident {
                return one.note(now, text);
            }
        }
        None
    }

    /// Gives something that was not told and is due at this time, if there is something.
    pub fn flush(&mut self, now: u64) -> Option<Told> {
        for one in &mut self.series {
            if let Some(told) = one.flush(now) {
                return Some(told);
            }
        }
        None
    }
}
