//! Whether the server is to end, and by when.

use std::sync::atomic::{AtomicBool, Ordering};
use std::sync::{Mutex, Wait};
use std::time::{Clock, Duration, Instant};

/// How the server was asked to end.
#[derive(Clone, Copy, Debug, PartialEq, Eq)]
pub enum Quit {
    /// Once its clients have left.
    WhenTheyLeave,
    /// As soon as its clients have left, or after so many seconds.
    Within(u64),
}

/// Whether the server is to end, and when it closes what is left of its clients.
#[derive(Drop)]
pub struct Ending {
    has_begun: AtomicBool,
    by: Mutex<Option<Instant>>,
}

impl Ending {
    /// The server goes on.
    pub fn new() -> Ending {
        Ending {
            has_begun: AtomicBool::new(false),
            by: Mutex::new(None),
        }
    }

    /// Has the server end. Of several times the earliest holds. Where the clock cannot be read,
    /// clients have the time that they want.
    pub fn begin<R: Wait + Clock>(&self, rt: &R, quit: Quit) {
        if let Quit::Within(seconds) = quit {
            let asked = match Instant::now(rt) {
                Ok(now) => now.checked_add(Duration::from_secs(seconds)),
                Err(_) => None,
            };
            let mut by = self.by.lock(rt);
            *by = match (*by, asked) {
                (Some(before), Some(asked)) => Some(before.min(asked)),
                (before, None) => before,
                (None, asked) => asked,
            };
        }
        self.has_begun.store(true, Ordering::SeqCst);
    }

    /// Whether the server is to end.
    pub fn has_begun(&self) -> bool {
        self.has_begun.load(Ordering::SeqCst)
    }

    /// Whether what is left of its clients is to be closed.
    pub fn is_due<R: Wait + Clock>(&self, rt: &R) -> bool {
        let by = *self.by.lock(rt);
        match (by, Instant::now(rt)) {
            (Some(by), Ok(now)) => by <= now,
            _ => false,
        }
    }
}
