//! What the server tells of itself.

use crate::elapsed::present_second;
use crate::save_status::SaveStatus;
use nm_commands::VERSION;
use std::alloc::AllocError;
use std::time::{Clock, Duration, Instant};

/// Since when the server serves, and how its superblocks stand.
#[derive(Drop)]
pub struct ServerInfo {
    // None where the clock could not be read.
    since: Option<Instant>,
    started: u64,
    saves: SaveStatus,
}

impl ServerInfo {
    /// A server that serves from now on. It has no superblocks so far.
    pub fn from_now<R: Clock>(rt: &R) -> ServerInfo {
        ServerInfo {
            since: Instant::now(rt).ok(),
            started: present_second(rt),
            saves: SaveStatus::none(),
        }
    }

    /// How the superblocks stand.
    pub fn saves(&self) -> &SaveStatus {
        &self.saves
    }

    /// The second in which it began, counted from 1970 on; 0 where the clock could not be read.
    pub fn started(&self) -> u64 {
        self.started
    }

    /// Puts a line that says how long it serves, one on its version and when it began, and one on
    /// its superblocks.
    pub fn put<R: Clock>(&self, rt: &R, text: &mut String) -> Result<(), AllocError> {
        let up = match self.since {
            Some(since) => since.elapsed(rt).unwrap_or(Duration::ZERO),
            None => Duration::ZERO,
        };
        let (seconds, started) = (up.as_secs(), self.started);
        writeln!(text, "serving: up {seconds} s")?;
        writeln!(text, "server: version {VERSION} started {started}")?;
        self.saves.put(text)
    }
}
