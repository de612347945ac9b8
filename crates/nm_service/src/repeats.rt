ghost use Rattle.std.specs.Prelude.{◌≡◌, None};
ghost use Rattle.nm_service.specs.Repeating.{Counts, Flushes};

use crate::interval::Interval;

/// What happens again and again, of which a line tells at most once in so many units of time.
#[derive(Drop)]
pub struct Repeats {
    untold: u64,
    pace: Interval,
}

impl Repeats {
    /// It has not happened yet.
    pub fn new(length: u64) -> Repeats
        ensures untold { result.untold ≡ 0 }
        ensures length { result.pace.length ≡ length }
        ensures last_told { result.pace.last ≡ None }
    {
        Repeats {
            untold: 0,
            pace: Interval::new(length),
        }
    }

    /// Counts that it happens at this time, and gives how many a line is to tell of, where one is
    /// due.
    pub fn note(&mut self, now: u64) -> Option<u64>
        ensures { Counts self.old now result self.new }
    {
        let untold = self.untold.saturating_add(1);
        if !self.pace.take(now) {
            self.untold = untold;
            return None;
        }
        self.untold = 0;
        Some(untold)
    }

    /// Gives how many a line is to tell of at this time, where some are not told and one is due.
    pub fn flush(&mut self, now: u64) -> Option<u64>
        ensures { Flushes self.old now result self.new }
    {
        let untold = self.untold;
        if untold == 0 || !self.pace.take(now) {
            return None;
        }
        self.untold = 0;
        Some(untold)
    }
}
