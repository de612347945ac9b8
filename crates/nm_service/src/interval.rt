ghost use Rattle.std.specs.Prelude.{◌≡◌, ◌↔◌, IsTrue, IsFalse, None, Some};
ghost use Rattle.nm_service.specs.Pacing.{IsDueAfter};

/// What is done at most once in so many units of time.
#[derive(Drop)]
pub struct Interval {
    length: u64,
    last: Option<u64>,
}

impl Interval {
    /// It was not done yet.
    pub fn new(length: u64) -> Interval
        ensures length { result.length ≡ length }
        ensures last { result.last ≡ None }
    {
        Interval { length, last: None }
    }

    /// Whether it is due at this time. Where it is, it counts as done.
    pub fn take(&mut self, now: u64) -> bool
        ensures due { IsTrue result ↔ IsDueAfter self.old.length self.old.last now }
        ensures done { IsTrue result → self.new.last ≡ Some now }
        ensures early { IsFalse result → self.new.last ≡ self.old.last }
        ensures length { self.new.length ≡ self.old.length }
    {
        let is_due = match self.last {
            None => true,
            Some(last) => now >= last && now - last >= self.length,
        };
        if is_due {
            self.last = Some(now);
        }
        is_due
    }
}
