ghost use Rattle.std.specs.Prelude.{◌≡◌, ◌↔◌, IsTrue};
ghost use Rattle.nm_service.specs.Returning.{AreSpent, no_returns, returned};

/// How long a return counts, in milliseconds: a day.
const DAY: u64 = 86_400_000;

/// When a leg last came back by itself after reads of it had failed: three such returns are made in
/// a day.
#[derive(Drop)]
pub struct ReadReturns {
    last: Option<u64>,
    second: Option<u64>,
    third: Option<u64>,
}

impl ReadReturns {
    /// It did not come back so yet.
    pub fn new() -> ReadReturns
        ensures { result ≡ no_returns }
    {
        ReadReturns {
            last: None,
            second: None,
            third: None,
        }
    }

    /// Notes that it comes back so at this time, in milliseconds.
    pub fn note(&mut self, now: u64)
        ensures { self.new ≡ returned now self.old }
    {
        self.third = self.second;
        self.second = self.last;
        self.last = Some(now);
    }

    /// Whether it came back so three times in the day before this time.
    pub fn are_spent(&self, now: u64) -> bool
        ensures { IsTrue result ↔ AreSpent self.now now }
    {
        match self.third {
            None => false,
            Some(at) => now < at || now - at < DAY,
        }
    }
}
