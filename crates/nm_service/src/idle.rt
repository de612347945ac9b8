//! How long a session has been idle, and whether that is too long.
ghost use Rattle.std.specs.Prelude.{◌≡◌, ◌↔◌, IsTrue};
ghost use Rattle.nm_service.specs.Idle.{IsIdleFor, IsToClose, Looks};

/// What a session does, as it is seen at one look.
#[derive(Clone, Copy, PartialEq, Eq)]
pub struct SessionUse {
    /// When it was last at work.
    pub last: u64,
    /// How many of its requests are under way.
    pub under_way: u64,
}

impl SessionUse {
    /// How long it has been idle at this time: not at all while a request is under way.
    pub fn idle_for(&self, now: u64) -> u64
        ensures { IsIdleFor self.now now result }
    {
        if self.under_way > 0 {
            return 0;
        }
        now.saturating_sub(self.last)
    }

    /// Whether it is to be closed at this time: where there is a limit, it has no request under way
    /// and was last at work so long ago.
    pub fn is_to_close(&self, limit: Option<u64>, now: u64) -> bool
        ensures { IsTrue result ↔ IsToClose limit self.now now }
    {
        match limit {
            None => false,
            Some(limit) => { self.under_way == 0 && now >= self.last && now - self.last >= limit }
        }
    }
}

/// When a count was last seen to change, by looks now and then.
#[derive(Drop)]
pub struct LastChange {
    count: u64,
    at: u64,
}

impl LastChange {
    /// The count is this one, since this time.
    pub fn new(count: u64, now: u64) -> LastChange
        ensures count { result.count ≡ count }
        ensures at { result.at ≡ now }
    {
        LastChange { count, at: now }
    }

    /// Looks at the count at this time, and gives when it was last seen to change.
    pub fn look(&mut self, count: u64, now: u64) -> u64
        ensures { Looks self.old count now result self.new }
    {
        if count != self.count {
            self.count = count;
            self.at = now;
        }
        self.at
    }
}
