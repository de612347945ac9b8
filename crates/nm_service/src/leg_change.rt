ghost use Rattle.std.specs.Prelude.{◌≡◌, ◌↔◌, ◌<◌, IsTrue, false};
ghost use Rattle.nm_service.specs.Changes.{HasChanged, LacksNothing};

/// How a leg stands in the stripes of a mirror.
#[derive(Clone, Copy, PartialEq, Eq)]
pub struct LegSight {
    /// In how many stripes it is being copied.
    pub joining: u64,
    /// In how many stripes it is out.
    pub out: u64,
    /// How many blocks are left to copy to it.
    pub left: u64,
    /// In how many stripes it is the master.
    pub masters: u64,
    /// How many stripes have stopped since it failed as their last leg in sync.
    pub stopped: u64,
}

/// What has happened to a leg from one look to the next.
#[derive(Clone, Copy, PartialEq, Eq)]
pub struct LegChange {
    /// It is out in more stripes.
    pub goes_out: bool,
    /// More stripes have stopped with it.
    pub stops: bool,
    /// It is the master of more stripes.
    pub takes_over: bool,
    /// It is out in fewer stripes: it was attached.
    pub comes_back: bool,
    /// There is something to copy to it, and was not before.
    pub begins_copy: bool,
    /// It lacks nothing in any stripe, and did before.
    pub is_whole: bool,
}

impl LegSight {
    // Whether it lacks nothing in any stripe.
    fn lacks_nothing(&self) -> bool
        ensures { IsTrue result ↔ LacksNothing self.now }
    {
        self.out == 0 && self.joining == 0
    }

    /// What has happened since it stood so before.
    pub fn change_since(&self, before: &LegSight) -> LegChange
        ensures { HasChanged before.now self.now result }
    {
        LegChange {
            goes_out: before.out < self.out,
            stops: before.stopped < self.stopped,
            takes_over: before.masters < self.masters,
            comes_back: self.out < before.out,
            begins_copy: before.left == 0 && 0 < self.left,
            is_whole: !before.lacks_nothing() && self.lacks_nothing(),
        }
    }
}

impl LegChange {
    /// Whether anything has happened.
    pub fn is_some(&self) -> bool
        ensures none { result ≡ false → (self.now.goes_out ≡ false) × (self.now.stops ≡ false)
            × (self.now.takes_over ≡ false) × (self.now.comes_back ≡ false)
            × (self.now.begins_copy ≡ false) × (self.now.is_whole ≡ false) }
        ensures quiet { self.now.goes_out ≡ false → self.now.stops ≡ false
            → self.now.takes_over ≡ false → self.now.comes_back ≡ false
            → self.now.begins_copy ≡ false → self.now.is_whole ≡ false → result ≡ false }
    {
        let is_worse = self.goes_out || self.stops || self.takes_over;
        is_worse || self.comes_back || self.begins_copy || self.is_whole
    }
}
