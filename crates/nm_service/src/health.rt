ghost use Rattle.std.specs.Prelude.{◌≡◌, ◌<◌, ◌↔◌, false};
ghost use Rattle.nm_service.specs.Health.{grave, slight, word_of};
ghost use Rattle.nm_service.specs.declared.health.Health.TheVariants.{Good, Warning, Critical};

/// What is not well in a mirror: how many of each.
#[derive(Clone, Copy, PartialEq, Eq)]
pub struct Ailments {
    /// Stripes that have stopped.
    pub stopped: u64,
    /// Stripes in which a leg is out, leg by leg.
    pub out: u64,
    /// Regions that cannot be read from the last leg that has them.
    pub unread: u64,
    /// Places at which a read of the last leg in sync failed.
    pub failed_reads: u64,
    /// Regions that differ by a verification.
    pub differing: u64,
    /// Superblocks that cannot be written.
    pub unsaved: u64,
    /// Stripes in which a leg is being copied, leg by leg.
    pub copied: u64,
    /// Stripes that do not answer.
    pub busy: u64,
}

/// How well a mirror is, as a monitoring check says it.
#[derive(Clone, Copy, PartialEq, Eq)]
pub enum Health {
    /// Every leg is in sync, and nothing is known that is not well.
    Good,
    /// What is not well may end by itself.
    Warning,
    /// Somebody has to act.
    Critical,
}

impl Health {
    /// Its word.
    pub fn word(self) -> &'static str
        ensures { result.now ≡ word_of self }
    {
        match self {
            Health::Good => "OK",
            Health::Warning => "WARNING",
            Health::Critical => "CRITICAL",
        }
    }
}

impl Ailments {
    // Whether somebody has to act.
    fn is_grave(&self) -> bool
        ensures none { result ≡ false ↔ (grave self.now ≡ 0) }
    {
        let is_lost = self.stopped > 0 || self.out > 0 || self.unsaved > 0;
        is_lost || self.unread > 0 || self.failed_reads > 0 || self.differing > 0
    }

    /// How well a mirror is of which this is known: the worst of all counts.
    pub fn health(&self) -> Health
        ensures critical { result ≡ Critical ↔ 0 < grave self.now }
        ensures warning { result ≡ Warning ↔ (grave self.now ≡ 0) × (0 < slight self.now) }
        ensures good { result ≡ Good ↔ (grave self.now ≡ 0) × (slight self.now ≡ 0) }
    {
        if self.is_grave() {
            return Health::Critical;
        }
        if self.copied > 0 || self.busy > 0 {
            return Health::Warning;
        }
        Health::Good
    }
}
