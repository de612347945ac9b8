ghost use Rattle.std.specs.Prelude.{◌≡◌, ℕ, ◌+◌, ◌<◌};

/// Which of the calls to come fail. The next call is the first.
#[derive(Clone, Copy, PartialEq, Eq)]
pub enum Fuse {
    /// None of them.
    Never,
    /// The call of this number alone.
    Once(u64),
    /// The call of this number, and every one after it.
    From(u64),
}

impl Fuse {
    ghost use Rattle.nm_leg.specs.Fuse.{fails_at};

    /// Counts one call, and tells whether it fails.
    pub fn burn(&mut self) -> bool
        ensures now { result ≡ fails_at 1 self.old }
        ensures later { (call : ℕ) → 0 < call
            → fails_at call self.new ≡ fails_at (call + 1) self.old }
    {
        match *self {
            Fuse::Never => false,
            Fuse::Once(call) => {
                if call <= 1 {
                    *self = Fuse::Never;
                    return call == 1;
                }
                *self = Fuse::Once(call - 1);
                false
            }
            Fuse::From(call) => {
                if call <= 1 {
                    return true;
                }
                *self = Fuse::From(call - 1);
                false
            }
        }
    }
}
