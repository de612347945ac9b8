ghost use Rattle.std.specs.Prelude.{◌≡◌};
ghost use Rattle.nm_choice.specs.Choice.{is_in_sync};

/// How a leg stands in its stripe.
#[derive(Clone, Copy, Debug, PartialEq, Eq)]
pub enum LegState {
    /// It holds what the stripe's array has, except where a write is under way.
    InSync,
    /// It takes writes again, and is copied region by region.
    Joining,
    /// It failed, or was taken out, and gets no writes.
    Out,
}

impl LegState {
    /// Whether the leg is in sync.
    pub fn is_in_sync(&self) -> bool
        ensures { result ≡ is_in_sync self.now }
    {
        match self {
            LegState::InSync => true,
            LegState::Joining | LegState::Out => false,
        }
    }
}
