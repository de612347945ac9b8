use crate::place::Place;

/// A hook between the steps of a mirror's calls, for tests that decide which step comes next.
pub trait Gate {
    /// Called after each step of every call. No lock is held.
    fn between(&self, place: &Place);
}

/// The gate that does nothing.
#[derive(Clone, Copy, Drop)]
pub struct NoGate;

impl Gate for NoGate {
    #[inline]
    fn between(&self, _place: &Place) {}
}
