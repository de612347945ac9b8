//! How far a text is answered.
use crate::next::Next;
use crate::phase::Phase;

/// How far a text was answered.
#[derive(Clone, Copy)]
pub(crate) struct Progress {
    /// The bytes of all elements that were answered.
    pub(crate) used: usize,
    /// What comes next.
    pub(crate) next: Next,
    /// What the client is to send next.
    pub(crate) phase: Phase,
}
