use crate::next::Next;

/// How far a piece was taken, where its replies were appended to the caller's output.
#[derive(Clone, Copy, PartialEq, Eq)]
pub struct Step {
    /// How many bytes of the piece were used. The others are not the haggling's.
    pub used: usize,
    /// What comes next.
    pub next: Next,
}
