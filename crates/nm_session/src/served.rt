use crate::end::End;

/// A session that came to its end.
#[derive(Clone, Copy, PartialEq, Eq)]
pub struct Served {
    /// How many requests were read; a DISC counts.
    pub requests: u64,
    /// What ended it.
    pub end: End,
}
