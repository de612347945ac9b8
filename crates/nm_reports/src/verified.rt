//! What metrics tell of verifications.

/// What is known of the verifications so far.
#[derive(Clone, Copy)]
pub struct Verified {
    /// How many regions differ by them.
    pub differing: u64,
    /// How many seconds ago the last one ended, if one has.
    pub age: Option<u64>,
}
