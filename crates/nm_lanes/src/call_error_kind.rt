/// An answer that ends a call, or that its caller is gone.
#[derive(Clone, Copy, Debug, PartialEq, Eq, Drop)]
pub enum CallErrorKind {
    /// The only leg in sync failed: in a read, in a sync, or as a begin of a part or a copy read a
    /// block of it.
    Fault,
    /// The only leg in sync failed in a write, and the stripe has stopped.
    Halted,
    /// The stripe had stopped before.
    Stopped,
    /// All entry numbers are in use.
    Exhausted,
    /// The stripe is not the caller's, or the caller's count is full.
    Astray,
    /// The write's record is gone: somebody else has claimed it.
    NoTicket,
    /// The caller is gone: no step ended the call, but some of its zeroes are left to be written.
    Gone,
    /// A superblock could not be saved.
    SaveFailed,
}
