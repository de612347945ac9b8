/// What was called of a mirror.
#[derive(Clone, Copy, Debug, PartialEq, Eq, Drop)]
pub enum CallKind {
    /// A read.
    Read,
    /// A write.
    Write,
    /// A write of zeroes.
    Zero,
    /// A sync of every leg of every stripe.
    Flush,
    /// A sync of every leg of the stripes that some bytes lie in.
    SyncTouched,
    /// A turn of the resynchroniser.
    ResyncTurn,
    /// A leg is taken out of every stripe.
    FailLeg,
    /// A leg joins every stripe again.
    AttachLeg,
}
