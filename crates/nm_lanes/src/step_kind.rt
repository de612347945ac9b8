/// What kind of step a stripe was asked for.
#[derive(Clone, Copy, Debug, PartialEq, Eq, Drop)]
pub enum StepKind {
    /// A write begins.
    Begin,
    /// A write is pushed to a leg.
    Push,
    /// A finished write is claimed.
    Claim,
    /// A run of blocks is read.
    Read,
    /// A leg is taken out.
    Fail,
    /// A leg joins again.
    Attach,
    /// A leg is replaced by another.
    Replace,
    /// Blocks are copied to a joining leg, or half of that is done.
    Copy,
    /// A joining leg is called in sync.
    Promote,
    /// A leg is flushed.
    Flush,
}
