use crate::call_kind::CallKind;
use crate::step_kind::StepKind;

/// Where a call of a mirror stands: what step it has just done, and for whom.
#[derive(Clone, Copy, Drop)]
pub struct Place {
    /// The number of the pass; none where the call has none.
    pub pass: Option<u32>,
    /// What was called.
    pub call: CallKind,
    /// The stripe's number.
    pub stripe: u32,
    /// The first block of the run that the call is at, by its number in the stripe; none where the
    /// call reads and writes no block.
    pub block: Option<u64>,
    /// What kind of step was done.
    pub step: StepKind,
    /// The number of the first entry that the step was given, as the answer of a read or a claim.
    pub number: Option<u64>,
}
