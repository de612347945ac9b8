use crate::call_error_kind::CallErrorKind;

/// Why a call of a mirror ended before its end: the answer of one stripe's step, or that the caller
/// was gone before zeroes of that stripe.
///
/// What the call did before stays done.
#[derive(Clone, Copy, Debug, PartialEq, Eq, Drop)]
pub struct CallError {
    /// The stripe's number.
    pub stripe: u32,
    /// What the step was answered, or `Gone`.
    pub kind: CallErrorKind,
}
