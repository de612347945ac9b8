/// Why the gate refuses a step. A refused step changes nothing.
#[derive(Clone, Copy, PartialEq, Eq)]
pub enum GateRefusal {
    /// A leg's new state is not saved yet.
    Unsaved,
    /// The span is not marked yet.
    Unmarked,
    /// A save could not be done.
    SaveFailed,
}
