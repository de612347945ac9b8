/// A writer failed, or took no bytes.
#[derive(Clone, Copy, PartialEq, Eq)]
pub struct WriteError;
