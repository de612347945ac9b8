/// What ended a session that no fault broke off.
#[derive(Clone, Copy, PartialEq, Eq)]
pub enum End {
    /// The client sent DISC.
    Disc,
    /// The client sent ABORT while it haggled.
    Aborted,
    /// The client's bytes ended.
    EndOfInput,
    /// The client broke the protocol, or asked for an export that is not there by EXPORT_NAME.
    Protocol,
}
