use crate::ended_by::EndedBy;

/// What a session does with the client's bytes.
#[derive(Clone, Copy)]
pub(crate) enum Stage {
    /// They are the haggling's.
    Haggling,
    /// They are requests.
    Serving,
    /// It takes no more of them.
    Ended(EndedBy),
}
