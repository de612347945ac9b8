ghost use Rattle.std.specs.Prelude.{◌≡◌, if◌then◌else◌};
ghost use Rattle.nm_session.specs.declared.ended_by.EndedBy.TheVariants as by;

/// What ended a session.
#[derive(Clone, Copy, PartialEq, Eq)]
pub enum EndedBy {
    /// The client's DISC.
    Disconnect,
    /// The client's ABORT, in the haggling.
    Abort,
    /// Bytes that are none of the protocol's, or an export name that is unknown.
    Protocol,
}

// What closed the haggling.
pub(crate) fn closed_by(aborted: bool) -> EndedBy
    ensures { result ≡ (if aborted then by.Abort else by.Protocol) }
{
    if aborted {
        EndedBy::Abort
    } else {
        EndedBy::Protocol
    }
}
