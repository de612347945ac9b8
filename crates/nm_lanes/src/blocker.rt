ghost use Rattle.std.specs.Prelude.{◌≡◌};
ghost use Rattle.nm_lanes.specs.Blockers.{blocker_of};
ghost use Rattle.nm_lanes.specs.Own.{claim_end_of, end_of, finds_out};

use crate::call_error_kind::CallErrorKind;
use nm_rules::Refusal;

/// What stands in a step's way, and can be helped on.
#[derive(Clone, Copy, Drop)]
pub(crate) enum Blocker {
    /// The write of this ticket, or the oldest one under way.
    Write(Option<u64>),
    /// The copy to this leg.
    Copy(u8),
    /// Nothing that could be helped on.
    Nothing,
}

impl Blocker {
    /// What stood in the way of a step that was refused so.
    pub(crate) fn of(refusal: Refusal) -> Self
        ensures { result ≡ blocker_of refusal }
    {
        match refusal {
            Refusal::Busy(ticket) => Blocker::Write(Some(ticket)),
            Refusal::Settling | Refusal::Full => Blocker::Write(None),
            Refusal::Copying(leg) | Refusal::OtherCopy(leg) => Blocker::Copy(leg),
            _ => Blocker::Nothing,
        }
    }
}

/// How a refusal ends a call, whatever step met it; none where the call can go on.
pub(crate) fn end_of(refusal: Refusal) -> Option<CallErrorKind>
    ensures end { result ≡ end_of refusal }
{
    match refusal {
        Refusal::Fault => Some(CallErrorKind::Fault),
        Refusal::Stopped => Some(CallErrorKind::Stopped),
        Refusal::Exhausted => Some(CallErrorKind::Exhausted),
        Refusal::Astray => Some(CallErrorKind::Astray),
        Refusal::SaveFailed => Some(CallErrorKind::SaveFailed),
        _ => None,
    }
}

/// Whether the refusal found the leg out.
pub(crate) fn finds_out(refusal: Refusal) -> bool
    ensures out { result ≡ finds_out refusal }
{
    matches!(refusal, Refusal::AlreadyOut)
}

/// How a refusal ends a call where a claim met it; none where the call can go on.
pub(crate) fn claim_end_of(refusal: Refusal) -> Option<CallErrorKind>
    ensures end { result ≡ claim_end_of refusal }
{
    match refusal {
        Refusal::NoTicket => Some(CallErrorKind::NoTicket),
        _ => end_of(refusal),
    }
}
