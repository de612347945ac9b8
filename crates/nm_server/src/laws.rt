//! What follows of the contracts of a session over a mirror. Each function does nothing: its
//! contract is the law.
ghost use Rattle.std.specs.Prelude.{ℕ, List};
ghost use Rattle.nm_book.specs.declared.rule.Entry.{Entry};
ghost use Rattle.nm_geometry.specs.Geometry.{Geometry};
ghost use Rattle.nm_history.specs.declared.transition.Noted.{Noted};
ghost use Rattle.nm_leg.specs.Leg.{leg_type};
ghost use Rattle.nm_server.specs.Later.{RepliesComeFirst};
ghost use Rattle.nm_server.specs.Replies.{ResultsAreOfTheirRequests, StandsInTheLog};
ghost use Rattle.nm_session.specs.CalledValue.{CalledValue};
ghost use Rattle.nm_workers.specs.Results.{IsResult};

use crate::mirror_calls::MirrorCalls;
use crate::mirror_log::MirrorLog;
use crate::mirror_target::NotingTarget;
use nm_lanes::Gate;
use nm_leg::LegPart;
use nm_mirror::Naming;
use nm_session::{SessionLog, Target};

/// What a request of a session over a mirror is answered with is what calls gave whose steps stand
/// in the mirror's log: behind the notes that the passes that did them had heard of the request's
/// arrival, and of nothing else since, and in what was told as the result was given.
pub fn results_stand_in_the_log<
    'a,
    L: LegPart + Send + 'a,
    G: Gate + Drop + 'a,
    J: Naming + Send + Sync + 'a,
    C: MirrorCalls<L, J> + Drop + 'a,
    H,
>()
    ensures { (session : ℕ) (called : CalledValue) (told : List (Entry (Noted L)))
        → IsResult ⟦<NotingTarget<'a, L, G, J, C, H> as Target>⟧
        ⟦<MirrorLog<'a, L, J> as SessionLog>⟧ session called told
        → (shape : Geometry) × (payload : List ℕ)
        × StandsInTheLog (leg_type L.model L.honest) shape session called payload told }
{
    nm_mirror::log_laws::heard_calls_come_first::<L>();
}

/// From where no request of a session is outstanding and nothing noted in its log, as in a new
/// session: what a request is answered with is what calls gave with this request's own payload, and
/// their steps stand in the mirror's log behind the notes that the passes that did them had heard
/// of the arrival of this request, and of nothing else since.
pub fn results_are_of_their_requests<
    'a,
    L: LegPart + Send + 'a,
    G: Gate + Drop + 'a,
    J: Naming + Send + Sync + 'a,
    C: MirrorCalls<L, J> + Drop + 'a,
    H,
>()
    ensures { (session : ℕ) → ResultsAreOfTheirRequests (leg_type L.model L.honest)
        ⟦<NotingTarget<'a, L, G, J, C, H> as Target>⟧ ⟦<MirrorLog<'a, L, J> as SessionLog>⟧
        (λ log. log.trail.all) session }
{
    nm_mirror::log_laws::heard_calls_come_first::<L>();
    nm_mirror::log_laws::arrivals_are_noted::<L>();
}

/// A client that has its reply before it sends another request has the two in that order in the
/// mirror's log: from where no request of a session is outstanding and nothing noted in its log,
/// all that was told as a request was answered stands, as a beginning of the log, before the
/// arrival of each request that is read after that, and so before each entry of its calls.
pub fn later_requests_stand_behind_replies<
    'a,
    L: LegPart + Send + 'a,
    G: Gate + Drop + 'a,
    J: Naming + Send + Sync + 'a,
    C: MirrorCalls<L, J> + Drop + 'a,
    H,
>()
    ensures { (session : ℕ) → RepliesComeFirst (leg_type L.model L.honest)
        ⟦<NotingTarget<'a, L, G, J, C, H> as Target>⟧ ⟦<MirrorLog<'a, L, J> as SessionLog>⟧
        (λ log. log.trail.all) session }
{
    nm_mirror::log_laws::heard_calls_come_first::<L>();
    nm_mirror::log_laws::arrivals_are_noted::<L>();
}
