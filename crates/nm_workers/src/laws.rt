//! Laws of the definitions: what they say of a session's replies, and of the arrivals in its log.
ghost use Rattle.std.specs.Prelude.{ℕ};
ghost use Rattle.nm_workers.specs.Laws.{AnswersWhatCame, AnswersOnce, ArrivalsRise};
ghost use Rattle.nm_workers.specs.Results.{IsNoted};

use nm_session::Target;

/// From where no request is outstanding on, as in a new session, each reply is to a request that
/// was read since, and whose arrival was noted in the log then, with its own payload.
pub fn answers_what_came<T: Target>()
    ensures { (session : ℕ) → AnswersWhatCame (IsNoted T.Target T.Log.SessionLog session) }
{}

/// No arrival is answered twice: a request that is read later has a larger index, and, from where
/// none is outstanding on, of each index there is one reply at most.
pub fn each_arrival_once<T: Target>()
    ensures arrivals { (session : ℕ) → ArrivalsRise (IsNoted T.Target T.Log.SessionLog session) }
    ensures answers { (session : ℕ) → AnswersOnce (IsNoted T.Target T.Log.SessionLog session) }
{
    nm_session::laws::answered_once();
}
