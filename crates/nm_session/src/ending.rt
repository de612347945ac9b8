//! What is told of a core that came to its end.
ghost use Rattle.std.specs.Prelude.{◌≡◌};
ghost use Rattle.nm_session.specs.Feeding.{IsEnded};
ghost use Rattle.nm_session.specs.Serving.{end_of, CoreEnds};

use crate::end::End;
use crate::ended_by::EndedBy;
use crate::served::Served;
use crate::session_core::SessionCore;

impl SessionCore {
    /// What is told of the session, which came to this end.
    pub fn report(&self, end: End) -> Served
        ensures { result ≡ record { requests = self.now.count; end = end } }
    {
        Served {
            requests: self.count(),
            end,
        }
    }

    /// What ended the session.
    pub fn end(&self) -> End
        requires { IsEnded self.now.stage }
        ensures { CoreEnds result self.now.stage }
    {
        let Some(by) = self.ended_by() else {
            unreachable!()
        };
        end_by(by)
    }
}

// What is told of what ended a core.
fn end_by(by: EndedBy) -> End
    ensures { result ≡ end_of by }
{
    match by {
        EndedBy::Disconnect => End::Disc,
        EndedBy::Abort => End::Aborted,
        EndedBy::Protocol => End::Protocol,
    }
}
