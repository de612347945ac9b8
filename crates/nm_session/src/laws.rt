//! Laws of the definitions: what the contracts of single calls say, they say of whole sessions.
ghost use Rattle.nm_session.specs.Laws.{SoFar, AnsweredOnce, NextReads, NextReadsOn};

/// However the client's bytes are cut into pieces, and in whatever order requests are answered:
/// the bytes that were taken and those that wait are the greeting, the haggling's replies and the
/// replies to the requests, in the order in which these were settled.
pub fn so_far()
    ensures { SoFar }
{
    nm_haggle::laws::goes_on();
    nm_haggle::laws::ends_there();
}

/// From where no request is outstanding on, as in a new session, none is answered twice.
pub fn answered_once()
    ensures { AnsweredOnce }
{}

/// What `next` does is that requests are read, whether it answers or runs out of memory; the other
/// calls are one event each.
pub fn next_reads()
    ensures answers { NextReads }
    ensures refuses { NextReadsOn }
{}
