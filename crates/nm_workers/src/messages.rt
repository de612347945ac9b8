//! Messages on their way from the session's threads to its core.
ghost use Rattle.std.specs.Prelude.{◌≡◌, ℕ, List, Option, IfOk, IfErr, OnOk};
ghost use Rattle.nm_mailbox.specs.Ends.{received_by, IsSameInbox};
ghost use Rattle.nm_workers.specs.Hearing.{Hears, IsCausedBy, Settles};
ghost use Rattle.nm_workers.specs.Results.{IsNoted, moment};
ghost use Rattle.nm_workers.specs.Moving.{owner_state, Moves, BreaksOff, IsKnown, IsLearned};
ghost use Rattle.nm_session.specs.declared.serve_fault.ServeFault.TheVariants.{Memory};

use crate::dispatcher::Dispatcher;
use crate::job::{Extent, JobResult};
use crate::read_buffer::ReadBuffer;
use crate::round::ReadState;
use nm_mailbox::{Inbox, Message, Piece};
use nm_session::{Refused, ServeFault, SessionCore, SessionLog, Target};
use std::alloc::Global;
use std::sync::Wait;

// How many messages a mailbox has room for.
const WAITING: usize = 32;

// From how many bytes of replies on they are sent before more outcomes are taken.
const GATHERED: usize = 64 * 1024;

// Whether the replies that wait are to be sent before more are made: that to a long READ goes out
// from the buffer that it was read into, and those that gathered with it.
pub(crate) fn are_to_be_sent(core: &SessionCore) -> bool {
    core.has_long_reply() || core.waiting() >= GATHERED
}

// Waits for a message, and takes it and those that wait by then, up to about 64 KiB of replies, or
// the reply to a long READ.
pub(crate) fn receive<R: Wait, C, E: Extent, T: Target + Drop>(
    rt: &R,
    alloc: Global,
    core: &mut SessionCore,
    log: &mut T::Log,
    inbox: &mut Inbox<JobResult<E, T>>,
    state: ReadState,
    dispatcher: &mut Dispatcher<'_, C>,
) -> Result<ReadState, ServeFault>
    requires known { IsKnown state (received_by inbox.old) }
    ensures ok { IfOk result (λ next. (output : Option (List ℕ))
        → Moves (IsNoted T.Target T.Log.SessionLog E.session)
        (owner_state (moment core.old log.old) (received_by inbox.old) output)
        (owner_state (moment core.new log.new) (received_by inbox.new) output)) }
    ensures known { IfOk result (λ next. IsKnown next (received_by inbox.new)) }
    ensures err { IfErr result (λ fault. (output : Option (List ℕ))
        → BreaksOff (IsNoted T.Target T.Log.SessionLog E.session) fault
        (owner_state (moment core.old log.old) (received_by inbox.old) output)
        (owner_state (moment core.new log.new) (received_by inbox.new) output)) }
    ensures channel { IsSameInbox inbox.new inbox.old }
{
    let Some(first) = dispatcher.spin_wait.wait(rt, inbox, core.under_way()) else {
        return Err(ServeFault::Read);
    };
    let mut state = match handle_message(alloc, core, log, first, state, &mut dispatcher.buffer) {
        Ok(state) => state,
        Err(fault) => return Err(fault),
    };
    'messages: for _ in 1..WAITING {
        if are_to_be_sent(core) {
            return Ok(state);
        }
        let Some(message) = inbox.try_recv(rt) else {
            return Ok(state);
        };
        match handle_message(alloc, core, log, message, state, &mut dispatcher.buffer) {
            Ok(next) => state = next,
            Err(fault) => return Err(fault),
        }
    }
    Ok(state)
}

// Has the core take the piece, and lets the room for the next one follow it, or answers a request
// with what came of its task. Gives what is known then of the client's bytes.
fn handle_message<E: Extent, T: Target>(
    alloc: Global,
    core: &mut SessionCore,
    log: &mut T::Log,
    message: Message<JobResult<E, T>>,
    state: ReadState,
    room: &mut ReadBuffer,
) -> Result<ReadState, ServeFault>
    ensures ok { IfOk result (λ next. Hears (IsNoted T.Target T.Log.SessionLog E.session)
        (moment core.old log.old) message (moment core.new log.new)) }
    ensures learned { IfOk result (λ next. IsLearned next state message) }
    ensures cause { IfErr result (λ fault. IsCausedBy fault message) }
    ensures err { IfErr result (λ fault. (core.new ≡ core.old) × (log.new ≡ log.old)) }
{
    match message {
        Message::Outcome(done) => match settle(alloc, core, log, done, room) {
            Ok(()) => Ok(state),
            Err(fault) => Err(fault),
        },
        Message::Piece(Piece::Bytes(bytes)) => {
            let mut piece = bytes;
            let count = piece.len();
            match core.take_piece(alloc, &mut piece) {
                Ok(()) => {
                    room.follow(alloc, count, piece);
                    Ok(ReadState::Idle)
                }
                Err(_) => Err(ServeFault::Memory),
            }
        }
        Message::Piece(Piece::Ended) => Ok(ReadState::Eof),
        Message::Piece(Piece::Failed) => Err(ServeFault::Read),
    }
}

// Answers the request with the result of its task, and keeps the room that came back with it.
pub(crate) fn settle<E: Extent, T: Target>(
    alloc: Global,
    core: &mut SessionCore,
    log: &mut T::Log,
    done: JobResult<E, T>,
    room: &mut ReadBuffer,
) -> Result<(), ServeFault>
    ensures ok { OnOk result (Settles (IsNoted T.Target T.Log.SessionLog E.session)
        (moment core.old log.old) done (moment core.new log.new)) }
    ensures memory { IfErr result (λ fault. fault ≡ Memory) }
    ensures err { IfErr result (λ fault. (core.new ≡ core.old) × (log.new ≡ log.old)) }
{
    let mut done = done;
    room.give_back(done.take_room());
    answer(alloc, core, log, done)
}

// Answers the request with the result of its task, and hears of the calls that gave it before the
// reply is sent. A request that is not outstanding stays as it is. The result of another task than
// the request's never comes; it would break the session off.
fn answer<E: Extent, T: Target>(
    alloc: Global,
    core: &mut SessionCore,
    log: &mut T::Log,
    done: JobResult<E, T>,
) -> Result<(), ServeFault>
    ensures ok { OnOk result (Settles (IsNoted T.Target T.Log.SessionLog E.session)
        (moment core.old log.old) done (moment core.new log.new)) }
    ensures memory { IfErr result (λ fault. fault ≡ Memory) }
    ensures err { IfErr result (λ fault. (core.new ≡ core.old) × (log.new ≡ log.old)) }
{
    let (called, told) = done.into_parts();
    let index = called.index();
    if !core.has_task(index, called.task()) {
        return Err(ServeFault::Memory);
    }
    match core.answer(alloc, index, called.into_outcome()) {
        Ok(()) => {
            log.hear(told);
            Ok(())
        }
        Err((Refused::Memory, _)) => Err(ServeFault::Memory),
        Err(_) => Ok(()),
    }
}
