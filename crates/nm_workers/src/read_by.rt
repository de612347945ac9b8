//! Who reads what the client sends: a thread, while the owner of the session's core waits for
//! messages; or the owner itself, while its client waits for each reply before it sends the next
//! request. To hand such requests on and to wait for their results would take longer than to do
//! them.
ghost use Rattle.std.specs.Prelude.{◌≡◌, IfOk, IfErr};
ghost use Rattle.nm_session.specs.declared.serve_fault.ServeFault.TheVariants.{Memory};
ghost use Rattle.nm_workers.specs.declared.round.ReadState.TheVariants.{Eof};
ghost use Rattle.nm_workers.specs.Moving.{HasNoRequest};
ghost use Rattle.nm_workers.specs.Reading.{IsIdleForOwner, ReadsFurther, reader_of};

use crate::dispatcher::Dispatcher;
use crate::permits::{PermitSender, ReadPermit};
use crate::reader::{AllRead, Reader, poll_and_read, start_reading};
use crate::round::{Lull, ReadState};
use crate::spin_wait::BusyPoll;
use nm_session::{ServeFault, SessionCore};
use std::alloc::Global;
use std::io::Read;
use std::sync::Wait;
use std::thread::{PromisedHandle, Scope, Threads};

// Who reads.
#[derive(Drop)]
pub enum ReadBy<I: Read, M: Drop> {
    // A thread, a piece for each permit. It gives the reader back.
    Thread(PermitSender, PromisedHandle<Reader<I, M>, AllRead<I, M>>),
    // The owner.
    Owner(Reader<I, M>),
}

impl<I: Read, M: Drop> ReadBy<I, M> {
    // Whether the owner reads.
    pub(crate) fn is_owner(&self) -> bool {
        match self {
            ReadBy::Thread(_, _) => false,
            ReadBy::Owner(_) => true,
        }
    }
}

// Has the owner read where a thread did, and a thread where the owner did. Where there is no memory
// or no thread for it, the reader comes back.
pub(crate) fn switch_reader<'s, S, R, I, M>(
    rt: &'s R,
    alloc: Global,
    scope: &Scope<'s, S>,
    by: ReadBy<I, M>,
) -> Result<ReadBy<I, M>, Reader<I, M>>
where
    R: Threads + Wait + Sync + 's,
    I: Read + Send + Drop + 's,
    M: Send + Drop + 's,
    ensures ok { IfOk result (λ next. ReadsFurther I.remaining (reader_of by) (reader_of next)) }
    ensures err { IfErr result (λ back. ReadsFurther I.remaining (reader_of by) back) }
{
    match by {
        ReadBy::Thread(permits, thread) => {
            drop(permits);
            Ok(ReadBy::Owner(thread.join(rt)))
        }
        ReadBy::Owner(reader) => match start_reading(rt, alloc, scope, reader) {
            Ok((permits, thread)) => Ok(ReadBy::Thread(permits, thread)),
            Err(back) => Err(back),
        },
    }
}

// The reader, once nothing reads any more.
pub(crate) fn into_reader<R: Threads, I: Read, M: Drop>(rt: &R, by: ReadBy<I, M>) -> Reader<I, M>
    ensures { ReadsFurther I.remaining (reader_of by) result }
{
    match by {
        ReadBy::Thread(permits, thread) => {
            drop(permits);
            thread.join(rt)
        }
        ReadBy::Owner(reader) => reader,
    }
}

// Permits the thread to read a piece, if one reads.
pub(crate) fn permit_piece<R: Wait, C, I: BusyPoll, M: Drop>(
    rt: &R,
    alloc: Global,
    core: &SessionCore,
    lull: Lull,
    dispatcher: &mut Dispatcher<'_, C>,
    by: &mut ReadBy<I, M>,
) -> Result<ReadState, ServeFault>
    requires why { HasNoRequest lull.why core.now }
    ensures ok { IfOk result (λ next. next ≡ Eof → lull.state ≡ Eof) }
    ensures memory { IfErr result (λ fault. fault ≡ Memory) }
    ensures reads { ReadsFurther I.remaining (reader_of by.old) (reader_of by.new) }
{
    match by {
        ReadBy::Thread(_, _) => read_next(rt, alloc, core, lull, dispatcher, by),
        ReadBy::Owner(_) => Ok(lull.state),
    }
}

// Reads a piece, if the owner reads and no request is outstanding: no reply waits for what the
// client sends.
pub(crate) fn read_piece_here<R: Wait, C, I: BusyPoll, M: Drop>(
    rt: &R,
    alloc: Global,
    core: &SessionCore,
    lull: Lull,
    dispatcher: &mut Dispatcher<'_, C>,
    by: &mut ReadBy<I, M>,
) -> Result<ReadState, ServeFault>
    requires why { HasNoRequest lull.why core.now }
    ensures ok { IfOk result (λ next. next ≡ Eof → lull.state ≡ Eof) }
    ensures memory { IfErr result (λ fault. fault ≡ Memory) }
    ensures reads { ReadsFurther I.remaining (reader_of by.old) (reader_of by.new) }
{
    match by {
        ReadBy::Thread(_, _) => Ok(lull.state),
        ReadBy::Owner(_) => {
            if !core.is_idle() {
                return Ok(lull.state);
            }
            read_next(rt, alloc, core, lull, dispatcher, by)
        }
    }
}

// Where no whole request is there, no piece is still to come and the client's bytes have not ended:
// gives the thread the permit to read a piece, or has the owner read one and send it to the
// mailbox, where it is received next.
fn read_next<R: Wait, C, I: BusyPoll, M: Drop>(
    rt: &R,
    alloc: Global,
    core: &SessionCore,
    lull: Lull,
    dispatcher: &mut Dispatcher<'_, C>,
    by: &mut ReadBy<I, M>,
) -> Result<ReadState, ServeFault>
    requires why { HasNoRequest lull.why core.now }
    requires idle { IsIdleForOwner by.old core.now }
    ensures ok { IfOk result (λ next. next ≡ Eof → lull.state ≡ Eof) }
    ensures memory { IfErr result (λ fault. fault ≡ Memory) }
    ensures reads { ReadsFurther I.remaining (reader_of by.old) (reader_of by.new) }
{
    match ReadPermit::next(alloc, core, lull, &mut dispatcher.buffer) {
        Ok(Some(permit)) => {
            let is_taken = match by {
                ReadBy::Thread(permits, _) => permits.send(rt, permit),
                ReadBy::Owner(reader) => {
                    poll_and_read(rt, &mut dispatcher.spin_wait, reader, permit);
                    true
                }
            };
            if is_taken {
                Ok(ReadState::Pending)
            } else {
                Err(ServeFault::Memory)
            }
        }
        Ok(None) => Ok(lull.state),
        Err(_) => Err(ServeFault::Memory),
    }
}
