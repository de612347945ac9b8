//! A session over several targets: the caller's thread, one that reads, and those of its workers.
ghost use Rattle.std.specs.Prelude.{◌≡◌, ◌≤◌, [], All, IfOk, IfErr, vec_len, true};
ghost use Rattle.nm_replies.specs.Sending.{device_of};
ghost use Rattle.nm_wire.specs.Export.{size_of};
ghost use Rattle.nm_workers.specs.Results.{IsNoted};
ghost use Rattle.nm_workers.specs.Serving.{io, left, Finishes, IsServed, IsBrokenOff};
ghost use Rattle.nm_mailbox.specs.Ends.{pieces_by, received_by, SendsTo};

use crate::dispatcher::{Dispatcher, SerialClient};
use crate::job::{Extent, JobResult};
use crate::negotiation::negotiate;
use crate::pool::{IdleWorkers, WorkerPool};
use crate::read_buffer::ReadBuffer;
use crate::reader::Reader;
use crate::requests::{AllServed, serve_requests};
use crate::round::Owner;
use crate::spin_wait::{BusyPoll, SpinToken, SpinWait, Unpolled};
use nm_mailbox::{Inbox, PieceEnd, mailbox};
use nm_replies::ReplyWriter;
use nm_session::{Limit, ServeFault, Served, SessionCore, SessionLog, Target, laws};
use nm_wire::sizes::MAX_PAYLOAD;
use nm_wire::{Export, Memory};
use std::alloc::Global;
use std::io::{Read, Write};
use std::marker::Brand;
use std::sync::Wait;
use std::thread::{self, Threads};

/// What the requests of a session act on.
#[derive(Drop)]
pub struct Backend<T: Target> {
    /// The targets, each of which is called for one request at a time.
    pub targets: Vec<T>,
    /// The session's log in their history.
    pub log: T::Log,
}

/// A session that is over, its writer and its log.
#[derive(Drop)]
pub struct Finished<O, G> {
    /// How it came to its end, or the fault that broke it off.
    pub result: Result<Served, ServeFault>,
    /// What its replies were written to.
    pub sender: ReplyWriter<O>,
    /// The log, in which its requests and their results were noted.
    pub log: G,
}

// How many bytes a read has room for while the client haggles.
const ROOM: usize = 128 * 1024;

// The end of a session's mailbox to which pieces are sent, the one that receives, and its workers.
type Prepared<E, T> = (
    PieceEnd<JobResult<E, T>>,
    Inbox<JobResult<E, T>>,
    IdleWorkers<E, T>,
);

// What is outstanding at most: 16 requests, whatever their length.
const LIMIT: Limit = Limit {
    requests: 16,
    bytes: 16 * MAX_PAYLOAD as usize,
};

/// Serves one client's session from the greeting to its end, up to 16 requests at once: each of the
/// targets, 1 to 16 of them with at least the export's bytes, is called by a thread of its own, and
/// short requests of a client that waits for each reply are done on the caller's.
///
/// Requests are replied to in the order in which they are done. No thread is started before the
/// haggling has ended, a target's once a request needs it, and none is left when it returns. It
/// waits for its reader, its writer and the calls of its targets as long as they wait.
pub fn serve_many<R, I, O, T>(
    rt: &R,
    alloc: Global,
    reader: I,
    sender: ReplyWriter<O>,
    backend: Backend<T>,
    export: Export,
) -> Finished<O, T::Log>
where
    R: Threads + Wait + Sync,
    I: Read + Send + Drop,
    O: Write + Drop,
    T: Target + Send + Drop,
    requires some { 1 ≤ vec_len backend.targets }
    requires few { vec_len backend.targets ≤ 16 }
    requires size { All (λ target. size_of export ≤ T.size target) backend.targets.items }
    ensures ok { IfOk result.result (λ served. IsServed
        (IsNoted T.Target T.Log.SessionLog (T.Log.session backend.log)) served export
        (io (I.remaining reader) (O.contents (device_of sender)) backend.log)
        (left (O.contents (device_of result.sender)) result.log)) }
    ensures err { IfErr result.result (λ fault. IsBrokenOff
        (IsNoted T.Target T.Log.SessionLog (T.Log.session backend.log)) fault export
        (io (I.remaining reader) (O.contents (device_of sender)) backend.log)
        (left (O.contents (device_of result.sender)) result.log)) }
{
    laws::so_far();
    let Ok(core) = SessionCore::new(alloc, export, LIMIT) else {
        return Finished {
            result: Err(ServeFault::Memory),
            sender,
            log: backend.log,
        };
    };
    serve_core(rt, alloc, core, reader, sender, backend)
}

// Serves the session of a new core.
fn serve_core<R, I, O, T>(
    rt: &R,
    alloc: Global,
    core: SessionCore,
    reader: I,
    sender: ReplyWriter<O>,
    backend: Backend<T>,
) -> Finished<O, T::Log>
where
    R: Threads + Wait + Sync,
    I: Read + Send + Drop,
    O: Write + Drop,
    T: Target + Send + Drop,
    requires idle { core.outstanding ≡ [] }
    requires some { 1 ≤ vec_len backend.targets }
    requires few { vec_len backend.targets ≤ 16 }
    requires size { All (λ target. size_of core.haggling.export ≤ T.size target)
        backend.targets.items }
    ensures ends { Finishes (IsNoted T.Target T.Log.SessionLog (T.Log.session backend.log))
        O.contents core (io (I.remaining reader) (O.contents (device_of sender)) backend.log)
        result }
{
    let (mut core, mut reader, mut sender) = (core, reader, sender);
    let Ok(mut room) = vec![in alloc; 0; ROOM] else {
        return Finished {
            result: Err(ServeFault::Memory),
            sender,
            log: backend.log,
        };
    };
    match negotiate(rt, alloc, &mut core, &mut room, &mut reader, &mut sender) {
        Ok(None) => {
            let reader = Unpolled(reader);
            transmit(rt, alloc, core, reader, sender, backend, &SpinToken::new())
        }
        Ok(Some(served)) => Finished {
            result: Ok(served),
            sender,
            log: backend.log,
        },
        Err(fault) => Finished {
            result: Err(fault),
            sender,
            log: backend.log,
        },
    }
}

/// Serves the requests of a session whose haggling has ended, up to its end, as `serve_many` does.
///
/// A program that does something between the two parts, as to clear a timeout, calls `negotiate`
/// and then this. Over no target the first request that needs one breaks the session off. Sessions
/// that share a token do not all spin at once.
pub fn transmit<R, I, O, T>(
    rt: &R,
    alloc: Global,
    core: SessionCore,
    reader: I,
    sender: ReplyWriter<O>,
    backend: Backend<T>,
    token: &SpinToken,
) -> Finished<O, T::Log>
where
    R: Threads + Wait + Sync,
    I: BusyPoll + Send + Drop,
    O: Write + Drop,
    T: Target + Send + Drop,
    requires size { All (λ target. size_of core.haggling.export ≤ T.size target)
        backend.targets.items }
    ensures ends { Finishes (IsNoted T.Target T.Log.SessionLog (T.Log.session backend.log))
        O.contents core (io (I.remaining reader) (O.contents (device_of sender)) backend.log)
        result }
{
    start_session::<Brand, R, I, O, T>(rt, alloc, core, reader, sender, backend, token)
}

// Serves the requests of a session whose haggling has ended.
pub(crate) fn start_session<E, R, I, O, T>(
    rt: &R,
    alloc: Global,
    core: SessionCore,
    reader: I,
    sender: ReplyWriter<O>,
    backend: Backend<T>,
    token: &SpinToken,
) -> Finished<O, T::Log>
where
    E: Extent + Send,
    R: Threads + Wait + Sync,
    I: BusyPoll + Send + Drop,
    O: Write + Drop,
    T: Target + Send + Drop,
    requires size { size_of core.haggling.export ≤ E.bytes }
    requires session { T.Log.session backend.log ≡ E.session }
    requires sizes { All (λ target. E.bytes ≤ T.size target) backend.targets.items }
    ensures ends { Finishes (IsNoted T.Target T.Log.SessionLog E.session)
        O.contents core (io (I.remaining reader) (O.contents (device_of sender)) backend.log)
        result }
{
    let Backend { targets, log } = backend;
    match prepare::<E, T>(alloc, targets) {
        Ok((pieces, inbox, idle)) => {
            let owner = Owner {
                core,
                log,
                inbox,
                sender,
            };
            run_scoped(rt, alloc, owner, idle, Reader::new(reader, pieces), token)
        }
        Err(_) => broken_off(sender, log),
    }
}

// The two ends of a session's mailbox, and a worker for each of its targets.
fn prepare<E: Extent, T: Target + Drop>(
    alloc: Global,
    targets: Vec<T>,
) -> Result<Prepared<E, T>, Memory>
    requires sizes { All (λ target. E.bytes ≤ T.size target) targets.items }
    ensures fresh { IfOk result (λ made.
        (pieces_by made.0 ≡ []) × (received_by made.1 ≡ []) × SendsTo made.0 made.1) }
{
    let (pieces, ends, inbox) = mailbox::<JobResult<E, T>>(alloc, targets.len())?;
    let idle = IdleWorkers::<E, T>::new(alloc, targets, ends)?;
    Ok((pieces, inbox, idle))
}

// Has the owner of the session's core serve it, with threads that end before it does.
fn run_scoped<E, R, I, O, T>(
    rt: &R,
    alloc: Global,
    owner: Owner<O, JobResult<E, T>, T::Log>,
    idle: IdleWorkers<E, T>,
    reader: Reader<I, JobResult<E, T>>,
    token: &SpinToken,
) -> Finished<O, T::Log>
where
    E: Extent + Send,
    R: Threads + Wait + Sync,
    I: BusyPoll + Send + Drop,
    O: Write + Drop,
    T: Target + Send + Drop,
    requires size { size_of owner.core.haggling.export ≤ E.bytes }
    requires session { T.Log.session owner.log ≡ E.session }
    requires fresh { (pieces_by reader.pieces ≡ []) × (received_by owner.inbox ≡ []) }
    requires is_open { reader.is_open ≡ true }
    requires channel { SendsTo reader.pieces owner.inbox }
    ensures ends { Finishes (IsNoted T.Target T.Log.SessionLog E.session)
        O.contents owner.core
        (io (I.remaining reader.source) (O.contents (device_of owner.sender)) owner.log)
        result }
{
    thread::scope(
        thread::scope_env(),
        rt,
        move |scope| -> Finished<O, T::Log>
            requires size { size_of owner.core.haggling.export ≤ E.bytes }
            requires session { T.Log.session owner.log ≡ E.session }
            requires fresh { (pieces_by reader.pieces ≡ []) × (received_by owner.inbox ≡ []) }
            requires is_open { reader.is_open ≡ true }
            requires channel { SendsTo reader.pieces owner.inbox }
            ensures ends { Finishes (IsNoted T.Target T.Log.SessionLog E.session)
                O.contents owner.core
                (io (I.remaining reader.source) (O.contents (device_of owner.sender)) owner.log)
                result }
        {
            let dispatcher = Dispatcher {
                pool: WorkerPool::new(scope, idle),
                buffer: ReadBuffer::new(alloc),
                spin_wait: SpinWait::new(token),
                client: SerialClient::new(),
            };
            run_session(rt, alloc, owner, dispatcher, reader)
        },
    )
}

// A session for which there is no memory, or no thread.
fn broken_off<O, G>(sender: ReplyWriter<O>, log: G) -> Finished<O, G>
    ensures result { result.result ≡ Err ServeFault.Memory }
    ensures sender { result.sender ≡ sender }
    ensures log { result.log ≡ log }
{
    Finished {
        result: Err(ServeFault::Memory),
        sender,
        log,
    }
}

// Has the owner of the session's core serve it to its end.
fn run_session<'s, S, E, R, I, O, T>(
    rt: &'s R,
    alloc: Global,
    owner: Owner<O, JobResult<E, T>, T::Log>,
    dispatcher: Dispatcher<'_, WorkerPool<'_, 's, S, E, T>>,
    reader: Reader<I, JobResult<E, T>>,
) -> Finished<O, T::Log>
where
    E: Extent + Send + 's,
    R: Threads + Wait + Sync + 's,
    I: BusyPoll + Send + Drop + 's,
    O: Write + Drop,
    T: Target + Send + Drop + 's,
    requires size { size_of owner.core.haggling.export ≤ E.bytes }
    requires session { T.Log.session owner.log ≡ E.session }
    requires fresh { (pieces_by reader.pieces ≡ []) × (received_by owner.inbox ≡ []) }
    requires is_open { reader.is_open ≡ true }
    requires channel { SendsTo reader.pieces owner.inbox }
    ensures ends { Finishes (IsNoted T.Target T.Log.SessionLog E.session)
        O.contents owner.core
        (io (I.remaining reader.source) (O.contents (device_of owner.sender)) owner.log)
        result }
{
    let mut owner = owner;
    let AllServed { result, reader } = serve_requests(rt, alloc, &mut owner, dispatcher, reader);
    let Owner {
        core: _,
        log,
        mut inbox,
        sender,
    } = owner;
    reader.pieces.settle(&mut inbox);
    Finished {
        result,
        sender,
        log,
    }
}
