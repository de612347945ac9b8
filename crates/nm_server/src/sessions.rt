//! Sessions: who takes clients, who serves them.
ghost use Rattle.std.specs.Prelude.{◌≡◌, ◌*◌, ◌≤◌, ◌^◌, ◌↔◌, [], length, map, true, All};
ghost use Rattle.std.specs.Prelude.{IsSome, IfSome, IfOk, IfErr};
ghost use Rattle.nm_server.specs.Handshake.{HasNegotiated};
ghost use Rattle.nm_session.specs.declared.serve_fault.ServeFault.TheVariants.{Memory};
ghost use Rattle.nm_wire.specs.Export.{size_of};

use crate::counted_calls::CountedCalls;
use crate::file_calls::FileCalls;
use crate::log_ends::LogEnds;
use crate::mirror_calls::MirrorCalls;
use crate::mirror_log::MirrorLog;
use crate::mirror_target::MirrorTarget;
use nm_connections::{
    ClientReader, ClientStream, ClientWriter, Ending, HangUp, Peer, SessionEnd, SessionPlaces,
    Shared, Stream, TimedStream, tell_begin, tell_end,
};
use nm_lanes::Gate;
use nm_leg::LegPart;
use nm_leg_files::{FileMirror, Leg, LegSyncs};
use nm_mirror::{LogTold, Mirror, Naming, Pass};
use nm_replies::ReplyWriter;
use nm_reports::Incident;
use nm_session::{Limit, ServeFault, Served, SessionCore, SessionLog};
use nm_wire::{Export, Name};
use nm_workers::{Backend, negotiate, transmit};
use std::alloc::Global;
use std::cell::Cell;
use std::net::Shutdown;
use std::sync::Wait;
use std::thread::Threads;
use std::time::{Clock, Duration, Instant};
use std::{io, thread};

/// How many requests of a session are served at once: each goes through a pass of its own.
pub const AT_ONCE: usize = 16;

/// How many bytes of a handshake are read at once.
const ROOM: usize = 4096;

/// How many seconds a handshake may take.
const HANDSHAKE_SECONDS: u64 = 30;

/// How many milliseconds pass after an accept that failed.
const AFTER_FAILURE_MILLISECONDS: u64 = 100;

/// How many milliseconds pass from one look at the time of a `quit` to the next.
const BETWEEN_LOOKS_MILLISECONDS: u64 = 100;

/// The export as each session is told of it.
#[derive(Drop)]
pub struct ExportName<'a> {
    name: &'a str,
    read_only: bool,
    ghost short_name: { length name.now ≤ 255 },
}

impl<'a> ExportName<'a> {
    /// An export of this name, where it has 1 to 255 bytes.
    pub fn new(name: &'a str, read_only: bool) -> Option<Self>
        ensures some { IsSome result ↔ ((1 ≤ length name.now) × (length name.now ≤ 255)) }
        ensures named { IfSome result (λ named.
            (named.name.now ≡ name.now) × (named.read_only ≡ read_only)) }
    {
        if name.is_empty() || name.len() > 255 {
            return None;
        }
        Some(ExportName { name, read_only })
    }

    /// The name by which clients ask for it.
    pub fn name(&self) -> &'a str
        ensures { result.now ≡ self.now.name.now }
    {
        self.name
    }
}

/// What sessions serve.
#[derive(Drop)]
pub struct ServedExport<'x, 'n, J: Naming> {
    /// The export as each session is told of it.
    pub named: &'x ExportName<'n>,
    /// The mirror behind it.
    pub mirror: &'x FileMirror<J>,
    /// Who syncs its legs' files ahead of a flush.
    pub syncs: &'x LegSyncs,
}

// The export for one session.
fn export_of(alloc: Global, named: &ExportName<'_>, blocks: u64) -> Option<Export>
    requires { blocks ≤ 2 ^ 31 }
    ensures named { IfSome result (λ export. export.name ≡ named.now.name.now) }
    ensures blocks { IfSome result (λ export. export.blocks ≡ blocks) }
    ensures read_only { IfSome result (λ export. export.read_only ≡ named.now.read_only) }
{
    let mut name = Vec::new(alloc);
    name.extend_from_slice(named.name.as_bytes()).ok()?;
    Some(Export {
        name: Name::new(name),
        blocks,
        read_only: named.read_only,
    })
}

// Has reads and writes of the stream wait for as long as they must.
fn lift_limits(stream: &Stream) {
    let _ = stream.set_read_timeout(None);
    let _ = stream.set_write_timeout(None);
}

// Negotiates with a client within its time, and tells whether requests follow. After it no limit
// stands.
fn negotiate_in_time<R: Wait + Clock>(
    rt: &R,
    alloc: Global,
    stream: &Stream,
    core: &mut SessionCore,
) -> Result<bool, ServeFault>
    requires idle { core.old.outstanding ≡ [] }
    ensures negotiated { IfOk result (λ goes_on. HasNegotiated goes_on core.old core.new) }
    ensures export { IfOk result (λ goes_on. goes_on ≡ true
        → core.new.haggling.export ≡ core.old.haggling.export) }
{
    let within = Duration::from_secs(HANDSHAKE_SECONDS);
    let Ok(mut room) = vec![in alloc; 0; ROOM] else {
        return Err(ServeFault::Memory);
    };
    let Ok(begun) = Instant::now(rt) else {
        return Err(ServeFault::Read);
    };
    let begun = Cell::new(begun);
    let mut reader = TimedStream::new(rt, stream, &begun, within);
    let mut sender = ReplyWriter::new(TimedStream::new(rt, stream, &begun, within));
    match negotiate(rt, alloc, core, &mut room, &mut reader, &mut sender) {
        Ok(None) => {
            lift_limits(stream);
            Ok(true)
        }
        Ok(Some(_)) => Ok(false),
        Err(fault) => Err(fault),
    }
}

// The mirror as a target through each of the passes. The first of them that ends, once the session
// asks for nothing more, ends the read under way.
//
// A pass of another shape, which the mirror itself never makes, is told as memory that is refused.
fn targets_of<'a, L: LegPart, J: Naming, C: MirrorCalls<L, J> + Drop, M, D, K>(
    alloc: Global,
    mirror: &'a C,
    log: &'a M,
    passes: &'a mut [Pass<L, J>],
    client: &'a ClientStream,
) -> Result<Vec<MirrorTarget<'a, L, J, C, M, HangUp<'a>, D, K>>, ServeFault>
    ensures mirror { IfOk result (λ targets.
        All (λ target. target.mirror.now ≡ mirror.now) targets.items) }
    ensures passes { IfOk result (λ targets.
        map (λ target. target.pass.now) targets.items ≡ passes.old) }
    ensures memory { IfErr result (λ fault. fault ≡ Memory) }
{
    let mut targets = Vec::new(alloc);
    'passes: for pass in passes.iter_mut() {
        let hang_up = HangUp {
            stream: &client.stream,
        };
        let is_gone = Some(client.is_gone());
        let Some(target) = MirrorTarget::new(mirror, log, pass, is_gone, hang_up) else {
            return Err(ServeFault::Memory);
        };
        if targets.push(target).is_err() {
            return Err(ServeFault::Memory);
        }
    }
    Ok(targets)
}

// What a session is served with: its client, the mirror's calls and log, the passes that its
// requests take, and the places, which tell when sessions are to end.
#[derive(Drop)]
struct SessionNeeds<'a, L: LegPart, J: Naming, C, M> {
    alloc: Global,
    client: &'a ClientStream,
    mirror: &'a C,
    log: &'a M,
    passes: &'a mut [Pass<L, J>],
    places: &'a SessionPlaces,
}

// Answers a client's requests until it asks for nothing more. The session's place in the log is of
// any type, as is what is told there.
fn answer_noting<
    R,
    L: LegPart + Send,
    J: Naming + Send + Sync,
    C: MirrorCalls<L, J> + Sync + Drop,
    M: LogEnds<L, J, D> + Sync,
    D: Send + Drop,
    K: SessionLog<Told = D> + Send + Drop,
>(
    rt: &R,
    needs: SessionNeeds<'_, L, J, C, M>,
    core: SessionCore,
    own: K,
) -> Result<Served, ServeFault>
where
    R: Threads + Wait + Sync,
    requires size { size_of core.haggling.export ≤ 512 * (C.shape needs.mirror.now).blocks }
{
    let SessionNeeds {
        alloc,
        client,
        mirror,
        log,
        passes,
        places,
    } = needs;
    let backend = Backend {
        targets: targets_of(alloc, mirror, log, passes, client)?,
        log: own,
    };
    let reader = ClientReader::new(client, places.is_over());
    let sender = ReplyWriter::new(ClientWriter::new(client));
    let lookout = places.lookout();
    transmit(rt, alloc, core, reader, sender, backend, lookout).result
}

// Answers a client's requests until it asks for nothing more, each noted in the mirror's log.
fn answer_requests<
    R,
    L: LegPart + Send,
    G: Gate + Sync + Drop,
    J: Naming + Send + Sync,
    C: MirrorCalls<L, J> + Sync + Drop,
>(
    rt: &R,
    needs: SessionNeeds<'_, L, J, C, Mirror<L, G, J>>,
    core: SessionCore,
) -> Result<Served, ServeFault>
where
    R: Threads + Wait + Sync,
    requires size { size_of core.haggling.export ≤ 512 * (C.shape needs.mirror.now).blocks }
{
    let log = needs.log;
    let own = MirrorLog::new(rt, log);
    answer_noting::<R, L, J, C, Mirror<L, G, J>, LogTold<L, J>, MirrorLog<'_, L, J>>(
        rt, needs, core, own,
    )
}

// The core of a session that has not begun, with the export of a mirror of so many blocks.
fn core_of(alloc: Global, named: &ExportName<'_>, blocks: u64, bytes: usize) -> Option<SessionCore>
    requires { blocks ≤ 2 ^ 31 }
    ensures idle { IfSome result (λ core. core.outstanding ≡ []) }
    ensures blocks { IfSome result (λ core. core.haggling.export.blocks ≡ blocks) }
{
    let export = export_of(alloc, named, blocks)?;
    let limit = Limit {
        requests: AT_ONCE,
        bytes,
    };
    match SessionCore::new(alloc, export, limit) {
        Ok(core) => Some(core),
        Err(_) => None,
    }
}

// Serves one client from its greeting to its end.
fn serve_client<R: Threads + Wait + Sync + Copy + Clock, J: Naming + Send + Sync>(
    rt: &R,
    client: &ClientStream,
    export: &ServedExport<'_, '_, J>,
    passes: &mut [Pass<Leg, J>],
    shared: &Shared<'_>,
    place: usize,
) -> Result<SessionEnd, ServeFault> {
    let (alloc, places, metrics) = (shared.alloc, &shared.state.places, &shared.state.metrics);
    let _ = client.stream.set_nodelay();
    let blocks = export.mirror.shape().blocks;
    let Some(mut core) = core_of(alloc, export.named, blocks, places.reply_bytes()) else {
        return Err(ServeFault::Memory);
    };
    if !negotiate_in_time(rt, alloc, &client.stream, &mut core)? {
        return Ok(SessionEnd::InHandshake);
    }
    client.activity.note_negotiated();
    let calls = CountedCalls {
        calls: FileCalls {
            rt,
            alloc,
            mirror: export.mirror,
            syncs: export.syncs,
            metrics,
            place,
            places,
        },
        activity: &client.activity,
    };
    let needs = SessionNeeds {
        alloc,
        client,
        mirror: &calls,
        log: export.mirror,
        passes,
        places,
    };
    let served = answer_requests(rt, needs, core)?;
    Ok(SessionEnd::By(served.end))
}

/// Serves the clients that get the place of this number, one after the other, until the places are
/// closed. Their requests take the passes, as many at once as there are.
///
/// A client's place is free again before its connection is closed.
pub fn serve_place<R, J: Naming + Send + Sync>(
    rt: &R,
    shared: &Shared<'_>,
    number: usize,
    export: &ServedExport<'_, '_, J>,
    passes: &mut [Pass<Leg, J>],
)
where
    R: Threads + Wait + Sync + Copy + Clock,
{
    let (places, metrics) = (&shared.state.places, &shared.state.metrics);
    for _ in rt.forever() {
        let Some(client) = places.take(rt, number) else {
            return;
        };
        if places.is_verbose() {
            tell_begin(rt, shared, &client);
        }
        metrics.begin_session();
        let ended = serve_client(rt, &client, export, passes, shared, number);
        metrics.end_session(ended.is_ok());
        let closing = places.free(rt, number);
        tell_end(rt, shared, &client, ended, closing);
        let _ = client.stream.shutdown(Shutdown::Write);
    }
}

// Gives a connection a place, or warns that all are taken.
fn seat<R: Wait + Clock>(rt: &R, shared: &Shared<'_>, stream: Stream, address: Peer) {
    let (alloc, state) = (shared.alloc, shared.state);
    if state.places.offer(rt, ClientStream::new(stream, address)) {
        return;
    }
    state.metrics.refuse_client();
    let count = state.places.count();
    let text = format!(in alloc;
        "client {address}: refused: all {count} places are taken (--sessions)"
    );
    shared.lines.warn_of(rt, Incident::ClientRefused, text);
}

// Warns that a connection could not be taken, and pauses.
fn tell_not_taken<R: Wait + Clock>(rt: &R, shared: &Shared<'_>, error: io::Error) {
    let alloc = shared.alloc;
    let text = format!(in alloc; "a client's connection could not be taken: {error}");
    shared.lines.warn_of(rt, Incident::ClientNotAccepted, text);
    thread::sleep(rt, Duration::from_millis(AFTER_FAILURE_MILLISECONDS));
}

/// Takes connections and gives them places, until the server ends.
///
/// An accept that fails, as where there are no descriptors left, ends nothing: the next comes after
/// a pause.
pub fn take_clients<R: Wait + Clock>(rt: &R, shared: &Shared<'_>) {
    for _ in rt.forever() {
        let accepted = shared.clients.accept();
        if shared.state.ending.has_begun() {
            return;
        }
        match accepted {
            Ok((stream, address)) => seat(rt, shared, stream, address),
            Err(error) => tell_not_taken(rt, shared, error),
        }
    }
}

/// Waits until the sessions have ended, or closes those that are left once their time is over.
/// Looks for clients that have gone or are idle meanwhile.
pub fn see_off<R: Wait + Clock>(rt: &R, places: &SessionPlaces, ending: &Ending) {
    for _ in rt.forever() {
        if ending.is_due(rt) {
            places.hang_up(rt);
            return;
        }
        places.look(rt);
        let within = Duration::from_millis(BETWEEN_LOOKS_MILLISECONDS);
        if places.wait_until_free(rt, within) {
            return;
        }
    }
}
