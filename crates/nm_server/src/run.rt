//! A run of the server: what the settings ask for is found, opened, served until a `quit`, and
//! ended.
ghost use Rattle.std.specs.Prelude.{◌≡◌};

use crate::equipment::{Equipment, Opened, metrics_of, open};
use crate::serving::{Copying, Server};
use crate::sessions::{AT_ONCE, ExportName, ServedExport};
use nm_commands::{MirrorSettings, OpeningSettings, Settings};
use nm_connections::{Listener, ServingState, SessionRules, Shared, listen, listen_beside};
use nm_control::LegRenewer;
use nm_geometry::{MOST_LEGS, Shape};
use nm_leg_files::{FileMirror, Leg, LegFiles, LegMaker, LegPlace, LegRules, OpensLegs};
use nm_mirror::{EmptyLog, Naming, OpenedLog, Pass, open_log};
use nm_reports::{LogLines, Metrics, Port, StartFault};
use nm_starts::{
    check_added, check_files, check_from, check_moved, check_shrink, reply_bytes_of, settle_place,
    sort_legs, try_address_space, try_threads,
};
use nm_system::{Limits, take_standard_streams};
use std::alloc::Global;
use std::fs::File;
use std::io::Write;
use std::marker::Brand;
use std::net::{Net, TcpListener, TcpStream};
use std::random::RandomSource;
use std::rt::Files;
use std::sync::atomic::AtomicU64;
use std::sync::{Arc, Wait};
use std::thread::Threads;
use std::time::Clock;

/// How many threads a session has at most: the one that serves its place, one that reads, and those
/// of its requests.
const OF_SESSION: usize = 2 + AT_ONCE;

/// How many threads there are beside those of sessions and legs: the control port's, the one that
/// copies, the one that saves superblocks, and one that reads for a session.
const OTHER_THREADS: usize = 9;

// Whether the masters that are named, if some are, are one leg of this many.
fn check_masters(opening: &OpeningSettings<'_>, legs: usize) -> Result<(), StartFault> {
    for named in [opening.master, opening.force_master] {
        if let Some(master) = named {
            if master as usize >= legs {
                return Err(StartFault::NoMaster(master));
            }
        }
    }
    match (opening.master, opening.force_master) {
        (Some(master), Some(forced)) if master != forced => {
            Err(StartFault::TwoMasters(master, forced))
        }
        _ => Ok(()),
    }
}

// The export that the settings ask for, unless they are wrong by themselves.
fn export_asked<'a>(settings: &Settings<'a>) -> Result<ExportName<'a>, StartFault> {
    let legs = settings.mirror.legs.len();
    if legs > MOST_LEGS as usize {
        return Err(StartFault::TooManyLegs);
    }
    let opening = &settings.opening;
    check_masters(opening, legs)?;
    check_added(settings, true)?;
    check_moved(settings)?;
    check_from(opening)?;
    check_shrink(opening)?;
    match ExportName::new(settings.clients.export, settings.clients.read_only) {
        Some(named) => Ok(named),
        None => Err(StartFault::BadName),
    }
}

// What makes the legs of stripes that are opened anew.
fn maker_of<'x>(
    alloc: Global,
    mirror: &MirrorSettings<'_>,
    places: &'x [Arc<LegPlace>],
    shape: &Shape,
) -> Result<LegMaker<'x>, StartFault> {
    match Arc::new(alloc, AtomicU64::new(0)) {
        Ok(read) => Ok(LegMaker::new(places, shape, read, mirror.policy)),
        Err(_) => Err(StartFault::Memory),
    }
}

// How many of its stripes have stopped.
fn count_stopped<R: Wait, J: Naming>(rt: &R, mirror: &FileMirror<J>) -> u32 {
    let mut stopped = 0u32;
    for stripe in 0..mirror.shape().stripes {
        if mirror.has_stopped(rt, stripe) {
            stopped = stopped.saturating_add(1);
        }
    }
    stopped
}

// Ends the mirror, and tells how many entries the history of each stripe has had where that is
// asked for.
fn close<O: Write, J: Naming>(
    alloc: Global,
    mirror: FileMirror<J>,
    passes: Vec<Pass<Leg, J>>,
    is_verbose: bool,
    out: &mut O,
) -> Result<(), StartFault> {
    let Ok(totals) = mirror.close(alloc, passes) else {
        return Err(StartFault::CannotClose);
    };
    if !is_verbose {
        return Ok(());
    }
    for end in totals.ends() {
        let _ = writeln!(out, "stripe {}: entries {}", end.stripe(), end.total());
    }
    let _ = out.flush();
    Ok(())
}

// Tells that other machines reach the control port, where they do.
fn warn_if_open<R: Wait>(rt: &R, alloc: Global, control: &Listener, port: &str, lines: &LogLines) {
    if control.is_local() {
        return;
    }
    lines.warn(
        rt,
        format!(in alloc;
            "the control port on {port} is open to other machines: it knows no passwords"
        ),
    );
}

// The files of the legs that the settings name, where the limits allow them.
fn open_files<R: Files<File = File>>(
    rt: &R,
    alloc: Global,
    settings: &Settings<'_>,
    limits: &Limits,
) -> Result<LegFiles, StartFault> {
    let rules = LegRules::of(settings, limits);
    let files = LegFiles::open(rt, alloc, &settings.mirror.legs, &rules)?;
    let legs = settings.mirror.legs.len().min(MOST_LEGS as usize) as u8;
    check_files(limits, legs, &rules, settings.clients.sessions)?;
    Ok(files)
}

// A server that serves nobody yet, where its threads can be had.
fn state_of<R: Threads + Wait + Sync + Clock>(
    rt: &R,
    alloc: Global,
    settings: &Settings<'_>,
    limits: &Limits,
    metrics: Metrics,
) -> Result<ServingState, StartFault> {
    let sessions = settings.clients.sessions as usize;
    let bytes = reply_bytes_of(limits, settings.clients.sessions) as usize;
    let rules = SessionRules::of(&settings.clients, bytes);
    let Ok(state) = ServingState::new(rt, alloc, sessions, rules, metrics) else {
        return Err(StartFault::Memory);
    };
    let others = settings.mirror.legs.len() + OTHER_THREADS;
    try_address_space(rt, alloc, limits, sessions * OF_SESSION + others)?;
    try_threads(rt, alloc, sessions + AT_ONCE + others)?;
    Ok(state)
}

// Ends the mirror once it is served no more, and tells how many of its stripes have stopped.
fn end<O: Write, J: Naming>(
    alloc: Global,
    mirror: FileMirror<J>,
    passes: Vec<Pass<Leg, J>>,
    stopped: u32,
    is_verbose: bool,
    out: &mut O,
) -> Result<(), StartFault> {
    let all = mirror.shape().stripes;
    close(alloc, mirror, passes, is_verbose, out)?;
    if stopped > 0 {
        return Err(StartFault::StripesStopped(stopped, all));
    }
    Ok(())
}

// Serves a mirror until a `quit`, beside what is at hand for it, and copies its legs meanwhile. The
// copier's pass comes back.
fn work<'x, R, P: OpensLegs + Sync, J: Naming + Send + Sync>(
    rt: &R,
    opener: &P,
    settings: &Settings<'_>,
    shared: &'x Shared<'x>,
    export: &ServedExport<'_, '_, J>,
    passes: &mut [Pass<Leg, J>],
    (copying, own): (Copying<J>, &Equipment),
) -> Result<Pass<Leg, J>, StartFault>
where
    R: Threads + Wait + Sync + Copy + Clock + Net<Listener = TcpListener, Stream = TcpStream>,
{
    let (alloc, shape) = (shared.alloc, export.mirror.shape());
    let (places, writer) = (own.places.as_slice(), own.superblocks.as_ref());
    let legs = LegRenewer::new(alloc, opener, places, writer, shape)?;
    let maker = maker_of(alloc, &settings.mirror, places, shape)?;
    own.orders.begin_limits();
    let server = Server::new(shared, export, own, &legs, &maker);
    server.serve(rt, passes, copying, &own.superblocks)
}

// Serves the mirror that was opened until a `quit`, and ends it.
fn serve<'s, R, P: OpensLegs + Sync, O: Write, J: Naming + Send + Sync>(
    rt: &R,
    opener: &P,
    settings: &Settings<'_>,
    named: &ExportName<'_>,
    opened: Opened<J>,
    shared: &'s Shared<'s>,
    out: &mut O,
) -> Result<(), StartFault>
where
    R: Threads + Wait + Sync + Copy + Clock + Net<Listener = TcpListener, Stream = TcpStream>,
{
    let (mirror, own, mut passes) = (opened.mirror, opened.own, opened.passes);
    let export = ServedExport {
        named,
        mirror: &mirror,
        syncs: &own.syncs,
    };
    let own_pass = passes.pop().ok_or(StartFault::Memory)?;
    let at_work = ((opened.copier, own_pass), &own);
    let own_pass = work(rt, opener, settings, shared, &export, &mut passes, at_work)?;
    if passes.push(own_pass).is_err() {
        return Err(StartFault::Memory);
    }
    let stopped = count_stopped(rt, &mirror);
    let is_verbose = settings.clients.verbose;
    end(shared.alloc, mirror, passes, stopped, is_verbose, out)
}

// The export that the settings ask for, and the files of its legs.
fn find_export<'a, R: Files<File = File>>(
    rt: &R,
    alloc: Global,
    settings: &Settings<'a>,
    limits: &Limits,
) -> Result<(ExportName<'a>, LegFiles), StartFault> {
    let named = export_asked(settings)?;
    let files = open_files(rt, alloc, settings, limits)?;
    Ok((named, files))
}

// A server of these files that serves nobody yet, where the threads of both can be had.
fn ready_state<R: Threads + Wait + Sync + Copy + Send + Clock + 'static>(
    rt: &R,
    alloc: Global,
    settings: &Settings<'_>,
    limits: &Limits,
    files: &LegFiles,
) -> Result<ServingState, StartFault> {
    files.start_threads(rt)?;
    let metrics = metrics_of(alloc, files, settings.clients.sessions)?;
    state_of(rt, alloc, settings, limits, metrics)
}

// What is asked of the server, and what the system lets it do.
#[derive(Drop)]
struct Asked<'s, 'a> {
    settings: &'s Settings<'a>,
    limits: &'s Limits,
}

// Opens what the settings ask for, and serves it until a `quit`.
fn open_and_serve<J: Naming + Send + Sync, R, P: OpensLegs + Sync, O: Write>(
    rt: &R,
    alloc: Global,
    opener: &P,
    asked: &Asked<'_, '_>,
    out: &mut O,
    lines: &LogLines,
    log: OpenedLog<Leg>,
) -> Result<(), StartFault>
where
    R: Threads
        + Wait
        + Sync
        + Copy
        + Send
        + Clock
        + RandomSource
        + Files<File = File>
        + Net<Listener = TcpListener, Stream = TcpStream>
        + 'static,
    requires { log.table.shared.table_id ≡ J.table }
{
    let (settings, limits) = (asked.settings, asked.limits);
    let (named, files) = find_export(rt, alloc, settings, limits)?;
    let listening = &settings.listening;
    let clients = listen(rt, alloc, Port::Clients, listening)?;
    let control = listen_beside(rt, alloc, listening, &clients)?;
    // Whatever may be refused is, before a superblock is made.
    let state = ready_state(rt, alloc, settings, limits, &files)?;
    let opened: Opened<J> = open(
        rt,
        alloc,
        settings,
        files,
        &control.listener,
        lines,
        EmptyLog::of(log),
    )?;
    warn_if_open(rt, alloc, &control.listener, listening.control, lines);
    clients.tell(out, "listening on");
    control.tell(out, "control on");
    let shared = Shared::new(alloc, &clients.listener, &control.listener, lines, &state);
    serve(rt, opener, settings, &named, opened, &shared, out)
}

/// Puts the settings in order by what is found, and serves what they ask for until a `quit`.
pub fn run<R, P: OpensLegs + Sync, O: Write>(
    rt: &R,
    alloc: Global,
    opener: &P,
    settings: &mut Settings<'_>,
    limits: &Limits,
    out: &mut O,
    lines: &LogLines,
) -> Result<(), StartFault>
where
    R: Threads
        + Wait
        + Sync
        + Copy
        + Send
        + Clock
        + RandomSource
        + Files<File = File>
        + Net<Listener = TcpListener, Stream = TcpStream>
        + 'static,
{
    let _streams = take_standard_streams(rt, alloc).ok_or(StartFault::NoStandardStreams)?;
    settle_place(rt, settings);
    sort_legs(rt, alloc, settings, lines)?;
    let Ok(log) = open_log(alloc) else {
        return Err(StartFault::Memory);
    };
    let settings = &*settings;
    let asked = Asked { settings, limits };
    open_and_serve::<Brand, R, P, O>(rt, alloc, opener, &asked, out, lines, log)
}
