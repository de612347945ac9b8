//! The control port's threads.

use crate::answering::AnswersControl;
use nm_connections::{
    CONNECTIONS, ControlPlaces, ControlStream, Peer, Quit, Shared, Stream, TimedStream,
};
use nm_reports::Incident;
use std::alloc::Global;
use std::cell::Cell;
use std::net::{Net, Shutdown, TcpListener, TcpStream};
use std::sync::Wait;
use std::sync::atomic::Ordering;
use std::thread::Threads;
use std::time::{Clock, Duration, Instant};
use std::{io, thread};

/// How many seconds a control connection has for a line and its answer.
const LINE_SECONDS: u64 = 60;

/// How many milliseconds pass after a call that failed.
const AFTER_FAILURE_MILLISECONDS: u64 = 100;

// One way of a connection.
fn one_way<'a, R: Clock>(
    rt: &'a R,
    stream: &'a Stream,
    begun: &'a Cell<Instant>,
    places: &'a ControlPlaces,
    number: usize,
) -> ControlStream<'a, R> {
    let within = Duration::from_secs(LINE_SECONDS);
    ControlStream {
        rt,
        timed: TimedStream::new(rt, stream, begun, within),
        places,
        number,
    }
}

// Serves one connection to its end, and tells how it asked the server to end, if it did.
fn serve_connection<R: Wait + Clock, S: AnswersControl>(
    rt: &R,
    alloc: Global,
    stream: &Stream,
    places: &ControlPlaces,
    number: usize,
    server: &S,
) -> Option<Quit> {
    let begun = Cell::new(Instant::now(rt).ok()?);
    let mut reader = one_way(rt, stream, &begun, places, number);
    let mut writer = one_way(rt, stream, &begun, places, number);
    server.answer(rt, alloc, &mut reader, &mut writer)
}

// Serves the connections that get the place of this number, one after the other, until the places
// are closed. One that asks the server to end has the clients' listener end.
fn serve_seat<R, S: AnswersControl>(rt: &R, shared: &Shared<'_>, number: usize, server: &S)
where
    R: Wait + Clock + Net<Listener = TcpListener, Stream = TcpStream>,
{
    let (seats, alloc) = (&shared.state.seats, shared.alloc);
    for _ in rt.forever() {
        let Some(stream) = seats.take(rt, number) else {
            return;
        };
        let asked = serve_connection(rt, alloc, &stream, seats, number, server);
        seats.free(rt, number);
        let _ = stream.shutdown(Shutdown::Write);
        if let Some(quit) = asked {
            shared.state.ending.begin(rt, quit);
            shared.clients.wake(rt);
        }
    }
}

// Gives a connection a place, or warns that all are taken.
fn seat<R: Wait + Clock>(rt: &R, shared: &Shared<'_>, stream: Stream, address: Peer) {
    if shared.state.seats.offer(rt, stream) {
        return;
    }
    let alloc = shared.alloc;
    let text = format!(in alloc;
        "control port: {address}: refused: all {CONNECTIONS} places are taken"
    );
    shared.lines.warn_of(rt, Incident::ControlDropped, text);
}

// Warns that a connection was not taken, and pauses.
fn tell_not_taken<R: Wait + Clock>(rt: &R, shared: &Shared<'_>, error: io::Error) {
    let alloc = shared.alloc;
    let text = format!(in alloc; "control port: a connection was not taken: {error}");
    shared.lines.warn_of(rt, Incident::ControlNotAccepted, text);
    thread::sleep(rt, Duration::from_millis(AFTER_FAILURE_MILLISECONDS));
}

// Takes the control port's connections and gives them places, until the server has ended.
fn take_connections<R: Wait + Clock>(rt: &R, shared: &Shared<'_>) {
    for _ in rt.forever() {
        let accepted = shared.control.accept();
        if shared.state.has_ended.load(Ordering::SeqCst) {
            return;
        }
        match accepted {
            Ok((stream, address)) => seat(rt, shared, stream, address),
            Err(error) => tell_not_taken(rt, shared, error),
        }
    }
}

/// Serves the control port, four connections at once, until the server has ended: also while the
/// last clients are served. Where a thread could not be started it answers false, and the server
/// ends.
pub fn serve_control<R, S: AnswersControl + Sync>(rt: &R, shared: &Shared<'_>, server: &S) -> bool
where
    R: Threads + Wait + Sync + Clock + Net<Listener = TcpListener, Stream = TcpStream>,
{
    let state = shared.state;
    thread::scope(thread::scope_env(), rt, |scope| {
        for number in 0..CONNECTIONS {
            let start = scope.spawn(move || serve_seat(rt, shared, number, server));
            if start.is_err() {
                state.seats.close(rt);
                state.ending.begin(rt, Quit::WhenTheyLeave);
                shared.clients.wake(rt);
                return false;
            }
        }
        take_connections(rt, shared);
        state.seats.close(rt);
        true
    })
}
