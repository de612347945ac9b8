//! The log lines on sessions: that one begins, and how it ended.

use crate::client_stream::ClientStream;
use crate::served_client::Closing;
use crate::serving_state::Shared;
use nm_reports::Incident;
use nm_session::{End, ServeFault};
use std::sync::Wait;
use std::time::Clock;

/// How a session ended that no fault broke off.
#[derive(Clone, Copy, PartialEq, Eq)]
pub enum SessionEnd {
    /// In its handshake.
    InHandshake,
    /// By this, after its handshake.
    By(End),
}

/// Tells that a session begins.
pub fn tell_begin<R: Wait>(rt: &R, shared: &Shared<'_>, client: &ClientStream) {
    let alloc = shared.alloc;
    let (number, address) = (client.number, client.address);
    shared.lines.inform(
        rt,
        format!(in alloc; "client {address}: session {number} begins"),
    );
}

// What ended a session that no fault broke off.
fn words_of(end: SessionEnd, closing: Option<Closing>) -> &'static str {
    match (closing, end) {
        (Some(_), _) => "the server ends",
        (None, SessionEnd::InHandshake) => "it asked for no export",
        (None, SessionEnd::By(End::Disc)) => "the client disconnected",
        (None, SessionEnd::By(End::Aborted)) => "the client gave up",
        (None, SessionEnd::By(End::EndOfInput)) => "the client hung up",
        (None, SessionEnd::By(End::Protocol)) => "the client broke the protocol",
    }
}

// Tells that a client was closed since it asked for nothing for so many seconds.
fn tell_idle<R: Wait>(rt: &R, shared: &Shared<'_>, client: &ClientStream, seconds: u64) {
    let (alloc, address) = (shared.alloc, client.address);
    shared.lines.warn(
        rt,
        format!(in alloc; "client {address}: idle for {seconds} s: closed"),
    );
}

// Tells what ended a session that no fault broke off.
fn tell_well<R: Wait>(rt: &R, shared: &Shared<'_>, client: &ClientStream, words: &str) {
    let alloc = shared.alloc;
    let (number, address) = (client.number, client.address);
    shared.lines.inform(
        rt,
        format!(in alloc; "client {address}: session {number} ended: {words}"),
    );
}

/// Tells how a session ended: always where a fault broke it off, or it was closed by itself, and
/// otherwise where sessions are logged.
pub fn tell_end<R: Wait + Clock>(
    rt: &R,
    shared: &Shared<'_>,
    client: &ClientStream,
    ended: Result<SessionEnd, ServeFault>,
    closing: Option<Closing>,
) {
    let (alloc, lines, address) = (shared.alloc, shared.lines, client.address);
    match (closing, ended) {
        (Some(Closing::Kick), _) => {
            lines.warn(rt, format!(in alloc; "client {address}: closed by kick"));
        }
        (Some(Closing::Idle(seconds)), _) => tell_idle(rt, shared, client, seconds),
        (_, Err(fault)) => {
            let text = format!(in alloc; "client {address}: a session broke off: {fault}");
            lines.warn_of(rt, Incident::SessionFailed, text);
        }
        (closing, Ok(end)) => {
            if shared.state.places.is_verbose() {
                tell_well(rt, shared, client, words_of(end, closing));
            }
        }
    }
}
