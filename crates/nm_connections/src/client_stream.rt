//! A client's connection, and whether the client has gone.

use crate::activity::Activity;
use crate::stream::{Peer, Stream};
use std::net::Shutdown;
use std::sync::atomic::{AtomicBool, Ordering};

/// A client's connection, where it comes from, and whether the client has gone.
///
/// A client has gone once nothing more can be sent to it. That it sends nothing more is no sign of
/// it: it may wait for its replies.
#[derive(Drop)]
pub struct ClientStream {
    /// The connection.
    pub stream: Stream,
    /// Where it comes from.
    pub address: Peer,
    /// The session's number, once it has a place.
    pub number: u64,
    /// What goes on in the session.
    pub activity: Activity,
    is_gone: AtomicBool,
    is_closed: AtomicBool,
}

impl ClientStream {
    /// A connection that was just taken.
    pub fn new(stream: Stream, address: Peer) -> ClientStream {
        ClientStream {
            stream,
            address,
            number: 0,
            activity: Activity::new(),
            is_gone: AtomicBool::new(false),
            is_closed: AtomicBool::new(false),
        }
    }

    /// Whether the client has gone, for who does something long for it.
    pub fn is_gone(&self) -> &AtomicBool {
        &self.is_gone
    }

    /// Notes that the client has gone.
    pub fn note_gone(&self) {
        self.is_gone.store(true, Ordering::SeqCst);
    }

    /// Asks the system whether the client has gone. It takes nothing of the connection's bytes.
    pub fn look(&self) {
        if self.stream.is_broken() {
            self.note_gone();
        }
    }

    /// Whether the server has closed the connection.
    pub fn is_closed(&self) -> bool {
        self.is_closed.load(Ordering::SeqCst)
    }

    /// Closes the connection: nothing more is read from it or written to it.
    pub fn hang_up(&self) {
        self.is_closed.store(true, Ordering::SeqCst);
        self.note_gone();
        let _ = self.stream.shutdown(Shutdown::Both);
    }
}
