//! A client that is served: since when, what it does, and why the server closed it.

use crate::client_stream::ClientStream;
use nm_service::{LastChange, SessionUse};
use std::alloc::AllocError;
use std::sync::Arc;

/// Why the server closed a session.
#[derive(Clone, Copy, PartialEq, Eq)]
pub enum Closing {
    /// The server ends.
    Quit,
    /// The control port's `kick`.
    Kick,
    /// It asked for nothing for so many seconds.
    Idle(u64),
}

/// A client that has its place. Times are in milliseconds, of one clock.
#[derive(Drop)]
pub struct ServedClient {
    client: Arc<ClientStream>,
    begun: u64,
    last: LastChange,
    closing: Option<Closing>,
}

impl ServedClient {
    /// A client that has just got its place.
    pub fn new(client: Arc<ClientStream>, now: u64) -> ServedClient {
        let events = client.activity.events();
        ServedClient {
            client,
            begun: now,
            last: LastChange::new(events, now),
            closing: None,
        }
    }

    /// The session's number.
    pub fn number(&self) -> u64 {
        self.client.number
    }

    /// Why the server closed it, if it did.
    pub fn closing(&self) -> Option<Closing> {
        self.closing
    }

    /// Closes its connection: nothing more is read from it or written to it, and the client counts
    /// as gone.
    pub fn close(&mut self, why: Closing) {
        if self.closing.is_none() {
            self.closing = Some(why);
            self.client.hang_up();
        }
    }

    // What the session does. What is under way is counted first, so that a request that ends
    // meanwhile is seen either way.
    fn usage(&mut self, now: u64) -> SessionUse {
        let under_way = self.client.activity.under_way();
        let last = self.last.look(self.client.activity.events(), now);
        SessionUse { last, under_way }
    }

    /// Asks whether the client has gone, and closes it where it has been idle for so long since its
    /// handshake, which has a limit of its own.
    pub fn look(&mut self, limit: Option<u64>, now: u64) {
        self.client.look();
        let has_negotiated = self.client.activity.has_negotiated();
        let usage = self.usage(now);
        if has_negotiated && usage.is_to_close(limit, now) {
            self.close(Closing::Idle(usage.idle_for(now) / 1000));
        }
    }

    /// Puts its line of the control port's `clients`.
    pub fn put(&mut self, now: u64, text: &mut String) -> Result<(), AllocError> {
        let usage = self.usage(now);
        let (number, address) = (self.client.number, self.client.address);
        let since = now.saturating_sub(self.begun) / 1000;
        let idle = usage.idle_for(now) / 1000;
        let requests = usage.under_way;
        writeln!(
            text,
            "client {number} {address} since {since} idle {idle} requests {requests}"
        )
    }
}
