//! The places of sessions: who is served now, and who is served next.
ghost use Rattle.std.specs.Prelude.{◌≡◌, IfOk};

use crate::client_stream::ClientStream;
use crate::served_client::{Closing, ServedClient};
use crate::session_rules::SessionRules;
use nm_replay::Memory;
use nm_reports::milliseconds_since;
use nm_workers::SpinToken;
use std::alloc::{AllocError, Global};
use std::sync::atomic::{AtomicBool, AtomicU64, Ordering};
use std::sync::{Arc, Condvar, Mutex, Wait};
use std::time::{Clock, Duration, Instant};

// Connections that have a place and are not served yet, those that are served, each at its place's
// number, the places that are free, and how many sessions got one so far.
#[derive(Drop)]
struct Waiting {
    streams: Vec<Arc<ClientStream>>,
    served: Vec<Option<ServedClient>>,
    free: usize,
    sessions: u64,
    is_closed: bool,
}

/// The places of sessions.
#[derive(Drop)]
pub struct SessionPlaces {
    alloc: Global,
    count: usize,
    rules: SessionRules,
    begun: Option<Instant>,
    waiting: Mutex<Waiting>,
    changed: Condvar,
    is_over: AtomicBool,
    lookout: SpinToken,
    calls: AtomicU64,
}

impl SessionPlaces {
    /// So many places, all free, for sessions of which these rules hold.
    pub fn new<R: Clock>(
        rt: &R,
        alloc: Global,
        count: usize,
        rules: SessionRules,
    ) -> Result<SessionPlaces, Memory>
        ensures count { IfOk result (λ places. places.count ≡ count) }
        ensures rules { IfOk result (λ places. places.rules ≡ rules) }
    {
        let (mut streams, mut served) = (Vec::new(alloc), Vec::new(alloc));
        if streams.reserve(count).is_err() {
            return Err(Memory);
        }
        for _ in 0..count {
            if served.push(None).is_err() {
                return Err(Memory);
            }
        }
        Ok(SessionPlaces {
            alloc,
            count,
            rules,
            begun: Instant::now(rt).ok(),
            waiting: Mutex::new(Waiting {
                streams,
                served,
                free: count,
                sessions: 0,
                is_closed: false,
            }),
            changed: Condvar::new(),
            is_over: AtomicBool::new(false),
            lookout: SpinToken::new(),
            calls: AtomicU64::new(0),
        })
    }

    /// The lookout that the sessions share.
    pub fn lookout(&self) -> &SpinToken
        ensures { result.now ≡ self.now.lookout }
    {
        &self.lookout
    }

    /// Counts a call of the mirror for a client.
    pub fn count_call(&self) {
        self.calls.fetch_add(1, Ordering::SeqCst);
    }

    /// How many calls of the mirror clients have made.
    pub fn calls(&self) -> u64 {
        self.calls.load(Ordering::SeqCst)
    }

    /// How many places there are.
    pub fn count(&self) -> usize
        ensures { result ≡ self.now.count }
    {
        self.count
    }

    /// How many bytes the replies to what is outstanding in a session may carry.
    pub fn reply_bytes(&self) -> usize
        ensures { result ≡ self.now.rules.reply_bytes }
    {
        self.rules.reply_bytes
    }

    /// Whether sessions that begin and end are logged.
    pub fn is_verbose(&self) -> bool
        ensures { result ≡ self.now.rules.is_verbose }
    {
        self.rules.is_verbose
    }

    // How many milliseconds have passed since the places were made.
    fn now<R: Clock>(&self, rt: &R) -> u64 {
        milliseconds_since(rt, &self.begun)
    }

    /// Set once the server closes what is left of its clients.
    pub fn is_over(&self) -> &AtomicBool {
        &self.is_over
    }

    /// Gives a connection a place, and a number that no other has had, or drops it where no place
    /// is free. Whether it has one.
    pub fn offer<R: Wait>(&self, rt: &R, client: ClientStream) -> bool {
        let mut waiting = self.waiting.lock(rt);
        if waiting.free == 0 || waiting.is_closed {
            return false;
        }
        let mut client = client;
        client.number = waiting.sessions.saturating_add(1);
        let number = client.number;
        let Ok(client) = Arc::new(self.alloc, client) else {
            return false;
        };
        if waiting.streams.push(client).is_err() {
            return false;
        }
        waiting.free -= 1;
        waiting.sessions = number;
        drop(waiting);
        self.changed.notify_all();
        true
    }

    /// Waits for a connection for the place of this number. None comes once the places are closed
    /// and each connection that has one is served, or closed with the others.
    pub fn take<R: Wait + Clock>(&self, rt: &R, number: usize) -> Option<Arc<ClientStream>> {
        let mut waiting = self
            .changed
            .wait_while(rt, self.waiting.lock(rt), |waiting| {
                waiting.streams.is_empty() && !waiting.is_closed
            });
        if self.is_over.load(Ordering::SeqCst) {
            return None;
        }
        let client = waiting.streams.pop()?;
        if let Some(place) = waiting.served.get_mut(number) {
            if let Ok(client) = Arc::try_clone(&client) {
                *place = Some(ServedClient::new(client, self.now(rt)));
            }
        }
        Some(client)
    }

    /// Gives the place of this number back. Why the server closed its session, if it did.
    pub fn free<R: Wait>(&self, rt: &R, number: usize) -> Option<Closing> {
        let mut waiting = self.waiting.lock(rt);
        waiting.free = waiting.free.saturating_add(1);
        let mut closing = None;
        if let Some(place) = waiting.served.get_mut(number) {
            if let Some(client) = place {
                closing = client.closing();
            }
            *place = None;
        }
        drop(waiting);
        self.changed.notify_all();
        closing
    }

    /// Gives out no place from now on.
    pub fn close<R: Wait>(&self, rt: &R) {
        self.waiting.lock(rt).is_closed = true;
        self.changed.notify_all();
    }

    /// Waits for so long until each place is free. Whether each is.
    pub fn wait_until_free<R: Wait + Clock>(&self, rt: &R, within: Duration) -> bool {
        let count = self.count;
        let (waiting, _) = self.changed.wait_timeout_while(
            rt,
            self.waiting.lock(rt),
            within,
            |waiting| waiting.free < count,
        );
        waiting.free >= count
    }

    /// Asks of each client that is served whether it has gone, and closes those that are idle for
    /// too long.
    pub fn look<R: Wait + Clock>(&self, rt: &R) {
        let limit = match self.rules.idle_limit {
            Some(seconds) => Some(u64::from(seconds) * 1000),
            None => None,
        };
        let mut waiting = self.waiting.lock(rt);
        let now = self.now(rt);
        for place in waiting.served.iter_mut() {
            if let Some(client) = place {
                client.look(limit, now);
            }
        }
    }

    /// Puts a line for each client that is served, and one that says that there are no more.
    pub fn put<R: Wait + Clock>(&self, rt: &R, text: &mut String) -> Result<(), AllocError> {
        let mut waiting = self.waiting.lock(rt);
        let now = self.now(rt);
        for place in waiting.served.iter_mut() {
            if let Some(client) = place {
                client.put(now, text)?;
            }
        }
        text.push_str("end\n")
    }

    /// Closes the session of this number. Whether there is one.
    pub fn kick<R: Wait>(&self, rt: &R, number: u64) -> bool {
        let mut waiting = self.waiting.lock(rt);
        for place in waiting.served.iter_mut() {
            if let Some(client) = place {
                if client.number() == number {
                    client.close(Closing::Kick);
                    return true;
                }
            }
        }
        false
    }

    /// Closes the connections that are served: nothing more is read from them or written to them,
    /// and each of their clients counts as gone.
    pub fn hang_up<R: Wait>(&self, rt: &R) {
        self.is_over.store(true, Ordering::SeqCst);
        let mut waiting = self.waiting.lock(rt);
        for place in waiting.served.iter_mut() {
            if let Some(client) = place {
                client.close(Closing::Quit);
            }
        }
    }
}
