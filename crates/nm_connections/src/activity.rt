use std::sync::atomic::{AtomicBool, AtomicU64, Ordering};

/// What goes on in a session, as its own threads note it for others that look at it.
#[derive(Drop)]
pub struct Activity {
    // Whether its handshake is over.
    has_negotiated: AtomicBool,
    // How often it was at work so far: the client sent something, a call of the mirror ended, or a
    // piece of the replies was sent.
    events: AtomicU64,
    // How many calls of the mirror are under way.
    calls: AtomicU64,
    // How many pieces of the replies are being sent.
    sends: AtomicU64,
}

impl Activity {
    /// Nothing so far.
    pub fn new() -> Activity {
        Activity {
            has_negotiated: AtomicBool::new(false),
            events: AtomicU64::new(0),
            calls: AtomicU64::new(0),
            sends: AtomicU64::new(0),
        }
    }

    /// Notes that the handshake is over.
    pub fn note_negotiated(&self) {
        self.note_request();
        self.has_negotiated.store(true, Ordering::SeqCst);
    }

    /// Notes that the client has sent something.
    pub fn note_request(&self) {
        self.events.fetch_add(1, Ordering::SeqCst);
    }

    /// Notes that a call of the mirror begins.
    pub fn begin_call(&self) {
        self.calls.fetch_add(1, Ordering::SeqCst);
    }

    /// Notes that it has ended.
    pub fn end_call(&self) {
        self.events.fetch_add(1, Ordering::SeqCst);
        self.calls.fetch_sub(1, Ordering::SeqCst);
    }

    /// Notes that a piece of the replies is being sent.
    pub fn begin_send(&self) {
        self.sends.fetch_add(1, Ordering::SeqCst);
    }

    /// Notes that it was sent.
    pub fn end_send(&self) {
        self.events.fetch_add(1, Ordering::SeqCst);
        self.sends.fetch_sub(1, Ordering::SeqCst);
    }

    /// Whether the handshake is over.
    pub fn has_negotiated(&self) -> bool {
        self.has_negotiated.load(Ordering::SeqCst)
    }

    /// How often it was at work so far.
    pub fn events(&self) -> u64 {
        self.events.load(Ordering::SeqCst)
    }

    /// How many requests are under way: those that the mirror is at work on, and at least one while
    /// replies are being sent.
    pub fn under_way(&self) -> u64 {
        let calls = self.calls.load(Ordering::SeqCst);
        calls.max(self.sends.load(Ordering::SeqCst))
    }
}
