//! What a server counts while it serves.

use crate::call_counts::{CallCounts, CallTotals, MirrorCallKind};
use crate::leg_counts::LegCounts;
use std::alloc::{AllocError, Global};
use std::sync::Arc;
use std::sync::atomic::{AtomicU64, Ordering};

/// What a server counts while it serves. Whoever counts waits for nobody.
#[derive(Drop)]
pub struct Metrics {
    // One for each client's place, so that sessions do not count in the same place.
    places: Vec<CallCounts>,
    legs: Vec<Arc<LegCounts>>,
    sessions_begun: AtomicU64,
    sessions_ended: AtomicU64,
    sessions_failed: AtomicU64,
    clients_refused: AtomicU64,
}

impl Metrics {
    /// Nothing so far, for so many clients' places and these legs.
    pub fn new(
        alloc: Global,
        count: usize,
        legs: Vec<Arc<LegCounts>>,
    ) -> Result<Metrics, AllocError> {
        let mut places = Vec::new(alloc);
        for _ in 0..count {
            places.push(CallCounts::new(alloc)?)?;
        }
        Ok(Metrics {
            places,
            legs,
            sessions_begun: AtomicU64::new(0),
            sessions_ended: AtomicU64::new(0),
            sessions_failed: AtomicU64::new(0),
            clients_refused: AtomicU64::new(0),
        })
    }

    /// Where the calls through the place of this number are counted.
    pub fn calls_of(&self, place: usize) -> Option<&CallCounts> {
        self.places.get(place)
    }

    /// How many clients may be connected at once.
    pub fn places(&self) -> usize {
        self.places.len()
    }

    /// The calls of this kind through all places.
    pub fn totals(&self, alloc: Global, kind: MirrorCallKind) -> Result<CallTotals, AllocError> {
        let mut totals = CallTotals::new(alloc)?;
        for place in &self.places {
            place.add_to(kind, &mut totals);
        }
        Ok(totals)
    }

    /// Where the calls of each leg are counted.
    pub fn legs(&self) -> &[Arc<LegCounts>] {
        &self.legs
    }

    /// Whether legs have failed since there was no space left, and for no other reason.
    pub fn is_full_alone(&self) -> bool {
        self.legs.iter().any(|leg| leg.was_full())
            && !self.legs.iter().any(|leg| leg.failed_otherwise())
    }

    /// Notes that a session begins.
    pub fn begin_session(&self) {
        self.sessions_begun.fetch_add(1, Ordering::SeqCst);
    }

    /// Notes that a session has ended, well or not.
    pub fn end_session(&self, is_well: bool) {
        if !is_well {
            self.sessions_failed.fetch_add(1, Ordering::SeqCst);
        }
        self.sessions_ended.fetch_add(1, Ordering::SeqCst);
    }

    /// Notes that a client found no free place.
    pub fn refuse_client(&self) {
        self.clients_refused.fetch_add(1, Ordering::SeqCst);
    }

    /// How many sessions there were, those under way included.
    pub fn sessions(&self) -> u64 {
        self.sessions_begun.load(Ordering::SeqCst)
    }

    /// How many sessions are under way.
    pub fn sessions_now(&self) -> u64 {
        let ended = self.sessions_ended.load(Ordering::SeqCst);
        self.sessions().saturating_sub(ended)
    }

    /// How many sessions broke off.
    pub fn sessions_failed(&self) -> u64 {
        self.sessions_failed.load(Ordering::SeqCst)
    }

    /// How many clients found no free place.
    pub fn clients_refused(&self) -> u64 {
        self.clients_refused.load(Ordering::SeqCst)
    }
}
