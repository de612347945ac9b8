//! The calls of a mirror, counted.

use crate::mirror_call::MirrorCall;
use nm_service::{LATENCY_BUCKETS, latency_bucket};
use std::alloc::{AllocError, Global};
use std::sync::atomic::{AtomicU64, Ordering};

/// What a call of a mirror does.
#[derive(Clone, Copy, PartialEq, Eq)]
pub enum MirrorCallKind {
    /// It reads.
    Read,
    /// It writes what a client sent.
    Write,
    /// It writes zeroes.
    Zero,
    /// It makes all durable.
    Flush,
    /// It makes durable what a call before it changed.
    Sync,
}

impl MirrorCallKind {
    /// Each kind, by rising number.
    pub const ALL: [MirrorCallKind; 5] = [
        MirrorCallKind::Read,
        MirrorCallKind::Write,
        MirrorCallKind::Zero,
        MirrorCallKind::Flush,
        MirrorCallKind::Sync,
    ];

    /// The kind of this call.
    pub fn of(call: &MirrorCall) -> MirrorCallKind {
        match call {
            MirrorCall::Read(_) => MirrorCallKind::Read,
            MirrorCall::Write(_, _) => MirrorCallKind::Write,
            MirrorCall::Zero(_, _) => MirrorCallKind::Zero,
            MirrorCall::Flush => MirrorCallKind::Flush,
            MirrorCall::Sync(_, _) => MirrorCallKind::Sync,
        }
    }

    // The number under which it is counted.
    fn number(self) -> usize {
        match self {
            MirrorCallKind::Read => 0,
            MirrorCallKind::Write => 1,
            MirrorCallKind::Zero => 2,
            MirrorCallKind::Flush => 3,
            MirrorCallKind::Sync => 4,
        }
    }

    /// Its name in the metrics.
    pub fn name(self) -> &'static str {
        match self {
            MirrorCallKind::Read => "read",
            MirrorCallKind::Write => "write",
            MirrorCallKind::Zero => "zero",
            MirrorCallKind::Flush => "flush",
            MirrorCallKind::Sync => "sync",
        }
    }
}

/// How many bytes a call is about that has a buffer of so many.
pub fn bytes_of(call: &MirrorCall, room: usize) -> u64 {
    match call {
        MirrorCall::Read(_) => room as u64,
        MirrorCall::Write(_, payload) => payload.len() as u64,
        MirrorCall::Zero(_, count) => *count,
        MirrorCall::Flush | MirrorCall::Sync(_, _) => 0,
    }
}

// Counters that are counted up together, each at zero.
fn counters(alloc: Global, count: usize) -> Result<Vec<AtomicU64>, AllocError> {
    let mut all = Vec::new(alloc);
    for _ in 0..count {
        all.push(AtomicU64::new(0))?;
    }
    Ok(all)
}

// The calls of one kind.
#[derive(Drop)]
struct KindCounts {
    bytes: AtomicU64,
    microseconds: AtomicU64,
    errors: AtomicU64,
    // How many there were, by how long they took.
    buckets: Vec<AtomicU64>,
}

/// The calls that were made through one client's place, by their kinds.
#[derive(Drop)]
pub struct CallCounts {
    kinds: Vec<KindCounts>,
}

/// How many calls there were of one kind, and what came of them.
#[derive(Drop)]
pub struct CallTotals {
    /// How many bytes were read or written by those that succeeded.
    pub bytes: u64,
    /// How long all of them took.
    pub microseconds: u64,
    /// How many failed.
    pub errors: u64,
    /// How many there were, by how long they took.
    pub buckets: Vec<u64>,
}

impl CallTotals {
    /// None.
    pub fn new(alloc: Global) -> Result<CallTotals, AllocError> {
        let mut buckets = Vec::new(alloc);
        for _ in 0..LATENCY_BUCKETS {
            buckets.push(0)?;
        }
        Ok(CallTotals {
            bytes: 0,
            microseconds: 0,
            errors: 0,
            buckets,
        })
    }

    /// How many there were.
    pub fn calls(&self) -> u64 {
        let mut calls = 0u64;
        for bucket in &self.buckets {
            calls = calls.saturating_add(*bucket);
        }
        calls
    }
}

impl CallCounts {
    /// None so far.
    pub fn new(alloc: Global) -> Result<CallCounts, AllocError> {
        let mut kinds = Vec::new(alloc);
        for _ in MirrorCallKind::ALL {
            kinds.push(KindCounts {
                bytes: AtomicU64::new(0),
                microseconds: AtomicU64::new(0),
                errors: AtomicU64::new(0),
                buckets: counters(alloc, LATENCY_BUCKETS)?,
            })?;
        }
        Ok(CallCounts { kinds })
    }

    /// Counts a call that was about so many bytes and took so long.
    pub fn note(&self, kind: MirrorCallKind, bytes: u64, microseconds: u64, is_done: bool) {
        let Some(own) = self.kinds.get(kind.number()) else {
            return;
        };
        if let Some(bucket) = own.buckets.get(latency_bucket(microseconds)) {
            bucket.fetch_add(1, Ordering::SeqCst);
        }
        own.microseconds.fetch_add(microseconds, Ordering::SeqCst);
        if !is_done {
            own.errors.fetch_add(1, Ordering::SeqCst);
        } else if bytes > 0 {
            own.bytes.fetch_add(bytes, Ordering::SeqCst);
        }
    }

    /// Adds what was counted of this kind.
    pub fn add_to(&self, kind: MirrorCallKind, totals: &mut CallTotals) {
        let Some(own) = self.kinds.get(kind.number()) else {
            return;
        };
        add(&mut totals.bytes, &own.bytes);
        add(&mut totals.microseconds, &own.microseconds);
        add(&mut totals.errors, &own.errors);
        add_each(&mut totals.buckets, &own.buckets);
    }
}

// Adds what each of these counters has by now to the total in its place.
fn add_each(totals: &mut [u64], counters: &[AtomicU64]) {
    for (total, counter) in totals.iter_mut().zip(counters.iter()) {
        add(total, counter);
    }
}

// Adds what a counter has by now.
fn add(total: &mut u64, counter: &AtomicU64) {
    *total = total.saturating_add(counter.load(Ordering::SeqCst));
}
