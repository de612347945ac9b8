//! The legs' files synced side by side, ahead of what their stripes sync.

use crate::leg_place::LegPlace;
use nm_reports::microseconds_since;
use std::alloc::{AllocError, Global};
use std::sync::atomic::{AtomicU64, Ordering};
use std::sync::{Arc, Condvar, Mutex, Wait};
use std::time::{Clock, Instant};

/// How many microseconds a sync takes that is not worth another thread: about as long as one takes
/// to be woken.
const QUICK_MICROSECONDS: u64 = 100;

/// How many legs there are at most.
const MOST_LEGS: usize = 8;

// How often a leg's thread was asked to sync its file, and how many of these a sync covers.
#[derive(Drop)]
struct Turns {
    asked: u64,
    done: u64,
    // Whether a thread is there to be asked.
    is_served: bool,
    is_closed: bool,
}

// A leg's file, and its thread's turns.
#[derive(Drop)]
struct LegSync {
    place: Arc<LegPlace>,
    turns: Mutex<Turns>,
    changed: Condvar,
    // How many microseconds its last sync took.
    took: AtomicU64,
}

/// The legs' files, from leg 0 on, and a thread of each but the first that syncs it when asked.
#[derive(Drop)]
pub struct LegSyncs {
    legs: Vec<LegSync>,
}

impl LegSync {
    // Nobody has asked, and no thread is there.
    fn new(place: Arc<LegPlace>) -> LegSync {
        LegSync {
            place,
            turns: Mutex::new(Turns {
                asked: 0,
                done: 0,
                is_served: false,
                is_closed: false,
            }),
            changed: Condvar::new(),
            took: AtomicU64::new(0),
        }
    }

    // Syncs the file, and notes how long that took.
    fn sync<R: Wait + Clock>(&self, rt: &R) {
        let begun = Instant::now(rt).ok();
        self.place.sync_ahead(rt);
        let took = microseconds_since(rt, &begun);
        self.took.store(took, Ordering::SeqCst);
    }

    // Asks the thread for a sync that begins from now on. The number that tells when it is done;
    // none where it is not worth while, or no thread is there.
    fn ask<R: Wait>(&self, rt: &R) -> Option<u64> {
        if self.took.load(Ordering::SeqCst) < QUICK_MICROSECONDS {
            return None;
        }
        let mut turns = self.turns.lock(rt);
        if !turns.is_served {
            return None;
        }
        let number = turns.asked.wrapping_add(1);
        turns.asked = number;
        drop(turns);
        self.changed.notify_all();
        Some(number)
    }

    // Waits until what was asked for under this number is done.
    fn wait_for<R: Wait>(&self, rt: &R, number: u64) {
        let turns = self.turns.lock(rt);
        let _done = self.changed.wait_while(rt, turns, |turns| {
            turns.is_served && turns.done < number
        });
    }

    // Waits until something is asked for that is not done. Its number; none once this is closed.
    fn next<R: Wait>(&self, rt: &R) -> Option<u64> {
        let turns = self.turns.lock(rt);
        let mut turns = self.changed.wait_while(rt, turns, |turns| {
            turns.asked == turns.done && !turns.is_closed
        });
        if turns.asked == turns.done {
            turns.is_served = false;
            return None;
        }
        Some(turns.asked)
    }

    // Notes that what was asked for up to this number is done.
    fn note_done<R: Wait>(&self, rt: &R, number: u64) {
        let mut turns = self.turns.lock(rt);
        turns.done = number;
        drop(turns);
        self.changed.notify_all();
    }
}

impl LegSyncs {
    /// Of the files in these places, from leg 0 on. No thread runs yet.
    pub fn new(alloc: Global, places: Vec<Arc<LegPlace>>) -> Result<LegSyncs, AllocError> {
        let mut legs = Vec::new(alloc);
        for place in places {
            legs.push(LegSync::new(place))?;
        }
        Ok(LegSyncs { legs })
    }

    /// How many legs there are.
    pub fn count(&self) -> usize {
        self.legs.len()
    }

    /// Syncs this leg's file whenever that is asked for, until this is closed.
    pub fn serve<R: Wait + Clock>(&self, rt: &R, leg: usize) {
        let Some(own) = self.legs.get(leg) else {
            return;
        };
        own.turns.lock(rt).is_served = true;
        for _ in rt.forever() {
            let Some(number) = own.next(rt) else {
                return;
            };
            own.sync(rt);
            own.note_done(rt, number);
        }
    }

    /// Ends the threads, once they have done what they were asked for.
    pub fn close<R: Wait>(&self, rt: &R) {
        for own in &self.legs {
            own.turns.lock(rt).is_closed = true;
            own.changed.notify_all();
        }
    }

    /// Syncs the files of these legs, a bit each, and returns once that is done: the first by the
    /// caller, each other one by its thread meanwhile, where it has one and its syncs take long.
    /// What fails is noted with the file.
    pub fn sync_ahead<R: Wait + Clock>(&self, rt: &R, legs: u8) {
        let mut asked = [None; MOST_LEGS];
        let mut own = None;
        for (leg, each) in self.legs.iter().take(MOST_LEGS).enumerate() {
            if (legs >> leg) & 1 == 0 {
                continue;
            }
            if own.is_none() {
                own = Some(each);
            } else {
                asked[leg] = each.ask(rt);
            }
        }
        let Some(own) = own else {
            return;
        };
        own.sync(rt);
        self.finish(rt, legs & legs.wrapping_sub(1), &asked);
    }

    // Waits for the syncs that were asked for of these legs, and makes the others.
    fn finish<R: Wait + Clock>(&self, rt: &R, legs: u8, asked: &[Option<u64>; MOST_LEGS]) {
        for (leg, each) in self.legs.iter().take(MOST_LEGS).enumerate() {
            if (legs >> leg) & 1 == 0 {
                continue;
            }
            match asked[leg] {
                Some(number) => each.wait_for(rt, number),
                None => each.sync(rt),
            }
        }
    }
}
