//! The thread that copies legs, and compares them.

use crate::copied_mirror::CopiedMirror;
use crate::copier::Copier;
use crate::copy_pacer::CopyPacer;
use nm_lanes::Gate;
use nm_leg::LegPart;
use nm_leg_files::OpensLegs;
use nm_mirror::{Naming, Pass};
use nm_reports::milliseconds_since;
use nm_service::Interval;
use std::sync::Wait;
use std::sync::atomic::Ordering;
use std::thread;
use std::time::{Clock, Duration, Instant};

/// How many milliseconds pass after a turn in which there was nothing to do.
const PAUSE_MILLISECONDS: u64 = 100;

/// How many milliseconds pass at least from one look at clients and legs to the next.
const LOOK_MILLISECONDS: u64 = 100;

/// How many milliseconds pass at least until regions that could not be read are tried again.
const AGAIN_MILLISECONDS: u64 = 60_000;

/// How many milliseconds pass at least from one look at stripes that are at rest to the next.
const SETTLE_MILLISECONDS: u64 = 5_000;

// Looks for clients that have gone or are idle, takes legs out as a whole of which a call failed,
// tells what happens to legs, and attaches those that are to heal.
fn look<R: Wait + Clock, O: OpensLegs, L: LegPart, G: Gate + Drop, J: Naming>(
    rt: &R,
    opener: &O,
    copier: &mut Copier,
    copied: &CopiedMirror<'_, L, G, J>,
    now: u64,
) {
    copied.shared.state.places.look(rt);
    copier.watch(rt, copied);
    copier.sync_due(rt, copied.mirror, now);
    copier.tell(rt, copied, now);
    copier.heal(rt, opener, copied, now);
    copied.shared.lines.flush_incidents(rt);
}

// When what does not come with each turn was done last.
#[derive(Drop)]
struct Turns {
    looks: Interval,
    tries: Interval,
    settles: Interval,
}

impl Turns {
    // What could not be read is not tried again at once.
    fn new() -> Turns {
        let mut tries = Interval::new(AGAIN_MILLISECONDS);
        let _ = tries.take(0);
        Turns {
            looks: Interval::new(LOOK_MILLISECONDS),
            tries,
            settles: Interval::new(SETTLE_MILLISECONDS),
        }
    }

    // Does at this time what is due: looks, begins the round again, and settles stripes.
    fn take<R: Wait + Clock, O: OpensLegs, L: LegPart, G: Gate + Drop, J: Naming>(
        &mut self,
        rt: &R,
        opener: &O,
        copier: &mut Copier,
        copied: &CopiedMirror<'_, L, G, J>,
        now: u64,
    ) {
        if self.looks.take(now) {
            look(rt, opener, copier, copied, now);
        }
        let orders = copied.orders;
        if orders.take_new_round() || copier.has_unread() && self.tries.take(now) {
            copier.begin_again();
        }
        if self.settles.take(now) {
            copied.mirror.settle_turn(rt, orders.doubts());
        }
    }
}

// Takes a turn at copying, or at comparing legs through the pass; a pause where neither did
// something.
fn take_turn<R: Wait + Clock, L: LegPart, G: Gate + Drop, J: Naming>(
    rt: &R,
    (copier, pacer): (&mut Copier, &mut CopyPacer),
    copied: &CopiedMirror<'_, L, G, J>,
    pass: &mut Pass<L, J>,
    now: u64,
) {
    if !pacer.rest(rt)
        && !pacer.turn(rt, copier, copied)
        && !pacer.verify(rt, copier, copied, pass, now)
    {
        thread::sleep(rt, Duration::from_millis(PAUSE_MILLISECONDS));
    }
}

/// Takes turns at copying until all sessions have ended, at the pace that is ordered, with a pause
/// after a turn that did nothing.
///
/// Between them it looks for clients that have gone or are idle, has what could not be read tried
/// again once a minute, takes legs out as a whole that fail, attaches those that are to heal, and
/// tells what happens. What was not flushed for five seconds is synced, and marks of stripes in
/// which nothing was written for five seconds are cleared. What is repaired is written through the
/// pass.
pub fn resynchronise<R: Wait + Clock, O: OpensLegs, L: LegPart, G: Gate + Drop, J: Naming>(
    rt: &R,
    opener: &O,
    copier: Copier,
    copied: &CopiedMirror<'_, L, G, J>,
    pass: &mut Pass<L, J>,
) {
    let (mut copier, mut pacer, mut turns) = (copier, CopyPacer::new(), Turns::new());
    let begun = Instant::now(rt).ok();
    copier.tell_all(rt, copied, "serving");
    for _ in rt.forever() {
        if copied.shared.state.has_ended.load(Ordering::SeqCst) {
            break;
        }
        let now = milliseconds_since(rt, &begun);
        turns.take(rt, opener, &mut copier, copied, now);
        let both = (&mut copier, &mut pacer);
        take_turn(rt, both, copied, pass, now);
    }
    copier.tell_all(rt, copied, "at the end");
}
