//! Syncs what clients do not flush.

use crate::leg_watch::LegWatch;
use nm_geometry::MOST_STRIPES;
use nm_lanes::Gate;
use nm_leg::LegPart;
use nm_mirror::{Mirror, Naming};
use nm_service::Interval;
use std::sync::Wait;

/// How many milliseconds pass from one count of what is not synced to the next.
const AGE_MILLISECONDS: u64 = 1_000;

/// The syncs of what was written and not flushed for five seconds, so that a leg that loses its
/// power has little to be copied when it comes back.
#[derive(Drop)]
pub struct DueSyncs {
    ages: Interval,
}

impl DueSyncs {
    /// Nothing is due yet.
    pub fn new() -> DueSyncs {
        DueSyncs {
            ages: Interval::new(AGE_MILLISECONDS),
        }
    }

    /// Takes a turn at this time, in milliseconds. Where something is due it syncs the legs' files
    /// first, outside every lock, and then one stripe right after the other, so that what is
    /// written under a stripe's lock is what came during the sync before.
    pub fn turn<R: Wait, L: LegPart, G: Gate + Drop, J: Naming>(
        &mut self,
        rt: &R,
        mirror: &Mirror<L, G, J>,
        watch: &LegWatch,
        now: u64,
    ) {
        if self.ages.take(now) {
            mirror.age();
        }
        let legs = mirror.due_legs();
        if legs == 0 {
            return;
        }
        watch.sync_ahead(rt, legs);
        let mut next = Some(0);
        for _ in 0..=MOST_STRIPES {
            let Some(from) = next else {
                return;
            };
            next = mirror.sync_due(rt, from);
        }
    }
}
