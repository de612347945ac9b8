//! Takes legs out as a whole of which a call failed.

use crate::copied_mirror::CopiedMirror;
use nm_lanes::Gate;
use nm_leg::LegPart;
use nm_leg_files::LegPlace;
use nm_mirror::{Mirror, Naming, StripeStatus};
use nm_reports::{Failure, LogLines};
use nm_stripe::LegState;
use std::alloc::Global;
use std::sync::{Arc, Wait};
use std::time::Clock;

/// How many bytes a block has.
const BLOCK_BYTES: u64 = nm_replay::BLOCK_BYTES as u64;

/// The legs on these files, from leg 0 on, of which it is looked whether a call failed.
#[derive(Drop)]
pub struct LegWatch {
    places: Vec<Arc<LegPlace>>,
}

// Whether the leg fails as a whole: not where reads alone failed, and others do not. None where its
// file is being opened anew.
fn fails_as_a_whole(place: &LegPlace, failure: Failure) -> Option<bool> {
    match failure {
        Failure::Whole => Some(true),
        Failure::Read(at) => Some(!place.probe(at)?),
    }
}

// Whether the leg is still in sync in the stripe of this byte: then a read that failed there left
// it where it was.
fn is_in_sync_at<R: Wait + Clock, L: LegPart, G: Gate + Drop, J: Naming>(
    rt: &R,
    alloc: Global,
    mirror: &Mirror<L, G, J>,
    leg: usize,
    at: u64,
) -> bool {
    let shape = mirror.shape();
    let block = at / BLOCK_BYTES;
    if block >= shape.blocks {
        return false;
    }
    let stripe = shape.stripe_of(block) as usize;
    let Ok(glances) = mirror.glance(rt, alloc) else {
        return false;
    };
    match glances.get(stripe).and_then(|glance| glance.told()) {
        Some(StripeStatus::Running { legs, .. }) => {
            legs.get(leg)
                .is_some_and(|status| status.state == LegState::InSync)
        }
        _ => false,
    }
}

// Tells that the leg stays in the stripes in which no read of it failed.
fn tell_stays<R: Wait>(rt: &R, alloc: Global, lines: &LogLines, leg: usize, place: &LegPlace) {
    let name = place.name();
    let text = format!(in alloc;
        "leg {leg} ({name}): a read failed, and others do not: it stays in the other stripes"
    );
    lines.inform(rt, text);
}

// Takes the leg out where a call of it failed since the last look.
fn look_at<R: Wait + Clock, L: LegPart, G: Gate + Drop, J: Naming>(
    rt: &R,
    alloc: Global,
    copied: &CopiedMirror<'_, L, G, J>,
    leg: usize,
    place: &LegPlace,
) {
    let (mirror, orders) = (copied.mirror, copied.orders);
    let number = leg.min(255) as u8;
    let Some(doubts) = orders.doubts().leg(number) else {
        return;
    };
    let Some((failure, seen)) = doubts.new_failure() else {
        return;
    };
    let Some(is_whole) = fails_as_a_whole(place, failure) else {
        return;
    };
    let is_first = orders.take_out_failed(rt, mirror, number, is_whole, seen);
    let Failure::Read(at) = failure else {
        return;
    };
    if is_first && !is_whole && !is_in_sync_at(rt, alloc, mirror, leg, at) {
        tell_stays(rt, alloc, copied.shared.lines, leg, place);
    }
}

impl LegWatch {
    /// Looks at the legs on these files, from leg 0 on.
    pub fn new(places: Vec<Arc<LegPlace>>) -> LegWatch {
        LegWatch { places }
    }

    /// Syncs the files of these legs, a bit each, outside every lock.
    pub fn sync_ahead<R: Wait>(&self, rt: &R, legs: u8) {
        for (leg, place) in self.places.iter().enumerate() {
            if leg < 8 && (legs >> leg) & 1 == 1 {
                place.sync_ahead(rt);
            }
        }
    }

    /// Takes each leg of which a call failed out of every stripe in which it is not the last in
    /// sync, unless reads alone failed that are a matter of their place. Where nothing failed since
    /// the last look, it makes no call. A leg that a command is at is looked at again.
    pub fn look<R: Wait + Clock, L: LegPart, G: Gate + Drop, J: Naming>(
        &self,
        rt: &R,
        alloc: Global,
        copied: &CopiedMirror<'_, L, G, J>,
    ) {
        for (leg, place) in self.places.iter().enumerate() {
            look_at(rt, alloc, copied, leg, place);
        }
    }
}
