//! What happens to the legs, as it is told.

use crate::failed_reads::{FailedRead, FailedReads};
use crate::leg_lines::{LegLines, LegStand, UNSEEN};
use crate::log_lines::LogLines;
use crate::unread::region_bytes;
use nm_geometry::{MOST_LEGS, Shape};
use nm_lanes::Gate;
use nm_leg::LegPart;
use nm_mirror::{CopyRound, LegStatus, Mirror, Naming, StripeStatus, UnreadRegion};
use nm_service::{Interval, LegSight};
use nm_stripe::LegState;
use std::alloc::{AllocError, Global};
use std::sync::Wait;
use std::time::Clock;

/// How many bytes a block has.
const BLOCK_BYTES: u64 = nm_replay::BLOCK_BYTES as u64;

/// How many milliseconds pass at least from one line on regions that cannot be read to the next.
const UNREAD_MILLISECONDS: u64 = 60_000;

// A stripe as it was when it was last seen running, and whether it has stopped since.
#[derive(Drop)]
struct StripeView {
    is_stopped: bool,
    master: u8,
    legs: Vec<LegStatus>,
}

impl StripeView {
    // Takes what the stripe is doing, and which leg is its master, or its last one. What one that
    // has stopped was doing stays.
    fn see(&mut self, told: &StripeStatus, master: u8) -> Result<(), AllocError> {
        self.master = master;
        match told {
            StripeStatus::Stopped => self.is_stopped = true,
            StripeStatus::Running { legs, .. } => {
                self.is_stopped = false;
                self.legs.clear();
                for leg in legs {
                    self.legs.push(*leg)?;
                }
            }
        }
        Ok(())
    }

    // Whether the leg was in sync here when the stripe was last seen running.
    fn is_in_sync(&self, leg: usize) -> bool {
        match self.legs.get(leg) {
            Some(status) => status.state == LegState::InSync,
            None => false,
        }
    }

    // How this leg stands here beside the others, of which a read failed.
    fn stand(&self, leg: usize) -> ReadStand {
        let in_sync = |status: &&LegStatus| status.state == LegState::InSync;
        let all = self.legs.iter().filter(in_sync).count();
        match (self.is_stopped, self.is_in_sync(leg), all) {
            (false, true, 1) => ReadStand::Last,
            (false, false, _) => ReadStand::Left,
            _ => ReadStand::Open,
        }
    }

    // Adds how this leg stands here.
    fn add(&self, leg: usize, sight: &mut LegSight) {
        let Some(status) = self.legs.get(leg) else {
            return;
        };
        match status.state {
            LegState::InSync => (),
            LegState::Joining => sight.joining = sight.joining.saturating_add(1),
            LegState::Out => sight.out = sight.out.saturating_add(1),
        }
        if status.state == LegState::Joining {
            sight.left = sight.left.saturating_add(status.left);
        }
        if self.master as usize == leg {
            sight.masters = sight.masters.saturating_add(1);
            sight.stopped = sight.stopped.saturating_add(u64::from(self.is_stopped));
        }
    }
}

// How a leg stands in a stripe in which a read of it failed.
#[derive(Clone, Copy, PartialEq, Eq)]
enum ReadStand {
    // It stays, as the last leg in sync.
    Last,
    // It is out, or is being copied.
    Left,
    // It may go out yet, or be the last one later.
    Open,
}

/// What is told of a mirror's legs so far.
#[derive(Drop)]
pub struct LegStory {
    shape: Shape,
    stripes: Vec<StripeView>,
    legs: Vec<LegLines>,
    unread: UnreadTold,
}

// How many regions that could not be read were told last, and when.
#[derive(Drop)]
struct UnreadTold {
    count: u64,
    pace: Interval,
}

impl UnreadTold {
    // None was told.
    fn new() -> UnreadTold {
        UnreadTold {
            count: 0,
            pace: Interval::new(UNREAD_MILLISECONDS),
        }
    }

    // Whether so many are to be told at this time. Then they count as told.
    fn takes(&mut self, count: u64, now: u64) -> bool {
        if count == self.count || !self.pace.take(now) {
            return false;
        }
        self.count = count;
        true
    }
}

impl LegStory {
    /// Nothing was told of these legs in so many stripes.
    pub fn new(alloc: Global, shape: &Shape, legs: Vec<LegLines>) -> Result<LegStory, AllocError> {
        let mut stripes = Vec::new(alloc);
        for _ in 0..shape.stripes {
            let mut own = Vec::new(alloc);
            own.reserve(MOST_LEGS as usize)?;
            stripes.push(StripeView {
                is_stopped: false,
                master: 0,
                legs: own,
            })?;
        }
        Ok(LegStory {
            shape: *shape,
            stripes,
            legs,
            unread: UnreadTold::new(),
        })
    }

    // Looks at each stripe. One that is busy stays as it was.
    fn see<R: Wait + Clock, L: LegPart, G: Gate + Drop, J: Naming>(
        &mut self,
        rt: &R,
        alloc: Global,
        mirror: &Mirror<L, G, J>,
    ) {
        let Ok(glances) = mirror.glance(rt, alloc) else {
            return;
        };
        for (view, glance) in self.stripes.iter_mut().zip(glances.iter()) {
            if let (Some(told), Some(master)) = (glance.told(), glance.master()) {
                let _ = view.see(told, master);
            }
        }
    }

    /// How a leg stands in all stripes, as they were last seen.
    pub fn sight(&self, leg: usize) -> LegSight {
        let mut sight = UNSEEN;
        for view in &self.stripes {
            view.add(leg, &mut sight);
        }
        sight
    }

    // How a leg stands as the server begins or ends.
    fn leg_stand(&self, alloc: Global, leg: usize) -> Result<LegStand, AllocError> {
        let (mut in_sync, mut stopped) = (0u64, Vec::new(alloc));
        for (stripe, view) in self.stripes.iter().enumerate() {
            if view.is_stopped {
                if view.master as usize == leg {
                    stopped.push(stripe)?;
                }
            } else if view.is_in_sync(leg) {
                in_sync = in_sync.saturating_add(1);
            }
        }
        Ok(LegStand {
            all: self.stripes.len(),
            sight: self.sight(leg),
            in_sync,
            stopped,
        })
    }

    /// Tells in a line a leg how each of them stands, as the server begins or ends.
    pub fn tell_all<R: Wait + Clock, L: LegPart, G: Gate + Drop, J: Naming>(
        &mut self,
        rt: &R,
        alloc: Global,
        lines: &LogLines,
        mirror: &Mirror<L, G, J>,
        when: &str,
    ) {
        self.see(rt, alloc, mirror);
        for leg in 0..self.legs.len() {
            let stand = self.leg_stand(alloc, leg);
            if let Some(own) = self.legs.get_mut(leg) {
                match stand {
                    Ok(stand) => own.tell_stand(rt, alloc, lines, when, &stand),
                    Err(error) => lines.inform(rt, Err(error)),
                }
            }
        }
    }

    /// Tells what has changed by this time, in milliseconds.
    pub fn tell_changes<R: Wait + Clock, L: LegPart, G: Gate + Drop, J: Naming>(
        &mut self,
        rt: &R,
        alloc: Global,
        lines: &LogLines,
        mirror: &Mirror<L, G, J>,
        now: u64,
    ) {
        self.see(rt, alloc, mirror);
        let all = self.stripes.len();
        for leg in 0..self.legs.len() {
            let sight = self.sight(leg);
            if let Some(own) = self.legs.get_mut(leg) {
                own.tell_changes(rt, alloc, lines, all, sight, now);
            }
        }
    }

    // How this leg stands in the stripe of this byte of the export, where a read of it failed.
    fn stand_at(&self, leg: usize, at: u64) -> ReadStand {
        let block = at / BLOCK_BYTES;
        if block >= self.shape.blocks {
            return ReadStand::Open;
        }
        let stripe = self.shape.stripe_of(block) as usize;
        match self.stripes.get(stripe) {
            Some(view) => view.stand(leg),
            None => ReadStand::Open,
        }
    }

    // Of the reads of this leg that failed and are not told: the first where no other leg is in
    // sync, and how many more there are. Those of stripes in which the leg is out are forgotten.
    fn failed_read(
        &self,
        leg: usize,
        reads: &FailedReads,
        is_told: bool,
    ) -> Option<(FailedRead, u64)> {
        let (mut first, mut more) = (None, 0u64);
        for number in 0..reads.numbers() {
            let Some(place) = reads.place(number) else {
                continue;
            };
            if place.is_told {
                continue;
            }
            match self.stand_at(leg, place.at) {
                ReadStand::Open => (),
                ReadStand::Left => reads.drop_place(place.at),
                ReadStand::Last => {
                    if is_told {
                        reads.note_told(place.at);
                    }
                    match first {
                        None => first = Some(place),
                        Some(_) => more = more.saturating_add(1),
                    }
                }
            }
        }
        Some((first?, more))
    }

    /// Tells of reads that failed by this time, in milliseconds, of a leg that stays, since it is
    /// the last in sync there: at most a line a second a leg.
    pub fn tell_failed_reads<R: Wait>(
        &mut self,
        rt: &R,
        alloc: Global,
        lines: &LogLines,
        now: u64,
    ) {
        for leg in 0..self.legs.len() {
            let Some(own) = self.legs.get(leg) else {
                return;
            };
            if self.failed_read(leg, own.failed_reads(), false).is_none() {
                continue;
            }
            let Some(own) = self.legs.get_mut(leg) else {
                return;
            };
            if !own.tells_reads(now) {
                continue;
            }
            let Some(own) = self.legs.get(leg) else {
                return;
            };
            if let Some((failed, more)) = self.failed_read(leg, own.failed_reads(), true) {
                own.tell_failed_read(rt, alloc, lines, &failed, more);
            }
        }
    }

    // Tells of one region that could not be read from its stripe's master, the first of so many.
    fn tell_region<R: Wait>(
        &self,
        rt: &R,
        alloc: Global,
        lines: &LogLines,
        one: &UnreadRegion,
        count: u64,
    ) {
        if one.stripe >= self.shape.stripes {
            return;
        }
        let (Some(view), Some(bytes)) = (
            self.stripes.get(one.stripe as usize),
            region_bytes(&self.shape, one.stripe, one.region),
        ) else {
            return;
        };
        if let Some(own) = self.legs.get(view.master as usize) {
            own.tell_unread(rt, alloc, lines, &bytes, count);
        }
    }

    /// Tells by this time, in milliseconds, how many regions could not be read, and which is the
    /// first: at once, and then once a minute while their number changes.
    pub fn tell_unread<R: Wait>(
        &mut self,
        rt: &R,
        alloc: Global,
        lines: &LogLines,
        round: &CopyRound,
        now: u64,
    ) {
        let count = round.unread_count();
        let Some(first) = round.unread().first() else {
            self.unread = UnreadTold::new();
            return;
        };
        if self.unread.takes(count, now) {
            self.tell_region(rt, alloc, lines, first, count);
        }
    }
}
