//! Who copies legs, and tells what happens to them.
ghost use Rattle.nm_control.specs.Rounds.{IsRoundOf};

use crate::copied_mirror::CopiedMirror;
use crate::copy_orders::CopyOrders;
use crate::due_syncs::DueSyncs;
use crate::healing::Healing;
use crate::leg_watch::LegWatch;
use crate::verifier::Verifier;
use nm_geometry::{MOST_LEGS, Shape};
use nm_lanes::Gate;
use nm_leg::LegPart;
use nm_leg_files::OpensLegs;
use nm_mirror::{CopyRound, Mirror, Naming, Pass};
use nm_reports::{LegLines, LegStory, LogLines};
use std::alloc::{AllocError, Global};
use std::sync::Wait;
use std::time::Clock;

/// How many legs there are at most.
const LEGS: usize = MOST_LEGS as usize;

/// Copies the legs of a mirror of this shape, and tells what happens to them and what could not be
/// read.
#[derive(Drop)]
pub struct Copier {
    alloc: Global,
    shape: Shape,
    round: CopyRound,
    story: LegStory,
    watch: LegWatch,
    syncs: DueSyncs,
    healing: Option<Healing>,
    verifier: Verifier,
    // Whether each leg was last told to be paused.
    paused: [bool; LEGS],
    ghost fits: { IsRoundOf shape round },
}

impl Copier {
    /// A copier of mirrors of this shape, before its first turn, which tells of these legs, takes
    /// those out as a whole that are watched and fail, and attaches again those that are to heal.
    /// It takes no more memory but for lines.
    pub fn new(
        alloc: Global,
        shape: &Shape,
        legs: Vec<LegLines>,
        watch: LegWatch,
        healing: Option<Healing>,
    ) -> Result<Copier, AllocError> {
        let round = CopyRound::new(alloc, shape.stripes, shape.legs)?;
        let story = LegStory::new(alloc, shape, legs)?;
        Ok(Copier {
            alloc,
            shape: *shape,
            round,
            story,
            watch,
            syncs: DueSyncs::new(),
            healing,
            verifier: Verifier::new(alloc)?,
            paused: [false; LEGS],
        })
    }

    /// Takes a turn at copying, in a mirror of its shape. How many steps were done.
    pub fn turn<R: Wait, L: LegPart, G: Gate + Drop, J: Naming>(
        &mut self,
        rt: &R,
        mirror: &Mirror<L, G, J>,
        orders: &CopyOrders,
    ) -> u32 {
        let shape = mirror.shape();
        if shape.stripes != self.shape.stripes || shape.legs != self.shape.legs {
            return 0;
        }
        mirror.resync_turn(rt, &mut self.round, orders.doubts())
    }

    /// Takes a turn at comparing legs, where that is asked for; what it repairs is written through
    /// the pass. How many runs were looked at.
    pub fn verify<R: Wait + Clock, L: LegPart, G: Gate + Drop, J: Naming>(
        &mut self,
        rt: &R,
        copied: &CopiedMirror<'_, L, G, J>,
        pass: &mut Pass<L, J>,
        now: u64,
    ) -> u32 {
        let (desk, lines) = (copied.orders.verify(), copied.shared.lines);
        self.verifier
            .turn(rt, copied.mirror, pass, desk, lines, now)
    }

    /// Tells how each leg stands, as the server begins or ends.
    pub fn tell_all<R: Wait + Clock, L: LegPart, G: Gate + Drop, J: Naming>(
        &mut self,
        rt: &R,
        copied: &CopiedMirror<'_, L, G, J>,
        when: &str,
    ) {
        let (mirror, lines) = (copied.mirror, copied.shared.lines);
        self.story.tell_all(rt, self.alloc, lines, mirror, when);
    }

    /// Tells what has happened by this time, in milliseconds.
    pub fn tell<R: Wait + Clock, L: LegPart, G: Gate + Drop, J: Naming>(
        &mut self,
        rt: &R,
        copied: &CopiedMirror<'_, L, G, J>,
        now: u64,
    ) {
        let (mirror, shared) = (copied.mirror, copied.shared);
        let lines = shared.lines;
        shared.state.unread.set(rt, &self.round);
        self.story
            .tell_unread(rt, self.alloc, lines, &self.round, now);
        self.story.tell_changes(rt, self.alloc, lines, mirror, now);
        self.tell_paused(rt, mirror, lines);
        self.story.tell_failed_reads(rt, self.alloc, lines, now);
    }

    // Tells which legs were paused or resumed since that was last told.
    fn tell_paused<R: Wait, L: LegPart, G: Gate + Drop, J: Naming>(
        &mut self,
        rt: &R,
        mirror: &Mirror<L, G, J>,
        lines: &LogLines,
    ) {
        let alloc = self.alloc;
        for (leg, told) in self.paused.iter_mut().enumerate() {
            let is_paused = mirror.is_paused(leg.min(255) as u8);
            if *told == is_paused {
                continue;
            }
            *told = is_paused;
            let word = if is_paused { "paused" } else { "resumed" };
            lines.inform(rt, format!(in alloc; "leg {leg}: its copies are {word}"));
        }
    }

    /// Takes the legs out as a whole of which a call failed.
    pub fn watch<R: Wait + Clock, L: LegPart, G: Gate + Drop, J: Naming>(
        &self,
        rt: &R,
        copied: &CopiedMirror<'_, L, G, J>,
    ) {
        self.watch.look(rt, self.alloc, copied);
    }

    /// Syncs what was written and not flushed for five seconds, at this time, in milliseconds.
    pub fn sync_due<R: Wait, L: LegPart, G: Gate + Drop, J: Naming>(
        &mut self,
        rt: &R,
        mirror: &Mirror<L, G, J>,
        now: u64,
    ) {
        self.syncs.turn(rt, mirror, &self.watch, now);
    }

    /// Attaches the legs that are to heal and due at this time, in milliseconds, as last told.
    pub fn heal<R: Wait, O: OpensLegs, L: LegPart, G: Gate + Drop, J: Naming>(
        &mut self,
        rt: &R,
        opener: &O,
        copied: &CopiedMirror<'_, L, G, J>,
        now: u64,
    ) {
        if let Some(healing) = &mut self.healing {
            healing.look(rt, opener, &self.story, copied, now);
        }
    }

    /// Whether something could not be read.
    pub fn has_unread(&self) -> bool {
        self.round.unread_count() > 0
    }

    /// Has all that could not be read be tried again.
    pub fn begin_again(&mut self) {
        self.round.begin_again();
    }
}
