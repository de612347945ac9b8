//! Opens a store by what a superblock says of its legs, none of which is read.
ghost use Rattle.std.specs.Prelude.{◌≡◌, ◌≢◌, ◌<◌, ◌==◌, false, true, if◌then◌else◌, length};
ghost use Rattle.std.specs.Prelude.{slice_index_or, slice_set, IfOk, IfErr, IsTrue};
ghost use Rattle.nm_regions.specs.Changes.{with_leg};
ghost use Rattle.nm_regions.specs.Sound.{AreSizes};
ghost use Rattle.nm_regions.specs.Table.{is_out, leg_at, regions_of};
ghost use Rattle.nm_resync.specs.Chunk.{IsChunkSize};
ghost use Rattle.nm_rules.specs.Attach.{fallen};
ghost use Rattle.nm_rules.specs.Comparing.{waiting};
ghost use Rattle.nm_rules.specs.Reopening.{Marks, OpeningPlan, marks_from, plan_of, planned};
ghost use Rattle.nm_rules.specs.Reopening.{reopened, reopened_leg, reopened_state};
ghost use Rattle.nm_store.specs.Reopening.{AreAside, IsAside, opened_upto};

use crate::store::Store;
use nm_choice::{LegState, Policy};
use nm_leg::LegPart;
use nm_regions::Regions;
use nm_replay::Memory;
use nm_rules::{At, LegOpening, MarkedPlan};
use std::alloc::Global;

/// Whether the span is marked. One past the last is not.
pub(crate) fn is_marked(marked: &[bool], span: u64) -> bool
    ensures { result ≡ slice_index_or marked.now span false }
{
    if span < marked.len() as u64 {
        marked[span as usize]
    } else {
        false
    }
}

/// The state that a leg opens with.
fn reopened_state(opening: LegOpening) -> LegState
    ensures { result ≡ reopened_state opening }
{
    match opening {
        LegOpening::Partial | LegOpening::Whole => LegState::Joining,
        LegOpening::Missing => LegState::Out,
    }
}

/// A leg that is out falls behind in each region whose span is marked, too. Goes over all regions.
fn mark_spans(regions: &mut Regions, leg: u8, marked: &[bool], span: u64)
    requires leg { leg < length regions.old.legs }
    requires out { IsTrue (is_out leg regions.old) }
    requires some { 0 < span }
    ensures { let marks : Marks = record { marked = marked.now; span = span } in
        regions.new ≡ with_leg (fallen (marks_from marks (length regions.old.writes) 0)) leg
        regions.old }
{
    regions.is_sound();
    for region in 0..regions.regions() {
        if is_marked(marked, region / span) {
            regions.mark(leg, region);
        }
    }
}

/// A leg that is set aside opens as it stands.
fn open_regions(regions: &mut Regions, leg: u8, opening: LegOpening, marked: &[bool], span: u64)
    requires leg { leg < length regions.old.legs }
    requires aside { leg_at leg regions.old ≡ waiting (length regions.old.writes) }
    requires some { 0 < span }
    ensures { let marks : Marks = record { marked = marked.now; span = span } in
        regions.new ≡ with_leg (λ l. reopened_leg marks (length regions.old.writes) opening) leg
        regions.old }
{
    match opening {
        LegOpening::Partial => {
            mark_spans(regions, leg, marked, span);
            regions.attach(leg);
        }
        LegOpening::Whole => regions.replace(leg),
        LegOpening::Missing => regions.mark_all(leg),
    }
}

impl<L: LegPart> Store<L> {
    /// A leg that is set aside opens as it stands.
    fn open_other(&mut self, leg: u8, opening: LegOpening, marked: &[bool], span: u64)
        requires leg { leg < length self.old.legs }
        requires aside { IsAside leg self.old }
        requires some { 0 < span }
        ensures { let marks : Marks = record { marked = marked.now; span = span } in
            let regions = regions_of self.old.place.blocks self.old.place.region in
            self.new ≡ record self.old {
              states = slice_set self.old.states leg (reopened_state opening);
              flags = slice_set self.old.flags leg (reopened_leg marks regions opening);
            } }
    {
        open_regions(&mut self.regions, leg, opening, marked, span);
        self.states[leg as usize] = reopened_state(opening);
    }

    /// The leg opens as it stands, unless it is the master, which is open.
    fn open_leg(&mut self, leg: u8, opening: LegOpening, marked: &[bool], span: u64)
        requires leg { leg < length self.old.legs }
        requires aside { leg ≢ self.old.master → IsAside leg self.old }
        requires some { 0 < span }
        ensures { let marks : Marks = record { marked = marked.now; span = span } in
            let regions = regions_of self.old.place.blocks self.old.place.region in
            self.new ≡ (if leg == self.old.master then self.old else record self.old {
              states = slice_set self.old.states leg (reopened_state opening);
              flags = slice_set self.old.flags leg (reopened_leg marks regions opening);
            }) }
    {
        if leg != self.master {
            self.open_other(leg, opening, marked, span);
        }
    }

    /// Each leg but the master opens as it stands.
    fn open_legs(&mut self, others: &[LegOpening], marked: &[bool], span: u64)
        requires each { length others.now ≡ length self.old.legs }
        requires aside { AreAside self.old }
        requires some { 0 < span }
        ensures { let marks : Marks = record { marked = marked.now; span = span } in
            let plan : OpeningPlan =
            record { master = self.old.master; others = others.now; marks = marks } in
            self.new ≡ opened_upto plan (length self.old.legs) self.old }
    {
        for leg in 0..self.leg_count() {
            self.open_leg(leg, others[leg as usize], marked, span);
        }
    }

    /// The store of a stripe of these legs as a superblock has them stand. The master is in sync;
    /// each other leg joins, behind in the regions of marked spans or everywhere, or is out. No leg
    /// is called, and no step goes over blocks. Where an allocation fails the legs come back.
    pub fn open_marked(
        alloc: Global,
        place: At,
        legs: Vec<L>,
        plan: &MarkedPlan<'_>,
        first: u64,
        policy: Policy,
    ) -> Result<Store<L>, (Memory, Vec<L>)>
        requires sizes { AreSizes place.blocks place.region (length legs.items) }
        requires chunk { IsChunkSize place.chunk }
        requires master { plan.now.master < length legs.items }
        requires each { length plan.now.others.now ≡ length legs.items }
        requires some { 0 < plan.now.span }
        ensures opened { IfOk result (λ store. store ≡ reopened place
            (planned place legs.items (plan_of plan.now) first policy)) }
        ensures handed_back { IfErr result (λ refused. refused.1.items ≡ legs.items) }
    {
        let mut store = Store::open(alloc, place, legs, 0, first, policy)?;
        store.start_comparing(plan.master);
        store.open_legs(plan.others, plan.marked, plan.span);
        Ok(store)
    }
}
