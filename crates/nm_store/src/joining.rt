//! A leg that is out joins again: as it is, as one that may have lost something, or replaced.
ghost use Rattle.std.specs.Prelude.{◌≡◌, ◌<◌, length, IsTrue};
ghost use Rattle.nm_leg.specs.LegCalls.{EachHas};
ghost use Rattle.nm_regions.specs.Changes.{with_leg};
ghost use Rattle.nm_regions.specs.LegFlags.{attached};
ghost use Rattle.nm_regions.specs.Table.{is_out};
ghost use Rattle.nm_rules.specs.State.{table};
ghost use Rattle.nm_rules.specs.Attach.{after_attach, after_replace, after_return, fallen};
ghost use Rattle.nm_rules.specs.Attach.{lacking_from, may_lack, may_lack_each};
ghost use Rattle.nm_rules.specs.Losing.{with_part};
ghost use Rattle.nm_rules.specs.Reopening.{Marks};

use crate::reopening::is_marked;
use crate::store::Store;
use crate::unsynced::is_unsynced;
use nm_choice::LegState;
use nm_leg::LegPart;
use nm_regions::Regions;

/// Whether the leg may lack something of this region once it lost power.
fn may_lack<L: LegPart>(
    regions: &Regions,
    region: u64,
    part: &L,
    marked: &[bool],
    span: u64,
) -> bool
    requires region { region < length regions.now.writes }
    requires some { 0 < span }
    requires long { length (L.model part.now).contents ≡ regions.now.blocks }
    ensures { let marks : Marks = record { marked = marked.now; span = span } in
        result ≡ may_lack marks (L.model part.now).unsynced regions.now region }
{
    is_marked(marked, region / span) && is_unsynced(regions, region, part)
}

/// A leg that is out falls behind in each region of the marked spans in which it has something
/// unsynced. Goes over all regions.
fn mark_lacking<L: LegPart>(regions: &mut Regions, leg: u8, part: &L, marked: &[bool], span: u64)
    requires leg { leg < length regions.old.legs }
    requires out { IsTrue (is_out leg regions.old) }
    requires some { 0 < span }
    requires long { length (L.model part.now).contents ≡ regions.old.blocks }
    ensures { let marks : Marks = record { marked = marked.now; span = span } in
        let unsynced = (L.model part.now).unsynced in
        let more = lacking_from marks unsynced regions.old (length regions.old.writes) 0 in
        regions.new ≡ with_leg (fallen more) leg regions.old }
{
    regions.is_sound();
    for region in 0..regions.regions() {
        if may_lack(regions, region, part, marked, span) {
            regions.mark(leg, region);
        }
    }
}

/// A leg that is out joins, behind also in the regions of the marked spans in which it has
/// something unsynced.
fn return_regions<L: LegPart>(regions: &mut Regions, leg: u8, part: &L, marked: &[bool], span: u64)
    requires leg { leg < length regions.old.legs }
    requires out { IsTrue (is_out leg regions.old) }
    requires some { 0 < span }
    requires long { length (L.model part.now).contents ≡ regions.old.blocks }
    ensures { let marks : Marks = record { marked = marked.now; span = span } in
        let unsynced = (L.model part.now).unsynced in
        let more = lacking_from marks unsynced regions.old (length regions.old.writes) 0 in
        regions.new ≡ with_leg (λ r. attached (fallen more r)) leg regions.old }
{
    mark_lacking(regions, leg, part, marked, span);
    regions.attach(leg);
}

impl<L: LegPart> Store<L> {
    /// The leg joins, with the regions that it was behind in.
    pub fn attach(&mut self, leg: u8)
        requires { leg < length self.old.legs }
        ensures { self.new ≡ after_attach self.old leg }
    {
        self.regions.attach(leg);
        self.states[leg as usize] = LegState::Joining;
    }

    /// The leg joins, with the regions that it was behind in and those of the marked spans, each of
    /// so many regions, in which it has something unsynced. Goes over all regions.
    pub fn return_leg(&mut self, leg: u8, marked: &[bool], span: u64)
        requires leg { leg < length self.old.legs }
        requires out { IsTrue (is_out leg (table self.old)) }
        requires some { 0 < span }
        requires lengths { EachHas L.model self.old.legs self.old.place.blocks }
        ensures { let marks : Marks = record { marked = marked.now; span = span } in
            self.new ≡ after_return self.old leg (may_lack_each L.model marks self.old leg) }
    {
        return_regions(
            &mut self.regions,
            leg,
            &self.legs[leg as usize],
            marked,
            span,
        );
        self.states[leg as usize] = LegState::Joining;
    }

    /// Another leg stands in its place, with the state and the regions of the one that was there,
    /// which is dropped.
    pub fn stand_in(&mut self, leg: u8, part: L)
        requires { leg < length self.old.legs }
        ensures { self.new ≡ with_part self.old leg part }
    {
        self.legs[leg as usize] = part;
    }

    /// Another leg joins in its place, with all regions behind. The leg that was there is dropped.
    pub fn replace(&mut self, leg: u8, part: L)
        requires leg { leg < length self.old.legs }
        requires out { IsTrue (is_out leg (table self.old)) }
        ensures { self.new ≡ after_replace self.old leg part }
    {
        self.regions.replace(leg);
        self.legs[leg as usize] = part;
        self.states[leg as usize] = LegState::Joining;
    }
}
