//! Why each step is refused: the first condition that holds.
ghost use Rattle.std.specs.Prelude.{◌≡◌, ◌+◌, ◌<◌, ◌≤◌, ◌^◌, length, max, Some};
ghost use Rattle.std.specs.Prelude.{None, IfErr, IfOk, OnOk};
ghost use Rattle.std.specs.Option.{option_map};
ghost use Rattle.nm_fanout.specs.Records.{busy_among, unlanded};
ghost use Rattle.nm_regions.specs.declared.copy_place.CopyPlace.{CopyPlace};
ghost use Rattle.nm_regions.specs.Table.{length_of};
ghost use Rattle.nm_rules.specs.declared.refusal.Refusal.TheVariants.{Busy};
ghost use Rattle.nm_rules.specs.State.{next_number, copy_start, table};
ghost use Rattle.nm_rules.specs.Begin.{is_full};
ghost use Rattle.nm_rules.specs.RunBegin.{begin_run_cause, copying_run};
ghost use Rattle.nm_rules.specs.RunPush.{push_run_cause};
ghost use Rattle.nm_rules.specs.RunClaim.{claim_run_cause};
ghost use Rattle.nm_rules.specs.RunRead.{read_run_cause};
ghost use Rattle.nm_rules.specs.Runs.{FitsRun};
ghost use Rattle.nm_rules.specs.Failing.{fail_cause};
ghost use Rattle.nm_rules.specs.Attach.{attach_cause};
ghost use Rattle.nm_rules.specs.Copy.{copy_cause};
ghost use Rattle.nm_rules.specs.Promote.{promote_cause};
ghost use Rattle.nm_rules.specs.Sync.{sync_cause};
ghost use Rattle.nm_store.specs.Finding.{place_of};

use crate::store::Store;
use nm_choice::LegState;
use nm_leg::LegPart;
use nm_regions::CopyPlace;
use nm_rules::Refusal;

impl<L: LegPart> Store<L> {
    /// The refusal for a run under way on one of so many blocks.
    fn busy_among(&self, first: u64, count: u64) -> Option<Refusal>
        requires { 0 < count }
        ensures { result ≡ option_map (λ r. Busy r.run) (busy_among first count self.now.records) }
    {
        let ticket = self.records.busy_among(first, count)?;
        Some(Refusal::Busy(ticket))
    }

    /// The first block that the copy has still to copy.
    pub(crate) fn block_of(&self, copy: CopyPlace) -> u64
        requires within { copy.cursor < length_of copy.region (table self.now) }
        ensures start { result ≡ copy_start self.now.place.region copy }
        ensures inside { result < self.now.place.blocks }
        ensures few { self.now.place.blocks ≤ 2 ^ 31 }
    {
        self.regions.is_sound();
        copy.region * self.place.region + copy.cursor
    }

    /// The refusal for an open copy whose chunk or cursor some of so many blocks meet.
    fn copying_run(&self, first: u64, count: u64) -> Option<Refusal>
        requires copy { (copy : CopyPlace) → self.now.copy ≡ Some copy
            → copy.cursor < length_of copy.region (table self.now) }
        requires inside { first + count ≤ self.now.place.blocks }
        ensures { result ≡ copying_run first count self.now }
    {
        let copy = self.regions.copy()?;
        let start = self.block_of(copy);
        if start < first + count && first < start + self.buffer.length() {
            Some(Refusal::Copying(copy.leg))
        } else {
            None
        }
    }

    /// Whether there are as many runs as there may be.
    fn is_full(&self) -> bool
        ensures { result ≡ is_full self.now }
    {
        self.records.is_sound();
        self.records.is_full()
    }

    /// Why a write of so many blocks, from this one on, may not begin.
    pub fn begin_cause(&self, block: u64, count: u64) -> Option<Refusal>
        requires run { FitsRun self.now.place block count }
        requires copy { (copy : CopyPlace) → self.now.copy ≡ Some copy
            → copy.cursor < length_of copy.region (table self.now) }
        requires numbers { next_number self.now + unlanded self.now.records
            ≤ max (2 ^ 63) self.now.first }
        ensures { result ≡ begin_run_cause self.now block count }
    {
        if self.stopped {
            return Some(Refusal::Stopped);
        }
        if self.settling {
            return Some(Refusal::Settling);
        }
        if let Some(refusal) = self.busy_among(block, count) {
            return Some(refusal);
        }
        if let Some(refusal) = self.copying_run(block, count) {
            return Some(refusal);
        }
        if self.is_full() {
            return Some(Refusal::Full);
        }
        if self.is_exhausted_by(count) {
            return Some(Refusal::Exhausted);
        }
        None
    }

    /// The place of the run of this ticket, where it may be pushed to this leg; else why not.
    pub fn find_to_push(&self, ticket: u64, leg: u8) -> Result<usize, Refusal>
        ensures ok { OnOk result (push_run_cause self.now ticket leg ≡ None) }
        ensures place { IfOk result (λ place. place ≡ place_of ticket self.now.records) }
        ensures cause { IfErr result (λ refusal.
            push_run_cause self.now ticket leg ≡ Some refusal) }
    {
        if self.stopped {
            return Err(Refusal::Stopped);
        }
        let Some(place) = self.records.find(ticket) else {
            return Err(Refusal::NoTicket);
        };
        let run = self.records.at(place);
        if run.owes(leg) {
            Ok(place)
        } else {
            Err(Refusal::NotOwed)
        }
    }

    /// The place of the run of this ticket, where it may be claimed; else why not.
    pub fn find_to_claim(&self, ticket: u64) -> Result<usize, Refusal>
        ensures ok { OnOk result (claim_run_cause self.now ticket ≡ None) }
        ensures place { IfOk result (λ place. place ≡ place_of ticket self.now.records) }
        ensures cause { IfErr result (λ refusal. claim_run_cause self.now ticket ≡ Some refusal) }
    {
        if self.stopped {
            return Err(Refusal::Stopped);
        }
        let Some(place) = self.records.find(ticket) else {
            return Err(Refusal::NoTicket);
        };
        let run = self.records.at(place);
        if run.is_under_way() {
            Err(Refusal::NotYet)
        } else {
            Ok(place)
        }
    }

    /// Why so many blocks may not be read.
    pub fn read_cause(&self, count: u64) -> Option<Refusal>
        requires numbers { next_number self.now + unlanded self.now.records
            ≤ max (2 ^ 63) self.now.first }
        requires most { count ≤ 128 }
        ensures { result ≡ read_run_cause self.now count }
    {
        if self.stopped {
            return Some(Refusal::Stopped);
        }
        if self.settling {
            return Some(Refusal::Settling);
        }
        if self.is_exhausted_by(count) {
            return Some(Refusal::Exhausted);
        }
        None
    }

    /// Why this leg may not be taken out.
    pub fn fail_cause(&self, leg: u8) -> Option<Refusal>
        requires { leg < length self.now.legs }
        ensures { result ≡ fail_cause self.now leg }
    {
        if let Some(refusal) = self.sync_cause(leg) {
            return Some(refusal);
        }
        if self.is_last(leg) {
            return Some(Refusal::LastLeg);
        }
        None
    }

    /// Why this leg may not join again.
    pub fn attach_cause(&self, leg: u8) -> Option<Refusal>
        requires { leg < length self.now.legs }
        ensures { result ≡ attach_cause self.now leg }
    {
        if self.stopped {
            return Some(Refusal::Stopped);
        }
        if self.states[leg as usize] != LegState::Out {
            return Some(Refusal::NotOut);
        }
        None
    }

    /// Why this leg may not be synced.
    pub fn sync_cause(&self, leg: u8) -> Option<Refusal>
        requires { leg < length self.now.legs }
        ensures { result ≡ sync_cause self.now leg }
    {
        if self.stopped {
            return Some(Refusal::Stopped);
        }
        if self.states[leg as usize] == LegState::Out {
            return Some(Refusal::AlreadyOut);
        }
        None
    }

    /// Why this leg may not be called in sync.
    pub fn promote_cause(&self, leg: u8) -> Option<Refusal>
        requires { leg < length self.now.legs }
        ensures { result ≡ promote_cause self.now leg }
    {
        if self.stopped {
            return Some(Refusal::Stopped);
        }
        if self.states[leg as usize] != LegState::Joining {
            return Some(Refusal::NotJoining);
        }
        if self.regions.has_behind(leg) {
            return Some(Refusal::NotYet);
        }
        None
    }

    /// Why no copy of the leg is asked for.
    pub fn copy_cause(&self, leg: u8) -> Option<Refusal>
        requires { leg < length self.now.legs }
        ensures { result ≡ copy_cause self.now leg }
    {
        if self.stopped {
            return Some(Refusal::Stopped);
        }
        if self.settling {
            return Some(Refusal::Settling);
        }
        if self.states[leg as usize] != LegState::Joining {
            return Some(Refusal::NotJoining);
        }
        None
    }
}
