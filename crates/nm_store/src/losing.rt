//! A leg goes out, or the stripe stops.
ghost use Rattle.std.specs.Prelude.{◌≡◌, ◌+◌, ◌<◌, ◌≤◌, ◌^◌, ◌&&◌, true, not, length, max};
ghost use Rattle.nm_fanout.specs.Record.{is_under_way, without_leg};
ghost use Rattle.nm_fanout.specs.Records.{left_by, unlanded};
ghost use Rattle.nm_fanout.specs.Runs.{flat};
ghost use Rattle.nm_rules.specs.State.{next_number};
ghost use Rattle.nm_rules.specs.Lost.{chunk_but_of, without_leg_of, lost, lost_all};
ghost use Rattle.nm_store.specs.Counting.{LieInRegions, counting};

use crate::store::Store;
use nm_choice::LegState;
use nm_fanout::{Record, Records};
use nm_leg::LegPart;
use nm_regions::{CopyPlace, Regions};
use nm_resync::Copy as CopyBuffer;

/// Drops the open chunk where the copy is of this leg.
fn drop_chunk_of(buffer: &mut CopyBuffer, copy: Option<CopyPlace>, leg: u8)
    ensures { buffer.new ≡ record buffer.old {
      chunk = chunk_but_of leg copy buffer.old.chunk;
      rest = buffer.new.rest;
    } }
{
    if let Some(copy) = copy {
        if copy.leg == leg {
            buffer.drop_chunk();
        }
    }
}

/// Whether the run has still to reach this leg and no other.
fn owes_only(record: &Record, leg: u8) -> bool
    ensures { result ≡ is_under_way record.now && not (is_under_way (without_leg leg record.now)) }
{
    record.owes(leg) && record.owed_count() == 1
}

/// Counts no block any more of each run that owes only this leg.
fn finish_without(regions: &mut Regions, records: &Records, leg: u8)
    requires counted { regions.old ≡ counting (flat records.now) regions.old }
    requires inside { LieInRegions regions.old.blocks regions.old.region records.now }
    ensures { regions.new ≡ counting (flat (left_by leg records.now)) regions.old }
{
    for place in 0..records.len() {
        let run = records.at(place);
        if owes_only(run, leg) {
            regions.finish(run.block, run.blocks() as u16);
        }
    }
}

impl<L: LegPart> Store<L> {
    /// The leg goes out: no write owes it any more, its copy is dropped, and its dirty regions are
    /// behind.
    fn take_out(&mut self, leg: u8)
        requires leg { leg < length self.old.legs }
        ensures { self.new ≡ without_leg_of leg self.old }
    {
        self.states[leg as usize] = LegState::Out;
        drop_chunk_of(&mut self.buffer, self.regions.copy(), leg);
        self.regions.go_out(leg);
        finish_without(&mut self.regions, &self.records, leg);
        self.records.leave(leg);
    }

    /// The leg goes out. Where it was the master, the lowest leg in sync becomes the master, each
    /// write without an entry takes effect, by rising ticket, and the stripe settles until no write
    /// is under way.
    pub fn lose(&mut self, leg: u8)
        requires leg { leg < length self.old.legs }
        requires numbers { next_number self.old + unlanded self.old.records
            ≤ max (2 ^ 63) self.old.first }
        ensures { self.new ≡ lost leg self.old }
    {
        let was_master = leg == self.master;
        self.take_out(leg);
        if was_master {
            self.fail_over();
        }
        self.settle();
    }

    /// The leg goes out, and all of its regions are behind.
    pub fn lose_all(&mut self, leg: u8)
        requires leg { leg < length self.old.legs }
        requires numbers { next_number self.old + unlanded self.old.records
            ≤ max (2 ^ 63) self.old.first }
        ensures { self.new ≡ lost_all leg self.old }
    {
        self.lose(leg);
        self.regions.mark_all(leg);
    }

    /// The stripe stops.
    pub fn stop(&mut self)
        ensures { self.new ≡ record self.old { stopped = true } }
    {
        self.stopped = true;
    }
}
