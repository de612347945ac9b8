//! Another leg becomes the master.
ghost use Rattle.std.specs.Prelude.{◌≡◌, ◌+◌, ◌≤◌, ◌^◌, max};
ghost use Rattle.nm_fanout.specs.Records.{unlanded};
ghost use Rattle.nm_fanout.specs.Runs.{flat, runs_landed, unlanded_blocks};
ghost use Rattle.nm_replay.specs.Kept.{kept_with};
ghost use Rattle.nm_rules.specs.State.{next_number};
ghost use Rattle.nm_rules.specs.Lost.{landing, failed_over};
ghost use Rattle.nm_store.specs.Landing.{AreWords};

use crate::landing::land_run;
use crate::store::Store;
use nm_choice::elect;
use nm_fanout::Records;
use nm_leg::LegPart;
use nm_replay::Kept;

/// Each run without an entry takes effect, by rising ticket: it gets the next numbers, and its
/// entries are kept.
fn land_all(records: &mut Records, kept: &mut Kept, first: u64)
    requires numbers { first + kept.old.total + unlanded_blocks records.old ≤ max (2 ^ 63) first }
    requires words { AreWords records.old }
    ensures records { records.new ≡ runs_landed (first + kept.old.total) records.old }
    ensures last { kept.new.last
        ≡ kept_with (landing (first + kept.old.total) (flat records.old)) kept.old.last }
    ensures total { kept.new.total ≡ kept.old.total + unlanded_blocks records.old }
{
    let mut number = first + kept.total();
    while let Some(place) = records.first_unlanded() {
        let blocks = records.at(place).blocks();
        land_run(records, kept, place, number);
        number += blocks;
    }
}

impl<L: LegPart> Store<L> {
    /// The lowest leg in sync becomes the master. Each write without an entry takes effect, and no
    /// read is done until all writes under way are finished.
    pub(crate) fn fail_over(&mut self)
        requires numbers { next_number self.old + unlanded self.old.records
            ≤ max (2 ^ 63) self.old.first }
        ensures { self.new ≡ failed_over self.old }
    {
        self.regions.is_sound();
        self.master = elect(&self.states).unwrap_or(self.master);
        land_all(&mut self.records, &mut self.kept, self.first);
        self.settling = true;
    }
}
