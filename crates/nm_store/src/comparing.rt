//! Opens a store by comparing each leg with the master, run by run.
ghost use Rattle.std.specs.Prelude.{◌≡◌, ◌*◌, ◌<◌, if◌then◌else◌, length, slice_set, true, None};
ghost use Rattle.std.specs.Prelude.{IsTrue, IfOk, IfErr, OnOk, OnErr};
ghost use Rattle.nm_choice.specs.declared.leg_state.LegState.TheVariants.{InSync};
ghost use Rattle.nm_leg.specs.Leg.{blocks_in, blocks_of, leg_type};
ghost use Rattle.nm_leg.specs.LegCalls.{EachHas};
ghost use Rattle.nm_regions.specs.Changes.{all_set_aside, attached};
ghost use Rattle.nm_regions.specs.Sound.{AreSizes};
ghost use Rattle.nm_regions.specs.Table.{is_out};
ghost use Rattle.nm_resync.specs.Chunk.{IsChunkSize};
ghost use Rattle.nm_rules.specs.Comparing.{comparing, marked_at, dropped, compared};
ghost use Rattle.nm_rules.specs.RunComparing.{ComparesLegRun, ComparesRun, FailsOnMasterRun};
ghost use Rattle.nm_rules.specs.RunComparing.{OpensComparedRuns};
ghost use Rattle.nm_rules.specs.Runs.{FitsRun};
ghost use Rattle.nm_rules.specs.State.{is_joining, leg_state, table};
ghost use Rattle.nm_store.specs.Comparing.{ComparesAll, ComparesNext, FailsOnRun};
ghost use Rattle.nm_store.specs.Comparing.{FailsToOpenRuns, IsComparing};

use crate::store::Store;
use nm_choice::{LegState, Policy};
use nm_fanout::MOST_RUN;
use nm_leg::{LegFault, LegPart};
use nm_replay::BLOCK_BYTES;
use nm_rules::{At, OpenFault};
use std::alloc::{AllocError, Global};

/// How many bytes the longest run has.
const MOST_BYTES: usize = BLOCK_BYTES * MOST_RUN;

/// Room for the bytes of the longest run.
fn run_room(alloc: Global) -> Result<Vec<u8>, AllocError>
    ensures { IfOk result (λ room. length room.items ≡ 65536) }
{
    let mut room = Vec::with_capacity(alloc, MOST_BYTES)?;
    room.resize(MOST_BYTES, 0)?;
    Ok(room)
}

/// Whether a leg of this state is joining.
fn is_joining(state: LegState) -> bool
    ensures { result ≡ is_joining state }
{
    match state {
        LegState::Joining => true,
        LegState::InSync | LegState::Out => false,
    }
}

impl<L: LegPart> Store<L> {
    /// The master is in sync, and each other leg is set aside: out in the region table, and behind
    /// nowhere, until it is compared or opens as it stands.
    pub(crate) fn start_comparing(&mut self, master: u8)
        requires leg { master < length self.old.legs }
        requires none_open { self.old.copy ≡ None }
        ensures { self.new ≡ record self.old {
          states = slice_set self.old.states master InSync;
          flags = (attached master (all_set_aside (table self.old))).legs;
          master = master;
        } }
    {
        self.regions.set_all_aside();
        self.regions.attach(master);
        self.states[master as usize] = LegState::InSync;
        self.master = master;
    }

    /// The block's region is behind for the leg.
    fn mark_at(&mut self, leg: u8, block: u64)
        requires leg { leg < length self.old.legs }
        requires block { block < self.old.place.blocks }
        requires out { IsTrue (is_out leg (table self.old)) }
        ensures { self.new ≡ marked_at leg block self.old }
    {
        let region = self.regions.region_of(block);
        self.regions.mark(leg, region);
    }

    /// The leg is out, and behind in all regions.
    fn drop_out(&mut self, leg: u8)
        requires leg { leg < length self.old.legs }
        requires out { IsTrue (is_out leg (table self.old)) }
        ensures { self.new ≡ dropped leg self.old }
    {
        self.regions.mark_all(leg);
        self.states[leg as usize] = LegState::Out;
    }

    /// Reads a run of a leg that joins, from this block on, beside what the master holds there.
    /// Where they differ the run's region is behind for the leg; where the read fails it is out.
    fn compare_leg(&mut self, leg: u8, block: u64, held: &[u8], found: &mut [u8])
        requires leg { leg < length self.old.legs }
        requires run { FitsRun self.old.place block (blocks_in held.now) }
        requires whole { length held.now ≡ 512 * blocks_in held.now }
        requires long { length found.old ≡ length held.now }
        requires comparing { IsComparing L.model self.old }
        ensures compares { ComparesLegRun (leg_type L.model L.honest) block (blocks_of held.now) leg
            self.old self.new }
        ensures long { length found.new ≡ length found.old }
    {
        if !is_joining(self.state(leg)) {
            return;
        }
        if self.read_leg(leg, block, found).is_err() {
            self.drop_out(leg);
            return;
        }
        if *found == *held {
            return;
        }
        self.mark_at(leg, block);
    }

    /// How many legs there are, as the number of a leg.
    pub(crate) fn leg_count(&self) -> u8
        ensures { result ≡ length self.now.legs }
    {
        self.regions.legs()
    }

    /// Reads a run of the master, from this block on, and compares each other leg with it, by
    /// rising number.
    fn compare_run(&mut self, block: u64, held: &mut [u8], found: &mut [u8]) -> Result<(), LegFault>
        requires run { FitsRun self.old.place block (blocks_in held.old) }
        requires whole { length held.old ≡ 512 * blocks_in held.old }
        requires long { length found.old ≡ length held.old }
        requires comparing { IsComparing L.model self.old }
        ensures compares { OnOk result (ComparesRun (leg_type L.model L.honest) block
            (blocks_in held.old) self.old self.new) }
        ensures fails { OnErr result (FailsOnRun (leg_type L.model L.honest) block
            self.old self.new.legs) }
    {
        self.read_leg(self.master(), block, held)?;
        for leg in 0..self.leg_count() {
            self.compare_leg(leg, block, held, found);
        }
        Ok(())
    }

    /// How many blocks the longest run has that begins at this block.
    fn run_length(&self, block: u64) -> u64
        requires { block < self.now.place.blocks }
        ensures { FitsRun self.now.place block result }
    {
        self.regions.is_sound();
        let left = self.place.region - block % self.place.region;
        (MOST_RUN as u64).min(left).min(self.place.blocks - block)
    }

    /// Compares the longest run that begins at this block, and gives how many blocks it has.
    fn compare_next(
        &mut self,
        block: u64,
        held: &mut [u8],
        found: &mut [u8],
    ) -> Result<u64, LegFault>
        requires block { block < self.old.place.blocks }
        requires held { length held.old ≡ 65536 }
        requires found { length found.old ≡ 65536 }
        requires comparing { IsComparing L.model self.old }
        ensures compares { IfOk result
            (ComparesNext (leg_type L.model L.honest) block self.old self.new) }
        ensures fails { OnErr result
            (FailsOnRun (leg_type L.model L.honest) block self.old self.new.legs) }
    {
        let count = self.run_length(block);
        let long = BLOCK_BYTES * count as usize;
        self.compare_run(block, &mut held[..long], &mut found[..long])?;
        Ok(count)
    }

    /// Compares all blocks, run by run, until a read of the master fails.
    fn compare_runs(&mut self, held: &mut [u8], found: &mut [u8]) -> Result<(), LegFault>
        requires comparing { IsComparing L.model self.old }
        requires held { length held.old ≡ 65536 }
        requires found { length found.old ≡ 65536 }
        ensures compares { OnOk result
            (ComparesAll (leg_type L.model L.honest) self.old self.new) }
        ensures fails { OnErr result
            (FailsOnMasterRun (leg_type L.model L.honest) self.old self.new.legs) }
    {
        let mut block = 0;
        while block < self.place().blocks {
            block += self.compare_next(block, held, found)?;
        }
        Ok(())
    }

    /// A leg that joins is no longer out in the region table.
    fn end_comparing_leg(&mut self, leg: u8)
        requires { leg < length self.old.legs }
        ensures { self.new ≡ (if is_joining (leg_state leg self.old)
            then record self.old { flags = (attached leg (table self.old)).legs }
            else self.old) }
    {
        if !is_joining(self.state(leg)) {
            return;
        }
        self.regions.attach(leg);
    }

    /// No leg that joins is out in the region table any more.
    fn end_comparing(&mut self)
        ensures { self.new ≡ compared self.old }
    {
        for leg in 0..self.leg_count() {
            self.end_comparing_leg(leg);
        }
    }

    /// The legs of a store that is given up.
    fn into_legs(self) -> Vec<L>
        ensures { result.items ≡ self.legs }
    {
        let Store {
            place: _,
            policy: _,
            legs,
            states: _,
            regions: _,
            buffer: _,
            master: _,
            settling: _,
            stopped: _,
            turn: _,
            records: _,
            tickets: _,
            kept: _,
            first: _,
        } = self;
        legs
    }

    /// The store of a stripe of these legs, each compared with the master. The master is in sync;
    /// the others join, behind in the regions where they differ, but for those of which a read
    /// failed: these are out, and behind in all regions.
    ///
    /// All memory is taken first, room for two runs until the comparison ends among it. Then all
    /// blocks are read, by runs of up to 128 blocks of one region, by rising number: on the master,
    /// and on each other leg that is not out. The first read of the master that fails ends it.
    pub fn open_compared(
        alloc: Global,
        place: At,
        legs: Vec<L>,
        master: u8,
        first: u64,
        policy: Policy,
    ) -> Result<Store<L>, (OpenFault, Vec<L>)>
        requires sizes { AreSizes place.blocks place.region (length legs.items) }
        requires chunk { IsChunkSize place.chunk }
        requires lengths { EachHas L.model legs.items place.blocks }
        requires master { master < length legs.items }
        ensures opened { IfOk result (OpensComparedRuns (leg_type L.model L.honest)
            (comparing place legs.items master first policy)) }
        ensures handed_back { IfErr result (λ refused. FailsToOpenRuns (leg_type L.model L.honest)
            (comparing place legs.items master first policy) refused.0 refused.1.items) }
    {
        let (Ok(mut held), Ok(mut found)) = (run_room(alloc), run_room(alloc)) else {
            return Err((OpenFault::Memory, legs));
        };
        let mut store = match Store::open(alloc, place, legs, 0, first, policy) {
            Ok(store) => store,
            Err((_, legs)) => return Err((OpenFault::Memory, legs)),
        };
        store.start_comparing(master);
        if store.compare_runs(&mut held, &mut found).is_err() {
            return Err((OpenFault::MasterFault, store.into_legs()));
        }
        store.end_comparing();
        Ok(store)
    }
}
