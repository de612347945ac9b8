//! Which leg a read takes, and the changes of a read: a leg is called, and the entry is kept.
ghost use Rattle.std.specs.Prelude.{◌≡◌, ◌+◌, ◌*◌, ◌<◌, ◌≤◌, ◌^◌, [], length, is_ok, Some};
ghost use Rattle.nm_leg.specs.Leg.{blocks_in, blocks_of, leg_type};
ghost use Rattle.nm_leg.specs.LegCalls.{HasRun};
ghost use Rattle.nm_replay.specs.Kept.{kept_with};
ghost use Rattle.nm_rules.specs.RunCalls.{ReadsRunAt};
ghost use Rattle.nm_rules.specs.RunRead.{after_read_run, last_block, read_entries};
ghost use Rattle.nm_rules.specs.Runs.{FitsRun};
ghost use Rattle.nm_rules.specs.State.{next_number, is_quiet};
ghost use Rattle.nm_rules.specs.Read.{current_legs, read_leg, true_from, turn_after};

use crate::read_choice::ReadChoice;
use crate::store::Store;
use arrayvec::ArrayVec;
use nm_choice::{next_turn, pick};
use nm_leg::{LegFault, LegPart, read_leg_at};
use nm_regions::LEGS;
use nm_replay::{Kept, Kind};

/// Adds the numbers of the places that are true to an empty list, by rising number. The list is
/// filled where it lies: a move right after stores of single bytes stalls the processor.
#[inline(always)]
fn add_true_places(places: &[bool; LEGS], numbers: &mut ArrayVec<u8, LEGS>)
    requires { numbers.old.items ≡ [] }
    ensures { numbers.new.items ≡ true_from 0 places.now }
{
    for place in 0..LEGS {
        if places[place] {
            numbers.push(place as u8);
        }
    }
}

/// Keeps one entry for each block of the bytes: the numbers and blocks are those from these on.
fn keep_blocks(kept: &mut Kept, number: u64, block: u64, bytes: &[u8])
    requires total { kept.old.total + blocks_in bytes.now ≤ 2 ^ 63 }
    requires numbers { number + blocks_in bytes.now ≤ 2 ^ 63 }
    requires blocks { block + blocks_in bytes.now < 2 ^ 64 }
    requires whole { length bytes.now ≡ 512 * blocks_in bytes.now }
    ensures last { kept.new.last
        ≡ kept_with (read_entries number block (blocks_of bytes.now)) kept.old.last }
    ensures total { kept.new.total ≡ kept.old.total + blocks_in bytes.now }
{
    kept.push_run(number, Kind::Read, block, bytes);
}

impl<L: LegPart> Store<L> {
    /// The leg that a read of the block takes: in a region with no write under way one of those
    /// that are current there, by the policy, and else the master.
    pub fn leg_to_read(&self, block: u64) -> ReadChoice
        requires block { block < self.now.place.blocks }
        requires current { 0 < length (current_legs block self.now) }
        ensures leg { read_leg block self.now ≡ Some result.leg }
        ensures quiet { result.quiet ≡ is_quiet block self.now }
    {
        let region = self.regions.region_of(block);
        let quiet = self.regions.is_quiet(region);
        let mut current = ArrayVec::new();
        add_true_places(&self.regions.targets(block), &mut current);
        let leg = pick(self.policy, self.turn, region, &current, self.master, quiet);
        ReadChoice { leg, quiet }
    }

    /// Reads a run of a leg, from this block on, in one call. A fault leaves any bytes in `into`.
    /// No more than the leg changes.
    pub fn read_leg(&mut self, leg: u8, block: u64, into: &mut [u8]) -> Result<(), LegFault>
        requires leg { leg < length self.old.legs }
        requires run { HasRun L.model self.old.legs leg block into.old }
        ensures reads { ReadsRunAt (leg_type L.model L.honest) (is_ok result) leg block
            (blocks_of into.new) self.old.legs self.new.legs }
        ensures long { length into.new ≡ length into.old }
        ensures others { self.new ≡ record self.old { legs = self.new.legs } }
    {
        read_leg_at(&mut self.legs, leg, block, into)
    }

    /// Keeps the entries of a read that found these bytes, from this block on, and gives the number
    /// of the first. Where no write is under way in the run's region, which `quiet` tells, the turn
    /// passes.
    pub fn keep_read(&mut self, block: u64, bytes: &[u8], quiet: bool) -> u64
        requires whole { length bytes.now ≡ 512 * blocks_in bytes.now }
        requires run { FitsRun self.old.place block (blocks_in bytes.now) }
        requires quiet { quiet ≡ is_quiet (last_block block (blocks_in bytes.now)) self.old }
        requires numbers { next_number self.old + blocks_in bytes.now ≤ 2 ^ 63 }
        requires turn { self.old.turn < 840 }
        ensures number { result ≡ next_number self.old }
        ensures kept { self.new ≡ after_read_run self.old self.old.legs block (blocks_of bytes.now)
            (turn_after (last_block block (blocks_in bytes.now)) self.old) }
    {
        let number = self.first + self.kept.total();
        keep_blocks(&mut self.kept, number, block, bytes);
        if quiet {
            self.turn = next_turn(self.turn);
        }
        number
    }
}
