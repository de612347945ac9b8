ghost use Rattle.std.specs.Prelude.{◌≡◌, ◌+◌, ◌-◌, ◌*◌, ◌<◌, ◌≤◌, ◌^◌, if◌then◌else◌, length, map};
ghost use Rattle.std.specs.Prelude.{replicate, Some, None, IsTrue, IsFalse, IsSome, IfOk};
ghost use Rattle.nm_regions.specs.LegFlags.{is_behind};
ghost use Rattle.nm_regions.specs.Table.{region_of, length_of, writes_in, is_quiet, state, is_out};
ghost use Rattle.nm_regions.specs.Table.{leg_at, has_region, is_current_at, is_current, targets};
ghost use Rattle.nm_regions.specs.Table.{blocks_behind, copied, left, next_behind, has_behind};
ghost use Rattle.nm_regions.specs.Table.{copy_rest};
ghost use Rattle.nm_regions.specs.Changes.{opened, begun_run, finished_run, gone_out, marked};
ghost use Rattle.nm_regions.specs.Changes.{all_marked, all_set_aside, attached, replaced};
ghost use Rattle.nm_regions.specs.Changes.{copy_opened, advanced, region_finished};
ghost use Rattle.nm_regions.specs.Sound.{AreSizes, IsRegionTable};

use crate::copy_place::{CopyPlace, blocks_copied, copies, copy_but_of, has_copied, move_on};
use crate::leg_flags::{LegFlags, mark_where_out, open_legs, set_aside_all};
use crate::region_state::RegionState;
use std::alloc::{AllocError, Global};
use std::marker::Model;

/// How many legs a table has places for.
pub const LEGS: usize = 8;

/// The table of one stripe's regions.
///
/// A region holds so many blocks of the stripe, one after the other; only the last may be shorter.
/// For each region the table counts the writes under way, and for each region and leg it says
/// whether the leg is behind, that is, out of sync there. At most one copy is open: it goes through
/// a region behind of a leg that is not out. No query grows with blocks or regions, but that of
/// `next_behind` with the regions behind that it passes over.
#[derive(Drop)]
pub struct Regions {
    blocks: u64,
    region: u64,
    legs: Vec<LegFlags>,
    writes: Vec<u16>,
    copy: Option<CopyPlace>,
}

impl Model for Regions {
    ghost use Rattle.nm_regions.specs.Table.{RegionTable};

    ghost Value = { RegionTable };

    ghost use Rattle.nm_regions.specs.Sound.{IsRegionTable};
    ghost use Rattle.nm_regions.specs.Inside.{table_of};

    ghost view = { table_of };

    ghost invariant = { λ r. IsRegionTable (table_of r) };
}

impl Regions {
    /// The table of a stripe of so many blocks, for as many legs as `in_sync` has flags. A leg that
    /// is not in sync is behind in every region. No later call takes memory.
    pub fn new(
        alloc: Global,
        blocks: u64,
        region: u64,
        in_sync: &[bool],
    ) -> Result<Regions, AllocError>
        requires sizes { AreSizes blocks region (length in_sync.now) }
        ensures ok { IfOk result (λ table. table ≡ opened blocks region in_sync.now) }
    {
        let regions = ((blocks + region - 1) / region) as usize;
        Ok(Regions {
            blocks,
            region,
            legs: open_legs(alloc, regions, in_sync)?,
            writes: no_writes(alloc, regions)?,
            copy: None,
        })
    }

    /// Says that this is a table of regions, and does nothing: for proofs, which see no invariant
    /// of another crate's type.
    #[inline(always)]
    pub fn is_sound(&self)
        ensures table { IsRegionTable self.now }
    {
        let _blocks = self.blocks;
    }

    /// How many blocks the stripe has.
    pub fn blocks(&self) -> u64
        ensures blocks { result ≡ self.now.blocks }
        ensures table { IsRegionTable self.now }
    {
        self.blocks
    }

    /// How many regions there are.
    pub fn regions(&self) -> u64
        ensures regions { result ≡ length self.now.writes }
        ensures table { IsRegionTable self.now }
    {
        self.writes.len() as u64
    }

    /// How many legs there are.
    pub fn legs(&self) -> u8
        ensures legs { result ≡ length self.now.legs }
        ensures table { IsRegionTable self.now }
    {
        self.legs.len() as u8
    }

    /// The region that the block lies in.
    #[inline(always)]
    pub fn region_of(&self, block: u64) -> u64
        requires block { block < self.now.blocks }
        ensures region { result ≡ region_of block self.now }
        ensures within { result < length self.now.writes }
    {
        block / self.region
    }

    /// The first block of this region.
    pub fn first_block(&self, region: u64) -> u64
        requires region { region < length self.now.writes }
        ensures first { result ≡ region * self.now.region }
        ensures inside { result + length_of region self.now ≤ self.now.blocks }
    {
        self.region * region
    }

    /// How many blocks this region has.
    pub fn length_of(&self, region: u64) -> u64
        requires region { region < length self.now.writes }
        ensures length { result ≡ length_of region self.now }
    {
        self.region.min(self.blocks - region * self.region)
    }

    /// The state of this region.
    pub fn state(&self, region: u64) -> RegionState
        requires region { region < length self.now.writes }
        ensures { result ≡ state region self.now }
    {
        if copies(self.copy, region) {
            RegionState::Recovering
        } else if self.is_quiet(region) {
            RegionState::Clean
        } else {
            RegionState::Dirty
        }
    }

    /// Whether no write under way lies in this region.
    #[inline(always)]
    pub fn is_quiet(&self, region: u64) -> bool
        requires region { region < length self.now.writes }
        ensures { result ≡ is_quiet region self.now }
    {
        self.writes[region as usize] == 0
    }

    /// Whether the leg is out. A leg that the table does not have is.
    #[inline(always)]
    pub fn is_out(&self, leg: u8) -> bool
        ensures { result ≡ is_out leg self.now }
    {
        let leg = leg as usize;
        leg >= self.legs.len() || self.legs[leg].is_out()
    }

    /// Whether the leg is not out, and not behind in this region.
    #[inline(always)]
    fn has_region(&self, leg: u8, region: u64) -> bool
        requires region { region < length self.now.writes }
        ensures { result ≡ has_region leg region self.now }
    {
        !self.is_out(leg) && !self.legs[leg as usize].is_behind(region as usize)
    }

    /// Whether the leg is current at this place of this region.
    #[inline(always)]
    fn is_current_at(&self, leg: u8, region: u64, place: u64) -> bool
        requires region { region < length self.now.writes }
        ensures { result ≡ is_current_at leg region place self.now }
    {
        self.has_region(leg, region) || has_copied(self.copy, leg, region, place)
    }

    /// Whether the leg is current at the block: it holds what the stripe holds there. A leg that
    /// the table does not have is not.
    pub fn is_current(&self, leg: u8, block: u64) -> bool
        requires block { block < self.now.blocks }
        ensures { result ≡ is_current leg block self.now }
    {
        self.is_current_at(leg, self.region_of(block), block % self.region)
    }

    /// For each of eight legs, whether it is current at the block: a write there has to reach it.
    #[inline(always)]
    pub fn targets(&self, block: u64) -> [bool; LEGS]
        requires block { block < self.now.blocks }
        ensures targets { result ≡ targets block self.now }
        ensures table { IsRegionTable self.now }
    {
        let region = self.region_of(block);
        let place = block % self.region;
        [
            self.is_current_at(0, region, place),
            self.is_current_at(1, region, place),
            self.is_current_at(2, region, place),
            self.is_current_at(3, region, place),
            self.is_current_at(4, region, place),
            self.is_current_at(5, region, place),
            self.is_current_at(6, region, place),
            self.is_current_at(7, region, place),
        ]
    }

    /// How many blocks are left to copy to this leg.
    pub fn left(&self, leg: u8) -> u64
        requires leg { leg < length self.now.legs }
        ensures left { result ≡ left leg self.now }
        ensures table { IsRegionTable self.now }
    {
        self.blocks_behind(leg) - blocks_copied(self.copy, leg)
    }

    /// How many blocks lie in the regions behind for this leg. The last region may lack some.
    fn blocks_behind(&self, leg: u8) -> u64
        requires leg { leg < length self.now.legs }
        ensures blocks { let flags = (leg_at leg self.now).behind in
            result ≡ blocks_behind self.now.region self.now.blocks flags }
        ensures copied { copied leg self.now.copy ≤ result }
    {
        let flags = &self.legs[leg as usize];
        flags.behind_count() * self.region - self.blocks_short(flags)
    }

    /// How many blocks the last region lacks to be a whole one, where it is behind for this leg.
    fn blocks_short(&self, flags: &LegFlags) -> u64
        requires all { length flags.now.behind ≡ length self.now.writes }
        ensures { let last = length self.now.writes - 1 in
            let whole = length self.now.writes * self.now.region in
            result ≡ (if is_behind last flags.now then whole - self.now.blocks else 0) }
    {
        let regions = self.writes.len();
        if flags.is_behind(regions - 1) {
            regions as u64 * self.region - self.blocks
        } else {
            0
        }
    }

    /// The lowest region behind that is not below `from`, of a leg that is not out. Goes over its
    /// regions behind below `from`.
    pub fn next_behind(&self, leg: u8, from: u64) -> Option<u64>
        requires leg { leg < length self.now.legs }
        requires attached { IsFalse (is_out leg self.now) }
        ensures next { result ≡ next_behind leg from self.now }
        ensures table { IsRegionTable self.now }
    {
        self.legs[leg as usize].next_behind(from)
    }

    /// Whether the leg is behind in some region.
    pub fn has_behind(&self, leg: u8) -> bool
        requires leg { leg < length self.now.legs }
        ensures { result ≡ has_behind leg self.now }
    {
        self.legs[leg as usize].has_behind()
    }

    /// The open copy.
    pub fn copy(&self) -> Option<CopyPlace>
        ensures copy { result ≡ self.now.copy }
        ensures table { IsRegionTable self.now }
    {
        self.copy
    }

    /// Writes on so many blocks of one region, from this one on, have begun: so many more are under
    /// way in the region, which falls behind on each leg that is out.
    pub fn begin(&mut self, block: u64, count: u16)
        requires block { block < self.old.blocks }
        requires few { writes_in (region_of block self.old) self.old + count ≤ 65535 }
        ensures { self.new ≡ begun_run block count self.old }
    {
        let region = self.region_of(block) as usize;
        self.writes[region] += count;
        mark_where_out(&mut self.legs, region);
    }

    /// Writes on so many blocks of one region, from this one on, have finished: so many fewer are
    /// under way in the region.
    pub fn finish(&mut self, block: u64, count: u16)
        requires block { block < self.old.blocks }
        requires some { count ≤ writes_in (region_of block self.old) self.old }
        ensures { self.new ≡ finished_run block count self.old }
    {
        let region = self.region_of(block) as usize;
        self.writes[region] -= count;
    }

    /// The leg goes out. It falls behind in each region with a write under way, beside those that
    /// it is behind in. Its open copy is dropped. Goes over all regions.
    pub fn go_out(&mut self, leg: u8)
        requires leg { leg < length self.old.legs }
        ensures { self.new ≡ gone_out leg self.old }
    {
        self.copy = copy_but_of(self.copy, leg);
        self.legs[leg as usize].go_out(&self.writes);
    }

    /// All regions are behind from now on, for a leg that is out. Goes over all regions.
    pub fn mark_all(&mut self, leg: u8)
        requires leg { leg < length self.old.legs }
        requires out { IsTrue (is_out leg self.old) }
        ensures { self.new ≡ all_marked leg self.old }
    {
        self.legs[leg as usize].mark_all();
    }

    /// The region is behind from now on, for a leg that is out.
    pub fn mark(&mut self, leg: u8, region: u64)
        requires leg { leg < length self.old.legs }
        requires out { IsTrue (is_out leg self.old) }
        requires region { region < length self.old.writes }
        ensures { self.new ≡ marked leg region self.old }
    {
        self.legs[leg as usize].mark(region as usize);
    }

    /// Every leg is out, and behind nowhere, until it is compared. Goes over all regions.
    pub fn set_all_aside(&mut self)
        requires { self.old.copy ≡ None }
        ensures { self.new ≡ all_set_aside self.old }
    {
        set_aside_all(&mut self.legs);
    }

    /// The leg is not out any more. Its regions are behind as they were. Goes over all regions.
    pub fn attach(&mut self, leg: u8)
        requires leg { leg < length self.old.legs }
        ensures { self.new ≡ attached leg self.old }
    {
        self.legs[leg as usize].attach();
    }

    /// A leg that is out is another one from now on: it joins with all regions behind. Goes over
    /// all regions.
    pub fn replace(&mut self, leg: u8)
        requires leg { leg < length self.old.legs }
        requires out { IsTrue (is_out leg self.old) }
        ensures { self.new ≡ replaced leg self.old }
    {
        self.mark_all(leg);
        self.attach(leg);
    }

    /// A copy of a region where the leg is behind is opened. No copy is open yet.
    pub fn open_copy(&mut self, leg: u8, region: u64)
        requires leg { leg < length self.old.legs }
        requires attached { IsFalse (is_out leg self.old) }
        requires none_open { self.old.copy ≡ None }
        requires behind { IsTrue (is_behind region (leg_at leg self.old)) }
        ensures { self.new ≡ copy_opened leg region self.old }
    {
        self.copy = Some(CopyPlace {
            leg,
            region,
            cursor: 0,
        });
    }

    /// So many more blocks of the open copy's region are copied.
    pub fn advance(&mut self, blocks: u64)
        requires within { blocks ≤ copy_rest self.old }
        ensures { self.new ≡ advanced blocks self.old }
    {
        self.copy = move_on(self.copy, blocks);
    }

    /// The whole region is copied: its leg is no longer behind in it, and the copy ends. Goes over
    /// the leg's regions behind below it.
    pub fn finish_region(&mut self)
        requires open { IsSome self.old.copy }
        requires whole { copy_rest self.old ≡ 0 }
        ensures { self.new ≡ region_finished self.old }
    {
        if let Some(copy) = self.copy {
            self.copy = None;
            self.legs[copy.leg as usize].clear(copy.region as usize);
        }
    }
}

/// No write under way in so many regions.
fn no_writes(alloc: Global, regions: usize) -> Result<Vec<u16>, AllocError>
    ensures ok { IfOk result (λ writes. writes.items ≡ replicate regions 0) }
{
    let mut writes = Vec::with_capacity(alloc, regions)?;
    writes.resize(regions, 0)?;
    Ok(writes)
}
