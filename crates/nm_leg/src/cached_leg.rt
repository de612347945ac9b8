ghost use Rattle.std.specs.Prelude.{◌≡◌, ◌+◌, ◌<◌, ◌≤◌, ℕ, false, true, length, slice_get, is_ok};
ghost use Rattle.std.specs.Prelude.{Some, IfOk, OnErr};
ghost use Rattle.nm_leg.specs.Leg.{IsOutside, IsRun, SyncsLeg, WritesLeg, no_marks};
ghost use Rattle.nm_leg.specs.Leg.{zeroed_leg};

use crate::moving::{put_blocks, take_blocks};
use crate::{LegFault, LegPart};
use nm_replay::{BLOCK_BYTES, Block, Memory};
use std::alloc::Global;

/// An honest leg behind a cache, for tests: writes stay in the cache until a sync, and a loss of
/// power would empty it. It never fails.
#[derive(Drop)]
pub struct CachedLeg {
    contents: Vec<Block>,
    durable: Vec<Block>,
    /// For each block, whether it was written since the last sync.
    unsynced: Vec<bool>,
    ghost same_length: { length durable.items ≡ length contents.items },
    ghost marked_each: { length unsynced.items ≡ length contents.items },
    ghost elsewhere: { (k : ℕ) → slice_get unsynced.items k ≡ Some false
        → slice_get durable.items k ≡ slice_get contents.items k },
}

/// Marks so many blocks from `at` on.
fn mark(marks: &mut [bool], at: usize, count: usize)
    requires inside { at + count ≤ length marks.old }
    ensures length { length marks.new ≡ length marks.old }
    ensures others { (k : ℕ) → slice_get marks.new k ≡ Some false
        → IsOutside at count k × (slice_get marks.old k ≡ Some false) }
{
    for number in 0..count {
        marks[at + number] = true;
    }
}

impl CachedLeg {
    ghost use Rattle.nm_leg.specs.TestLegs.{of_cached};

    /// A leg of so many zero blocks, all of them durable.
    pub fn new(alloc: Global, blocks: u64) -> Result<Self, Memory>
        ensures ok { IfOk result (λ leg. of_cached leg ≡ zeroed_leg blocks) }
        ensures memory { OnErr result (0 < blocks) }
    {
        let mut contents = Vec::new(alloc);
        contents.resize(blocks as usize, Block::ZERO)?;
        let mut durable = Vec::new(alloc);
        durable.resize(blocks as usize, Block::ZERO)?;
        let mut unsynced = Vec::new(alloc);
        unsynced.resize(blocks as usize, false)?;
        Ok(CachedLeg {
            contents,
            durable,
            unsynced,
        })
    }

    /// What a loss of power would leave of the block at `at`.
    pub fn durable_block(&self, at: u64) -> &Block
        requires { at < length (of_cached self.now).durable }
        ensures { slice_get (of_cached self.now).durable at ≡ Some result.now }
    {
        &self.durable[at as usize]
    }
}

impl LegPart for CachedLeg {
    ghost use Rattle.nm_leg.specs.TestLegs.{of_cached};

    ghost honest = { true };

    ghost model = { of_cached };

    ghost same_length = { λ leg. leg.same_length };

    ghost marked_each = { λ leg. leg.marked_each };

    ghost durable_elsewhere = { λ leg is_honest. leg.elsewhere };

    fn len(&self) -> u64 {
        self.contents.len() as u64
    }

    fn read(&mut self, at: u64, into: &mut [u8]) -> Result<(), LegFault> {
        take_blocks(&self.contents, at as usize, into);
        Ok(())
    }

    fn write(&mut self, at: u64, bytes: &[u8]) -> Result<(), LegFault>
        requires { IsRun at (length (of_cached self.old).contents) bytes.now }
        ensures cached { (of_cached self.new).durable ≡ (of_cached self.old).durable }
        ensures writes { WritesLeg true (is_ok result) at bytes.now
            (of_cached self.old) (of_cached self.new) }
    {
        mark(&mut self.unsynced, at as usize, bytes.len() / BLOCK_BYTES);
        put_blocks(&mut self.contents, at as usize, bytes);
        Ok(())
    }

    fn sync(&mut self) -> Result<(), LegFault>
        ensures unmarked { (of_cached self.new).unsynced
            ≡ no_marks (length (of_cached self.old).unsynced) }
        ensures syncs { SyncsLeg true (is_ok result) (of_cached self.old) (of_cached self.new) }
    {
        self.durable.copy_from_slice(&self.contents);
        self.unsynced.fill(false);
        Ok(())
    }

    fn is_unsynced(&self, at: u64, count: u64) -> bool {
        let (at, end) = (at as usize, (at + count) as usize);
        self.unsynced[at..end].iter().any(|unsynced| *unsynced)
    }

    fn faults(&self) -> u64 {
        0
    }
}
