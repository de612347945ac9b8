ghost use Rattle.std.specs.Prelude.{◌≡◌, ◌+◌, ◌%◌, ◌^◌, ◌<◌, true, length, refl, is_ok, slice_get};
ghost use Rattle.std.specs.Prelude.{Some, IfSome, IfOk, IsErr, OnErr};
ghost use Rattle.nm_leg.specs.Leg.{IsRun, WritesLeg, filled_leg};
ghost use Rattle.nm_leg.specs.TestLegs.{torn_at, torn_run};

use crate::fuse::Fuse;
use crate::moving::{put_blocks, splice, take_blocks};
use crate::{LegFault, LegPart};
use nm_replay::{BLOCK_BYTES, Block, Memory};
use std::alloc::Global;
use std::cell::Cell;

/// An honest leg in memory whose calls fail as a fuse says, for tests.
///
/// Each read, write and sync counts as a call. The fuse is set through a shared reference, so that
/// a leg can be made to fail while a stripe has it.
#[derive(Drop)]
pub struct FuseLeg {
    blocks: Vec<Block>,
    faults: u64,
    fuse: Cell<Fuse>,
}

/// Writes the first half of a run's bytes.
fn tear(blocks: &mut [Block], at: usize, bytes: &[u8])
    requires { IsRun at (length blocks.old) bytes.now }
    ensures { IfSome (slice_get blocks.old (torn_at at bytes.now))
        (λ was. blocks.new ≡ torn_run at bytes.now was blocks.old) }
{
    let half = &bytes[..bytes.len() / 2];
    let whole = half.len() / BLOCK_BYTES;
    let rest = &half[whole * BLOCK_BYTES..];
    put_blocks(blocks, at, half);
    splice(&mut blocks[at + whole].0, 0, rest);
}

impl FuseLeg {
    ghost use Rattle.nm_leg.specs.TestLegs.{of_fuse};

    /// A leg of so many zero blocks, of which no call fails. All of its memory is allocated here.
    pub fn new(alloc: Global, blocks: u64) -> Result<Self, Memory>
        ensures ok { IfOk result (λ leg. of_fuse leg ≡ filled_leg blocks 0) }
        ensures memory { OnErr result (0 < blocks) }
    {
        FuseLeg::with_byte(alloc, blocks, 0)
    }

    /// A leg of so many blocks, each byte of them this one, of which no call fails. All of its
    /// memory is allocated here.
    pub fn with_byte(alloc: Global, blocks: u64, byte: u8) -> Result<Self, Memory>
        ensures ok { IfOk result (λ leg. of_fuse leg ≡ filled_leg blocks byte) }
        ensures memory { OnErr result (0 < blocks) }
    {
        let mut all = Vec::new(alloc);
        all.resize(blocks as usize, Block([byte; BLOCK_BYTES]))?;
        Ok(FuseLeg {
            blocks: all,
            faults: 0,
            fuse: Cell::new(Fuse::Never),
        })
    }

    /// The call of this number from now fails, once; 1 is the next. This takes the place of what
    /// was set before.
    pub fn set(&self, call: u64)
        requires { 0 < call }
    {
        self.fuse.set(Fuse::Once(call));
    }

    /// The call of this number from now and all later ones fail; 1 is the next. This takes the
    /// place of what was set before.
    pub fn fail_from(&self, call: u64)
        requires { 0 < call }
    {
        self.fuse.set(Fuse::From(call));
    }

    /// The block at `at`. This does not count as a leg call.
    pub fn block(&self, at: u64) -> &Block
        requires { at < length (of_fuse self.now).contents }
        ensures { slice_get (of_fuse self.now).contents at ≡ Some result.now }
    {
        &self.blocks[at as usize]
    }

    /// Counts one call, and tells whether it fails.
    fn burn(&self) -> bool {
        let mut fuse = self.fuse.get();
        let fails = fuse.burn();
        self.fuse.set(fuse);
        fails
    }

    fn fail(&mut self) -> Result<(), LegFault>
        ensures fails { IsErr result }
        ensures counted { of_fuse self.new
            ≡ record (of_fuse self.old) { faults = ((of_fuse self.old).faults + 1) % 2 ^ 64 } }
    {
        self.faults = self.faults.wrapping_add(1);
        Err(LegFault)
    }
}

impl LegPart for FuseLeg {
    ghost use Rattle.std.specs.Prelude.{false};
    ghost use Rattle.std.proofs.lemmas.List.{length-replicate};
    ghost use Rattle.nm_leg.specs.TestLegs.{of_fuse};

    ghost honest = { true };

    ghost model = { of_fuse };

    ghost same_length = { λ leg. refl };

    ghost marked_each = { λ leg. length-replicate (length leg.blocks.items) false };

    ghost durable_elsewhere = { λ leg is_honest k is. refl };

    fn len(&self) -> u64 {
        self.blocks.len() as u64
    }

    fn read(&mut self, at: u64, into: &mut [u8]) -> Result<(), LegFault> {
        if self.burn() {
            return self.fail();
        }
        take_blocks(&self.blocks, at as usize, into);
        Ok(())
    }

    fn write(&mut self, at: u64, bytes: &[u8]) -> Result<(), LegFault>
        requires { IsRun at (length (of_fuse self.old).contents) bytes.now }
        ensures torn { IfSome (slice_get (of_fuse self.old).contents (torn_at at bytes.now))
            (λ was. OnErr result ((of_fuse self.new).contents
            ≡ torn_run at bytes.now was (of_fuse self.old).contents)) }
        ensures writes { WritesLeg true (is_ok result) at bytes.now
            (of_fuse self.old) (of_fuse self.new) }
    {
        if self.burn() {
            tear(&mut self.blocks, at as usize, bytes);
            return self.fail();
        }
        put_blocks(&mut self.blocks, at as usize, bytes);
        Ok(())
    }

    fn sync(&mut self) -> Result<(), LegFault> {
        if self.burn() {
            return self.fail();
        }
        Ok(())
    }

    fn is_unsynced(&self, _at: u64, _count: u64) -> bool {
        false
    }

    fn faults(&self) -> u64 {
        self.faults
    }
}
