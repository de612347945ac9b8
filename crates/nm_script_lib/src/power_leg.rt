ghost use Rattle.std.specs.Prelude.{◌≡◌, ◌+◌, ◌<◌, ◌≤◌, ℕ, true, false, length, is_ok};
ghost use Rattle.std.specs.Prelude.{slice_get, Some, IfOk, IfErr};
ghost use Rattle.nm_leg.specs.Leg.{IsOutside, IsRun, SyncsLeg, WritesLeg};
ghost use Rattle.nm_leg.specs.TestLegs.{of_fuse};
ghost use Rattle.nm_script_lib.specs.Power.{IsLeft, changed, stays_at, unsure};
ghost use Rattle.nm_script_lib.specs.declared.run_error.RunError.TheVariants.{Memory};

use crate::run_error::RunError;
use nm_leg::{Fuse, FuseLeg, LegFault, LegPart};
use nm_replay::{BLOCK_BYTES, Block};
use std::alloc::Global;
use std::cell::Cell;

/// An honest leg in memory behind a cache, whose calls fail as a fuse says: a loss of its power
/// takes what was written since the last sync.
///
/// The fuse is set through a shared reference, so that a leg can be made to fail while a stripe
/// has it.
#[derive(Drop)]
pub struct PowerLeg {
    /// What reads find. Its own fuse is set for the one call that is to fail.
    cache: FuseLeg,
    durable: Vec<Block>,
    /// For each block, whether it was written since the last sync.
    unsynced: Vec<bool>,
    fuse: Cell<Fuse>,
    ghost same_length: { length durable.items ≡ length (of_fuse cache).contents },
    ghost marked_each: { length unsynced.items ≡ length (of_fuse cache).contents },
    ghost elsewhere: { (k : ℕ) → slice_get unsynced.items k ≡ Some false
        → slice_get durable.items k ≡ slice_get (of_fuse cache).contents k },
}

/// Marks so many blocks from `at` on.
fn mark(marks: &mut [bool], at: usize, count: usize)
    requires inside { at + count ≤ length marks.old }
    ensures length { length marks.new ≡ length marks.old }
    ensures others { (k : ℕ) → slice_get marks.new k ≡ Some false
        → IsOutside at count k × (slice_get marks.old k ≡ Some false) }
{
    for number in 0..count {
        marks[at + number] = true;
    }
}

/// A copy of what a leg holds.
fn copy_of(alloc: Global, leg: &FuseLeg) -> Result<Vec<Block>, RunError>
    ensures copy { IfOk result (λ copy. copy.items ≡ (of_fuse leg.now).contents) }
    ensures cause { IfErr result (λ e. e ≡ Memory) }
{
    let mut copy = Vec::new(alloc);
    for at in 0..leg.len() {
        copy.push(*leg.block(at))?;
    }
    Ok(copy)
}

/// Copies what a leg holds.
fn copy_into(blocks: &mut [Block], leg: &FuseLeg)
    requires { length blocks.old ≡ length (of_fuse leg.now).contents }
    ensures { blocks.new ≡ (of_fuse leg.now).contents }
{
    for at in 0..blocks.len() {
        blocks[at] = *leg.block(at as u64);
    }
}

/// A leg in memory that holds these blocks. No call of it fails here, as no fuse is set.
fn holding(alloc: Global, blocks: &[Block]) -> Result<FuseLeg, RunError>
    ensures holds { IfOk result (λ leg. (of_fuse leg).contents ≡ blocks.now) }
    ensures cause { IfErr result (λ e. e ≡ Memory) }
{
    let mut leg = FuseLeg::new(alloc, blocks.len() as u64)?;
    for at in 0..blocks.len() {
        if leg.write(at as u64, &blocks[at].0).is_err() {
            return Err(RunError::Memory);
        }
    }
    Ok(leg)
}

impl PowerLeg {
    ghost use Rattle.nm_script_lib.specs.PowerLeg.{of_power};

    /// The leg with these marks, all of it durable.
    fn with_marks(alloc: Global, leg: FuseLeg, unsynced: Vec<bool>) -> Result<Self, RunError>
        requires { length unsynced.items ≡ length (of_fuse leg).contents }
        ensures leg { IfOk result (λ made. of_power made
            ≡ record (of_fuse leg) { unsynced = unsynced.items }) }
        ensures cause { IfErr result (λ e. e ≡ Memory) }
    {
        let durable = copy_of(alloc, &leg)?;
        Ok(PowerLeg {
            cache: leg,
            durable,
            unsynced,
            fuse: Cell::new(Fuse::Never),
        })
    }

    /// The leg with a cache, all of it durable.
    pub fn synced(alloc: Global, leg: FuseLeg) -> Result<Self, RunError>
        ensures leg { IfOk result (λ made. of_power made ≡ of_fuse leg) }
        ensures cause { IfErr result (λ e. e ≡ Memory) }
    {
        let mut unsynced = Vec::new(alloc);
        unsynced.resize(leg.len() as usize, false)?;
        PowerLeg::with_marks(alloc, leg, unsynced)
    }

    /// The leg with a cache, of which nothing is known to be synced.
    pub fn unsure(alloc: Global, leg: FuseLeg) -> Result<Self, RunError>
        ensures leg { IfOk result (λ made. of_power made ≡ unsure (of_fuse leg)) }
        ensures cause { IfErr result (λ e. e ≡ Memory) }
    {
        let mut unsynced = Vec::new(alloc);
        unsynced.resize(leg.len() as usize, true)?;
        PowerLeg::with_marks(alloc, leg, unsynced)
    }

    /// What a loss of power leaves of the leg: what is durable, with the marks and the fuse.
    pub fn left(&self, alloc: Global) -> Result<Self, RunError>
        ensures left { IfOk result (λ part. IsLeft (of_power self.now) (of_power part)) }
        ensures cause { IfErr result (λ e. e ≡ Memory) }
    {
        let cache = holding(alloc, &self.durable)?;
        let unsynced = self.unsynced.clone()?;
        let part = PowerLeg::with_marks(alloc, cache, unsynced)?;
        part.fuse.set(self.fuse.get());
        Ok(part)
    }

    /// Whether a loss of power would leave the block at `at` as it is.
    fn stays(&self, at: usize) -> bool
        requires { at < length (of_power self.now).contents }
        ensures { result ≡ stays_at (of_power self.now) at }
    {
        self.cache.block(at as u64).0 == self.durable[at].0
    }

    /// How many blocks a loss of power would change.
    pub fn changed(&self) -> u64
        ensures { result ≡ changed (of_power self.now) }
    {
        let mut count = 0;
        for at in 0..self.durable.len() {
            if !self.stays(at) {
                count += 1;
            }
        }
        count
    }

    /// The call of this number from now fails, once; 1 is the next. This takes the place of what
    /// was set before.
    pub fn set(&self, call: u64)
        requires { 0 < call }
    {
        self.fuse.set(Fuse::Once(call));
    }

    /// The block at `at`. This does not count as a leg call.
    pub fn block(&self, at: u64) -> &Block
        requires { at < length (of_power self.now).contents }
        ensures { slice_get (of_power self.now).contents at ≡ Some result.now }
    {
        self.cache.block(at)
    }

    /// What a loss of power would leave of the block at `at`.
    pub fn durable_block(&self, at: u64) -> &Block
        requires { at < length (of_power self.now).durable }
        ensures { slice_get (of_power self.now).durable at ≡ Some result.now }
    {
        &self.durable[at as usize]
    }

    /// Counts one call. If it is to fail the cache's next one does.
    fn burn(&self) {
        let mut fuse = self.fuse.get();
        if fuse.burn() {
            self.cache.set(1);
        }
        self.fuse.set(fuse);
    }
}

impl LegPart for PowerLeg {
    ghost use Rattle.nm_script_lib.specs.PowerLeg.{of_power};

    ghost honest = { true };

    ghost model = { of_power };

    ghost same_length = { λ leg. leg.same_length };

    ghost marked_each = { λ leg. leg.marked_each };

    ghost durable_elsewhere = { λ leg is_honest. leg.elsewhere };

    fn len(&self) -> u64 {
        self.cache.len()
    }

    fn read(&mut self, at: u64, into: &mut [u8]) -> Result<(), LegFault> {
        self.burn();
        self.cache.read(at, into)
    }

    fn write(&mut self, at: u64, bytes: &[u8]) -> Result<(), LegFault>
        requires { IsRun at (length (of_power self.old).contents) bytes.now }
        ensures cached { (of_power self.new).durable ≡ (of_power self.old).durable }
        ensures writes { WritesLeg true (is_ok result) at bytes.now
            (of_power self.old) (of_power self.new) }
    {
        self.burn();
        mark(&mut self.unsynced, at as usize, bytes.len() / BLOCK_BYTES);
        self.cache.write(at, bytes)
    }

    fn sync(&mut self) -> Result<(), LegFault> {
        self.burn();
        self.cache.sync()?;
        copy_into(&mut self.durable, &self.cache);
        self.unsynced.fill(false);
        Ok(())
    }

    fn is_unsynced(&self, at: u64, count: u64) -> bool {
        let (at, end) = (at as usize, (at + count) as usize);
        self.unsynced[at..end].iter().any(|unsynced| *unsynced)
    }

    fn faults(&self) -> u64 {
        self.cache.faults()
    }
}
