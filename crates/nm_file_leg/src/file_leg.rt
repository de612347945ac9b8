ghost use Rattle.std.specs.Prelude.{◌≡◌, ◌+◌, ◌%◌, ◌^◌, ◌<◌, ◌≤◌, length, is_ok, IsTrue};
ghost use Rattle.std.specs.Prelude.{IsFalse, IsErr, IfSome, OnOk, OnErr, IfOk};
ghost use Rattle.nm_leg.specs.Leg.{IsRun, WritesLeg, SyncsLeg, blocks_in};
ghost use Rattle.nm_geometry.specs.Geometry.{IsGeometry, stripe_blocks};
ghost use Rattle.nm_file_leg.specs.Blocks.{leg_on, same_length};
ghost use Rattle.nm_file_leg.specs.Runs.{WritesRun, KeepsRun, run_places};
ghost use Rattle.nm_file_leg.specs.FileLeg.{OwnsBlocks, KeepsBlocks, FileRules, Reaches, file_leg};
ghost use Rattle.nm_file_leg.specs.Look.{reaches};
ghost use Rattle.nm_file_leg.specs.Marks.{durable_elsewhere, marked_each};
ghost use Rattle.nm_file_leg.specs.Remembered.{count_regions, AreWhole, Begins, NotesWrite};
ghost use Rattle.nm_file_leg.specs.Remembered.{EndsPeriod, NotesFailure, learnt};

use crate::Medium;
use crate::file_look::FileLook;
use crate::region_writes::{RegionWrites, end_period, learn_loss};
use crate::runs::{read_run, write_run};
use nm_geometry::Shape;
use nm_leg::{LegFault, LegPart};
use nm_replay::BLOCK_BYTES;
use std::alloc::Global;
use std::io;

/// The leg of one stripe on a medium, which has the blocks of the whole export in their order.
///
/// Over an honest medium it is an honest leg.
#[derive(Drop)]
pub struct FileLeg<M: Medium> {
    medium: M,
    shape: Shape,
    stripe: u32,
    /// How many bytes the medium had when the leg was made.
    size: u64,
    faults: u64,
    /// Which regions were written since the last sync that succeeded, and what was written again
    /// since one failed.
    writes: RegionWrites,
    /// No sync has succeeded since the leg was made or last written.
    dirty: bool,
    /// Whether the medium told a loss before the last write.
    told_loss: bool,
    /// Whether the medium was in doubt behind the last sync that succeeded.
    was_doubted: bool,
    ghost bounds: { IsGeometry shape },
    ghost inside: { stripe < shape.stripes },
    ghost owns: { IsTrue M.honest → OwnsBlocks (M.held medium) stripe shape },
    ghost rules: { FileRules M.honest (M.held medium) stripe shape writes dirty },
}

impl<M: Medium> FileLeg<M> {
    /// The leg of this stripe of a mirror of this shape. It is not known to be durable, so its
    /// first sync calls the medium.
    ///
    /// Fails where the medium does not tell its length, or ends before the stripe's last block, or
    /// memory is refused.
    pub fn new(alloc: Global, medium: M, shape: &Shape, stripe: u32) -> io::Result<Self>
        requires stripe { stripe < shape.now.stripes }
        requires owns { IsTrue M.honest → OwnsBlocks (M.held medium) stripe shape.now }
        requires kept { IsTrue M.honest → KeepsBlocks (M.held medium) stripe shape.now
            (stripe_blocks stripe shape.now) }
        ensures leg { IfOk result (λ leg.
            leg_on (M.held leg.medium) leg.stripe leg.shape leg.faults
            ≡ leg_on (M.held medium) stripe shape.now 0) }
        ensures laid { IfOk result (λ leg. (leg.shape ≡ shape.now) × (leg.stripe ≡ stripe)) }
        ensures medium { IfOk result (λ leg. leg.medium ≡ medium) }
        ensures synced { IfOk result (λ leg. IsTrue leg.dirty
            × Begins shape.now.region (stripe_blocks stripe shape.now) leg.writes) }
        ensures size { IsTrue M.honest
            → IfOk result (λ leg. leg.size ≡ length (M.held medium).contents) }
        ensures reaches { IfOk result (λ leg. Reaches stripe shape.now leg.size) }
    {
        let blocks = shape.stripe_blocks(stripe);
        let last = shape.export_block(stripe, blocks - 1);
        let size = medium.len()?;
        if size < BLOCK_BYTES as u64 * last + BLOCK_BYTES as u64 {
            return Err(io::Error::from(io::ErrorKind::UnexpectedEof));
        }
        let writes = RegionWrites::new(alloc, shape.region, blocks)?;
        Ok(FileLeg {
            medium,
            shape: *shape,
            stripe,
            size,
            faults: 0,
            writes,
            dirty: true,
            told_loss: false,
            was_doubted: false,
        })
    }

    /// The medium that keeps the blocks.
    pub fn medium(&self) -> &M
        ensures { result.now ≡ self.now.medium }
    {
        &self.medium
    }

    /// Looks at the medium's length, for the writes of one operation.
    pub fn look(&self) -> FileLook
        ensures { IsTrue M.honest → IfSome result.length
            (λ n. n ≡ length (M.held self.now.medium).contents) }
    {
        FileLook::at(&self.medium)
    }

    /// Writes a run of blocks from `at` on, by a look at the medium that came before: where that
    /// found it shorter than it was when the leg was made, or was told no length, nothing is
    /// written. What was cut off since is not found: the write makes the medium long again, with
    /// zeroes.
    pub fn write_seen(&mut self, look: FileLook, at: u64, bytes: &[u8]) -> Result<(), LegFault>
        requires { IsRun at (length (leg_on (M.held self.old.medium) self.old.stripe
            self.old.shape self.old.faults).contents) bytes.now }
        ensures writes { WritesLeg M.honest (is_ok result) at bytes.now
            (file_leg (M.held self.old.medium) self.old.stripe self.old.shape self.old.faults
            self.old.writes)
            (file_leg (M.held self.new.medium) self.new.stripe self.new.shape self.new.faults
            self.new.writes) }
        ensures shorter { IsFalse (reaches look.length self.old.size)
            → IsErr result × (self.new.medium ≡ self.old.medium) }
        ensures dirty { IsTrue self.new.dirty }
        ensures told { IsTrue M.honest → self.new.told_loss ≡ M.tells self.old.medium }
        ensures noted { NotesWrite (is_ok result) at (blocks_in bytes.now)
            (learnt self.new.told_loss self.old.writes) self.new.writes }
    {
        let count = (bytes.len() / BLOCK_BYTES) as u64;
        self.told_loss = self.medium.tells_loss();
        learn_loss(&mut self.writes, self.told_loss);
        let keeps_holes = self.writes.is_whole_at(at, count);
        let is_written = write_if_long(
            &mut self.medium,
            look.reaches(self.size),
            &self.shape,
            self.stripe,
            at,
            bytes,
            keeps_holes,
        );
        self.writes.note_write(at, count, is_written);
        self.dirty = true;
        if !is_written {
            return Err(count_fault(&mut self.faults));
        }
        Ok(())
    }
}

/// Writes a run of blocks as `write_run` does, unless the medium was found too short, or told no
/// length.
fn write_if_long<M: Medium>(
    medium: &mut M,
    is_long: bool,
    shape: &Shape,
    stripe: u32,
    at: u64,
    bytes: &[u8],
    keeps_holes: bool,
) -> bool
    requires shape { IsGeometry shape.now }
    requires stripe { stripe < shape.now.stripes }
    requires run { IsRun at (stripe_blocks stripe shape.now) bytes.now }
    requires kept { IsTrue M.honest → IsTrue keeps_holes
        → KeepsRun (M.held medium.old) (run_places stripe shape.now at) (blocks_in bytes.now) }
    ensures writes { WritesRun M.honest result (run_places stripe shape.now at) bytes.now
        (M.held medium.old) (M.held medium.new) }
    ensures shorter { IsFalse is_long → IsFalse result × (medium.new ≡ medium.old) }
{
    if !is_long {
        return false;
    }
    write_run(medium, shape, stripe, at, bytes, keeps_holes)
}

/// Counts a call that failed.
fn count_fault(faults: &mut u64) -> LegFault
    ensures { faults.new ≡ (faults.old + 1) % 2 ^ 64 }
{
    *faults = faults.wrapping_add(1);
    LegFault
}

impl<M: Medium> LegPart for FileLeg<M> {
    ghost honest = { M.honest };

    ghost model = { λ leg. file_leg (M.held leg.medium) leg.stripe leg.shape leg.faults
        leg.writes };

    ghost same_length = { λ leg. same_length leg.stripe leg.shape
        (stripe_blocks leg.stripe leg.shape)
        (M.held leg.medium).durable (M.held leg.medium).contents };

    ghost marked_each = { λ leg. marked_each leg.stripe leg.shape leg.writes
        (stripe_blocks leg.stripe leg.shape) (M.held leg.medium).contents };

    ghost durable_elsewhere = { λ leg is_honest. durable_elsewhere (M.held leg.medium) leg.stripe
        leg.shape leg.writes leg.rules.region (leg.rules.durable is_honest) leg.faults };

    fn len(&self) -> u64 {
        self.shape.stripe_blocks(self.stripe)
    }

    fn read(&mut self, at: u64, into: &mut [u8]) -> Result<(), LegFault> {
        if !read_run(&mut self.medium, &self.shape, self.stripe, at, into) {
            return Err(count_fault(&mut self.faults));
        }
        Ok(())
    }

    fn write(&mut self, at: u64, bytes: &[u8]) -> Result<(), LegFault>
        requires { IsRun at (length (leg_on (M.held self.old.medium) self.old.stripe
            self.old.shape self.old.faults).contents) bytes.now }
        ensures writes { WritesLeg M.honest (is_ok result) at bytes.now
            (file_leg (M.held self.old.medium) self.old.stripe self.old.shape self.old.faults
            self.old.writes)
            (file_leg (M.held self.new.medium) self.new.stripe self.new.shape self.new.faults
            self.new.writes) }
        ensures shorter { IsTrue M.honest
            → length (M.held self.old.medium).contents < self.old.size
            → IsErr result × (self.new.medium ≡ self.old.medium) }
        ensures dirty { IsTrue self.new.dirty }
        ensures told { IsTrue M.honest → self.new.told_loss ≡ M.tells self.old.medium }
        ensures noted { NotesWrite (is_ok result) at (blocks_in bytes.now)
            (learnt self.new.told_loss self.old.writes) self.new.writes }
    {
        let look = self.look();
        self.write_seen(look, at, bytes)
    }

    fn sync(&mut self) -> Result<(), LegFault>
        ensures syncs { SyncsLeg M.honest (is_ok result)
            (file_leg (M.held self.old.medium) self.old.stripe self.old.shape self.old.faults
            self.old.writes)
            (file_leg (M.held self.new.medium) self.new.stripe self.new.shape self.new.faults
            self.new.writes) }
        ensures quiet { IsFalse self.old.dirty
            → IsTrue (is_ok result) × (self.new ≡ self.old) }
        ensures lost { IsTrue self.old.dirty
            → ¬ AreWhole 0 (count_regions self.old.writes) self.old.writes
            → IsErr result × (self.new.medium ≡ self.old.medium)
            × (self.new.writes ≡ self.old.writes) × IsTrue self.new.dirty }
        ensures synced { IsTrue self.old.dirty
            → OnOk result (IsFalse self.new.dirty
            × EndsPeriod self.new.was_doubted self.old.writes self.new.writes) }
        ensures doubted { IsTrue M.honest → IsTrue self.old.dirty
            → OnOk result (self.new.was_doubted ≡ M.doubted self.new.medium) }
        ensures failed { IsTrue self.old.dirty
            → AreWhole 0 (count_regions self.old.writes) self.old.writes
            → OnErr result (IsTrue self.new.dirty
            × NotesFailure self.old.writes self.new.writes) }
    {
        if !self.dirty {
            return Ok(());
        }
        if !self.writes.is_whole() {
            return Err(count_fault(&mut self.faults));
        }
        match self.medium.sync() {
            Ok(()) => {
                self.dirty = false;
                self.was_doubted = self.medium.is_doubted();
                end_period(&mut self.writes, self.was_doubted);
                Ok(())
            }
            Err(_) => {
                self.writes.note_failure();
                Err(count_fault(&mut self.faults))
            }
        }
    }

    fn is_unsynced(&self, at: u64, count: u64) -> bool {
        self.writes.are_written(at, count)
    }

    fn faults(&self) -> u64 {
        self.faults
    }
}
