ghost use Rattle.std.specs.Prelude.{◌≡◌, ◌<◌, length, is_ok, IsFalse, IsErr, IfOk};
ghost use Rattle.nm_leg.specs.Call.{Reads, Syncs, Writes, Zeroes, found_by};
ghost use Rattle.nm_leg.specs.Leg.{IsRun, blocks_in};
ghost use Rattle.nm_geometry.specs.Geometry.{IsGeometry, stripe_blocks};
ghost use Rattle.nm_file_leg.specs.Called.{AnswersIn, moved};
ghost use Rattle.nm_file_leg.specs.FileLeg.{Reaches};
ghost use Rattle.nm_file_leg.specs.Look.{reaches};

use crate::called_medium::CalledMedium;
use crate::called_runs::{read_called, write_called};
use crate::file_look::FileLook;
use crate::leg_memory::{LegMemory, SyncBegun, WriteBegun};
use nm_geometry::Shape;
use nm_leg::{CalledLeg, LegFault, zero_run};
use nm_replay::BLOCK_BYTES;
use std::alloc::Global;
use std::io;
use std::sync::{Mutex, MutexGuard};
use std::thread::yield_now;

/// How often a call looks whether another one has noted what came of it, yielding its thread in
/// between.
const LOOKS: u64 = u64::MAX;

/// The place of one stripe in a medium that several threads call at once: a leg, whose blocks lie
/// among those of the whole export, in their order.
///
/// Nothing is read, written or synced while the memory is locked. A loss is asked for, and noted,
/// only while it is.
#[derive(Drop)]
pub struct FilePlace<M: CalledMedium> {
    medium: M,
    shape: Shape,
    stripe: u32,
    /// How many bytes the medium had when the leg was made.
    size: u64,
    memory: Mutex<LegMemory>,
    ghost bounds: { IsGeometry shape },
    ghost inside: { stripe < shape.stripes },
}

impl<M: CalledMedium> FilePlace<M> {
    /// The leg of this stripe of a mirror of this shape, of which nothing is known to be durable.
    ///
    /// Fails where the medium does not tell its length, or ends before the stripe's last block, or
    /// memory is refused.
    pub fn new(alloc: Global, medium: M, shape: &Shape, stripe: u32) -> io::Result<Self>
        requires stripe { stripe < shape.now.stripes }
        ensures laid { IfOk result (λ leg. (leg.shape ≡ shape.now) × (leg.stripe ≡ stripe)) }
        ensures medium { IfOk result (λ leg. leg.medium ≡ medium) }
        ensures reaches { IfOk result (λ leg. Reaches stripe shape.now leg.size) }
    {
        let blocks = shape.stripe_blocks(stripe);
        let last = shape.export_block(stripe, blocks - 1);
        let size = medium.len()?;
        if size < BLOCK_BYTES as u64 * last + BLOCK_BYTES as u64 {
            return Err(io::Error::from(io::ErrorKind::UnexpectedEof));
        }
        let memory = LegMemory::new(alloc, shape.region, blocks)?;
        Ok(FilePlace {
            medium,
            shape: *shape,
            stripe,
            size,
            memory: Mutex::new(memory),
        })
    }

    /// The medium that keeps the blocks.
    pub fn medium(&self) -> &M
        ensures { result.now ≡ self.now.medium }
    {
        &self.medium
    }

    /// What is remembered, once no other call notes what came of it.
    fn memory(&self) -> Option<MutexGuard<'_, LegMemory>> {
        for _ in 0..LOOKS {
            if let Some(memory) = self.memory.try_lock() {
                return Some(memory);
            }
            yield_now();
        }
        None
    }

    /// Notes that a write begins.
    fn begin_write(&self, at: u64, count: u64) -> Option<WriteBegun> {
        let mut memory = self.memory()?;
        Some(memory.begin_write(self.medium.tells_loss(), at, count))
    }

    /// Notes that a write has ended. Whether it was noted.
    fn end_write(&self, begun: WriteBegun, at: u64, count: u64, is_written: bool) -> bool {
        let Some(mut memory) = self.memory() else {
            return false;
        };
        memory.end_write(begun, at, count, is_written);
        true
    }

    /// Notes that a sync begins, unless something is lost.
    fn begin_sync(&self) -> Option<SyncBegun> {
        let mut memory = self.memory()?;
        memory.begin_sync(self.medium.tells_loss())
    }

    /// Notes that a sync has ended. Whether it has succeeded.
    fn end_sync(&self, begun: SyncBegun, is_synced: bool) -> bool
        ensures { IsFalse is_synced → IsFalse result }
    {
        let Some(mut memory) = self.memory() else {
            return false;
        };
        let is_told = self.medium.tells_loss();
        memory.end_sync(begun, is_synced, is_told, self.medium.is_doubted())
    }
}

impl<M: CalledMedium> CalledLeg for FilePlace<M> {
    type Look = FileLook;

    ghost blocks = { λ leg. stripe_blocks leg.stripe leg.shape };

    ghost answers = { λ leg. AnswersIn
        (moved (M.found leg.medium) (M.wrote leg.medium) (M.synced leg.medium))
        leg.stripe leg.shape };

    fn len(&self) -> u64 {
        self.shape.stripe_blocks(self.stripe)
    }

    fn look(&self) -> FileLook {
        FileLook::of(self.medium.len())
    }

    fn read(&self, at: u64, into: &mut [u8]) -> Result<(), LegFault> {
        if !read_called(&self.medium, &self.shape, self.stripe, at, into) {
            return Err(LegFault);
        }
        Ok(())
    }

    fn write(&self, look: FileLook, at: u64, bytes: &[u8]) -> Result<(), LegFault>
        requires { IsRun at (stripe_blocks self.now.stripe self.now.shape) bytes.now }
        ensures answers { AnswersIn (moved (M.found self.now.medium) (M.wrote self.now.medium)
            (M.synced self.now.medium)) self.now.stripe self.now.shape
            (Writes at bytes.now) (found_by (is_ok result)) }
        ensures shorter { IsFalse (reaches look.length self.now.size) → IsErr result }
    {
        if !look.reaches(self.size) {
            return Err(LegFault);
        }
        let count = (bytes.len() / BLOCK_BYTES) as u64;
        let Some(begun) = self.begin_write(at, count) else {
            return Err(LegFault);
        };
        let keeps_holes = begun.keeps_holes();
        let (shape, stripe) = (&self.shape, self.stripe);
        let is_written = write_called(&self.medium, shape, stripe, at, bytes, keeps_holes);
        if !self.end_write(begun, at, count, is_written) || !is_written {
            return Err(LegFault);
        }
        Ok(())
    }

    fn zero(&self, look: FileLook, at: u64, count: u64) -> Result<(), LegFault> {
        self.write(look, at, zero_run(count as usize))
    }

    fn sync(&self) -> Result<(), LegFault> {
        let Some(begun) = self.begin_sync() else {
            return Err(LegFault);
        };
        let is_synced = self.medium.sync().is_ok();
        if !self.end_sync(begun, is_synced) {
            return Err(LegFault);
        }
        Ok(())
    }
}
