//! What a leg that several threads call remembers of its regions.
ghost use Rattle.std.specs.Prelude.{◌≡◌, ◌≢◌, ◌+◌, ◌-◌, ◌/◌, ◌%◌, ◌^◌, ◌<◌, ◌≤◌, ◌↔◌};
ghost use Rattle.std.specs.Prelude.{if◌then◌else◌, true, None};
ghost use Rattle.std.specs.Prelude.{IsTrue, IsFalse, IfOk, IfSome};
ghost use Rattle.nm_file_leg.specs.Remembered.{AreWhole, Begins, HasRun, LearnsLoss, LosesWrite};
ghost use Rattle.nm_file_leg.specs.Remembered.{NotesWrite, BeginsSync, EndsSync, count_regions};

use crate::region_writes::{RegionWrites, learn_loss};
use std::alloc::{AllocError, Global};

/// What a leg that several threads call remembers of its regions, while none of them notes what
/// came of its call.
///
/// A sync covers the writes that were noted before it began. A write over which a sync failed, or a
/// loss was told, is lost, since that sync may have lost what was written so far; and a sync over
/// which another one failed has failed.
#[derive(Drop)]
pub(crate) struct LegMemory {
    writes: RegionWrites,
    /// How many failures of syncs were noted, modulo 2^64.
    failures: u64,
}

/// How the memory was as a write began.
#[derive(Clone, Copy)]
pub(crate) struct WriteBegun {
    failures: u64,
    keeps_holes: bool,
}

/// How the memory was as a sync began.
#[derive(Clone, Copy)]
pub(crate) struct SyncBegun {
    failures: u64,
    /// The last period that the sync covers.
    asked: u32,
}

impl WriteBegun {
    /// Whether zeroes need not be written into holes: nothing of the run was lost.
    pub(crate) fn keeps_holes(self) -> bool
        ensures { result ≡ self.keeps_holes }
    {
        self.keeps_holes
    }
}

impl LegMemory {
    /// Of a stripe of so many blocks, in regions of so many: all of them may have been written.
    pub(crate) fn new(alloc: Global, region: u64, blocks: u64) -> Result<Self, AllocError>
        requires some { 1 ≤ region }
        requires most { region ≤ 65536 }
        requires few { blocks ≤ 2 ^ 31 }
        ensures { IfOk result (λ memory. Begins region blocks memory.writes) }
    {
        let writes = RegionWrites::new(alloc, region, blocks)?;
        Ok(LegMemory {
            writes,
            failures: 0,
        })
    }

    /// Notes a loss, if one is told.
    fn learn(&mut self, is_told: bool)
        ensures learns { LearnsLoss is_told self.old.writes self.new.writes }
        ensures counted { self.new.failures
            ≡ (if is_told then (self.old.failures + 1) % 2 ^ 64 else self.old.failures) }
    {
        learn_loss(&mut self.writes, is_told);
        if is_told {
            self.failures = self.failures.wrapping_add(1);
        }
    }

    /// Notes that a write of a run begins, before which a loss was told or was not.
    pub(crate) fn begin_write(&mut self, is_told: bool, at: u64, count: u64) -> WriteBegun
        ensures learns { LearnsLoss is_told self.old.writes self.new.writes }
        ensures begun { result.failures ≡ self.new.failures }
        ensures holes { IsTrue result.keeps_holes → HasRun at count self.new.writes
            × AreWhole (at / self.new.writes.region)
            ((at + count - 1) / self.new.writes.region + 1) self.new.writes }
    {
        self.learn(is_told);
        let keeps_holes = self.writes.has_run(at, count) && self.writes.is_whole_at(at, count);
        WriteBegun {
            failures: self.failures,
            keeps_holes,
        }
    }

    /// Notes that a write of a run has ended, and whether all of it was written.
    pub(crate) fn end_write(&mut self, begun: WriteBegun, at: u64, count: u64, is_written: bool)
        ensures counted { self.new.failures ≡ self.old.failures }
        ensures notes { HasRun at count self.old.writes → begun.failures ≡ self.old.failures
            → NotesWrite is_written at count self.old.writes self.new.writes }
        ensures loses { HasRun at count self.old.writes → begun.failures ≢ self.old.failures
            → LosesWrite at count self.old.writes self.new.writes }
    {
        if !self.writes.has_run(at, count) {
            return;
        }
        if begun.failures == self.failures {
            self.writes.note_write(at, count, is_written);
        } else {
            self.writes.lose_write(at, count);
        }
    }

    /// Notes that a sync begins, before which a loss was told or was not. None where something is
    /// lost: then a sync makes nothing durable that was written before.
    pub(crate) fn begin_sync(&mut self, is_told: bool) -> Option<SyncBegun>
        ensures whole { IfSome result (λ begun.
            AreWhole 0 (count_regions self.old.writes) self.old.writes) }
        ensures begins { IfSome result (λ begun.
            BeginsSync begun.asked self.old.writes self.new.writes
            × (begun.failures ≡ self.new.failures)) }
        ensures told { IsTrue is_told → result ≡ None }
    {
        self.learn(is_told);
        if is_told || !self.writes.is_whole() {
            return None;
        }
        let asked = self.writes.begin_sync();
        Some(SyncBegun {
            failures: self.failures,
            asked,
        })
    }

    /// Notes that a sync has ended: whether the medium's call succeeded, whether a loss is told
    /// behind it, and whether the medium is in doubt. Whether the sync has succeeded.
    pub(crate) fn end_sync(
        &mut self,
        begun: SyncBegun,
        is_synced: bool,
        is_told: bool,
        is_doubted: bool,
    ) -> bool
        ensures done { IsTrue result
            ↔ (IsTrue is_synced × IsFalse is_told × (begun.failures ≡ self.old.failures)) }
        ensures ends { IsTrue result → IsFalse is_doubted → begun.asked < self.old.writes.running
            → EndsSync begun.asked self.old.writes self.new.writes }
        ensures doubted { IsTrue result → IsTrue is_doubted
            → self.new.writes ≡ self.old.writes }
        ensures fails { IsFalse is_synced → LearnsLoss true self.old.writes self.new.writes }
    {
        self.learn(is_told || !is_synced);
        let is_done = is_synced && !is_told && begun.failures == self.failures;
        if is_done && !is_doubted {
            self.writes.end_sync(begun.asked);
        }
        is_done
    }
}
