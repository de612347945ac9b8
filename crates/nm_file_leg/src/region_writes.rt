ghost use Rattle.std.specs.Prelude.{◌≡◌, ℕ, ◌+◌, ◌-◌, ◌*◌, ◌/◌, ◌^◌, ◌<◌, ◌≤◌, ◌↔◌, nat_lt};
ghost use Rattle.std.specs.Prelude.{if◌then◌else◌, IsTrue, IsFalse, IfOk};
ghost use Rattle.std.specs.Prelude.{length, replicate, get_or};
ghost use Rattle.nm_leg.specs.Leg.{is_marked_in};
ghost use Rattle.nm_file_leg.specs.FileLeg.{written_from};
ghost use Rattle.nm_file_leg.specs.Remembered.{count_regions, region_end, AreWhole, Begins};
ghost use Rattle.nm_file_leg.specs.Remembered.{IsInPeriod, NotesWrite, NotesSync, NotesFailure};
ghost use Rattle.nm_file_leg.specs.Remembered.{BeginsSync, EndsSync, HasRun, LosesWrite};
ghost use Rattle.nm_file_leg.specs.Remembered.{Changes, EndsPeriod, LearnsLoss};
ghost use Rattle.nm_file_leg.specs.Remembered.{WritesNone, WritesOne};
ghost use Rattle.nm_file_leg.specs.Remembered.{cursor_moved};

use std::alloc::{AllocError, Global};
use std::marker::Model;

/// What a leg remembers of its regions: which were written since the last sync that succeeded, and
/// how much of each was written again since one failed.
///
/// A sync that begins ends a period, and one that succeeds covers the periods up to that: a region
/// was written since then where its last write is of a later one. So syncs go over the regions once
/// in 2^32 times.
#[derive(Drop)]
pub(crate) struct RegionWrites {
    /// How many blocks a region has.
    region: u64,
    /// How many blocks the stripe has.
    blocks: u64,
    period: u32,
    /// The last period that a sync covers which succeeded.
    covered: u32,
    /// Of each region the period of its last write.
    written_in: Vec<u32>,
    /// Of each region the first block that was not written again since a sync failed.
    rewritten_below: Vec<u32>,
    /// A sync has failed, and none has succeeded since.
    has_failed: bool,
}

impl Model for RegionWrites {
    ghost use Rattle.nm_file_leg.specs.Remembered.{Remembered, remembered, IsKept};

    ghost Value = { Remembered };

    ghost view = { λ w. remembered w.region w.blocks
        (record { running = w.period; covered = w.covered }) w.written_in.items
        w.rewritten_below.items };

    ghost invariant = { λ w. IsKept w.region w.blocks
        (record { running = w.period; covered = w.covered }) w.written_in.items
        w.rewritten_below.items w.has_failed };
}

impl RegionWrites {
    /// Of a stripe of so many blocks, in regions of so many: all of them may have been written.
    pub(crate) fn new(alloc: Global, region: u64, blocks: u64) -> Result<Self, AllocError>
        requires some { 1 ≤ region }
        requires most { region ≤ 65536 }
        requires few { blocks ≤ 2 ^ 31 }
        ensures { IfOk result (λ writes. Begins region blocks writes) }
    {
        let regions = ((blocks + region - 1) / region) as usize;
        let written_in = numbers(alloc, regions, 1)?;
        let rewritten_below = numbers(alloc, regions, blocks as u32)?;
        Ok(RegionWrites {
            region,
            blocks,
            period: 1,
            covered: 0,
            written_in,
            rewritten_below,
            has_failed: false,
        })
    }

    /// The block behind the last one of a region.
    fn region_end(&self, region: u64) -> u64
        requires { region < count_regions self.now }
        ensures { result ≡ region_end region self.now }
    {
        let size = self.region;
        ((region + 1) * size).min(self.blocks)
    }

    /// Whether nothing of these regions is lost.
    fn are_whole(&self, from: u64, until: u64) -> bool
        requires { until ≤ count_regions self.now }
        ensures { IsTrue result ↔ AreWhole from until self.now }
    {
        let mut region = from;
        while region < until {
            if u64::from(self.rewritten_below[region as usize]) < self.region_end(region) {
                return false;
            }
            region += 1;
        }
        true
    }

    /// Whether nothing is lost, so that a sync that succeeds makes all durable. Goes over the
    /// regions where a sync has failed and none has succeeded since.
    pub(crate) fn is_whole(&self) -> bool
        ensures { IsTrue result ↔ AreWhole 0 (count_regions self.now) self.now }
    {
        !self.has_failed || self.are_whole(0, self.rewritten_below.len() as u64)
    }

    /// Whether nothing is lost of the regions that a run lies in.
    pub(crate) fn is_whole_at(&self, at: u64, count: u64) -> bool
        requires some { 0 < count }
        requires inside { at + count ≤ self.now.blocks }
        ensures { IsTrue result ↔ AreWhole (at / self.now.region)
            ((at + count - 1) / self.now.region + 1) self.now }
    {
        let size = self.region;
        self.are_whole(at / size, (at + count - 1) / size + 1)
    }

    /// Whether one of these regions was written since the last sync that succeeded.
    fn is_one_written(&self, from: u64, until: u64) -> bool
        requires { until ≤ count_regions self.now }
        ensures some { IsTrue result → WritesOne from until self.now }
        ensures none { IsFalse result → WritesNone from until self.now }
    {
        let mut region = from;
        while region < until {
            if self.covered < self.written_in[region as usize] {
                return true;
            }
            region += 1;
        }
        false
    }

    /// Whether one of so many blocks from `at` on lies in a region that was written since the last
    /// sync that succeeded.
    pub(crate) fn are_written(&self, at: u64, count: u64) -> bool
        requires inside { at + count ≤ self.now.blocks }
        ensures { result ≡ is_marked_in at count (written_from self.now self.now.blocks 0) }
    {
        if count == 0 {
            return false;
        }
        let size = self.region;
        self.is_one_written(at / size, (at + count - 1) / size + 1)
    }

    /// Notes that a run was written, or that the write failed.
    pub(crate) fn note_write(&mut self, at: u64, count: u64, succeeded: bool)
        requires some { 0 < count }
        requires inside { at + count ≤ self.old.blocks }
        ensures notes { NotesWrite succeeded at count self.old self.new }
        ensures period { IsInPeriod at count self.old self.new }
    {
        let from = (at / self.region) as usize;
        let until = ((at + count - 1) / self.region + 1) as usize;
        put_number(&mut self.written_in, from, until, self.period);
        let end = written_end(at, count, succeeded);
        move_cursors(
            &mut self.rewritten_below,
            from,
            until,
            at as u32,
            end as u32,
        );
    }

    /// Notes that a sync has succeeded.
    pub(crate) fn note_sync(&mut self)
        requires { AreWhole 0 (count_regions self.old) self.old }
        ensures { NotesSync self.old self.new }
    {
        self.period = next_period(&mut self.written_in, self.period);
        self.covered = self.period - 1;
        self.has_failed = false;
    }

    /// Whether a run, of some blocks, lies in the stripe.
    pub(crate) fn has_run(&self, at: u64, count: u64) -> bool
        ensures { IsTrue result ↔ HasRun at count self.now }
    {
        count > 0 && at <= self.blocks && count <= self.blocks - at
    }

    /// Notes that a run was written, and may be lost. Each of its regions is, from its first block
    /// on.
    pub(crate) fn lose_write(&mut self, at: u64, count: u64)
        requires { HasRun at count self.old }
        ensures { LosesWrite at count self.old self.new }
    {
        let from = (at / self.region) as usize;
        let last = (at + count - 1) / self.region;
        let until = last as usize + 1;
        put_number(&mut self.written_in, from, until, self.period);
        self.has_failed = true;
        put_firsts(&mut self.rewritten_below, from, until, self.region);
    }

    /// Notes that a sync begins, and says up to which period it covers the writes that were noted.
    pub(crate) fn begin_sync(&mut self) -> u32
        ensures { BeginsSync result self.old self.new }
    {
        if self.period == u32::MAX {
            return self.begin_anew();
        }
        self.period += 1;
        self.period - 1
    }

    /// Notes that a sync begins behind the last period: the periods begin anew, and all counts as
    /// written in the first one.
    fn begin_anew(&mut self) -> u32
        requires { 2 ^ 32 - 1 ≤ self.old.running }
        ensures { BeginsSync result self.old self.new }
    {
        mark_all(&mut self.written_in);
        self.covered = 0;
        self.period = 2;
        1
    }

    /// Notes that a sync has succeeded which covers the writes up to this period.
    pub(crate) fn end_sync(&mut self, asked: u32)
        ensures { asked < self.old.running → EndsSync asked self.old self.new }
    {
        self.has_failed = !self.is_whole();
        if asked < self.period {
            self.covered = self.covered.max(asked);
        }
    }

    /// Notes that a sync has failed. Goes over all regions.
    pub(crate) fn note_failure(&mut self)
        ensures { NotesFailure self.old self.new }
    {
        self.has_failed = true;
        lose(
            &mut self.rewritten_below,
            &self.written_in,
            self.covered,
            self.region,
        );
    }
}

/// Notes a sync that succeeded. Where the medium is in doubt what was written before it may be lost
/// all the same, and stays marked.
pub(crate) fn end_period(writes: &mut RegionWrites, is_doubted: bool)
    requires { AreWhole 0 (count_regions writes.old) writes.old }
    ensures { EndsPeriod is_doubted writes.old writes.new }
{
    if !is_doubted {
        writes.note_sync();
    }
}

/// Notes a loss that is told before a write.
pub(crate) fn learn_loss(writes: &mut RegionWrites, is_lost: bool)
    ensures { LearnsLoss is_lost writes.old writes.new }
{
    if is_lost {
        writes.note_failure();
    }
}

/// So many times this number.
fn numbers(alloc: Global, many: usize, number: u32) -> Result<Vec<u32>, AllocError>
    ensures { IfOk result (λ numbers. numbers.items ≡ replicate many number) }
{
    let mut numbers = Vec::with_capacity(alloc, many)?;
    numbers.resize(many, number)?;
    Ok(numbers)
}

/// Puts this number into these places.
fn put_number(numbers: &mut [u32], from: usize, until: usize, number: u32)
    requires order { from ≤ until }
    requires inside { until ≤ length numbers.old }
    ensures { Changes (λ _. number) from until numbers.old numbers.new }
{
    let mut place = from;
    while place < until {
        numbers[place] = number;
        place += 1;
    }
}

/// Puts the first period into all places.
fn mark_all(written_in: &mut [u32])
    ensures { written_in.new ≡ replicate (length written_in.old) 1 }
{
    written_in.fill(1);
}

/// Puts the cursors in these places to the first blocks of their regions.
fn put_firsts(cursors: &mut [u32], from: usize, until: usize, region: u64)
    requires order { from ≤ until }
    requires inside { until ≤ length cursors.old }
    requires few { (r : ℕ) → r < length cursors.old → r * region < 2 ^ 31 }
    ensures length { length cursors.new ≡ length cursors.old }
    ensures firsts { (r : ℕ) → from ≤ r → r < until → get_or cursors.new r 0 ≡ r * region }
    ensures before { (r : ℕ) → r < from → get_or cursors.new r 0 ≡ get_or cursors.old r 0 }
    ensures behind { (r : ℕ) → until ≤ r → get_or cursors.new r 0 ≡ get_or cursors.old r 0 }
{
    let mut place = from;
    while place < until {
        cursors[place] = (place as u64 * region) as u32;
        place += 1;
    }
}

/// The block behind a run that was written; where the write failed, it has none.
fn written_end(at: u64, count: u64, succeeded: bool) -> u64
    requires { at + count < 2 ^ 64 }
    ensures { result ≡ (if succeeded then at + count else at) }
{
    if succeeded { at + count } else { at }
}

/// The first block that was not written again, once a run is written that ends before this block.
fn moved_cursor(cursor: u32, at: u32, end: u32) -> u32
    ensures { result ≡ cursor_moved at end cursor }
{
    if at <= cursor && cursor < end {
        end
    } else {
        cursor
    }
}

/// Moves the cursors in these places as a run is written that ends before this block.
fn move_cursors(cursors: &mut [u32], from: usize, until: usize, at: u32, end: u32)
    requires order { from ≤ until }
    requires inside { until ≤ length cursors.old }
    ensures { Changes (cursor_moved at end) from until cursors.old cursors.new }
{
    let mut place = from;
    while place < until {
        cursors[place] = moved_cursor(cursors[place], at, end);
        place += 1;
    }
}

/// The period after this one, of which no write is yet.
fn next_period(written_in: &mut [u32], period: u32) -> u32
    requires past { (r : ℕ) → r < length written_in.old → get_or written_in.old r 0 ≤ period }
    ensures length { length written_in.new ≡ length written_in.old }
    ensures later { (r : ℕ) → r < length written_in.old → get_or written_in.new r 0 < result }
    ensures some { 0 < result }
{
    if period == u32::MAX {
        written_in.fill(0);
        return 1;
    }
    period + 1
}

/// Where a cursor stands once a sync has failed.
fn cursor_if_lost(cursor: u32, first: u32, is_lost: bool) -> u32
    ensures { result ≡ (if is_lost then first else cursor) }
{
    if is_lost { first } else { cursor }
}

/// Puts the cursors of the regions that were written in a later period than this one to their first
/// blocks.
fn lose(cursors: &mut [u32], written_in: &[u32], covered: u32, region: u64)
    requires places { length written_in.now ≡ length cursors.old }
    requires few { (r : ℕ) → r < length cursors.old → r * region < 2 ^ 31 }
    ensures length { length cursors.new ≡ length cursors.old }
    ensures lost { (r : ℕ) → r < length cursors.old → get_or cursors.new r 0
        ≡ (if nat_lt covered (get_or written_in.now r 0) then r * region
        else get_or cursors.old r 0) }
{
    let mut place = 0;
    while place < cursors.len() {
        let first = (place as u64 * region) as u32;
        cursors[place] = cursor_if_lost(cursors[place], first, covered < written_in[place]);
        place += 1;
    }
}
