//! Pieces of a range, and what is to be put into their runs.
ghost use Rattle.std.specs.Prelude.{◌≡◌, ◌<◌, ◌≤◌, ◌+◌, ◌^◌, drop};
ghost use Rattle.nm_geometry.specs.Pieces.{end_of, touched};
ghost use Rattle.nm_lanes.specs.Cuts.{zero_for};
ghost use Rattle.nm_lanes.specs.Fillings.{cuts_of, target_of, IsPieceRange, TakesRun};
ghost use Rattle.nm_lanes.specs.PieceRanges.{block_of, first_of, rest_of};

use crate::call::within_bounds;
use crate::run::{Run, count_runs, first_run};
use crate::run_write::RunWrite;
use nm_fanout::Data;
use nm_geometry::{ByteRange, Shape};
use nm_replay::BLOCK_BYTES;
use std::mem;

/// Zeroes for this run.
fn zero_for(run: Run) -> Data
    requires { run.len ≤ 65536 }
    ensures zeroes { result ≡ zero_for run }
{
    if run.is_whole() {
        Data::Zero((run.len as usize / BLOCK_BYTES) as u16)
    } else {
        Data::ZeroPart {
            from: run.from,
            len: run.len as u16,
        }
    }
}

/// Pieces of a range that follow one another, which are to be written or read.
#[derive(Clone, Copy)]
pub(crate) struct PieceRange {
    pub(crate) range: ByteRange,
    /// The number of the first of the pieces in the range.
    pub(crate) first: u64,
    /// How many pieces there are.
    pub(crate) count: u64,
    /// Whether they have no cuts: zeroes are to be put into them, or they are to be read.
    pub(crate) no_payload: bool,
    /// Whether they are to be read, into a target that has room for their bytes.
    pub(crate) is_read: bool,
}

impl PieceRange {
    /// The block of the first piece.
    pub(crate) fn block(self) -> u64
        requires { block_of self < 2 ^ 64 }
        ensures { result ≡ block_of self }
    {
        self.range.offset / BLOCK_BYTES as u64 + self.first
    }

    /// The first so many pieces.
    pub(crate) fn first_of(self, count: u64) -> PieceRange
        ensures { result ≡ first_of count self }
    {
        PieceRange { count, ..self }
    }

    /// The pieces after so many.
    pub(crate) fn rest_of(self, count: u64) -> PieceRange
        requires most { count ≤ self.count }
        requires first { self.first + count < 2 ^ 64 }
        ensures { result ≡ rest_of count self }
    {
        PieceRange {
            first: self.first + count,
            count: self.count - count,
            ..self
        }
    }

    /// How many cuts the piece range has: one for each of its runs.
    pub(crate) fn cuts_of(self, shape: &Shape) -> usize
        requires end { end_of self.range < 2 ^ 64 }
        requires inside { self.first + self.count ≤ touched self.range }
        ensures { result ≡ cuts_of shape.now self }
    {
        if self.no_payload {
            return 0;
        }
        count_runs(shape, self)
    }

    /// How many bytes of the target the piece range has: those of its pieces, where it is read.
    pub(crate) fn target_of(self, shape: &Shape) -> usize
        requires end { end_of self.range < 2 ^ 64 }
        requires blocks { block_of self + self.count ≤ shape.now.blocks }
        ensures { result ≡ target_of self }
    {
        if !self.is_read {
            return 0;
        }
        within_bounds(shape);
        let start = self.block() * BLOCK_BYTES as u64;
        let end = self.range.offset + self.range.length;
        let skipped = self.range.offset.saturating_sub(start);
        let upto = end
            .saturating_sub(start)
            .min(self.count * BLOCK_BYTES as u64);
        upto.saturating_sub(skipped) as usize
    }

    /// What is to be put into the first run, and how many blocks that one has. A cut is taken away:
    /// the one of this number.
    pub(crate) fn take(self, shape: &Shape, number: usize, cuts: &mut [RunWrite]) -> (RunWrite, u64)
        requires pieces { IsPieceRange shape.now self (drop number cuts.old) }
        requires some { 0 < self.count }
        ensures { TakesRun shape.now self (drop number cuts.old) (drop (number + 1) cuts.new)
            result.0 result.1 }
    {
        let (run, blocks) = first_run(shape, self);
        if self.no_payload {
            let bytes = zero_for(run);
            return (RunWrite { run, bytes }, blocks);
        }
        let bytes = Data::Zero(1);
        let write = mem::replace(&mut cuts[number], RunWrite { run, bytes });
        (write, blocks)
    }
}
