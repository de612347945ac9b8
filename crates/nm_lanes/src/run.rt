//! Runs: what one step of a call writes or reads.
ghost use Rattle.std.specs.Prelude.{◌≡◌, ◌+◌, ◌≤◌, ◌<◌, ◌^◌, length};
ghost use Rattle.nm_geometry.specs.Pieces.{end_of, touched};
ghost use Rattle.nm_lanes.specs.Runs.{is_whole};
ghost use Rattle.nm_lanes.specs.PieceRanges.{block_of, runs_in_pieces, IsFirstRun};

use crate::call::within_bounds;
use crate::piece_range::PieceRange;
use nm_fanout::MOST_RUN;
use nm_geometry::Shape;
use nm_replay::BLOCK_BYTES;

/// Bytes of the export that one step writes or reads: whole blocks that follow one another in one
/// region, 128 at most, or a part of one block.
#[derive(Clone, Copy)]
pub(crate) struct Run {
    /// The first block, in the export.
    pub(crate) block: u64,
    /// The first of the bytes, counted in that block.
    pub(crate) from: u16,
    /// How many bytes there are.
    pub(crate) len: u32,
}

impl Run {
    /// Whether the run has whole blocks.
    pub(crate) fn is_whole(self) -> bool
        ensures { result ≡ is_whole self }
    {
        self.len as usize % BLOCK_BYTES == 0
    }
}

/// The first run of a piece range, and how many blocks it has: up to the end of the region, of a
/// group of 128 blocks, or of the whole blocks.
pub(crate) fn first_run(shape: &Shape, pieces: PieceRange) -> (Run, u64)
    requires end { end_of pieces.range < 2 ^ 64 }
    requires inside { pieces.first + pieces.count ≤ touched pieces.range }
    requires some { 0 < pieces.count }
    ensures { IsFirstRun shape.now pieces result.0 result.1 }
{
    within_bounds(shape);
    let block = pieces.block();
    let piece = pieces.range.piece(pieces.first);
    if !piece.is_whole() {
        let run = Run {
            block,
            from: piece.from,
            len: piece.len as u32,
        };
        return (run, 1);
    }
    let inside = block % shape.region;
    let in_group = MOST_RUN as u64 - inside % MOST_RUN as u64;
    let in_region = shape.region - inside;
    let whole = (pieces.range.offset + pieces.range.length) / BLOCK_BYTES as u64 - block;
    let blocks = in_group.min(in_region).min(whole).min(pieces.count);
    let run = Run {
        block,
        from: 0,
        len: blocks as u32 * BLOCK_BYTES as u32,
    };
    (run, blocks)
}

/// How many runs a piece range has.
pub(crate) fn count_runs(shape: &Shape, pieces: PieceRange) -> usize
    requires end { end_of pieces.range < 2 ^ 64 }
    requires inside { pieces.first + pieces.count ≤ touched pieces.range }
    ensures runs { result ≡ length (runs_in_pieces shape.now pieces) }
{
    let mut left = pieces;
    let mut runs = 0;
    while left.count > 0 {
        let (_, blocks) = first_run(shape, left);
        left = left.rest_of(blocks);
        runs += 1;
    }
    runs
}
