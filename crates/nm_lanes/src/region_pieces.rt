//! Pieces of one region.
ghost use Rattle.std.specs.Prelude.{◌≡◌, ℕ, ◌+◌, ◌≤◌, ◌<◌};
ghost use Rattle.nm_geometry.specs.Geometry.{block_in_stripe};
ghost use Rattle.nm_lanes.specs.RegionPieces.{IsRegionPieces};
ghost use Rattle.nm_lanes.specs.PieceRanges.{block_of, first_of, EndsRegion};

use crate::call::within_bounds;
use crate::piece_range::PieceRange;
use nm_geometry::Shape;

/// Pieces of one region.
#[derive(Clone, Copy)]
pub(crate) struct RegionPieces {
    /// The pieces.
    pub(crate) pieces: PieceRange,
    /// The region's number, and its stripe.
    pub(crate) number: u64,
    pub(crate) stripe: u32,
}

/// The pieces up to the end of their first region.
pub(crate) fn next_region(shape: &Shape, pieces: PieceRange) -> RegionPieces
    requires some { 0 < pieces.count }
    requires blocks { block_of pieces + pieces.count ≤ shape.now.blocks }
    ensures region { IsRegionPieces shape.now result }
    ensures pieces { result.pieces ≡ first_of result.pieces.count pieces }
    ensures most { result.pieces.count ≤ pieces.count }
    ensures ends { EndsRegion shape.now pieces result.pieces.count }
    ensures stripe { result.stripe < shape.now.stripes }
{
    within_bounds(shape);
    let block = pieces.block();
    let number = block / shape.region;
    let count = ((number + 1) * shape.region).min(block + pieces.count) - block;
    RegionPieces {
        pieces: pieces.first_of(count),
        number,
        stripe: (number % shape.stripes as u64) as u32,
    }
}

/// The number, in its stripe, of the first block of these pieces. The others follow it
/// there as they do in the export, so they need no division.
pub(crate) fn first_in_stripe(shape: &Shape, region: RegionPieces) -> u64
    requires region { IsRegionPieces shape.now region }
    requires blocks { block_of region.pieces + region.pieces.count ≤ shape.now.blocks }
    ensures follow { (at : ℕ) → at < region.pieces.count
        → result + at ≡ block_in_stripe (block_of region.pieces + at) shape.now }
    ensures most { result ≤ block_of region.pieces }
{
    within_bounds(shape);
    shape.block_in_stripe(region.pieces.block())
}
