//! The runs of a stripe, one after the other.
ghost use Rattle.std.specs.Prelude.{◌≡◌, ◌<◌};
ghost use Rattle.nm_rules.specs.Runs.{FitsRun};
ghost use Rattle.nm_verify.specs.Runs.{ends_region, run_length};

use nm_fanout::MOST_RUN;
use nm_stripe::At;

/// How many blocks the longest run has that begins at this block: none past the stripe's end.
pub fn run_length(place: At, block: u64) -> u64
    ensures length { result ≡ run_length place block }
    ensures fits { 0 < result → FitsRun place block result }
{
    if place.region == 0 || block >= place.blocks {
        return 0;
    }
    let left = place.region - block % place.region;
    (MOST_RUN as u64).min(left).min(place.blocks - block)
}

/// Whether a region, or the stripe, ends with so many blocks from this one on.
pub(crate) fn ends_region(place: At, block: u64, count: u64) -> bool
    requires run { FitsRun place block count }
    ensures { result ≡ ends_region place block count }
{
    let next = block + count;
    next >= place.blocks || next % place.region == 0
}
