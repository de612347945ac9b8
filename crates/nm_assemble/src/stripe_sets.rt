//! The sets of stripes.
ghost use Rattle.std.specs.Prelude.{◌<◌};
ghost use Rattle.nm_assemble.specs.StripeSets.{Puts};

use nm_geometry::LegSet;
use nm_superblock::LegSets;

// The sets of a stripe: in sync, about to be, and out of sync in no more than marked spans.
pub(crate) fn put(
    sets: &mut LegSets,
    stripe: usize,
    in_sync: &LegSet,
    candidates: &LegSet,
    partial: &LegSet,
)
    requires { stripe < 64 }
    ensures { Puts stripe in_sync.now candidates.now partial.now sets.old sets.new }
{
    sets.bytes[4 * stripe] = in_sync.bits();
    sets.bytes[4 * stripe + 1] = candidates.bits();
    sets.bytes[4 * stripe + 2] = partial.bits();
}
