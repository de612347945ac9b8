ghost use Rattle.std.specs.Prelude.{◌<◌, ◌↔◌, IsTrue};
ghost use Rattle.nm_assemble.specs.Start.{AreFresh, IsFresh};

use crate::own::{LegsHere, is_own};
use nm_geometry::LegSet;
use nm_superblock::Superblock;

/// Which legs' contents are what the newest superblock says of them: the leg's file is its
/// own and settled, and the superblock beside it is of the same lineage, of the same leg, and no
/// older than the last that was surely written there. Any other leg is an older copy, or another
/// file.
pub fn fresh_legs(newest: &Superblock, found: &[Option<Superblock>; 8], legs: &LegsHere) -> LegSet
    ensures { AreFresh 8 newest.now found.now legs.now result }
{
    let mut fresh = LegSet::none();
    'legs: for leg in 0..8 {
        fresh.set(leg, is_fresh(newest, legs, leg, &found[leg]));
    }
    fresh
}

// Whether the leg is fresh.
fn is_fresh(newest: &Superblock, legs: &LegsHere, leg: usize, beside: &Option<Superblock>) -> bool
    requires { leg < 8 }
    ensures { IsTrue result ↔ IsFresh newest.now legs.now leg beside.now }
{
    match beside {
        Some(superblock) => {
            let lineage = superblock.lineages[0] == newest.lineages[0];
            let same = superblock.leg_ids[leg] == newest.leg_ids[leg];
            let told = lineage && same && newest.seen[leg] <= superblock.generation;
            told && legs.settled.has(leg) && is_own(newest, legs, leg)
        }
        None => false,
    }
}
