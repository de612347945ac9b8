//! Which legs a superblock names: in some stripe they are in sync.
ghost use Rattle.std.specs.Prelude.{◌≡◌, ◌<◌, ◌↔◌, IsTrue};
ghost use Rattle.nm_saves.specs.Files.{AreNamed, IsNameless, IsNamed};
ghost use Rattle.std.specs.Int.{bit_at};
ghost use Rattle.nm_superblock.specs.Spans.{in_sync_of};

use nm_geometry::LegSet;
use nm_superblock::LegSets;

// Which legs are named.
pub(crate) fn named_legs(sets: &LegSets) -> LegSet
    ensures { AreNamed 8 sets.now result }
{
    let mut named = LegSet::none();
    'legs: for leg in 0..8 {
        named.set(leg, is_named(sets, leg));
    }
    named
}

// Whether the leg is named.
fn is_named(sets: &LegSets, leg: usize) -> bool
    requires { leg < 8 }
    ensures { IsTrue result ↔ IsNamed leg sets.now }
{
    'stripes: for stripe in 0..64 {
        if is_in_sync(sets, leg, stripe) {
            return true;
        }
    }
    false
}

// Whether the leg is in sync in the stripe.
fn is_in_sync(sets: &LegSets, leg: usize, stripe: usize) -> bool
    requires leg { leg < 8 }
    requires stripe { stripe < 64 }
    ensures { IsTrue result ↔ (bit_at (in_sync_of stripe sets.now) leg ≡ 1) }
{
    (sets.in_sync(stripe) >> leg) & 1 == 1
}

// Whether some of the mirror's stripes has no leg in sync.
pub(crate) fn is_nameless(sets: &LegSets, stripes: u8) -> bool
    ensures { IsTrue result ↔ IsNameless stripes sets.now }
{
    'stripes: for stripe in 0..64 {
        if stripe < stripes as usize && sets.in_sync(stripe) == 0 {
            return true;
        }
    }
    false
}
