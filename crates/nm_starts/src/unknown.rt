//! Legs of whose superblocks none was found, though the newest one knows them.
ghost use Rattle.std.specs.Prelude.{◌<◌, ◌↔◌, IsTrue};
ghost use Rattle.nm_starts.specs.Unknown.{AreUnknown, IsUnknown};

use nm_geometry::LegSet;
use nm_superblock::Superblock;

// Whether the newest superblock knows this leg, of which this one was found, or none.
fn is_unknown(newest: &Superblock, leg: usize, beside: &Option<Superblock>) -> bool
    requires { leg < 8 }
    ensures { IsTrue result ↔ IsUnknown newest.now leg beside.now }
{
    leg < newest.legs as usize && beside.is_none()
}

/// Which legs the newest superblock knows though none was found of them: another file may stand
/// under such a leg's name.
pub fn unknown_legs(newest: &Superblock, found: &[Option<Superblock>; 8]) -> LegSet
    ensures { AreUnknown 8 newest.now found.now result }
{
    let mut unknown = [false; 8];
    'legs: for leg in 0..8 {
        unknown[leg] = is_unknown(newest, leg, &found[leg]);
    }
    LegSet::of(unknown)
}
