//! Legs' files that something else has changed since the mirror ended.
ghost use Rattle.std.specs.Prelude.{◌<◌, ◌↔◌, IsTrue};
ghost use Rattle.nm_assemble.specs.Changes.{AreAllChanged, AreChanged, KeepsTimes, WasChanged};
ghost use Rattle.nm_assemble.specs.Changes.{WereChanged};

use crate::own::{LegsHere, is_own};
use nm_geometry::LegSet;
use nm_superblock::Superblock;

/// The legs whose files are here, and are those that the superblock is of, but were changed since
/// the mirror ended.
pub fn changed_legs(newest: &Superblock, legs: &LegsHere) -> LegSet
    ensures { WereChanged 8 newest.now legs.now result }
{
    let mut changed = LegSet::none();
    'legs: for leg in 0..8 {
        changed.set(leg, was_changed(newest, legs, leg));
    }
    changed
}

// Whether the leg's file was.
pub(crate) fn was_changed(newest: &Superblock, legs: &LegsHere, leg: usize) -> bool
    requires { leg < 8 }
    ensures { IsTrue result ↔ WasChanged newest.now legs.now leg }
{
    let same = legs.identities.is_same(leg, &newest.identities, leg);
    legs.here.has(leg) && same && !is_own(newest, legs, leg)
}

/// Whether the mirror ended with all legs in sync, and the file of each of them was changed since.
pub fn are_all_changed(newest: &Superblock, legs: &LegsHere) -> bool
    ensures { IsTrue result ↔ AreAllChanged newest.now legs.now }
{
    newest.clean && are_changed(newest, legs)
}

// Whether the file of each leg was.
fn are_changed(newest: &Superblock, legs: &LegsHere) -> bool
    ensures { IsTrue result ↔ AreChanged 8 newest.now legs.now }
{
    'legs: for leg in 0..8 {
        if leg < newest.legs as usize && !was_changed(newest, legs, leg) {
            return false;
        }
    }
    true
}

// The times that a start records which takes these legs: none of theirs, and the old ones of
// others.
pub(crate) fn kept_times(old: &[u64; 8], own: &LegSet) -> [u64; 8]
    ensures { KeepsTimes 8 own.now old.now result }
{
    let mut new = *old;
    'legs: for leg in 0..8 {
        if own.has(leg) {
            new[leg] = 0;
        }
    }
    new
}
