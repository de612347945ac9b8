//! Superblocks that are moved from an old place to a new one: which of both count.
ghost use Rattle.std.specs.Prelude.{◌≡◌, ◌<◌, ◌↔◌, IsTrue};
ghost use Rattle.nm_starts.specs.TwoPlaces.{AreCarried, AreEarlier, AreLast, AreLater, Counts};
ghost use Rattle.nm_starts.specs.TwoPlaces.{IsMoved, carried_of, earlier_of, last_of, later_of};

use nm_assemble::newest_of;
use nm_geometry::LegSet;
use nm_superblock::{Superblock, newer};

/// What was found of the legs' superblocks in one place.
#[derive(Clone, Copy, PartialEq, Eq)]
pub struct PlaceFound {
    /// The superblocks.
    pub found: [Option<Superblock>; 8],
    /// The legs whose files are damaged.
    pub damaged: LegSet,
}

/// The superblocks that count of those in two places: of each leg the later one, unless a damaged
/// file may have held it, or the last one that was surely written is in neither place.
pub fn counted(new: &PlaceFound, old: &PlaceFound) -> [Option<Superblock>; 8]
    ensures { Counts new.now old.now result }
{
    let later = later_superblocks(new, old);
    match newest_of(&later) {
        Some(newest) => last_superblocks(&newest, &later),
        None => later,
    }
}

// The later superblock of each leg.
fn later_superblocks(new: &PlaceFound, old: &PlaceFound) -> [Option<Superblock>; 8]
    ensures { AreLater 8 new.now old.now result }
{
    let mut later = [None; 8];
    'legs: for leg in 0..8 {
        later[leg] = later_of(new, old, leg);
    }
    later
}

// The later superblock of this leg, unless one of its files is damaged.
fn later_of(new: &PlaceFound, old: &PlaceFound, leg: usize) -> Option<Superblock>
    requires { leg < 8 }
    ensures { result ≡ later_of leg new.now old.now }
{
    if new.damaged.has(leg) || old.damaged.has(leg) {
        return None;
    }
    newer(new.found[leg], old.found[leg])
}

// Those of these superblocks that are no older than the last one of their leg.
fn last_superblocks(newest: &Superblock, later: &[Option<Superblock>; 8]) -> [Option<Superblock>; 8]
    ensures { AreLast 8 newest.now later.now result }
{
    let mut last = [None; 8];
    'legs: for leg in 0..8 {
        last[leg] = last_of(newest, leg, &later[leg]);
    }
    last
}

// The superblock of this leg, if it is no older than the leg's last one.
fn last_of(newest: &Superblock, leg: usize, later: &Option<Superblock>) -> Option<Superblock>
    requires { leg < 8 }
    ensures { result ≡ last_of newest.now leg later.now }
{
    match later {
        Some(own) if own.generation >= newest.seen[leg] => *later,
        _ => None,
    }
}

/// The earlier superblock of each leg of which both places have one.
pub fn earlier_superblocks(
    new: &[Option<Superblock>; 8],
    old: &[Option<Superblock>; 8],
) -> [Option<Superblock>; 8]
    ensures { AreEarlier 8 new.now old.now result }
{
    let mut earlier = [None; 8];
    'legs: for leg in 0..8 {
        earlier[leg] = earlier_of(&new[leg], &old[leg]);
    }
    earlier
}

// The earlier superblock of a leg, where both places have one.
fn earlier_of(new: &Option<Superblock>, old: &Option<Superblock>) -> Option<Superblock>
    ensures { result ≡ earlier_of new.now old.now }
{
    match (new, old) {
        (Some(a), Some(b)) if a.generation < b.generation => *new,
        (Some(_), Some(_)) => *old,
        _ => None,
    }
}

/// The superblocks that count and are not in the new place: those of legs that are not here are
/// moved as they are.
pub fn carried_superblocks(
    counted: &[Option<Superblock>; 8],
    new: &[Option<Superblock>; 8],
) -> [Option<Superblock>; 8]
    ensures { AreCarried 8 counted.now new.now result }
{
    let mut carried = [None; 8];
    'legs: for leg in 0..8 {
        carried[leg] = carried_of(&counted[leg], &new[leg]);
    }
    carried
}

// The superblock that counts of a leg, if the new place has none that is as late.
fn carried_of(counted: &Option<Superblock>, new: &Option<Superblock>) -> Option<Superblock>
    ensures { result ≡ carried_of counted.now new.now }
{
    match (counted, new) {
        (Some(own), Some(there)) if own.generation <= there.generation => None,
        _ => *counted,
    }
}

/// Whether the new place has a superblock of a leg that is no older than one of this generation:
/// then the old place needs it no more.
pub fn is_moved(generation: u64, new: &Option<Superblock>) -> bool
    ensures { IsTrue result ↔ IsMoved generation new.now }
{
    match new {
        Some(there) => generation <= there.generation,
        None => false,
    }
}
