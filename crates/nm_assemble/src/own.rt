//! Which legs' files are those that the newest superblock is of, and as they were.
ghost use Rattle.std.specs.Prelude.{◌≡◌, ◌≢◌, ◌<◌, ◌↔◌, ℕ, None, Some, IsTrue, IfSome, IfNone};
ghost use Rattle.nm_assemble.specs.Own.{AreOwn, HasItsTime, IsAnother, IsFirstAnother};
ghost use Rattle.nm_assemble.specs.Own.{IsFirstMixed};
ghost use Rattle.nm_assemble.specs.Own.{IsOtherLegs, IsOwn, NoneAnother, NoneMixed, Records};

use nm_geometry::LegSet;
use nm_superblock::{LegIdentities, Superblock};

/// What is here of the legs, and what a person said of them.
#[derive(Clone, Copy, PartialEq, Eq)]
pub struct LegsHere {
    /// Whose files are here.
    pub here: LegSet,
    /// Whose files hold what was written to them.
    pub settled: LegSet,
    /// The identities of the files.
    pub identities: LegIdentities,
    /// The times of the files' last changes, in nanoseconds; 0 where one is unknown.
    pub changed: [u64; 8],
    /// Which legs were moved to another file or device, each with its superblock.
    pub moved: LegSet,
}

/// The legs whose files are here, and are those that the superblock is of, which nothing else has
/// changed since the mirror ended.
pub fn own_legs(newest: &Superblock, legs: &LegsHere) -> LegSet
    ensures { AreOwn 8 newest.now legs.now result }
{
    let mut own = LegSet::none();
    'legs: for leg in 0..8 {
        own.set(leg, is_own(newest, legs, leg));
    }
    own
}

// Whether the leg's file is here, and is the one that the superblock is of, as it was.
pub(crate) fn is_own(newest: &Superblock, legs: &LegsHere, leg: usize) -> bool
    requires { leg < 8 }
    ensures { IsTrue result ↔ IsOwn newest.now legs.now leg }
{
    let untold = newest.version == 1 || newest.legs as usize <= leg;
    let same = legs.identities.is_same(leg, &newest.identities, leg);
    let as_it_was = same && has_its_time(newest, legs, leg);
    legs.here.has(leg) && (untold || legs.moved.has(leg) || as_it_was)
}

// Whether the leg's file was changed last at the time that the superblock has, or it has none.
fn has_its_time(newest: &Superblock, legs: &LegsHere, leg: usize) -> bool
    requires { leg < 8 }
    ensures { IsTrue result ↔ HasItsTime newest.now legs.now leg }
{
    let recorded = newest.changed[leg];
    recorded == 0 || legs.changed[leg] == recorded
}

/// The first leg whose file is here, and is the one that was another leg: and that other one.
pub fn first_mixed(newest: &Superblock, legs: &LegsHere) -> Option<(usize, usize)>
    ensures some { IfSome result (λ m. IsFirstMixed m.0 m.1 newest.now legs.now) }
    ensures none { IfNone result (NoneMixed 8 newest.now legs.now) }
{
    'legs: for leg in 0..8 {
        if let Some(other) = other_leg(newest, legs, leg) {
            return Some((leg, other));
        }
    }
    None
}

// The first other leg that this leg's file was.
fn other_leg(newest: &Superblock, legs: &LegsHere, leg: usize) -> Option<usize>
    requires { leg < 8 }
    ensures some { IfSome result (λ other. (other < 8)
        × IsOtherLegs leg other newest.now legs.now) }
    ensures none { IfNone result ((other : ℕ) → other < 8
        → IsOtherLegs leg other newest.now legs.now → ⊥) }
{
    'others: for other in 0..8 {
        if is_other_legs(newest, legs, leg, other) {
            return Some(other);
        }
    }
    None
}

// Whether the leg's file is here, and is the one that was the other leg.
fn is_other_legs(newest: &Superblock, legs: &LegsHere, leg: usize, other: usize) -> bool
    requires leg { leg < 8 }
    requires other { other < 8 }
    ensures { IsTrue result ↔ IsOtherLegs leg other newest.now legs.now }
{
    let known = legs.here.has(leg) && legs.identities.is_known(leg);
    let own = legs.identities.is_same(leg, &newest.identities, leg);
    known && !own && legs.identities.is_same(leg, &newest.identities, other)
}

/// The first leg that is in sync in the stripe by the superblock and has another file than the one
/// that the superblock is of, or has that one changed.
pub fn first_another(newest: &Superblock, legs: &LegsHere, stripe: usize) -> Option<usize>
    requires { stripe < 64 }
    ensures some { IfSome result (λ leg. IsFirstAnother leg stripe newest.now legs.now) }
    ensures none { IfNone result (NoneAnother 8 stripe newest.now legs.now) }
{
    'legs: for leg in 0..8 {
        if is_another(newest, legs, stripe, leg) {
            return Some(leg);
        }
    }
    None
}

// Whether the leg is such a one.
fn is_another(newest: &Superblock, legs: &LegsHere, stripe: usize, leg: usize) -> bool
    requires stripe { stripe < 64 }
    requires leg { leg < 8 }
    ensures { IsTrue result ↔ IsAnother leg stripe newest.now legs.now }
{
    let in_sync = (newest.sets.in_sync(stripe) >> leg) & 1 == 1;
    let other = legs.here.has(leg) && !is_own(newest, legs, leg);
    in_sync && other
}

// The identities that are recorded once these legs' files were looked at: theirs are the files'.
pub(crate) fn recorded(old: &LegIdentities, own: &LegSet, here: &LegIdentities) -> LegIdentities
    ensures { Records 8 own.now here.now old.now result }
{
    let mut new = *old;
    'legs: for leg in 0..8 {
        if own.has(leg) {
            new.put(leg, here, leg);
        }
    }
    new
}
