//! The ids of legs that are drawn anew.
ghost use Rattle.std.specs.Prelude.{◌≡◌, ◌<◌, ◌↔◌, IsTrue, IfOk, nat_lt, slice_index};
ghost use Rattle.nm_assemble.specs.Image.{IsKnown};
ghost use Rattle.nm_starts.specs.RenewedIds.{AreFirstIds, AreRenewed, AreUnknownHere, IsRenewed};
ghost use Rattle.nm_starts.specs.RenewedIds.{IsUnknownHere, Knows};

use crate::ids::draw_id;
use nm_geometry::LegSet;
use nm_reports::StartFault;
use nm_superblock::Superblock;
use std::random::RandomSource;

// Whether the image knows the leg in this stripe.
fn is_known_in(image: &Superblock, stripe: usize, leg: usize) -> bool
    requires stripe { stripe < 64 }
    requires leg { leg < 8 }
    ensures { IsTrue result ↔ IsKnown image.now stripe leg }
{
    let in_sync = (image.sets.in_sync(stripe) >> leg) & 1 == 1;
    let partial = (image.sets.partial(stripe) >> leg) & 1 == 1;
    in_sync || partial
}

// Whether the image knows the leg in some stripe.
fn is_known(image: &Superblock, leg: usize) -> bool
    requires { leg < 8 }
    ensures { IsTrue result ↔ Knows 64 leg image.now }
{
    'stripes: for stripe in 0..64 {
        if is_known_in(image, stripe, leg) {
            return true;
        }
    }
    false
}

// Whether the leg is here, and the image knows it in no stripe.
fn is_unknown_here(image: &Superblock, here: &LegSet, leg: usize) -> bool
    requires { leg < 8 }
    ensures { IsTrue result ↔ IsUnknownHere image.now here.now leg }
{
    here.has(leg) && !is_known(image, leg)
}

/// The legs that are here and that the image knows in no stripe: what was kept of them says nothing
/// any more.
pub fn unknown_here(image: &Superblock, here: &LegSet) -> LegSet
    ensures { AreUnknownHere 8 image.now here.now result }
{
    let mut unknown = [false; 8];
    'legs: for leg in 0..8 {
        unknown[leg] = is_unknown_here(image, here, leg);
    }
    LegSet::of(unknown)
}

// The leg's id: a new one where it is to be renewed.
fn renewed_id<R: RandomSource>(rt: &R, is_new: bool, id: u64) -> Result<u64, StartFault>
    ensures { IfOk result (IsRenewed is_new id) }
{
    if is_new { draw_id(rt) } else { Ok(id) }
}

/// The legs' ids, with new ones for these legs.
pub fn renewed_ids<R: RandomSource>(
    rt: &R,
    ids: &[u64; 8],
    legs: &LegSet,
) -> Result<[u64; 8], StartFault>
    ensures { IfOk result (AreRenewed 8 legs.now ids.now) }
{
    let mut renewed = *ids;
    'legs: for leg in 0..8 {
        match renewed_id(rt, legs.has(leg), ids[leg]) {
            Ok(id) => renewed[leg] = id,
            Err(fault) => return Err(fault),
        }
    }
    Ok(renewed)
}

/// Ids of so many new legs, leg 0's first.
pub fn first_ids<R: RandomSource>(rt: &R, legs: u8) -> Result<[u64; 8], StartFault>
    ensures { IfOk result (AreFirstIds 8 legs) }
{
    let mut ids = [0; 8];
    'legs: for leg in 0..8 {
        match renewed_id(rt, leg < legs as usize, 0) {
            Ok(id) => ids[leg] = id,
            Err(fault) => return Err(fault),
        }
    }
    Ok(ids)
}
