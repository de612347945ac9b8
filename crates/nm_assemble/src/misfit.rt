ghost use Rattle.std.specs.Prelude.{◌≡◌, ◌↔◌, None, Some, IsTrue, IfSome, IfNone};
ghost use Rattle.nm_assemble.specs.Start.{AllFit, IsFirstMisfit, IsMisfit, IsMisfitting};
ghost use Rattle.nm_assemble.specs.Start.{IsOfMirror};

use crate::lineages::leads_to;
use nm_superblock::Superblock;

/// Why the superblock beside a leg does not go with the newest one.
#[derive(Clone, Copy, Debug, PartialEq, Eq)]
pub enum Misfit {
    /// It is of another mirror, or of a mirror of another shape.
    OtherMirror,
    /// It says that it is another leg's.
    OtherLeg,
    /// Both went on apart: the newest one neither comes after it, nor is of its save.
    Apart,
}

/// The first leg whose superblock does not go with the newest one, and why.
pub fn first_misfit(found: &[Option<Superblock>; 8], newest: &Superblock) -> Option<(usize, Misfit)>
    ensures some { IfSome result (λ m. IsFirstMisfit m.0 m.1 found.now newest.now) }
    ensures none { IfNone result (AllFit 8 found.now newest.now) }
{
    'legs: for leg in 0..8 {
        if let Some(why) = misfit_beside(leg, &found[leg], newest) {
            return Some((leg, why));
        }
    }
    None
}

// Why the superblock beside this leg, if there is one, does not go with the newest one.
fn misfit_beside(leg: usize, beside: &Option<Superblock>, newest: &Superblock) -> Option<Misfit>
    ensures some { IfSome result (λ why. IsMisfitting leg beside.now newest.now why) }
    ensures none { IfNone result ((s : Superblock) → beside.now ≡ Some s
        → IsMisfit leg s newest.now None) }
{
    match beside {
        Some(superblock) => misfit_of(leg, superblock, newest),
        None => None,
    }
}

// Why this leg's superblock does not go with the newest one, if it does not.
fn misfit_of(leg: usize, superblock: &Superblock, newest: &Superblock) -> Option<Misfit>
    ensures { IsMisfit leg superblock.now newest.now result }
{
    if !is_of_mirror(superblock, newest) {
        return Some(Misfit::OtherMirror);
    }
    if superblock.leg as usize != leg {
        return Some(Misfit::OtherLeg);
    }
    if !leads_to(superblock, newest) {
        return Some(Misfit::Apart);
    }
    None
}

// Whether both are of one mirror, and of one shape.
fn is_of_mirror(superblock: &Superblock, newest: &Superblock) -> bool
    ensures { IsTrue result ↔ IsOfMirror superblock.now newest.now }
{
    let mirror = superblock.mirror == newest.mirror && superblock.blocks == newest.blocks;
    let regions = superblock.region_blocks == newest.region_blocks;
    let spans = superblock.span_regions == newest.span_regions;
    let stripes = superblock.stripes == newest.stripes;
    mirror && regions && spans && stripes && superblock.legs == newest.legs
}
