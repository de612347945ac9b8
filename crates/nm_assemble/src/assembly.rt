ghost use Rattle.std.specs.Prelude.{◌<◌, IfOk, IfErr, IfSome, IfNone};
ghost use Rattle.nm_assemble.specs.Assembly.{IsAssembly, IsClosedBy, IsRefused, IsUnsure, MayGoBy};

use crate::changes::was_changed;
use crate::fresh::fresh_legs;
use crate::masters::closed_stripe;
use crate::misfit::{Misfit, first_misfit};
use crate::missing::missing_leg;
use crate::newest::newest_of;
use crate::own::{LegsHere, first_another, first_mixed};
use nm_geometry::LegSet;
use nm_superblock::Superblock;

/// What a start goes by.
#[derive(Clone, Copy, PartialEq, Eq)]
pub struct Assembly {
    /// The newest superblock.
    pub newest: Superblock,
    /// Which legs' contents are what it says of them.
    pub fresh: LegSet,
}

/// Why a start cannot go by what it found.
#[derive(Clone, Copy, Debug, PartialEq, Eq)]
pub enum AssembleFault {
    /// No superblock was found.
    NoSuperblock,
    /// This leg's superblock does not go with the newest one.
    Unfit(usize, Misfit),
    /// This leg may have a newer superblock, and none was found beside it.
    MayBeNewer(usize),
    /// This leg's file is the one that was that other leg.
    Mixed(usize, usize),
    /// No leg that is in sync in some stripe is fresh, and this one, the first that is in sync
    /// there and here, has another file than the one that the superblock is of.
    Another(usize),
    /// No leg that is in sync in some stripe is fresh, and the file of this one, the first that is
    /// in sync there and here but not its own, was changed since the mirror ended.
    Changed(usize),
    /// No leg that is in sync in this stripe is fresh.
    NoneInSync(usize),
}

/// What a start goes by, from the superblocks that it found and what is here of the legs; or
/// the first reason why it cannot. A start that is not sure goes on only where it is told to.
pub fn assemble(
    found: &[Option<Superblock>; 8],
    legs: &LegsHere,
    degraded: bool,
) -> Result<Assembly, AssembleFault>
    ensures ok { IfOk result (λ a. IsAssembly a found.now legs.now degraded) }
    ensures refused { IfErr result (λ fault. IsRefused fault found.now legs.now degraded) }
{
    let Some(newest) = newest_of(found) else {
        return Err(AssembleFault::NoSuperblock);
    };
    if let Some((leg, why)) = first_misfit(found, &newest) {
        return Err(AssembleFault::Unfit(leg, why));
    }
    if let Some((leg, other)) = first_mixed(&newest, legs) {
        return Err(AssembleFault::Mixed(leg, other));
    }
    if let Some(leg) = unsure_leg(&newest, found, degraded) {
        return Err(AssembleFault::MayBeNewer(leg));
    }
    let fresh = fresh_legs(&newest, found, legs);
    if let Some(stripe) = closed_stripe(&newest, &fresh) {
        return Err(closed_by(&newest, legs, stripe));
    }
    Ok(Assembly { newest, fresh })
}

// Why no leg that is in sync in the stripe is fresh.
fn closed_by(newest: &Superblock, legs: &LegsHere, stripe: usize) -> AssembleFault
    requires { stripe < 64 }
    ensures { IsClosedBy stripe newest.now legs.now result }
{
    match first_another(newest, legs, stripe) {
        Some(leg) if was_changed(newest, legs, leg) => AssembleFault::Changed(leg),
        Some(leg) => AssembleFault::Another(leg),
        None => AssembleFault::NoneInSync(stripe),
    }
}

// The first leg that may have a newer superblock, unless the start was told to go on without.
fn unsure_leg(newest: &Superblock, found: &[Option<Superblock>; 8], degraded: bool) -> Option<usize>
    ensures some { IfSome result (λ leg. IsUnsure leg newest.now found.now degraded) }
    ensures none { IfNone result (MayGoBy newest.now found.now degraded) }
{
    if degraded {
        None
    } else {
        missing_leg(newest, found)
    }
}
