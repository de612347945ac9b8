//! How stripes open by an image, which names the legs in sync of each.
ghost use Rattle.std.specs.Prelude.{◌≡◌, ◌<◌, min, IfSome, IfNone, IfOk, IfErr};
ghost use Rattle.nm_assemble.specs.Legs.{IsNameless};
ghost use Rattle.nm_plans.specs.Plan.{AreStartsOf, IsStartOf, IsUnplanned, OpensBy, opening_of};

use nm_assemble::{LegStart, leg_start, named_leg};
use nm_geometry::LegSet;
use nm_mirror::StripeStart;
use nm_rules::LegOpening;
use nm_superblock::Superblock;
use std::alloc::Global;

/// Why stripes are not opened by an image.
#[derive(Clone, Copy, PartialEq, Eq)]
pub enum Unplanned {
    /// It names no leg in this stripe.
    Nameless(usize),
    /// Out of memory.
    Memory,
}

// How a leg stands as a stripe opens. How its master does is not looked at.
fn opening_of(start: LegStart) -> LegOpening
    ensures { result ≡ opening_of start }
{
    match start {
        LegStart::Master | LegStart::Partial => LegOpening::Partial,
        LegStart::Whole => LegOpening::Whole,
        LegStart::Missing => LegOpening::Missing,
    }
}

// How a leg, whose file is here or not, stands as the stripe opens by the image.
fn leg_opening(image: &Superblock, leg: usize, stripe: usize, is_here: bool) -> LegOpening
    requires leg { leg < 8 }
    requires stripe { stripe < 64 }
    ensures { OpensBy leg stripe image.now is_here result }
{
    opening_of(leg_start(image, leg, stripe, is_here))
}

/// How a stripe opens by the image, where the files of these legs are here: on the first leg that
/// it names. None where it names none.
pub fn stripe_start(image: &Superblock, stripe: usize, here: &LegSet) -> Option<StripeStart>
    requires { stripe < 64 }
    ensures some { IfSome result (λ opens. IsStartOf image.now stripe here.now opens) }
    ensures none { IfNone result (IsNameless 8 stripe image.now) }
{
    let master = named_leg(image, stripe)?;
    let mut legs = [LegOpening::Missing; 8];
    'legs: for leg in 0..8 {
        legs[leg] = leg_opening(image, leg, stripe, here.has(leg));
    }
    Some(StripeStart {
        master: master as u8,
        legs,
    })
}

/// How each stripe does, by rising number; the first that the image names no leg of ends it.
pub fn stripe_starts(
    alloc: Global,
    image: &Superblock,
    here: &LegSet,
) -> Result<Vec<StripeStart>, Unplanned>
    ensures ok { IfOk result (λ starts.
        AreStartsOf (min image.now.stripes 64) image.now here.now starts.items) }
    ensures err { IfErr result (λ why. IsUnplanned image.now why) }
{
    let mut starts = Vec::new(alloc);
    'stripes: for stripe in 0..image.stripes.min(64) as usize {
        let Some(start) = stripe_start(image, stripe, here) else {
            return Err(Unplanned::Nameless(stripe));
        };
        if starts.push(start).is_err() {
            return Err(Unplanned::Memory);
        }
    }
    Ok(starts)
}
