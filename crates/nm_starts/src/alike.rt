//! Whether the legs of a mirror that has just been opened hold the same.
ghost use Rattle.std.specs.Prelude.{◌<◌, ◌↔◌, length, IsTrue};
ghost use Rattle.nm_starts.specs.Alike.{AreAlike, LacksNothing, NoneLacks};

use nm_leg::LegPart;
use nm_stripe::{LegState, Stripe};

// Whether the leg lacks nothing that the master has.
fn lacks_nothing<L: LegPart>(stripe: &Stripe<L>, leg: u8) -> bool
    requires { leg < length stripe.now.legs }
    ensures { IsTrue result ↔ LacksNothing leg stripe.now }
{
    stripe.state(leg) != LegState::Out && stripe.left(leg) == 0
}

// Whether no leg of the stripe lacks anything.
fn none_lacks<L: LegPart>(stripe: &Stripe<L>) -> bool
    ensures { IsTrue result ↔ NoneLacks stripe.now }
{
    for leg in 0..stripe.legs() as u8 {
        if !lacks_nothing(stripe, leg) {
            return false;
        }
    }
    true
}

/// Whether no leg lacks anything in any of these stripes.
pub fn are_alike<L: LegPart>(stripes: &[Stripe<L>]) -> bool
    ensures { IsTrue result ↔ AreAlike stripes.now }
{
    stripes.iter().all(|stripe| none_lacks(stripe))
}
