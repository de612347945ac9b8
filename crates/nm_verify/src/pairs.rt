//! Which two legs of a stripe are compared next.
ghost use Rattle.std.specs.Prelude.{◌≡◌, ◌<◌, ◌↔◌, IfSome, IsNone, IsTrue};
ghost use Rattle.nm_verify.specs.Pairs.{HasNoPair, HasNoneFrom, IsHere, IsNext, IsPair};

use nm_leg::LegPart;
use nm_stripe::{LegState, Stripe};

/// Whether the stripe has the leg, in sync.
pub fn is_here<L: LegPart>(stripe: &Stripe<L>, leg: u8) -> bool
    ensures { IsTrue result ↔ IsHere leg stripe.now }
{
    (leg as usize) < stripe.legs() && stripe.state(leg) == LegState::InSync
}

/// The lowest leg in sync from this one on.
pub(crate) fn next_here<L: LegPart>(stripe: &Stripe<L>, from: u8) -> Option<u8>
    ensures some { IfSome result (λ leg. IsNext from leg stripe.now) }
    ensures few { IfSome result (λ leg. leg < 8) }
    ensures none { IsNone result → HasNoneFrom from stripe.now }
{
    let mut leg = from;
    while (leg as usize) < stripe.legs() {
        if is_here(stripe, leg) {
            return Some(leg);
        }
        leg += 1;
    }
    None
}

/// The lowest leg in sync, and the lowest one above it from `from` on, which is compared with it.
pub fn pair_of<L: LegPart>(stripe: &Stripe<L>, from: u8) -> Option<(u8, u8)>
    ensures some { IfSome result (λ pair. IsPair from pair.0 pair.1 stripe.now) }
    ensures none { IsNone result → HasNoPair from stripe.now }
{
    let first = next_here(stripe, 0)?;
    let second = next_here(stripe, from.max(first + 1))?;
    Some((first, second))
}
