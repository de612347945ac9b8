//! What a save says of a stripe's legs.
ghost use Rattle.std.specs.Prelude.{◌≡◌, ◌<◌, ◌&&◌, ◌||◌, length};
ghost use Rattle.nm_gate.specs.Claims.{claims_of, is_candidate, is_current_leg, is_partial};
ghost use Rattle.nm_gate.specs.Claims.{is_listed_by, legs_where, lies_marked, no_claims};

use crate::durable_state::{DurableState, bit};
use nm_choice::LegState;
use nm_geometry::LegSet;
use nm_leg::LegPart;
use nm_stripe::Stripe;

/// What a superblock says of the legs of one stripe.
#[derive(Clone, Copy, PartialEq, Eq)]
pub struct LegClaims {
    /// Those in sync.
    pub in_sync: LegSet,
    /// Those that join, with nothing left to copy: they may be called in sync once this is saved.
    pub candidates: LegSet,
    /// Those that are not in sync, and lack no more than marked spans.
    pub partial: LegSet,
}

impl LegClaims {
    // What a save with these marks says of the stripe's legs.
    pub(crate) fn of<L: LegPart>(
        stripe: &Stripe<L>,
        durable: &DurableState,
        marked: &[bool],
    ) -> LegClaims
        ensures { result ≡ claims_of stripe.now durable.now marked.now }
    {
        LegClaims {
            in_sync: LegSet::of([
                is_in_sync(stripe, 0),
                is_in_sync(stripe, 1),
                is_in_sync(stripe, 2),
                is_in_sync(stripe, 3),
                is_in_sync(stripe, 4),
                is_in_sync(stripe, 5),
                is_in_sync(stripe, 6),
                is_in_sync(stripe, 7),
            ]),
            candidates: LegSet::of([
                is_candidate(stripe, 0),
                is_candidate(stripe, 1),
                is_candidate(stripe, 2),
                is_candidate(stripe, 3),
                is_candidate(stripe, 4),
                is_candidate(stripe, 5),
                is_candidate(stripe, 6),
                is_candidate(stripe, 7),
            ]),
            partial: LegSet::of([
                durable.is_partial(stripe, marked, 0),
                durable.is_partial(stripe, marked, 1),
                durable.is_partial(stripe, marked, 2),
                durable.is_partial(stripe, marked, 3),
                durable.is_partial(stripe, marked, 4),
                durable.is_partial(stripe, marked, 5),
                durable.is_partial(stripe, marked, 6),
                durable.is_partial(stripe, marked, 7),
            ]),
        }
    }

    /// Those of no superblock: on no leg.
    pub fn none() -> LegClaims
        ensures { result ≡ no_claims }
    {
        LegClaims {
            in_sync: LegSet::none(),
            candidates: LegSet::none(),
            partial: LegSet::none(),
        }
    }

    // Says that it has a place for each of eight legs, and does nothing: for proofs.
    pub(crate) fn eight_legs(&self)
        ensures in_sync { length self.now.in_sync ≡ 8 }
        ensures partial { length self.now.partial ≡ 8 }
    {
        self.in_sync.eight_legs();
        self.partial.eight_legs();
    }

    // The legs that are listed: in sync, or about to be.
    pub(crate) fn listed(&self) -> LegSet
        ensures { result ≡ legs_where (is_listed_by self.now) }
    {
        self.in_sync.or(&self.candidates)
    }
}

impl DurableState {
    // Whether a save with these marks may say of the leg that it lacks no more than marked spans.
    fn is_partial<L: LegPart>(&self, stripe: &Stripe<L>, marked: &[bool], leg: u8) -> bool
        ensures { result ≡ is_partial stripe.now self.now marked.now leg }
    {
        (leg as usize) < stripe.legs()
            && !stripe.state(leg).is_in_sync()
            && (self.is_named(leg) || self.is_lacking(leg))
            && stripe.left(leg) < stripe.blocks()
            && lies_marked(self.span(), marked, stripe.region_to_copy(leg, 0))
    }
}

// Whether the leg is one of the stripe's, and in sync.
pub(crate) fn is_in_sync<L: LegPart>(stripe: &Stripe<L>, leg: u8) -> bool
    ensures { result ≡ is_current_leg stripe.now leg }
{
    (leg as usize) < stripe.legs() && stripe.state(leg).is_in_sync()
}

// Whether the leg joins, and nothing is left to copy to it.
fn is_candidate<L: LegPart>(stripe: &Stripe<L>, leg: u8) -> bool
    ensures { result ≡ is_candidate stripe.now leg }
{
    (leg as usize) < stripe.legs()
        && stripe.state(leg) == LegState::Joining
        && stripe.left(leg) == 0
}

// Whether the region lies in one of these marked spans of so many regions, or there is none.
fn lies_marked(span: u64, marked: &[bool], region: Option<u64>) -> bool
    requires { 0 < span }
    ensures { result ≡ lies_marked span marked.now region }
{
    match region {
        Some(region) => bit(marked, region / span),
        None => true,
    }
}
