//! A stripe behind the gate.
ghost use Rattle.std.specs.Prelude.{◌≡◌, ◌≤◌, ◌/◌, length, IfSome, IfNone, None};
ghost use Rattle.nm_gate.specs.Claims.{marks_of};

use crate::durable_state::DurableState;
use crate::gate::region_of;
use nm_leg::LegPart;
use nm_stripe::Stripe;

/// A stripe, and what the durable superblock may say of it. Where the mirror has no superblock it
/// is none: then the gate is always open.
#[derive(Drop)]
pub struct GatedStripe<L: LegPart> {
    /// The stripe: a step is done on it once the gate has answered none.
    pub stripe: Stripe<L>,
    /// What the durable superblock may say of it.
    pub durable: Option<DurableState>,
}

impl<L: LegPart> GatedStripe<L> {
    /// A stripe behind the gate.
    pub fn new(stripe: Stripe<L>, durable: Option<DurableState>) -> GatedStripe<L>
        ensures stripe { result.stripe ≡ stripe }
        ensures durable { result.durable ≡ durable }
    {
        GatedStripe { stripe, durable }
    }

    /// The block's span, where there is a superblock.
    pub fn span_of(&self, block: u64) -> Option<u64>
        ensures some { IfSome self.now.durable (λ d.
            IfSome result (λ span. span ≡ block / self.now.stripe.place.region / d.span)) }
        ensures none { IfNone result (self.now.durable ≡ None) }
    {
        match &self.durable {
            Some(durable) => Some(region_of(&self.stripe, block) / durable.span()),
            None => None,
        }
    }

    /// The marks that the superblock surely has, one a span; with none no mark.
    pub fn marks(&self) -> &[bool]
        ensures marks { result.now ≡ marks_of self.now.durable }
        ensures few { length result.now ≤ 16384 }
    {
        match &self.durable {
            Some(durable) => durable.marks(),
            None => &[],
        }
    }
}
