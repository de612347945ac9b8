//! Which steps may be done, and why the others may not.
ghost use Rattle.std.specs.Prelude.{◌≡◌, ◌<◌, ◌↔◌, ℕ, ◌/◌, length, if◌then◌else◌, None, Some};
ghost use Rattle.std.specs.Prelude.{IsTrue, IfSome, IfNone};
ghost use Rattle.nm_fanout.specs.declared.block_data.Data.{Data};
ghost use Rattle.nm_stripe.specs.declared.step.Step.TheVariants as step;
ghost use Rattle.nm_gate.specs.Gate.{AllowsCopy, IsAllowed, IsForbidden, IsSaved};
ghost use Rattle.nm_gate.specs.Gate.{is_marked_at};
ghost use Rattle.nm_gate.specs.declared.gate_refusal.GateRefusal.TheVariants.{SaveFailed};

use crate::durable_state::DurableState;
use crate::gate_refusal::GateRefusal;
use crate::gated_stripe::GatedStripe;
use crate::leg_claims::is_in_sync;
use nm_leg::LegPart;
use nm_stripe::Stripe;

/// The gate: each tells why a step may not be done, the first condition first; none where it may.
/// With no superblock each may.
impl<L: LegPart> GatedStripe<L> {
    /// A begin of a write of a run of this block on.
    pub fn may_begin(&self, block: u64) -> Option<GateRefusal>
        ensures allowed { IfNone result ((bytes : Data) →
            IsAllowed self.now.durable self.now.stripe (step.Begin block bytes)) }
        ensures refused { IfSome result (λ refusal. (bytes : Data) →
            IsForbidden self.now.durable self.now.stripe (step.Begin block bytes) refusal) }
    {
        match &self.durable {
            Some(durable) => {
                let marked = durable.is_marked_at(&self.stripe, block);
                durable.answer(marked, GateRefusal::Unmarked)
            }
            None => None,
        }
    }

    /// A claim of a write, and a sync or a flush of a leg.
    pub fn may_answer(&self) -> Option<GateRefusal>
        ensures allowed { IfNone result ((ticket leg : ℕ) →
            IsAllowed self.now.durable self.now.stripe (step.Claim ticket)
            × IsAllowed self.now.durable self.now.stripe (step.Sync leg)
            × IsAllowed self.now.durable self.now.stripe (step.Flush leg)) }
        ensures refused { IfSome result (λ refusal. (ticket leg : ℕ) →
            IsForbidden self.now.durable self.now.stripe (step.Claim ticket) refusal
            × IsForbidden self.now.durable self.now.stripe (step.Sync leg) refusal
            × IsForbidden self.now.durable self.now.stripe (step.Flush leg) refusal) }
    {
        match &self.durable {
            Some(durable) => {
                let saved = durable.is_saved(&self.stripe);
                durable.answer(saved, GateRefusal::Unsaved)
            }
            None => None,
        }
    }

    /// An attach of the leg.
    pub fn may_attach(&self, leg: u8) -> Option<GateRefusal>
        ensures allowed { IfNone result
            (IsAllowed self.now.durable self.now.stripe (step.Attach leg)) }
        ensures refused { IfSome result
            (IsForbidden self.now.durable self.now.stripe (step.Attach leg)) }
    {
        match &self.durable {
            Some(durable) => durable.answer(!durable.is_named(leg), GateRefusal::Unsaved),
            None => None,
        }
    }

    /// A replacement of the leg, by any other.
    pub fn may_replace(&self, leg: u8) -> Option<GateRefusal>
        ensures allowed { IfNone result ((part : L) →
            IsAllowed self.now.durable self.now.stripe (step.Replace leg part)) }
        ensures refused { IfSome result (λ refusal. (part : L) →
            IsForbidden self.now.durable self.now.stripe (step.Replace leg part) refusal) }
    {
        match &self.durable {
            Some(durable) => {
                let unknown = !durable.is_named(leg) && !durable.is_lacking(leg);
                durable.answer(unknown, GateRefusal::Unsaved)
            }
            None => None,
        }
    }

    /// A promotion of the leg.
    pub fn may_promote(&self, leg: u8) -> Option<GateRefusal>
        ensures allowed { IfNone result
            (IsAllowed self.now.durable self.now.stripe (step.Promote leg)) }
        ensures refused { IfSome result
            (IsForbidden self.now.durable self.now.stripe (step.Promote leg)) }
    {
        match &self.durable {
            Some(durable) => durable.answer(durable.is_listed(leg), GateRefusal::Unsaved),
            None => None,
        }
    }

    /// A step of the copy to the leg that opens no region below `from`.
    pub fn may_copy(&self, leg: u8, from: u64) -> Option<GateRefusal>
        requires { leg < length self.now.stripe.legs }
        ensures allowed { IfNone result ((most : ℕ) →
            IsAllowed self.now.durable self.now.stripe (step.Copy leg most from)) }
        ensures refused { IfSome result (λ refusal. (most : ℕ) →
            IsForbidden self.now.durable self.now.stripe (step.Copy leg most from) refusal) }
    {
        match &self.durable {
            Some(durable) if !durable.allows_copy(&self.stripe, leg, from) => {
                Some(GateRefusal::Unsaved)
            }
            _ => None,
        }
    }
}

impl DurableState {
    // Why a step is refused that needs the superblock, and is allowed by it or not.
    fn answer(&self, allowed: bool, refusal: GateRefusal) -> Option<GateRefusal>
        ensures { result ≡ (if self.now.broken then Some SaveFailed
            else (if allowed then None else Some refusal)) }
    {
        if self.is_broken() {
            Some(GateRefusal::SaveFailed)
        } else if allowed {
            None
        } else {
            Some(refusal)
        }
    }

    // Whether the block's span is marked.
    fn is_marked_at<L: LegPart>(&self, stripe: &Stripe<L>, block: u64) -> bool
        ensures { result ≡ is_marked_at block stripe.now self.now }
    {
        self.is_marked(region_of(stripe, block))
    }

    // Whether the region that a copy to the leg goes on with may be written there.
    fn allows_copy<L: LegPart>(&self, stripe: &Stripe<L>, leg: u8, from: u64) -> bool
        requires { leg < length stripe.now.legs }
        ensures { IsTrue result ↔ AllowsCopy self.now stripe.now leg from }
    {
        if !self.is_lacking(leg) {
            return true;
        }
        match stripe.region_to_copy(leg, from) {
            Some(region) => self.is_marked(region),
            None => true,
        }
    }

    // Whether each leg that may be called in sync is.
    pub(crate) fn is_saved<L: LegPart>(&self, stripe: &Stripe<L>) -> bool
        ensures { IsTrue result ↔ IsSaved self.now stripe.now }
    {
        self.eight_legs();
        'legs: for leg in 0..8 {
            if self.is_named(leg) && !is_in_sync(stripe, leg) {
                return false;
            }
        }
        true
    }
}

// The block's region.
pub(crate) fn region_of<L: LegPart>(stripe: &Stripe<L>, block: u64) -> u64
    ensures { result ≡ block / stripe.now.place.region }
{
    block.checked_div(stripe.place().region).unwrap_or(0)
}
