//! Clears a stripe's marks once its legs are equal, durably.
ghost use Rattle.std.specs.Prelude.{◌≡◌, ◌<◌, ◌⊎◌, ◌↔◌, ◌||◌, ℕ, length, true, false, IsTrue};
ghost use Rattle.std.specs.Prelude.{IfSome};
ghost use Rattle.std.specs.Prelude.{None, slice_index_or};
ghost use Rattle.std.specs.List.{list_any};
ghost use Rattle.std.specs.Option.{option_map};
ghost use Rattle.nm_leg.specs.Leg.{leg_type};
ghost use Rattle.nm_gate.specs.Changes.{AreMoves, Leads, cleared};
ghost use Rattle.nm_gate.specs.Claims.{marks_of};
ghost use Rattle.nm_gate.specs.Durable.{is_lacking, is_named};
ghost use Rattle.nm_gate.specs.Gate.{IsInSync, IsSaved};
ghost use Rattle.nm_gate.specs.Moves.{IsEqualAt, Unmarks};
ghost use Rattle.nm_gate.specs.Settling.{EndsInFailure, MayClear, MaySettle, SyncsLegs, TriesSync};
ghost use Rattle.nm_gate.specs.Survive.{EqualOutside, Stands};

use crate::durable_state::DurableState;
use crate::gated_stripe::GatedStripe;
use crate::leg_claims::is_in_sync;
use nm_leg::LegPart;
use nm_rules::Refusal;
use nm_stripe::{Stripe, Syncing};

impl<L: LegPart> GatedStripe<L> {
    /// Whether there are marks that may be cleared once each leg is synced.
    pub fn may_settle(&self) -> bool
        ensures some { IfSome self.now.durable (λ d. IsTrue result
            ↔ (IsTrue (list_any (λ marked. marked) d.marked) × MaySettle self.now.stripe d)) }
        ensures none { self.now.durable ≡ None → result ≡ false }
    {
        match &self.durable {
            Some(durable) => durable.has_marks() && durable.may_settle(&self.stripe),
            None => false,
        }
    }

    /// Clears all marks, once the legs hold the same durably: where no write has a record, and each
    /// leg is in sync that the superblock may call in sync, or partial, it syncs each leg that is
    /// not out, and clears the marks if all went well. Whether nothing is marked any more.
    ///
    /// Nothing begins between the syncs and the clearing, since the caller holds the stripe. What
    /// is cleared is what is *surely* marked. The durable superblock keeps its marks until the next
    /// save, which does no harm; and a write in such a span waits until a save has marked it anew,
    /// as one that ends meanwhile does.
    pub fn settle(&mut self) -> bool
        ensures none { self.old.durable ≡ None → self.new.stripe ≡ self.old.stripe }
        ensures settled { IsTrue result → (span : ℕ)
            → slice_index_or (marks_of self.new.durable) span false ≡ false }
        ensures stays { result ≡ false → self.new.durable ≡ self.old.durable }
        ensures hindered { IfSome self.old.durable (λ d. result ≡ false
            → (MaySettle self.old.stripe d → ⊥)
            ⊎ EndsInFailure (leg_type L.model L.honest) self.new.stripe) }
        ensures moves { IfSome self.old.durable (λ d. IsTrue L.honest
            → Stands (leg_type L.model L.honest) self.old.stripe d
            → Leads (leg_type L.model L.honest)
            self.old.stripe self.old.durable self.new.stripe self.new.durable) }
        ensures equal { IfSome self.old.durable (λ d. IsTrue L.honest
            → Stands (leg_type L.model L.honest) self.old.stripe d
            → EqualOutside (leg_type L.model L.honest) self.old.stripe d → IsTrue result
            → (block : ℕ) → block < self.new.stripe.place.blocks
            → IsEqualAt L.model self.new.stripe d block) }
    {
        let Some(durable) = &mut self.durable else {
            return true;
        };
        if !durable.has_marks() {
            return true;
        }
        if !durable.may_settle(&self.stripe) {
            return false;
        }
        if !sync_legs(&mut self.stripe, durable) {
            return false;
        }
        durable.clear();
        true
    }

    /// Clears all marks, once each leg was synced since they might be cleared so.
    pub fn clear(&mut self)
        requires { IfSome self.old.durable
            (MayClear (leg_type L.model L.honest) self.old.stripe) }
        ensures stripe { self.new.stripe ≡ self.old.stripe }
        ensures durable { self.new.durable ≡ option_map cleared self.old.durable }
        ensures equal { IfSome self.old.durable (λ d. IsTrue L.honest
            → Stands (leg_type L.model L.honest) self.old.stripe d
            → Unmarks L.model self.old.stripe d (cleared d)) }
    {
        if let Some(durable) = &mut self.durable {
            durable.clear();
        }
    }
}

impl DurableState {
    // Whether it surely marks some span.
    fn has_marks(&self) -> bool
        ensures { result ≡ list_any (λ marked. marked) self.now.marked }
    {
        self.marked.iter().any(|marked| *marked)
    }

    // Whether the marks may be cleared once each leg is synced.
    fn may_settle<L: LegPart>(&self, stripe: &Stripe<L>) -> bool
        ensures { IsTrue result ↔ MaySettle stripe.now self.now }
    {
        !self.is_broken() && stripe.end().left() == 0 && self.is_in_sync(stripe)
    }

    // Whether each leg is in sync that it may call in sync, or may say to lack marked spans alone.
    fn is_in_sync<L: LegPart>(&self, stripe: &Stripe<L>) -> bool
        ensures { IsTrue result ↔ ((leg : ℕ) →
            (is_named leg self.now || is_lacking leg self.now) ≡ true
            → IsInSync leg stripe.now) }
    {
        self.eight_legs();
        'legs: for leg in 0..8 {
            if (self.is_named(leg) || self.is_lacking(leg)) && !is_in_sync(stripe, leg) {
                return false;
            }
        }
        true
    }

    // Nothing is marked from now on.
    fn clear(&mut self)
        ensures { self.new ≡ cleared self.old }
    {
        self.marked.fill(false);
    }
}

// Syncs each leg that is not out, until one fails. Whether none does.
fn sync_legs<L: LegPart>(stripe: &mut Stripe<L>, durable: &DurableState) -> bool
    requires whole { durable.now.broken ≡ false }
    requires saved { IsSaved durable.now stripe.old }
    ensures moves { AreMoves (leg_type L.model L.honest)
        (record { stripe = stripe.old; durable = durable.now })
        (record { stripe = stripe.new; durable = durable.now }) }
    ensures failed { result ≡ false → EndsInFailure (leg_type L.model L.honest) stripe.new }
    ensures synced { IsTrue result → SyncsLegs (leg_type L.model L.honest) durable.now
        (length stripe.old.legs) stripe.old stripe.new }
{
    let legs = stripe.legs() as u8;
    'legs: for leg in 0..legs {
        if !sync_one(stripe, leg) {
            return false;
        }
    }
    true
}

// Syncs the leg, if it is not out. Whether it does not fail.
fn sync_one<L: LegPart>(stripe: &mut Stripe<L>, leg: u8) -> bool
    requires { leg < length stripe.old.legs }
    ensures { TriesSync (leg_type L.model L.honest) leg result stripe.old stripe.new }
{
    match stripe.flush(leg) {
        Ok(Syncing::Synced) => true,
        Ok(Syncing::LegLost(_)) => false,
        Err(Refusal::AlreadyOut) => true,
        Err(_) => false,
    }
}
