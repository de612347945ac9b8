//! A save of the superblock, from its begin to its end.
ghost use Rattle.std.specs.Prelude.{◌≡◌, ◌<◌, ◌↔◌, ℕ, length, true, false, IsTrue, IfSome};
ghost use Rattle.std.specs.Prelude.{None, Some, slice_index_or};
ghost use Rattle.nm_leg.specs.Leg.{leg_type};
ghost use Rattle.nm_rules.specs.Invariant.{HasLegs};
ghost use Rattle.nm_gate.specs.Bounds.{IsTaken, IsWidened};
ghost use Rattle.nm_gate.specs.Changes.{Ends, Leads, MayEnd, Resaved, failed};
ghost use Rattle.nm_gate.specs.Changes.{may_say, widened};
ghost use Rattle.nm_gate.specs.Claims.{HasMarks, Says, claims_of, no_claims, superblock_of};

use crate::durable_state::{DurableState, bit};
use crate::gated_stripe::GatedStripe;
use crate::leg_claims::{LegClaims, is_in_sync};
use nm_geometry::LegSet;
use nm_leg::LegPart;
use nm_stripe::Stripe;

impl<L: LegPart> GatedStripe<L> {
    /// Whether memory has something of the legs that the superblock does not say, so that a save is
    /// worth it. After one that could not be done none is.
    pub fn wants_save(&self) -> bool
        ensures some { IfSome self.now.durable (λ d. IsTrue result ↔ ((d.broken ≡ false)
            × (Says (claims_of self.now.stripe d d.marked) d → ⊥))) }
        ensures none { self.now.durable ≡ None → result ≡ false }
    {
        match &self.durable {
            Some(durable) if !durable.is_broken() => {
                let claims = LegClaims::of(&self.stripe, durable, durable.marks());
                !durable.says(&claims)
            }
            _ => false,
        }
    }

    /// Begins a save with these marks: what the new superblock says of the legs. Until the save is
    /// over both superblocks may be the durable one, and no span counts as marked that did not.
    pub fn begin_save(&mut self, marked: &[bool]) -> LegClaims
        requires marks { HasMarks self.old.durable marked.now }
        ensures stripe { self.new.stripe ≡ self.old.stripe }
        ensures none { self.old.durable ≡ None
            → (self.new.durable ≡ None) × (result ≡ no_claims) }
        ensures claims { IfSome self.old.durable (λ d.
            result ≡ claims_of self.old.stripe d marked.now) }
        ensures widened { IfSome self.old.durable (λ d.
            self.new.durable ≡ Some (widened result d)) }
        ensures bounds { IfSome self.old.durable (λ d. HasLegs L.model self.old.stripe
            → IsTaken self.old.stripe d (superblock_of result marked.now d)
            × IsWidened d (superblock_of result marked.now d) (widened result d)) }
        ensures moves { HasLegs L.model self.old.stripe → Leads (leg_type L.model L.honest)
            self.old.stripe self.old.durable self.new.stripe self.new.durable }
        ensures saves { HasLegs L.model self.old.stripe
            → Resaved self.old.stripe self.old.durable self.new.durable }
    {
        let Some(durable) = &mut self.durable else {
            return LegClaims::none();
        };
        durable.eight_legs();
        let claims = LegClaims::of(&self.stripe, durable, marked);
        durable.widen(&claims);
        claims
    }

    /// Ends a save with these claims and marks: the new superblock is the durable one. Where one
    /// could not be done before, that is over now.
    ///
    /// It has to be the save that was begun last. No contract can say so behind a lock, so it is
    /// looked at whether the superblock may be it: where not, the save could not be done.
    pub fn end_save(&mut self, claims: LegClaims, marked: &[bool])
        ensures stripe { self.new.stripe ≡ self.old.stripe }
        ensures none { self.old.durable ≡ None → self.new.durable ≡ None }
        ensures ends { IfSome self.old.durable (λ d. IfSome self.new.durable (λ e.
            MayEnd self.old.stripe d claims marked.now → Ends claims marked.now d e)) }
        ensures fails { IfSome self.old.durable (λ d.
            (MayEnd self.old.stripe d claims marked.now → ⊥)
            → self.new.durable ≡ Some (failed d)) }
        ensures moves { HasLegs L.model self.old.stripe → Leads (leg_type L.model L.honest)
            self.old.stripe self.old.durable self.new.stripe self.new.durable }
        ensures saves { HasLegs L.model self.old.stripe
            → Resaved self.old.stripe self.old.durable self.new.durable }
    {
        claims.eight_legs();
        if let Some(durable) = &mut self.durable {
            if durable.may_end(&self.stripe, &claims, marked) {
                durable.end(&claims, marked);
            } else {
                durable.fail();
            }
        }
    }

    /// Says that a save could not be done. What may be durable stays as wide as it was.
    pub fn fail_save(&mut self)
        ensures stripe { self.new.stripe ≡ self.old.stripe }
        ensures none { self.old.durable ≡ None → self.new.durable ≡ None }
        ensures fails { IfSome self.old.durable (λ d. self.new.durable ≡ Some (failed d)) }
        ensures moves { Leads (leg_type L.model L.honest)
            self.old.stripe self.old.durable self.new.stripe self.new.durable }
        ensures saves { Resaved self.old.stripe self.old.durable self.new.durable }
    {
        if let Some(durable) = &mut self.durable {
            durable.fail();
        }
    }
}

impl DurableState {
    // Whether it says this of the legs already.
    fn says(&self, claims: &LegClaims) -> bool
        ensures { IsTrue result ↔ Says claims.now self.now }
    {
        same(&self.named, &claims.in_sync)
            && same(&self.listed, &claims.listed())
            && same(&self.lacking, &claims.partial)
    }

    // From now on the superblock with these claims may be the durable one, too.
    fn widen(&mut self, claims: &LegClaims)
        ensures { self.new ≡ widened claims.now self.old }
    {
        self.named = self.named.or(&claims.in_sync);
        self.listed = self.listed.and(&claims.listed());
        self.lacking = self.lacking.or(&claims.partial);
    }

    // Whether the superblock with these claims and marks may be the durable one alone.
    fn may_end<L: LegPart>(&self, stripe: &Stripe<L>, claims: &LegClaims, marked: &[bool]) -> bool
        ensures { IsTrue result ↔ MayEnd stripe.now self.now claims.now marked.now }
    {
        self.has_only(marked) && self.may_say(stripe, claims)
    }

    // From now on the superblock with these claims and marks is the durable one, and saves go on.
    fn end(&mut self, claims: &LegClaims, marked: &[bool])
        ensures { Ends claims.now marked.now self.old self.new }
    {
        self.named = claims.in_sync;
        self.listed = claims.listed();
        self.lacking = claims.partial;
        self.broken = false;
        hold(&mut self.marked, marked);
    }

    // A save could not be done.
    fn fail(&mut self)
        ensures { self.new ≡ failed self.old }
    {
        self.broken = true;
    }
}

impl DurableState {
    // Whether these marks have each that it surely has.
    fn has_only(&self, marked: &[bool]) -> bool
        ensures { IsTrue result ↔ HasMarks (Some self.now) marked.now }
    {
        'spans: for span in 0..self.marked.len() {
            if self.marked[span] && !bit(marked, span as u64) {
                return false;
            }
        }
        true
    }

    // Whether the claims are within the bounds, and list each leg in sync that was listed.
    fn may_say<L: LegPart>(&self, stripe: &Stripe<L>, claims: &LegClaims) -> bool
        ensures { IsTrue result ↔ ((leg : ℕ) → leg < 8
            → may_say stripe.now self.now claims.now leg ≡ true) }
    {
        'legs: for leg in 0..8 {
            if !self.may_say_of(stripe, claims, leg) {
                return false;
            }
        }
        true
    }

    // Whether they may of this leg.
    fn may_say_of<L: LegPart>(&self, stripe: &Stripe<L>, claims: &LegClaims, leg: u8) -> bool
        ensures { result ≡ may_say stripe.now self.now claims.now leg }
    {
        let at = leg as usize;
        let current = is_in_sync(stripe, leg);
        let named = self.is_named(leg) || current;
        let listed = claims.in_sync.has(at) || claims.candidates.has(at);
        (!claims.in_sync.has(at) || named)
            && (!claims.partial.has(at) || self.is_lacking(leg) || named)
            && (!(current && self.is_listed(leg)) || listed)
    }
}

// Whether the sets are the same.
fn same(one: &LegSet, other: &LegSet) -> bool
    ensures { IsTrue result ↔ (one.now ≡ other.now) }
{
    one == other
}

// The marks become these, as many as they are; what is not here is no mark.
fn hold(marks: &mut [bool], marked: &[bool])
    ensures count { length marks.new ≡ length marks.old }
    ensures each { (span : ℕ) → span < length marks.old
        → slice_index_or marks.new span false ≡ slice_index_or marked.now span false }
{
    'spans: for span in 0..marks.len() {
        marks[span] = bit(marked, span as u64);
    }
}
