//! A leg comes back that may have lost what was written to it.
ghost use Rattle.std.specs.Prelude.{◌≡◌, ◌<◌, length, IfErr, IfOk, OnErr, OnOk, Some};
ghost use Rattle.nm_gate.specs.Gate.{IsAllowed};
ghost use Rattle.nm_gate.specs.Returning.{suspects};
ghost use Rattle.nm_rules.specs.Attach.{Returns, attach_cause};
ghost use Rattle.nm_rules.specs.State.{left};
ghost use Rattle.nm_stripe.specs.declared.step.Step.TheVariants as step;

use crate::gated_stripe::GatedStripe;
use nm_leg::LegPart;
use nm_rules::Refusal;

/// As many regions as a stripe has at most.
const MOST_REGIONS: u64 = 1 << 31;

impl<L: LegPart> GatedStripe<L> {
    /// The leg joins as one that may have lost what it has not synced: it is behind there too.
    /// Where the superblock may say that the leg lacks no more than the marked spans, what is not
    /// synced lies in these; else it may lie anywhere. Answers how many blocks are left to copy to
    /// it.
    ///
    /// Refused as `Stripe::attach` is.
    pub fn return_leg(&mut self, leg: u8) -> Result<u64, Refusal>
        requires allowed { IsAllowed self.old.durable self.old.stripe (step.Attach leg) }
        requires leg { leg < length self.old.stripe.legs }
        ensures ok { OnOk result (Returns L.model self.old.stripe self.new.stripe leg
            (suspects leg self.old.durable)) }
        ensures left { IfOk result (λ blocks. blocks ≡ left leg self.new.stripe) }
        ensures cause { IfErr result (λ refusal. attach_cause self.old.stripe leg ≡ Some refusal) }
        ensures stays { OnErr result (self.new.stripe ≡ self.old.stripe) }
        ensures durable { self.new.durable ≡ self.old.durable }
        ensures span { 0 < (suspects leg self.old.durable).span }
    {
        match &self.durable {
            Some(durable) if durable.is_lacking(leg) => {
                self.stripe.return_leg(leg, durable.marks(), durable.span())
            }
            _ => self.stripe.return_leg(leg, &[true], MOST_REGIONS),
        }
    }
}
