//! Does a list of steps.
ghost use Rattle.nm_leg.specs.Leg.{leg_type};
ghost use Rattle.std.specs.Prelude.{◌≡◌, [], IsTrue, IsOk, IfOk, IfErr, OnErr};
ghost use Rattle.nm_rules.specs.Sound.{IsSound};
ghost use Rattle.nm_stripe.specs.Bound.{BoundsCopies};
ghost use Rattle.nm_stripe.specs.Flush.{Flushes};
ghost use Rattle.nm_stripe.specs.Run.{AllAsked, Runs, NoneHalted, ActOnOneArray};

use crate::answer::Answer;
use crate::step::Step;
use crate::stripe::Stripe;
use nm_leg::LegPart;
use std::alloc::Global;

impl<L: LegPart> Stripe<L> {
    /// Does the steps one after the other, and gives one answer a step.
    ///
    /// Over honest legs, while no answer is `Halted`, each block read or written acts once, between
    /// its begin and its reply, on one array, and the kept history grows by just those acts.
    ///
    /// A leg that joins all the while has been copied to by as many calls of legs as its answers
    /// say, two for each block at most. After a flush, in which each leg was synced or was out, the
    /// legs in sync hold durably what they hold, on each block with no write under way.
    ///
    /// Room for all answers is made first: where it is refused the steps come back and nothing was
    /// done.
    pub fn run(
        &mut self,
        alloc: Global,
        steps: Vec<Step<L>>,
    ) -> Result<Vec<Answer<L>>, Vec<Step<L>>>
        requires { AllAsked L.model self.old steps.items }
        ensures steps_done { IfOk result (λ answers. Runs (leg_type L.model L.honest) self.old
            steps.items answers.items self.new) }
        ensures headline { IsTrue L.honest → IfOk result (λ answers. NoneHalted answers.items
            → ActOnOneArray L.model steps.items answers.items self.old self.new) }
        ensures bound { IfOk result (λ answers.
            BoundsCopies steps.items answers.items self.old self.new) }
        ensures flushed { IsTrue L.honest → IfOk result (λ answers.
            Flushes L.model steps.items answers.items self.old self.new) }
        ensures sound { IsSound (leg_type L.model L.honest) self.new }
        ensures handed_back { IfErr result (λ back. back.items ≡ steps.items) }
        ensures stays { OnErr result (self.new ≡ self.old) }
        ensures memory_only_at_growth { steps.items ≡ [] → IsOk result }
    {
        self.keeps();
        let mut answers = Vec::new(alloc);
        if answers.reserve(steps.len()).is_err() {
            return Err(steps);
        }
        let mut rest = steps;
        rest.reverse();
        while let Some(step) = rest.pop() {
            answers.push_reserved(self.step(step));
        }
        self.sound();
        Ok(answers)
    }
}
