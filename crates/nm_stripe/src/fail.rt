//! Takes a leg out by its number.
ghost use Rattle.std.specs.Prelude.{◌≡◌, ◌<◌, [], length, IsTrue, IfOk, IfErr, OnErr, Some};
ghost use Rattle.nm_rules.specs.Acts.{IsExplainedStep};
ghost use Rattle.nm_rules.specs.Failing.{fail_cause};
ghost use Rattle.nm_stripe.specs.Fail.{Fails};

use crate::stripe::Stripe;
use nm_leg::LegPart;
use nm_rules::Refusal;

/// What the taking out of a leg answers.
#[derive(Clone, Copy, PartialEq, Eq)]
pub enum Failing {
    /// The leg has gone out. It was not the master.
    Failed,
    /// The master has gone out, and this leg is the master now.
    MasterChanged(u8),
}

impl<L: LegPart> Stripe<L> {
    /// Takes the leg out. No leg is called.
    ///
    /// Refused as `Stopped`, `AlreadyOut` or `LastLeg`, the first whose condition holds.
    pub fn fail(&mut self, leg: u8) -> Result<Failing, Refusal>
        requires { leg < length self.old.legs }
        ensures ok { IfOk result (Fails self.old self.new leg) }
        ensures acts { IsTrue L.honest → IsExplainedStep L.model [] self.old self.new }
        ensures cause { IfErr result (λ refusal. fail_cause self.old leg ≡ Some refusal) }
        ensures stays { OnErr result (self.new ≡ self.old) }
    {
        if let Some(refusal) = self.store.fail_cause(leg) {
            return Err(refusal);
        }
        let master = self.store.master();
        self.store.lose(leg);
        if leg == master {
            Ok(Failing::MasterChanged(self.store.master()))
        } else {
            Ok(Failing::Failed)
        }
    }
}
