//! Claims a finished write.
ghost use Rattle.std.specs.Prelude.{◌≡◌, IsTrue, IfOk, IfErr, OnErr, Some};
ghost use Rattle.nm_rules.specs.Acts.{IsExplainedStep};
ghost use Rattle.nm_rules.specs.RunClaim.{ClaimsRun, claim_run_cause, replies_of};

use crate::stripe::Stripe;
use crate::written::Written;
use nm_leg::LegPart;
use nm_rules::Refusal;

impl<L: LegPart> Stripe<L> {
    /// Takes a finished write's record away, and answers with the numbers of its entries.
    ///
    /// Refused as `Stopped`, `NoTicket` or `NotYet`, the first whose condition holds.
    #[inline(always)]
    pub fn claim(&mut self, ticket: u64) -> Result<Written<L>, Refusal>
        ensures ok { IfOk result (ClaimsRun self.old self.new ticket) }
        ensures acts { IsTrue L.honest → IfOk result (λ written. IsExplainedStep L.model
            (replies_of ticket written.number written.count) self.old self.new) }
        ensures cause { IfErr result (λ refusal. claim_run_cause self.old ticket ≡ Some refusal) }
        ensures stays { OnErr result (self.new ≡ self.old) }
    {
        let near = self.store.find_to_claim(ticket)?;
        let claimed = self.store.claim(ticket, near);
        Ok(Written::new(
            self.store.place().stripe,
            claimed.block,
            claimed.number,
            claimed.count,
        ))
    }
}
