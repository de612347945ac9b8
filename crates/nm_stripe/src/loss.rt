//! A leg that is out returns as what a loss of its power left of it.
ghost use Rattle.std.specs.Prelude.{◌≡◌, ◌<◌, [], length, true, IfOk, IfErr, OnOk, OnErr, Some};
ghost use Rattle.nm_rules.specs.Acts.{IsExplainedStep};
ghost use Rattle.nm_rules.specs.Attach.{attach_cause};
ghost use Rattle.nm_rules.specs.Losing.{CoversLoss, LosesPower, ReturnsLost};
ghost use Rattle.nm_rules.specs.Reopening.{Marks};
ghost use Rattle.nm_rules.specs.State.{is_out, left, leg_state};

use crate::stripe::Stripe;
use nm_leg::LegPart;
use nm_rules::Refusal;

impl<L: LegPart> Stripe<L> {
    /// The leg returns as what a loss of its power left of it while it was out. What was there is
    /// dropped. What it lost lies in the marked spans, or where it was behind.
    ///
    /// Refused as `attach` is; the part comes back.
    pub fn return_lost(
        &mut self,
        leg: u8,
        part: L,
        marked: &[bool],
        span: u64,
    ) -> Result<u64, (Refusal, L)>
        requires leg { leg < length self.old.legs }
        requires some { 0 < span }
        requires lost { is_out (leg_state leg self.old) ≡ true
            → LosesPower L.model self.old leg part }
        requires covered { let marks : Marks = record { marked = marked.now; span = span } in
            CoversLoss L.model self.old leg part marks }
        ensures ok { let marks : Marks = record { marked = marked.now; span = span } in
            OnOk result (ReturnsLost L.model self.old self.new leg part marks) }
        ensures left { IfOk result (λ blocks. blocks ≡ left leg self.new) }
        ensures acts { OnOk result (IsExplainedStep L.model [] self.old self.new) }
        ensures cause { IfErr result (λ refused. attach_cause self.old leg ≡ Some refused.0) }
        ensures handed_back { IfErr result (λ refused. refused.1 ≡ part) }
        ensures stays { OnErr result (self.new ≡ self.old) }
    {
        if let Some(refusal) = self.store.attach_cause(leg) {
            return Err((refusal, part));
        }
        self.store.stand_in(leg, part);
        self.store.return_leg(leg, marked, span);
        Ok(self.store.left(leg))
    }
}
