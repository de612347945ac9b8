//! A leg that is out joins again.
ghost use Rattle.std.specs.Prelude.{◌≡◌, ◌<◌, [], length, IsTrue, IfOk, IfErr, OnOk, OnErr, Some};
ghost use Rattle.nm_rules.specs.Acts.{IsExplainedStep};
ghost use Rattle.nm_rules.specs.Attach.{Attaches, Replaces, Returns, attach_cause};
ghost use Rattle.nm_rules.specs.Reopening.{Marks};
ghost use Rattle.nm_rules.specs.State.{left};

use crate::stripe::Stripe;
use nm_leg::LegPart;
use nm_rules::Refusal;

impl<L: LegPart> Stripe<L> {
    /// The leg joins with what it has, and answers how many blocks are left to copy to it: those of
    /// the regions in which it is behind.
    ///
    /// Refused as `Stopped` or `NotOut`, the first whose condition holds.
    pub fn attach(&mut self, leg: u8) -> Result<u64, Refusal>
        requires { leg < length self.old.legs }
        ensures ok { OnOk result (Attaches self.old self.new leg) }
        ensures left { IfOk result (λ blocks. blocks ≡ left leg self.new) }
        ensures acts { OnOk result (IsExplainedStep L.model [] self.old self.new) }
        ensures cause { IfErr result (λ refusal. attach_cause self.old leg ≡ Some refusal) }
        ensures stays { OnErr result (self.new ≡ self.old) }
    {
        if let Some(refusal) = self.store.attach_cause(leg) {
            return Err(refusal);
        }
        self.store.attach(leg);
        Ok(self.store.left(leg))
    }

    /// The leg joins as one that may have lost what it has not synced in these marked spans, each
    /// of so many regions: it is behind also in regions of theirs where it has something unsynced.
    /// Answers how many blocks are left to copy to it.
    ///
    /// Refused as `attach` is.
    pub fn return_leg(&mut self, leg: u8, marked: &[bool], span: u64) -> Result<u64, Refusal>
        requires leg { leg < length self.old.legs }
        requires some { 0 < span }
        ensures ok { let marks : Marks = record { marked = marked.now; span = span } in
            OnOk result (Returns L.model self.old self.new leg marks) }
        ensures left { IfOk result (λ blocks. blocks ≡ left leg self.new) }
        ensures acts { OnOk result (IsExplainedStep L.model [] self.old self.new) }
        ensures cause { IfErr result (λ refusal. attach_cause self.old leg ≡ Some refusal) }
        ensures stays { OnErr result (self.new ≡ self.old) }
    {
        if let Some(refusal) = self.store.attach_cause(leg) {
            return Err(refusal);
        }
        self.store.return_leg(leg, marked, span);
        Ok(self.store.left(leg))
    }

    /// Another leg joins in the place of one that is out, with all of its regions behind. The old
    /// one is dropped.
    ///
    /// Refused as `Stopped` or `NotOut`, the first whose condition holds; the new leg comes back.
    pub fn replace(&mut self, leg: u8, part: L) -> Result<u64, (Refusal, L)>
        requires leg { leg < length self.old.legs }
        requires length { length (L.model part).contents ≡ self.old.place.blocks }
        ensures ok { OnOk result (Replaces self.old self.new leg part) }
        ensures left { IfOk result (λ blocks. blocks ≡ left leg self.new) }
        ensures acts { OnOk result (IsExplainedStep L.model [] self.old self.new) }
        ensures cause { IfErr result (λ refused. attach_cause self.old leg ≡ Some refused.0) }
        ensures handed_back { IfErr result (λ refused. refused.1 ≡ part) }
        ensures stays { OnErr result (self.new ≡ self.old) }
    {
        if let Some(refusal) = self.store.attach_cause(leg) {
            return Err((refusal, part));
        }
        self.store.replace(leg, part);
        Ok(self.store.left(leg))
    }
}
