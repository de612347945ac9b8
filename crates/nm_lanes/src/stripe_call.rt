//! One step of a call on one lane.
ghost use Rattle.std.specs.Prelude.{◌≡◌, [], ◌∷◌, IfErr, OnOk};
ghost use Rattle.nm_stripe.specs.declared.step.Step.TheVariants as step;
ghost use Rattle.nm_lanes.specs.Answers.{answer_of_begin, answer_of_claim, answer_of_copy};
ghost use Rattle.nm_lanes.specs.Answers.{answer_of_push, answer_of_read, answer_of_sync, HandsBack};
ghost use Rattle.nm_lanes.specs.Done.{done_as};
ghost use Rattle.nm_lanes.specs.Lane.{LaneDoes, LaneStops};
ghost use Rattle.nm_lanes.specs.Own.{EndsSo};
ghost use Rattle.nm_lanes.specs.Steps.{Nobodys};
ghost use Rattle.nm_lanes.specs.Told.{number_claimed, number_read};

use crate::blocker::end_of;
use crate::call_error_kind::CallErrorKind;
use crate::call_kind::CallKind;
use crate::gate::Gate;
use crate::lane::Lane;
use crate::place::Place;
use crate::step_kind::StepKind;
use nm_fanout::Data;
use nm_leg::LegPart;
use nm_rules::Refusal;
use nm_stripe::{Beginning, Copying, Reach, Reading, Syncing, Written};
use std::sync::Wait;

/// Where a call is at work: the lock of one stripe, and what the gate is told.
#[derive(Drop)]
pub(crate) struct StripeCall<'a, R, G, K> {
    pub(crate) rt: &'a R,
    pub(crate) gate: &'a G,
    pub(crate) lock: &'a K,
    pub(crate) pass: Option<u32>,
    pub(crate) call: CallKind,
    pub(crate) stripe: u32,
    pub(crate) block: Option<u64>,
}

/// The number of the first entry that a claim was given.
fn number_claimed<L>(claimed: &Result<Written<L>, Refusal>) -> Option<u64>
    ensures { result ≡ number_claimed claimed.now }
{
    match claimed {
        Ok(written) => Some(written.number()),
        Err(_) => None,
    }
}

/// The number of the first entry that a read was given.
fn number_read<L>(read: &Result<Reading<L>, Refusal>) -> Option<u64>
    ensures { result ≡ number_read read.now }
{
    match read {
        Ok(Reading::Value(receipt)) => Some(receipt.number()),
        _ => None,
    }
}

/// Each step, and then the gate.
impl<R: Wait, G: Gate, K> StripeCall<'_, R, G, K> {
    /// Tells the gate of a step that was done, and of the first entry that it was given.
    fn pass_gate(&self, step: StepKind, number: Option<u64>) {
        self.gate.between(&Place {
            pass: self.pass,
            call: self.call,
            stripe: self.stripe,
            block: self.block,
            step,
            number,
        });
    }

    /// Begins a write.
    pub(crate) fn begin<L: LegPart, D: Lane<L, K>>(
        &self,
        lane: &mut D,
        block: u64,
        slice: Data,
    ) -> Result<Beginning, (Refusal, Data)>
        ensures follows { D.follows lane.old
            (done_as (step.Begin block slice) (answer_of_begin result) ∷ []) lane.new }
        ensures handed_back { HandsBack slice result }
    {
        let begun = lane.begin(self.rt, self.lock, block, slice);
        self.pass_gate(StepKind::Begin, None);
        begun
    }

    /// Pushes a write to a leg.
    fn push<L: LegPart, D: Lane<L, K>>(
        &self,
        lane: &mut D,
        ticket: u64,
        leg: u8,
    ) -> Result<Reach, Refusal>
        ensures follows { D.follows lane.old
            (done_as (step.Push ticket leg) (answer_of_push result) ∷ []) lane.new }
    {
        let pushed = lane.push(self.rt, self.lock, ticket, leg);
        self.pass_gate(StepKind::Push, None);
        pushed
    }

    /// Claims a write.
    pub(crate) fn claim<L: LegPart, D: Lane<L, K>>(
        &self,
        lane: &mut D,
        ticket: u64,
    ) -> Result<Written<L>, Refusal>
        ensures follows { D.follows lane.old
            (done_as (step.Claim ticket) (answer_of_claim result) ∷ []) lane.new }
    {
        let claimed = lane.claim(self.rt, self.lock, ticket);
        self.pass_gate(StepKind::Claim, number_claimed(&claimed));
        claimed
    }

    /// Reads a run.
    pub(crate) fn read<L: LegPart, D: Lane<L, K>>(
        &self,
        lane: &mut D,
        block: u64,
        into: &mut [u8],
    ) -> Result<Reading<L>, Refusal>
        ensures follows { D.follows lane.old
            (done_as (step.Read block into.old) (answer_of_read result into.new) ∷ []) lane.new }
    {
        let read = lane.read(self.rt, self.lock, block, into);
        self.pass_gate(StepKind::Read, number_read(&read));
        read
    }

    /// Flushes a leg.
    pub(crate) fn flush<L: LegPart, D: Lane<L, K>>(
        &self,
        lane: &mut D,
        leg: u8,
    ) -> Result<Syncing, Refusal>
        ensures follows { D.follows lane.old
            (done_as (step.Flush leg) (answer_of_sync result) ∷ []) lane.new }
    {
        let flushed = lane.flush(self.rt, self.lock, leg);
        self.pass_gate(StepKind::Flush, None);
        flushed
    }

    /// Does a step of the copy to a leg, which moves up to `most` blocks, and opens no region below
    /// `from`.
    pub(crate) fn copy<L: LegPart, D: Lane<L, K>>(
        &self,
        lane: &mut D,
        leg: u8,
        most: u64,
        from: u64,
    ) -> Result<Copying, Refusal>
        ensures follows { D.follows lane.old
            (done_as (step.Copy leg most from) (answer_of_copy result) ∷ []) lane.new }
    {
        let copied = lane.copy(self.rt, self.lock, leg, most, from);
        self.pass_gate(StepKind::Copy, None);
        copied
    }

    /// Pushes a write to a leg: true once the write has reached its last one. A refusal that does
    /// not end the call is harmless.
    pub(crate) fn try_push<L: LegPart, D: Lane<L, K>>(
        &self,
        lane: &mut D,
        ticket: u64,
        leg: u8,
    ) -> Result<bool, CallErrorKind>
        ensures ok { OnOk result (LaneDoes D.follows lane.old lane.new []) }
        ensures err { IfErr result (λ kind.
            LaneStops D.follows lane.old lane.new [] (EndsSo Nobodys kind)) }
    {
        match self.push(lane, ticket, leg) {
            Ok(Reach::Pushed(_)) => Ok(false),
            Ok(Reach::Complete(_)) => Ok(true),
            Ok(Reach::LegLost(_)) => Ok(false),
            Ok(Reach::Halted) => Err(CallErrorKind::Halted),
            Err(refusal) => match end_of(refusal) {
                Some(kind) => Err(kind),
                None => Ok(false),
            },
        }
    }
}
