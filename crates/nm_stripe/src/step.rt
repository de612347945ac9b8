//! Does one step.
ghost use Rattle.nm_leg.specs.Leg.{blocks_in, leg_type};
ghost use Rattle.std.specs.Prelude.{◌≡◌, ◌*◌, ◌<◌, [], ◌∷◌, length, IsTrue, Some};
ghost use Rattle.nm_fanout.specs.Data.{FitsBlocks, data_blocks};
ghost use Rattle.nm_rules.specs.Acts.{IsExplainedStep};
ghost use Rattle.nm_rules.specs.Runs.{FitsRun};
ghost use Rattle.nm_stripe.specs.Run.{MayBeAsked, StepOf, NoneHalted, marks};

use crate::answer::{Answer, Handed};
use crate::begin::Beginning;
use crate::copy::Copying;
use crate::fail::Failing;
use crate::push::Reach;
use crate::read::Reading;
use crate::room::Room;
use crate::spans::Spans;
use crate::stripe::Stripe;
use crate::sync::{Promotion, Syncing};
use crate::value::Value;
use nm_fanout::Data;
use nm_leg::LegPart;
use nm_rules::Refusal;

/// One step of a stripe: one hold of its lock, with at most one call of a leg.
#[derive(Drop)]
pub enum Step<L> {
    /// Begins a write from this block on, or of a part of this block.
    Begin(u64, Data),
    /// Pushes the write of this ticket to this leg.
    Push(u64, u8),
    /// Claims the finished write of this ticket.
    Claim(u64),
    /// Reads from this block on into this room, as many blocks as it has bytes for.
    Read(u64, Room),
    /// Takes this leg out.
    Fail(u8),
    /// Lets this leg join again.
    Attach(u8),
    /// Lets this leg join again as one that may have lost what it has not synced in these spans.
    Return(u8, Spans),
    /// Puts another leg in the place of this one, which is out.
    Replace(u8, L),
    /// Copies to this joining leg: up to so many blocks, at least one, are read or written. Where
    /// no copy is open, of its lowest region behind that is not below this one.
    Copy(u8, u64, u64),
    /// Calls this joining leg in sync, after a sync.
    Promote(u8),
    /// Syncs this leg.
    Sync(u8),
    /// Syncs this leg. Where that fails, no more of it is behind than after a failed write.
    Flush(u8),
}

/// A refusal with nothing to hand back.
#[inline(always)]
fn refusal_answer<L: LegPart>(refusal: Refusal) -> Answer<L>
    ensures { result ≡ Answer.Refused refusal Handed.Nothing }
{
    Answer::Refused(refusal, Handed::Nothing)
}

/// A lost leg with nothing to hand back.
#[inline(always)]
fn loss_answer<L: LegPart>(leg: u8) -> Answer<L>
    ensures { result ≡ Answer.LegLost leg Handed.Nothing }
{
    Answer::LegLost(leg, Handed::Nothing)
}

impl<L: LegPart> Stripe<L> {
    /// A begin. The data come back with every answer but `Begun`.
    #[inline(always)]
    fn step_begin(&mut self, block: u64, data: Data) -> Answer<L>
        requires run { FitsRun self.old.place block (data_blocks «data») }
        requires fits { FitsBlocks «data» }
        ensures step { StepOf (leg_type L.model L.honest) (Step.Begin block «data») result
            self.old self.new }
        ensures acts { IsTrue L.honest
            → IsExplainedStep L.model (marks (Step.Begin block «data») result)
            self.old self.new }
    {
        match self.begin(block, data) {
            Ok(Beginning::Begun(ticket)) => Answer::Begun(ticket),
            Ok(Beginning::LegLost(leg, data)) => Answer::LegLost(leg, Handed::Data(data)),
            Err((refusal, data)) => Answer::Refused(refusal, Handed::Data(data)),
        }
    }

    /// A read. The room comes back with every answer.
    #[inline(always)]
    fn step_read(&mut self, block: u64, room: Room) -> Answer<L>
        requires run { FitsRun self.old.place block (blocks_in room) }
        requires whole { length room ≡ 512 * blocks_in room }
        ensures step { StepOf (leg_type L.model L.honest) (Step.Read block room) result
            self.old self.new }
        ensures acts { IsTrue L.honest
            → IsExplainedStep L.model (marks (Step.Read block room) result) self.old self.new }
    {
        let mut room = room;
        match self.read(block, &mut room.bytes) {
            Ok(Reading::Value(receipt)) => Answer::Value(Value { receipt, room }),
            Ok(Reading::LegLost(leg)) => Answer::LegLost(leg, Handed::Room(room)),
            Err(refusal) => Answer::Refused(refusal, Handed::Room(room)),
        }
    }

    /// A push.
    #[inline(always)]
    fn step_push(&mut self, ticket: u64, leg: u8) -> Answer<L>
        requires { leg < length self.old.legs }
        ensures step { StepOf (leg_type L.model L.honest) (Step.Push ticket leg) result
            self.old self.new }
        ensures acts { IsTrue L.honest → NoneHalted (result ∷ [])
            → IsExplainedStep L.model (marks (Step.Push ticket leg) result) self.old self.new }
    {
        self.sound();
        match self.push(ticket, leg) {
            Ok(Reach::Pushed(owed)) => Answer::Pushed(owed),
            Ok(Reach::Complete(number)) => Answer::Complete(number),
            Ok(Reach::LegLost(leg)) => loss_answer(leg),
            Ok(Reach::Halted) => Answer::Halted,
            Err(refusal) => refusal_answer(refusal),
        }
    }

    /// A leg is taken out.
    fn step_fail(&mut self, leg: u8) -> Answer<L>
        requires { leg < length self.old.legs }
        ensures step { StepOf (leg_type L.model L.honest) (Step.Fail leg) result
            self.old self.new }
        ensures acts { IsTrue L.honest
            → IsExplainedStep L.model (marks (Step.Fail leg) result) self.old self.new }
    {
        match self.fail(leg) {
            Ok(Failing::Failed) => Answer::Failed,
            Ok(Failing::MasterChanged(master)) => Answer::MasterChanged(master),
            Err(refusal) => refusal_answer(refusal),
        }
    }

    /// A leg returns.
    fn step_return(&mut self, leg: u8, spans: Spans) -> Answer<L>
        requires leg { leg < length self.old.legs }
        requires some { 0 < spans.span }
        ensures step { StepOf (leg_type L.model L.honest) (Step.Return leg spans) result
            self.old self.new }
        ensures acts { IsTrue L.honest
            → IsExplainedStep L.model (marks (Step.Return leg spans) result) self.old self.new }
    {
        self.sound();
        match self.return_leg(leg, &spans.marked, spans.regions) {
            Ok(left) => Answer::Joining(left),
            Err(refusal) => refusal_answer(refusal),
        }
    }

    /// A step of a copy.
    fn step_copy(&mut self, leg: u8, most: u64, from: u64) -> Answer<L>
        requires leg { leg < length self.old.legs }
        requires some { 0 < most }
        ensures step { StepOf (leg_type L.model L.honest) (Step.Copy leg most from) result
            self.old self.new }
        ensures acts { IsTrue L.honest
            → IsExplainedStep L.model (marks (Step.Copy leg most from) result) self.old self.new }
    {
        match self.copy(leg, most, from) {
            Ok(Copying::Copied { moved, left }) => Answer::Copied { moved, left },
            Ok(Copying::Nothing) => Answer::Nothing,
            Ok(Copying::LegLost(leg)) => loss_answer(leg),
            Err(refusal) => refusal_answer(refusal),
        }
    }

    /// A promotion.
    fn step_promote(&mut self, leg: u8) -> Answer<L>
        requires { leg < length self.old.legs }
        ensures step { StepOf (leg_type L.model L.honest) (Step.Promote leg) result
            self.old self.new }
        ensures acts { IsTrue L.honest
            → IsExplainedStep L.model (marks (Step.Promote leg) result) self.old self.new }
    {
        match self.promote(leg) {
            Ok(Promotion::InSync) => Answer::InSync,
            Ok(Promotion::LegLost(leg)) => loss_answer(leg),
            Err(refusal) => refusal_answer(refusal),
        }
    }

    /// A sync.
    fn step_sync(&mut self, leg: u8) -> Answer<L>
        requires { leg < length self.old.legs }
        ensures step { StepOf (leg_type L.model L.honest) (Step.Sync leg) result
            self.old self.new }
        ensures acts { IsTrue L.honest
            → IsExplainedStep L.model (marks (Step.Sync leg) result) self.old self.new }
    {
        match self.sync(leg) {
            Ok(Syncing::Synced) => Answer::Synced,
            Ok(Syncing::LegLost(leg)) => loss_answer(leg),
            Err(refusal) => refusal_answer(refusal),
        }
    }

    /// A flush.
    fn step_flush(&mut self, leg: u8) -> Answer<L>
        requires { leg < length self.old.legs }
        ensures step { StepOf (leg_type L.model L.honest) (Step.Flush leg) result
            self.old self.new }
        ensures acts { IsTrue L.honest
            → IsExplainedStep L.model (marks (Step.Flush leg) result) self.old self.new }
    {
        match self.flush(leg) {
            Ok(Syncing::Synced) => Answer::Synced,
            Ok(Syncing::LegLost(gone)) => loss_answer(gone),
            Err(refusal) => refusal_answer(refusal),
        }
    }

    /// Does one step, with at most one call of a leg. Each answer is one that the step may have,
    /// and the stripe is then as that answer says.
    // Inlined, with all that stands between a lane and the steps: where a call's kind of step is
    // known most of the answer is never made.
    #[inline(always)]
    pub fn step(&mut self, step: Step<L>) -> Answer<L>
        requires { MayBeAsked L.model self.old step }
        ensures step { StepOf (leg_type L.model L.honest) step result self.old self.new }
        ensures acts { IsTrue L.honest → NoneHalted (result ∷ [])
            → IsExplainedStep L.model (marks step result) self.old self.new }
    {
        self.sound();
        match step {
            Step::Begin(block, data) => self.step_begin(block, data),
            Step::Push(ticket, leg) => self.step_push(ticket, leg),
            Step::Claim(ticket) => match self.claim(ticket) {
                Ok(written) => Answer::Written(written),
                Err(refusal) => refusal_answer(refusal),
            },
            Step::Read(block, room) => self.step_read(block, room),
            Step::Fail(leg) => self.step_fail(leg),
            Step::Attach(leg) => match self.attach(leg) {
                Ok(left) => Answer::Joining(left),
                Err(refusal) => refusal_answer(refusal),
            },
            Step::Return(leg, spans) => self.step_return(leg, spans),
            Step::Replace(leg, part) => match self.replace(leg, part) {
                Ok(left) => Answer::Joining(left),
                Err((refusal, part)) => Answer::Refused(refusal, Handed::Replacement(part)),
            },
            Step::Copy(leg, most, from) => self.step_copy(leg, most, from),
            Step::Promote(leg) => self.step_promote(leg),
            Step::Sync(leg) => self.step_sync(leg),
            Step::Flush(leg) => self.step_flush(leg),
        }
    }
}
