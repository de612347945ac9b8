//! The write of one run: its begin, its pushes and its claim; or its read.
ghost use Rattle.std.specs.Prelude.{◌≡◌, [], length, IsTrue, IfOk, IfErr, OnOk};
ghost use Rattle.nm_stripe.specs.declared.step.Step.TheVariants as step;
ghost use Rattle.nm_lanes.specs.Lane.{LaneDoes, LaneStops};
ghost use Rattle.nm_lanes.specs.Own.{EndsSo};
ghost use Rattle.nm_lanes.specs.Steps.{BeginTurns, Completes, IsWritten, LaneBegins, LaneWrites};
ghost use Rattle.nm_lanes.specs.Runs.{IsRun};
ghost use Rattle.nm_lanes.specs.Steps.{LaneWriteStops, Nobodys, Only, Turns};
ghost use Rattle.nm_lanes.specs.RegionRuns.{DoesOne, OneStops};

use crate::blocker::claim_end_of;
use crate::call_error_kind::CallErrorKind;
use crate::gate::Gate;
use crate::lane::Lane;
use crate::run_write::RunWrite;
use crate::stripe_call::StripeCall;
use nm_fanout::Data;
use nm_leg::LegPart;
use nm_stripe::Beginning;
use std::sync::Wait;

impl<R: Wait, G: Gate, K> StripeCall<'_, R, G, K> {
    /// One try of a begin: its ticket, or the data, which have come back.
    fn try_begin_once<L: LegPart, D: Lane<L, K>>(
        &self,
        lane: &mut D,
        block: u64,
        slice: Data,
    ) -> Result<Result<u64, Data>, CallErrorKind>
        ensures ok { IfOk result (BeginTurns D.follows (lane.old, lane.new) block slice) }
        ensures err { IfErr result (λ kind.
            LaneStops D.follows lane.old lane.new [] (EndsSo Nobodys kind)) }
    {
        match self.begin(lane, block, slice) {
            Ok(Beginning::Begun(ticket)) => Ok(Ok(ticket)),
            Ok(Beginning::LegLost(_, slice)) => Ok(Err(slice)),
            Err((refusal, slice)) => {
                self.unblock(lane, refusal)?;
                Ok(Err(slice))
            }
        }
    }

    /// Begins a write, and gives its ticket.
    fn begin_one<L: LegPart, D: Lane<L, K>>(
        &self,
        lane: &mut D,
        block: u64,
        slice: Data,
    ) -> Result<u64, CallErrorKind>
        ensures ok { IfOk result (LaneBegins D.follows (lane.old, lane.new) block slice) }
        ensures err { IfErr result (λ kind.
            LaneStops D.follows lane.old lane.new [] (EndsSo Nobodys kind)) }
    {
        let mut rest = slice;
        for _ in self.rt.forever() {
            let turn = self.try_begin_once(lane, block, rest)?;
            match turn {
                Ok(ticket) => return Ok(ticket),
                Err(back) => rest = back,
            }
        }
        unreachable!()
    }

    /// Pushes a write to each leg that it owes. One that it does not owe refuses, which is no harm.
    fn push_all<L: LegPart, D: Lane<L, K>>(
        &self,
        lane: &mut D,
        ticket: u64,
        legs: u8,
    ) -> Result<(), CallErrorKind>
        ensures ok { OnOk result (LaneDoes D.follows lane.old lane.new []) }
        ensures err { IfErr result (λ kind.
            LaneStops D.follows lane.old lane.new [] (EndsSo Nobodys kind)) }
    {
        for leg in 0..legs {
            if self.try_push(lane, ticket, leg)? {
                return Ok(());
            }
        }
        Ok(())
    }

    /// One try of a claim: true where the write is done.
    fn try_claim_once<L: LegPart, D: Lane<L, K>>(
        &self,
        lane: &mut D,
        ticket: u64,
    ) -> Result<bool, CallErrorKind>
        ensures ok { IfOk result (Turns D.follows (lane.old, lane.new) (step.Claim ticket)
            IsWritten) }
        ensures err { IfErr result (λ kind.
            LaneStops D.follows lane.old lane.new [] (EndsSo (Only ticket) kind)) }
    {
        match self.claim(lane, ticket) {
            Ok(_) => Ok(true),
            Err(refusal) => {
                if let Some(kind) = claim_end_of(refusal) {
                    return Err(kind);
                }
                self.help_write(lane, Some(ticket))?;
                Ok(false)
            }
        }
    }

    /// Claims a write, and pushes it where it is not done yet.
    fn claim_one<L: LegPart, D: Lane<L, K>>(
        &self,
        lane: &mut D,
        ticket: u64,
    ) -> Result<(), CallErrorKind>
        ensures ok { OnOk result (Completes D.follows lane.old lane.new (step.Claim ticket)
            IsWritten) }
        ensures err { IfErr result (λ kind.
            LaneStops D.follows lane.old lane.new [] (EndsSo (Only ticket) kind)) }
    {
        for _ in self.rt.forever() {
            if self.try_claim_once(lane, ticket)? {
                return Ok(());
            }
        }
        unreachable!()
    }

    /// Writes a run on so many legs.
    pub(crate) fn write_one<L: LegPart, D: Lane<L, K>>(
        &self,
        lane: &mut D,
        block: u64,
        slice: Data,
        legs: u8,
    ) -> Result<(), CallErrorKind>
        ensures ok { OnOk result (LaneWrites D.follows lane.old lane.new block slice) }
        ensures err { IfErr result (LaneWriteStops D.follows (lane.old, lane.new) block slice) }
    {
        let ticket = self.begin_one(lane, block, slice)?;
        self.push_all(lane, ticket, legs)?;
        match self.claim_one(lane, ticket) {
            Ok(()) => Ok(()),
            Err(kind) => Err(kind),
        }
    }

    /// Reads a run into a target of its length, or writes it on so many legs.
    pub(crate) fn do_one<L: LegPart, D: Lane<L, K>>(
        &self,
        lane: &mut D,
        block: u64,
        write: RunWrite,
        is_read: bool,
        legs: u8,
        into: &mut [u8],
    ) -> Result<(), CallErrorKind>
        requires run { IsRun write.run }
        requires long { IsTrue is_read → length into.old ≡ write.run.len }
        ensures ok { OnOk result (DoesOne D.follows (lane.old, lane.new) is_read block write
            into.new) }
        ensures err { IfErr result (OneStops D.follows (lane.old, lane.new) is_read block write) }
    {
        if is_read {
            return self.read_one(lane, block, write.run, into);
        }
        self.write_one(lane, block, write.bytes, legs)
    }
}
