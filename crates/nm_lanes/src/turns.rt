//! One try of a step, and what helps after it.
ghost use Rattle.std.specs.Prelude.{◌≡◌, ◌+◌, ◌/◌, ◌%◌, ◌≤◌, [], length, take, drop};
ghost use Rattle.std.specs.Prelude.{IfOk, IfErr, OnOk};
ghost use Rattle.nm_stripe.specs.declared.step.Step.TheVariants as step;
ghost use Rattle.nm_lanes.specs.Flushes.{SyncsOrFindsOut};
ghost use Rattle.nm_lanes.specs.Lane.{LaneStops};
ghost use Rattle.nm_lanes.specs.Own.{EndsSo};
ghost use Rattle.nm_lanes.specs.Reads.{IsValue, value_bytes};
ghost use Rattle.nm_lanes.specs.Runs.{run_blocks, IsRun};
ghost use Rattle.nm_lanes.specs.Steps.{Completes, CompletesRead, Nobodys, ReadTurns, Turns};

use crate::blocker::finds_out;
use crate::call_error_kind::CallErrorKind;
use crate::gate::Gate;
use crate::lane::Lane;
use crate::run::Run;
use crate::stripe_call::StripeCall;
use nm_leg::LegPart;
use nm_replay::Block;
use nm_stripe::{Reading, Syncing};
use std::sync::Wait;

impl<R: Wait, G: Gate, K> StripeCall<'_, R, G, K> {
    /// One try of a read of whole blocks right into the target: true where they were found.
    fn read_whole<L: LegPart, D: Lane<L, K>>(
        &self,
        lane: &mut D,
        block: u64,
        into: &mut [u8],
    ) -> Result<bool, CallErrorKind>
        requires { length into.old % 512 ≡ 0 }
        ensures ok { IfOk result (ReadTurns D.follows (lane.old, lane.new) block
            (length into.old / 512) (λ told. IsValue told × (into.new ≡ value_bytes told))) }
        ensures err { IfErr result (λ kind.
            LaneStops D.follows lane.old lane.new [] (EndsSo Nobodys kind)) }
    {
        match self.read(lane, block, into) {
            Ok(Reading::Value(_)) => Ok(true),
            Ok(Reading::LegLost(_)) => Ok(false),
            Err(refusal) => {
                self.unblock(lane, refusal)?;
                Ok(false)
            }
        }
    }

    /// One try of a read of a block into a spare one: true where it was found, and what it holds
    /// from one place on was put into the target.
    fn read_part<L: LegPart, D: Lane<L, K>>(
        &self,
        lane: &mut D,
        block: u64,
        from: u16,
        into: &mut [u8],
    ) -> Result<bool, CallErrorKind>
        requires { from + length into.old ≤ 512 }
        ensures ok { IfOk result (ReadTurns D.follows (lane.old, lane.new) block 1 (λ told.
            IsValue told
            × (into.new ≡ take (length into.old) (drop from (value_bytes told))))) }
        ensures err { IfErr result (λ kind.
            LaneStops D.follows lane.old lane.new [] (EndsSo Nobodys kind)) }
    {
        let mut spare = Block::ZERO;
        match self.read(lane, block, &mut spare.0) {
            Ok(Reading::Value(_)) => {
                let from = from as usize;
                into.copy_from_slice(&spare.0[from..from + into.len()]);
                Ok(true)
            }
            Ok(Reading::LegLost(_)) => Ok(false),
            Err(refusal) => {
                self.unblock(lane, refusal)?;
                Ok(false)
            }
        }
    }

    /// One try of a read of a run into the target: true where it was found.
    fn try_read_once<L: LegPart, D: Lane<L, K>>(
        &self,
        lane: &mut D,
        block: u64,
        run: Run,
        into: &mut [u8],
    ) -> Result<bool, CallErrorKind>
        requires run { IsRun run }
        requires long { length into.old ≡ run.len }
        ensures ok { IfOk result (ReadTurns D.follows (lane.old, lane.new) block (run_blocks run)
            (λ told. IsValue told
            × (into.new ≡ take run.len (drop run.from (value_bytes told))))) }
        ensures err { IfErr result (λ kind.
            LaneStops D.follows lane.old lane.new [] (EndsSo Nobodys kind)) }
    {
        if run.is_whole() {
            return self.read_whole(lane, block, into);
        }
        self.read_part(lane, block, run.from, into)
    }

    /// Reads a run into the target: whole blocks go right into it.
    pub(crate) fn read_one<L: LegPart, D: Lane<L, K>>(
        &self,
        lane: &mut D,
        block: u64,
        run: Run,
        into: &mut [u8],
    ) -> Result<(), CallErrorKind>
        requires run { IsRun run }
        requires long { length into.old ≡ run.len }
        ensures ok { OnOk result (CompletesRead D.follows lane.old lane.new block (run_blocks run)
            (λ told. IsValue told
            × (into.new ≡ take run.len (drop run.from (value_bytes told))))) }
        ensures err { IfErr result (λ kind.
            LaneStops D.follows lane.old lane.new [] (EndsSo Nobodys kind)) }
    {
        for _ in self.rt.forever() {
            if self.try_read_once(lane, block, run, into)? {
                return Ok(());
            }
        }
        unreachable!()
    }

    /// One try of a flush: true where the leg was synced, or found out. One that lost its leg is
    /// tried again, and finds it out.
    fn try_sync_once<L: LegPart, D: Lane<L, K>>(
        &self,
        lane: &mut D,
        leg: u8,
    ) -> Result<bool, CallErrorKind>
        ensures ok { IfOk result (Turns D.follows (lane.old, lane.new) (step.Flush leg)
            (SyncsOrFindsOut leg (step.Flush leg))) }
        ensures err { IfErr result (λ kind.
            LaneStops D.follows lane.old lane.new [] (EndsSo Nobodys kind)) }
    {
        match self.flush(lane, leg) {
            Ok(Syncing::Synced) => Ok(true),
            Ok(Syncing::LegLost(_)) => Ok(false),
            Err(refusal) => {
                if finds_out(refusal) {
                    return Ok(true);
                }
                self.unblock(lane, refusal)?;
                Ok(false)
            }
        }
    }

    /// Flushes a leg that is not out.
    pub(crate) fn sync_one<L: LegPart, D: Lane<L, K>>(
        &self,
        lane: &mut D,
        leg: u8,
    ) -> Result<(), CallErrorKind>
        ensures ok { OnOk result (Completes D.follows lane.old lane.new (step.Flush leg)
            (SyncsOrFindsOut leg (step.Flush leg))) }
        ensures err { IfErr result (λ kind.
            LaneStops D.follows lane.old lane.new [] (EndsSo Nobodys kind)) }
    {
        for _ in self.rt.forever() {
            if self.try_sync_once(lane, leg)? {
                return Ok(());
            }
        }
        unreachable!()
    }
}
