//! What a call does where a step was refused: it helps on what stands in the way.
ghost use Rattle.std.specs.Prelude.{◌≡◌, [], None, IfErr, OnOk};
ghost use Rattle.nm_lanes.specs.Lane.{LaneDoes, LaneStops};
ghost use Rattle.nm_lanes.specs.Own.{end_of, EndsSo};
ghost use Rattle.nm_lanes.specs.Steps.{EndsHere, Nobodys};

use crate::blocker::{Blocker, end_of};
use crate::call_error_kind::CallErrorKind;
use crate::gate::Gate;
use crate::lane::Lane;
use crate::stripe_call::StripeCall;
use nm_fanout::MOST_RUN;
use nm_leg::LegPart;
use nm_rules::Refusal;
use nm_stripe::Copying;
use std::sync::Wait;

impl<R: Wait, G: Gate, K> StripeCall<'_, R, G, K> {
    /// Pushes a write, of this ticket or the oldest one under way, to the lowest leg that it owes.
    pub(crate) fn help_write<L: LegPart, D: Lane<L, K>>(
        &self,
        lane: &mut D,
        ticket: Option<u64>,
    ) -> Result<(), CallErrorKind>
        ensures ok { OnOk result (LaneDoes D.follows lane.old lane.new []) }
        ensures err { IfErr result (λ kind.
            LaneStops D.follows lane.old lane.new [] (EndsSo Nobodys kind)) }
    {
        if let Some((ticket, leg)) = lane.owed(self.rt, self.lock, ticket) {
            self.try_push(lane, ticket, leg)?;
        }
        Ok(())
    }

    /// Does a step of the copy to a leg, in the region that is open: it opens none. Where a write
    /// is in its way, pushes that one: without it the copy would not come further, and who waits
    /// for it would turn for ever. Another refusal that does not end the call is harmless.
    fn help_copy<L: LegPart, D: Lane<L, K>>(
        &self,
        lane: &mut D,
        leg: u8,
    ) -> Result<(), CallErrorKind>
        ensures ok { OnOk result (LaneDoes D.follows lane.old lane.new []) }
        ensures err { IfErr result (λ kind.
            LaneStops D.follows lane.old lane.new [] (EndsSo Nobodys kind)) }
    {
        match self.copy(lane, leg, MOST_RUN as u64, u64::MAX) {
            Ok(Copying::Copied { .. }) => Ok(()),
            Ok(Copying::Nothing) => Ok(()),
            Ok(Copying::LegLost(_)) => Ok(()),
            Err(refusal) => {
                if let Some(kind) = end_of(refusal) {
                    return Err(kind);
                }
                if let Blocker::Write(ticket) = Blocker::of(refusal) {
                    self.help_write(lane, ticket)?;
                }
                Ok(())
            }
        }
    }

    /// Goes on after a step that was refused so: where the refusal does not end the call, helps on
    /// what stood in the way.
    pub(crate) fn unblock<L: LegPart, D: Lane<L, K>>(
        &self,
        lane: &mut D,
        refusal: Refusal,
    ) -> Result<(), CallErrorKind>
        ensures going { OnOk result (end_of refusal ≡ None) }
        ensures ok { OnOk result (LaneDoes D.follows lane.old lane.new []) }
        ensures err { IfErr result (EndsHere D.follows (lane.old, lane.new) refusal) }
    {
        if let Some(kind) = end_of(refusal) {
            return Err(kind);
        }
        match Blocker::of(refusal) {
            Blocker::Write(ticket) => self.help_write(lane, ticket)?,
            Blocker::Copy(leg) => self.help_copy(lane, leg)?,
            Blocker::Nothing => {}
        }
        Ok(())
    }
}
