//! Copies to a joining leg, a step at a time.
ghost use Rattle.nm_leg.specs.Leg.{leg_type};
ghost use Rattle.std.specs.Prelude.{◌≡◌, ◌<◌, [], length, IsTrue, IfOk, IfErr};
ghost use Rattle.nm_rules.specs.Acts.{IsExplainedStep};
ghost use Rattle.nm_stripe.specs.Copy.{Copies, RefusesCopy, region_to_copy};

use crate::stripe::Stripe;
use nm_choice::LegState;
use nm_leg::LegPart;
use nm_rules::Refusal;

/// What a step of a copy answers.
#[derive(Clone, Copy, PartialEq, Eq)]
pub enum Copying {
    /// So many blocks were read from the master, or written to the leg; so many are left to copy.
    Copied { moved: u64, left: u64 },
    /// The leg is behind in no region, or in none that the step may open.
    Nothing,
    /// This leg failed, the master or the one that is copied to, and has gone out.
    LegLost(u8),
}

impl<L: LegPart> Stripe<L> {
    /// The region that a step of the copy to a joining leg goes on with: that of the leg's open
    /// copy, else its lowest region behind that is not below `from`. Where another leg's copy is
    /// open, the step itself is refused.
    pub fn region_to_copy(&self, leg: u8, from: u64) -> Option<u64>
        requires { leg < length self.now.legs }
        ensures { result ≡ region_to_copy leg from self.now }
    {
        if self.state(leg) == LegState::Joining {
            self.store.next_region(leg, from)
        } else {
            None
        }
    }

    /// Does one step of the copy to a joining leg, with one call of a leg: it reads up to `most` of
    /// the next blocks of a chunk from the master, or, once the chunk is read, writes up to `most`
    /// of its next blocks to the leg. Where no copy is open it opens one of the leg's lowest region
    /// behind that is not below region `from`: so a region that cannot be read is passed over.
    ///
    /// Refused as `Stopped`, `Settling` or `NotJoining`; where there is something to copy also as
    /// `OtherCopy`, `Busy` (a write is under way in the chunk to be opened) or `Fault` (the only
    /// leg in sync failed): the first whose condition holds.
    pub fn copy(&mut self, leg: u8, most: u64, from: u64) -> Result<Copying, Refusal>
        requires leg { leg < length self.old.legs }
        requires some { 0 < most }
        ensures ok { IfOk result (Copies (leg_type L.model L.honest) self.old self.new
            leg most from) }
        ensures acts { IsTrue L.honest → IsExplainedStep L.model [] self.old self.new }
        ensures refused { IfErr result (RefusesCopy (leg_type L.model L.honest) self.old self.new
            leg most from) }
    {
        if let Some(refusal) = self.store.copy_cause(leg) {
            return Err(refusal);
        }
        if !self.store.has_more(leg, from) {
            return Ok(Copying::Nothing);
        }
        if let Some(refusal) = self.store.copy_more_cause(leg, from) {
            return Err(refusal);
        }
        let failed = match self.store.copy(leg, most, from) {
            Ok(moved) => {
                let left = self.store.left(leg);
                return Ok(Copying::Copied { moved, left });
            }
            Err(failed) => failed,
        };
        if self.store.is_last(failed) {
            return Err(Refusal::Fault);
        }
        self.store.lose(failed);
        Ok(Copying::LegLost(failed))
    }
}
