//! Opens a stripe by what a superblock says of its legs, none of which is read.
ghost use Rattle.std.specs.Prelude.{◌≡◌, ◌<◌, length, IsTrue, IfOk, IfErr};
ghost use Rattle.nm_leg.specs.LegCalls.{EachHas};
ghost use Rattle.nm_regions.specs.Sound.{AreSizes};
ghost use Rattle.nm_resync.specs.Chunk.{IsChunkSize};
ghost use Rattle.nm_rules.specs.Reopening.{AgreeWhereClear, MayReopen, plan_of, planned, reopened};

use crate::stripe::Stripe;
use nm_choice::Policy;
use nm_leg::LegPart;
use nm_replay::Memory;
use nm_rules::{At, MarkedPlan};
use nm_store::Store;
use std::alloc::Global;

impl<L: LegPart> Stripe<L> {
    /// A stripe of these legs as a superblock has them stand. The master is in sync; each other leg
    /// joins, behind in the regions of marked spans alone or everywhere, or is out and behind
    /// everywhere. Where a leg is not behind it holds what the master holds, if legs are honest.
    ///
    /// No leg is called, and no step goes over blocks. All the memory that the stripe will ever
    /// need is taken; where it is refused the legs come back. `first` is the number of the first
    /// entry.
    pub fn open_marked(
        alloc: Global,
        place: At,
        legs: Vec<L>,
        plan: &MarkedPlan<'_>,
        first: u64,
        policy: Policy,
    ) -> Result<Stripe<L>, (Memory, Vec<L>)>
        requires sizes { AreSizes place.blocks place.region (length legs.items) }
        requires chunk { IsChunkSize place.chunk }
        requires lengths { EachHas L.model legs.items place.blocks }
        requires master { plan.now.master < length legs.items }
        requires each { length plan.now.others.now ≡ length legs.items }
        requires some { 0 < plan.now.span }
        requires equal { IsTrue L.honest → AgreeWhereClear L.model place
            (planned place legs.items (plan_of plan.now) first policy) }
        ensures opened { IfOk result (λ stripe. stripe ≡ reopened place
            (planned place legs.items (plan_of plan.now) first policy)) }
        ensures fits { IfOk result (λ stripe. MayReopen L.model place
            (planned place legs.items (plan_of plan.now) first policy)) }
        ensures handed_back { IfErr result (λ refused. refused.1.items ≡ legs.items) }
    {
        let store = Store::open_marked(alloc, place, legs, plan, first, policy)?;
        Ok(Stripe { store })
    }
}
