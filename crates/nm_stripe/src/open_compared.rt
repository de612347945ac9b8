//! Opens a stripe by comparing its legs.
ghost use Rattle.nm_leg.specs.Leg.{leg_type};
ghost use Rattle.std.specs.Prelude.{◌≡◌, ◌<◌, length, IsTrue, IfOk, IfErr};
ghost use Rattle.nm_leg.specs.LegCalls.{EachHas};
ghost use Rattle.nm_regions.specs.Sound.{AreSizes};
ghost use Rattle.nm_resync.specs.Chunk.{IsChunkSize};
ghost use Rattle.nm_rules.specs.Array.{contents_of, stripe_array};
ghost use Rattle.nm_rules.specs.Comparing.{comparing, BehindWhereDiffers};
ghost use Rattle.nm_rules.specs.RunComparing.{OpensComparedRuns};
ghost use Rattle.nm_store.specs.Comparing.{FailsToOpenRuns};

use crate::stripe::Stripe;
use nm_choice::Policy;
use nm_leg::LegPart;
use nm_rules::{At, OpenFault};
use nm_store::Store;
use std::alloc::Global;

impl<L: LegPart> Stripe<L> {
    /// A stripe of these legs, each compared with the master. The master is in sync. Each other leg
    /// joins, behind in exactly the regions where it holds other bytes than the master, if the legs
    /// are honest: so `left` is the number of blocks in these. A leg of which a read fails is out,
    /// behind in all regions, and is not read again.
    ///
    /// All the memory that the stripe will ever need is taken first, and room for two runs until it
    /// is open. Then all blocks are read, by runs of up to 128 blocks of one region, by rising
    /// number: on the master, and then on each other leg that is not out, by rising number. `first`
    /// is the number of the first entry.
    ///
    /// `Memory` where an allocation fails: no leg was called. `MasterFault` where a read of the
    /// master fails: no leg was called after it. The legs come back.
    pub fn open_compared(
        alloc: Global,
        place: At,
        legs: Vec<L>,
        master: u8,
        first: u64,
        policy: Policy,
    ) -> Result<Stripe<L>, (OpenFault, Vec<L>)>
        requires sizes { AreSizes place.blocks place.region (length legs.items) }
        requires chunk { IsChunkSize place.chunk }
        requires lengths { EachHas L.model legs.items place.blocks }
        requires master { master < length legs.items }
        ensures opened { IfOk result (OpensComparedRuns (leg_type L.model L.honest)
            (comparing place legs.items master first policy)) }
        ensures differing { IsTrue L.honest → IfOk result (BehindWhereDiffers L.model) }
        ensures array { IsTrue L.honest → IfOk result (λ stripe.
            stripe_array L.model stripe ≡ contents_of L.model legs.items master) }
        ensures handed_back { IfErr result (λ refused. FailsToOpenRuns (leg_type L.model L.honest)
            (comparing place legs.items master first policy) refused.0 refused.1.items) }
    {
        let store = Store::open_compared(alloc, place, legs, master, first, policy)?;
        Ok(Stripe { store })
    }
}
