ghost use Rattle.nm_leg.specs.Leg.{leg_type};
ghost use Rattle.std.specs.Prelude.{◌≡◌, ℕ, ◌<◌, ◌≤◌, [], length, slice_get, IsTrue, IsOk, IfOk};
ghost use Rattle.std.specs.Prelude.{IfErr, Some};
ghost use Rattle.nm_choice.specs.declared.leg_state.LegState.TheVariants.{Joining};
ghost use Rattle.nm_fanout.specs.Records.{first_owed};
ghost use Rattle.nm_leg.specs.LegCalls.{EachHas};
ghost use Rattle.nm_regions.specs.Sound.{AreSizes};
ghost use Rattle.nm_resync.specs.Chunk.{IsChunkSize};
ghost use Rattle.nm_rules.specs.Invariant.{Keeps};
ghost use Rattle.nm_rules.specs.Opening.{opened, HoldEqual};
ghost use Rattle.nm_rules.specs.Sound.{IsSound};
ghost use Rattle.nm_rules.specs.State.{next_number, leg_state, left};
ghost use Rattle.nm_store.specs.Owing.{run_owed};
ghost use Rattle.nm_stripe.specs.Bound.{IsCopied};
ghost use Rattle.nm_stripe.specs.Opening.{NamesALeg};

use nm_choice::{LegState, Policy};
use nm_leg::LegPart;
use nm_replay::{Entry, Memory};
use nm_rules::At;
use nm_store::Store;
use std::alloc::Global;
use std::marker::Model;

/// A lock shard of the mirror: some of its blocks, on all of its legs. Not a RAID 0 stripe.
///
/// A stripe cannot be copied, and gives none of its legs away.
#[derive(Drop)]
pub struct Stripe<L: LegPart> {
    pub(crate) store: Store<L>,
}

impl<L: LegPart> Model for Stripe<L> {
    ghost use Rattle.nm_leg.specs.Leg.{leg_type};
    ghost use Rattle.nm_rules.specs.State.{StripeState};
    ghost use Rattle.nm_rules.specs.Invariant.{Keeps};

    ghost Value = { StripeState L };

    ghost view = { λ s. s.store };

    ghost invariant = { λ s. Keeps (leg_type L.model L.honest) s.store };
}

impl<L: LegPart> Stripe<L> {
    /// A stripe of these legs. Those of the bits of `in_sync` are in sync, and hold equal contents
    /// if they are honest; the others join, with all of their regions behind.
    ///
    /// The lowest leg in sync is the master, `first` the number of its first entry. All the memory
    /// that the stripe will ever need is taken here, so no step takes any; where it is refused the
    /// legs come back.
    pub fn open(
        alloc: Global,
        place: At,
        legs: Vec<L>,
        in_sync: u8,
        first: u64,
        policy: Policy,
    ) -> Result<Stripe<L>, (Memory, Vec<L>)>
        requires sizes { AreSizes place.blocks place.region (length legs.items) }
        requires chunk { IsChunkSize place.chunk }
        requires lengths { EachHas L.model legs.items place.blocks }
        requires some_in_sync { NamesALeg in_sync (length legs.items) }
        requires equal { IsTrue L.honest → HoldEqual L.model legs.items in_sync }
        ensures opened { IfOk result (λ stripe.
            stripe ≡ opened place legs.items in_sync first policy) }
        ensures handed_back { IfErr result (λ refused. refused.1.items ≡ legs.items) }
    {
        let store = Store::open(alloc, place, legs, in_sync, first, policy)?;
        Ok(Stripe { store })
    }

    /// The leg where a write takes effect: the lowest in sync as it became master.
    pub fn master(&self) -> u8
        ensures master { result ≡ self.now.master }
        ensures leg { result < length self.now.legs }
    {
        self.store.master()
    }

    /// The leg's state.
    pub fn state(&self, leg: u8) -> LegState
        requires { leg < length self.now.legs }
        ensures { result ≡ leg_state leg self.now }
    {
        self.store.state(leg)
    }

    /// How many blocks are left to copy to the leg.
    ///
    /// A joining leg to which nothing is left may be called in sync, unless the stripe has stopped.
    pub fn left(&self, leg: u8) -> u64
        requires { leg < length self.now.legs }
        ensures left { result ≡ left leg self.now }
        ensures copied { result ≡ 0 → leg_state leg self.now ≡ Joining → IsCopied leg self.now }
    {
        self.store.left(leg)
    }

    /// The stripe's place in the mirror, and its shape.
    pub fn place(&self) -> At
        ensures { result ≡ self.now.place }
    {
        self.store.place()
    }

    /// The stripe's number in the mirror.
    pub fn number(&self) -> u32
        ensures { result ≡ self.now.place.stripe }
    {
        self.store.place().stripe
    }

    /// How many blocks the stripe has.
    pub fn blocks(&self) -> u64
        ensures { result ≡ self.now.place.blocks }
    {
        self.store.place().blocks
    }

    /// How many legs the stripe has: eight at most.
    pub fn legs(&self) -> usize
        ensures legs { result ≡ length self.now.legs }
        ensures most { result ≤ 8 }
    {
        self.store.legs()
    }

    /// The leg of this number, lent.
    pub fn part(&self, leg: u8) -> &L
        requires { leg < length self.now.legs }
        ensures { slice_get self.now.legs leg ≡ Some result.now }
    {
        self.store.part(leg)
    }

    /// Whether a failover is not over: some write that was under way then still is.
    pub fn is_settling(&self) -> bool
        ensures { result ≡ self.now.settling }
    {
        self.store.is_settling()
    }

    /// Whether the stripe has stopped: its only leg in sync failed in a write.
    pub fn is_stopped(&self) -> bool
        ensures { result ≡ self.now.stopped }
    {
        self.store.is_stopped()
    }

    /// Says that the stripe is sound, and does nothing: for proofs, which see no invariant.
    pub fn sound(&self)
        ensures { IsSound (leg_type L.model L.honest) self.now }
    {
        let _stopped = self.store.is_stopped();
    }

    /// Says what the stripe keeps, and does nothing: for proofs of lists of steps.
    pub fn keeps(&self)
        ensures { Keeps (leg_type L.model L.honest) self.now }
    {
        let _stopped = self.store.is_stopped();
    }

    /// The number of the next entry.
    pub fn next_number(&self) -> u64
        ensures { result ≡ next_number self.now }
    {
        self.store.next_number()
    }

    /// The lowest leg that the write that this ticket names has still to reach.
    pub fn next_owed(&self, ticket: u64) -> Option<u8>
        ensures { result ≡ run_owed ticket self.now.records }
    {
        self.store.next_owed(ticket)
    }

    /// The write under way with the lowest ticket, and the lowest leg that it has still to reach.
    pub fn first_owed(&self) -> Option<(u64, u8)>
        ensures { result ≡ first_owed self.now.records }
    {
        self.store.first_owed()
    }

    /// How many entries the history has had.
    pub fn total(&self) -> u64
        ensures { result ≡ self.now.total }
    {
        self.store.total()
    }

    /// A copy of the kept entries, by rising number.
    pub fn entries(&self, alloc: Global) -> Result<Vec<Entry>, Memory>
        ensures ok { IfOk result (λ copy. copy.items ≡ self.now.kept.entries) }
        ensures memory_only_at_growth { self.now.kept.entries ≡ [] → IsOk result }
    {
        self.store.entries(alloc)
    }
}
