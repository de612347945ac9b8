//! Looks at what one leg holds. A look is no step: nothing of the stripe changes but the leg.
ghost use Rattle.nm_leg.specs.Leg.{HoldsRun, blocks_in, blocks_of, leg_type};
ghost use Rattle.std.specs.Prelude.{◌≡◌, ◌*◌, ◌<◌, [], true, false, length, is_ok, IsTrue, OnOk};
ghost use Rattle.nm_choice.specs.declared.leg_state.LegState.TheVariants.{InSync};
ghost use Rattle.nm_rules.specs.Acts.{IsExplainedStep};
ghost use Rattle.nm_rules.specs.Array.{stripe_array};
ghost use Rattle.nm_rules.specs.RunCalls.{ReadsRunAt};
ghost use Rattle.nm_rules.specs.Runs.{FitsRun};
ghost use Rattle.nm_rules.specs.State.{is_quiet, leg_state};

use crate::stripe::Stripe;
use nm_leg::{LegFault, LegPart};

impl<L: LegPart> Stripe<L> {
    /// The ticket of the next block that is written: where it is the same twice, no write began in
    /// between.
    pub fn tickets(&self) -> u64
        ensures { result ≡ self.now.tickets }
    {
        self.store.tickets()
    }

    /// Whether no write is under way in the block's region.
    pub fn is_quiet(&self, block: u64) -> bool
        requires { block < self.now.place.blocks }
        ensures { result ≡ is_quiet block self.now }
    {
        self.store.is_quiet(block)
    }

    /// Reads blocks that follow one another in one region from this leg, which is in sync, into
    /// `into`, in one call of the leg. No entry is kept, and a leg that failed stays in sync.
    ///
    /// Where no write is under way in the region, an honest leg holds the stripe's array there: so
    /// of two legs that differ one is not honest.
    pub fn look(&mut self, leg: u8, block: u64, into: &mut [u8]) -> Result<(), LegFault>
        requires leg { leg < length self.old.legs }
        requires in_sync { leg_state leg self.old ≡ InSync }
        requires run { FitsRun self.old.place block (blocks_in into.old) }
        requires whole { length into.old ≡ 512 * blocks_in into.old }
        ensures reads { ReadsRunAt (leg_type L.model L.honest) (is_ok result) leg block
            (blocks_of into.new) self.old.legs self.new.legs }
        ensures array { IsTrue L.honest → self.old.stopped ≡ false
            → is_quiet block self.old ≡ true
            → OnOk result (HoldsRun block (blocks_of into.new) (stripe_array L.model self.old)) }
        ensures acts { IsTrue L.honest → IsExplainedStep L.model [] self.old self.new }
        ensures long { length into.new ≡ length into.old }
        ensures others { self.new ≡ record self.old { legs = self.new.legs } }
    {
        self.store.read_leg(leg, block, into)
    }
}
