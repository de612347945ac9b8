//! A leg is synced, or called in sync.
ghost use Rattle.std.specs.Prelude.{◌≡◌, ◌<◌, length, slice_set, is_ok};
ghost use Rattle.nm_choice.specs.declared.leg_state.LegState.TheVariants.{InSync};
ghost use Rattle.nm_leg.specs.Leg.{leg_type};
ghost use Rattle.nm_leg.specs.LegCalls.{SyncsLegAt};

use crate::store::Store;
use nm_choice::LegState;
use nm_leg::{LegFault, LegPart, sync_leg_at};

impl<L: LegPart> Store<L> {
    /// Syncs the leg. No more than the leg changes.
    pub fn sync_leg(&mut self, leg: u8) -> Result<(), LegFault>
        requires { leg < length self.old.legs }
        ensures syncs { SyncsLegAt (leg_type L.model L.honest) (is_ok result) leg
            self.old.legs self.new.legs }
        ensures others { self.new ≡ record self.old { legs = self.new.legs } }
    {
        sync_leg_at(&mut self.legs, leg)
    }

    /// The leg is in sync.
    pub fn promote(&mut self, leg: u8)
        requires { leg < length self.old.legs }
        ensures { self.new ≡ record self.old { states = slice_set self.old.states leg InSync } }
    {
        self.states[leg as usize] = LegState::InSync;
    }
}
