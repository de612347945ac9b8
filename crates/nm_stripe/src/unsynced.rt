//! What a leg has not synced.
ghost use Rattle.std.specs.Prelude.{◌≡◌, ◌<◌, length};
ghost use Rattle.nm_rules.specs.Unsynced.{unsynced};

use crate::stripe::Stripe;
use nm_leg::LegPart;

impl<L: LegPart> Stripe<L> {
    /// How many blocks have the regions of which the leg has something that is not synced: what a
    /// loss of its power may take, and a return copies. Goes over all regions.
    pub fn unsynced(&self, leg: u8) -> u64
        requires { leg < length self.now.legs }
        ensures { result ≡ unsynced L.model leg self.now }
    {
        self.store.unsynced(leg)
    }
}
