//! What a look at a leg has to know of the writes.
ghost use Rattle.std.specs.Prelude.{◌≡◌, ◌<◌};
ghost use Rattle.nm_rules.specs.State.{is_quiet};

use crate::store::Store;
use nm_leg::LegPart;

impl<L: LegPart> Store<L> {
    /// The ticket of the next block that is written.
    pub fn tickets(&self) -> u64
        ensures { result ≡ self.now.tickets }
    {
        self.tickets
    }

    /// Whether no write is under way in the block's region.
    pub fn is_quiet(&self, block: u64) -> bool
        requires { block < self.now.place.blocks }
        ensures { result ≡ is_quiet block self.now }
    {
        self.regions.is_quiet(self.regions.region_of(block))
    }
}
