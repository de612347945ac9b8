//! What a leg has not synced.
ghost use Rattle.std.specs.Prelude.{◌≡◌, ◌<◌, length};
ghost use Rattle.nm_leg.specs.LegCalls.{EachHas};
ghost use Rattle.nm_rules.specs.Unsynced.{is_unsynced, unsynced, unsynced_below};

use crate::store::Store;
use nm_leg::LegPart;
use nm_regions::Regions;

/// Whether the leg has something of this region that is not synced.
pub(crate) fn is_unsynced<L: LegPart>(regions: &Regions, region: u64, part: &L) -> bool
    requires region { region < length regions.now.writes }
    requires long { length (L.model part.now).contents ≡ regions.now.blocks }
    ensures { result ≡ is_unsynced (L.model part.now).unsynced regions.now region }
{
    let count = regions.length_of(region);
    part.is_unsynced(regions.first_block(region), count)
}

/// How many blocks have the regions of which the leg has something that is not synced. Goes over
/// all regions.
fn count_unsynced<L: LegPart>(regions: &Regions, part: &L) -> u64
    requires long { length (L.model part.now).contents ≡ regions.now.blocks }
    ensures { result
        ≡ unsynced_below (L.model part.now).unsynced regions.now (length regions.now.writes) }
{
    regions.is_sound();
    let mut blocks = 0;
    for region in 0..regions.regions() {
        if is_unsynced(regions, region, part) {
            blocks += regions.length_of(region);
        }
    }
    blocks
}

impl<L: LegPart> Store<L> {
    /// How many blocks have the regions of which the leg has something that is not synced. Goes
    /// over all regions.
    pub fn unsynced(&self, leg: u8) -> u64
        requires leg { leg < length self.now.legs }
        requires lengths { EachHas L.model self.now.legs self.now.place.blocks }
        ensures { result ≡ unsynced L.model leg self.now }
    {
        count_unsynced(&self.regions, &self.legs[leg as usize])
    }
}
