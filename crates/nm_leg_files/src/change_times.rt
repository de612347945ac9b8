//! The times of legs' last changes that a save records.
ghost use Rattle.std.specs.Prelude.{◌<◌, ◌≡◌, false, IsTrue};
ghost use Rattle.nm_leg_files.specs.SavedTimes.{AreKnownTimes, AreSavedTimes, IsKnownTime};

use nm_geometry::LegSet;
use nm_superblock::LegIdentities;

/// These times of the files that more than their names tell from others, and none of others: where
/// a file system does not keep its files' numbers, it need not keep their times.
pub fn known_times(times: &[u64; 8], identities: &LegIdentities) -> [u64; 8]
    ensures { AreKnownTimes 8 times.now identities.now result }
{
    let mut known = [0; 8];
    'legs: for leg in 0..8 {
        known[leg] = known_time(times, identities, leg);
    }
    known
}

// The time of this leg.
fn known_time(times: &[u64; 8], identities: &LegIdentities, leg: usize) -> u64
    requires { leg < 8 }
    ensures { IsKnownTime leg times.now identities.now result }
{
    if identities.is_known(leg) {
        times[leg]
    } else {
        0
    }
}

/// The times that a save records: those that were read at the end. Of the others that of a leg that
/// is out stays as it was recorded last, since nobody has written to it, and none is recorded.
pub fn saved_times(ended: &[u64; 8], last: &[u64; 8], out: &LegSet) -> [u64; 8]
    ensures { AreSavedTimes 8 ended.now last.now out.now result }
{
    let mut saved = *ended;
    'legs: for leg in 0..8 {
        if ended[leg] == 0 && out.has(leg) {
            saved[leg] = last[leg];
        }
    }
    saved
}
