//! What a start that nobody forced rests on.
ghost use Rattle.nm_starts.specs.NewestStart.{StartsGoByTheNewest};

/// What the image of such a start has the stripes do, the newest superblock that was found allows.
pub fn starts_go_by_the_newest()
    ensures { StartsGoByTheNewest }
{}
