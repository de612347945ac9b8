//! What a sure start has found, as laws on the saves of one stripe of one lineage.
ghost use Rattle.nm_assemble.specs.Saves.{SureIsNewest, SureSeesAll};
ghost use Rattle.nm_assemble.specs.Sure.{SureStartIsSure};

/// A start that is sure has found the newest superblock of those whose saves were done.
pub fn sure_is_newest()
    ensures { SureIsNewest }
{}

/// A start that is sure has read every place that may have something of a newer save, so a
/// generation above all that it read is new.
pub fn sure_sees_all()
    ensures { SureSeesAll }
{}

/// A start that found a superblock beside each leg that the newest one lists is sure in each
/// stripe.
pub fn sure_start_is_sure()
    ensures { SureStartIsSure }
{}
