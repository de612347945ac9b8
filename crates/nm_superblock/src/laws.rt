//! What holds of the bytes and of torn saves, as laws.
ghost use Rattle.nm_superblock.specs.Damage.{ChangedHeadIsDamaged, ChangedPieceIsDamaged};
ghost use Rattle.nm_superblock.specs.Damage.{TornIsUndamaged};
ghost use Rattle.nm_superblock.specs.Slots.{SlotsAreRead, TornIsOldOrNew};

/// A slot has the bytes of one superblock at most.
pub fn slots_are_read()
    ensures { SlotsAreRead }
{}

/// A crash at any moment of a save leaves a place that is read as before, or as the new superblock.
///
/// The premise is that a sector is written whole or not at all.
pub fn torn_is_old_or_new()
    ensures { TornIsOldOrNew }
{}

/// A crash at any moment of a save damages no slot that was not damaged before.
///
/// The premise is that a sector is written whole or not at all.
pub fn torn_is_undamaged()
    ensures { TornIsUndamaged }
{}

/// A byte that changed in a header of version 3 damages its slot: it never looks as a save that was
/// cut off.
pub fn changed_head_is_damaged()
    ensures { ChangedHeadIsDamaged }
{}

/// A byte that changed behind a header, in any version, damages a slot that then holds no
/// superblock.
pub fn changed_piece_is_damaged()
    ensures { ChangedPieceIsDamaged }
{}
