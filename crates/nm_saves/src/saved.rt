//! What a save that was done has made durable.
ghost use Rattle.std.specs.Prelude.{◌≡◌};

use nm_superblock::{LegSets, SpanMap, Superblock};
use std::marker::Model;

/// The sets and the marks of a superblock that was saved. Only a save that was done makes one, and
/// there is no second one of it: who has it knows that these are durable.
#[derive(Drop)]
pub struct Saved {
    sets: LegSets,
    marked: SpanMap,
}

impl Model for Saved {
    ghost use Rattle.nm_saves.specs.SavingAll.{SavedState};

    ghost Value = { SavedState };

    ghost view = { λ saved. record { sets = saved.sets; marked = saved.marked } };
}

impl Saved {
    // What this superblock says.
    pub(crate) fn of(superblock: &Superblock) -> Saved
        ensures sets { result.sets ≡ superblock.now.sets }
        ensures marked { result.marked ≡ superblock.now.marked }
    {
        Saved {
            sets: superblock.sets,
            marked: superblock.marked,
        }
    }

    /// Its sets.
    pub fn sets(&self) -> &LegSets
        ensures { result.now ≡ self.now.sets }
    {
        &self.sets
    }

    /// Its marks.
    pub fn marked(&self) -> &SpanMap
        ensures { result.now ≡ self.now.marked }
    {
        &self.marked
    }
}
