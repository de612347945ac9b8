//! Legs that were moved to other files or disks, each with its superblock.

use crate::adding::number_of;
use crate::superblock_choice::FoundLegs;
use nm_assemble::{LegsHere, newest_of, own_legs};
use nm_commands::{OpeningSettings, Settings, SuperblockPlace};
use nm_geometry::LegSet;
use nm_reports::{LogLines, StartFault};
use std::alloc::Global;
use std::sync::Wait;

/// The legs of which the words say that they were moved.
pub fn moved_legs(opening: &OpeningSettings<'_>) -> LegSet {
    let mut moved = LegSet::none();
    for word in opening.moved.iter() {
        let leg = number_of(word) as usize;
        if leg < 8 {
            moved.set(leg, true);
        }
    }
    moved
}

/// Refuses a leg that was moved and is none, and where there are no superblocks all that were
/// moved.
pub fn check_moved(settings: &Settings<'_>) -> Result<(), StartFault> {
    for word in settings.opening.moved.iter() {
        let leg = number_of(word);
        if leg as usize >= settings.mirror.legs.len() {
            return Err(StartFault::NoLegMoved(leg));
        }
        if settings.opening.superblock == SuperblockPlace::Nowhere {
            return Err(StartFault::NothingMoved(leg));
        }
    }
    Ok(())
}

/// Tells of each leg of which the words say that it was moved, though its file is the one that the
/// superblocks are of.
pub fn tell_unmoved<R: Wait>(rt: &R, alloc: Global, seen: &FoundLegs, lines: &LogLines) {
    let still = LegsHere {
        moved: LegSet::none(),
        ..seen.legs
    };
    let own = match newest_of(&seen.found) {
        Some(newest) => own_legs(&newest, &still),
        None => seen.legs.here,
    };
    for leg in 0..8 {
        if seen.legs.moved.has(leg) && own.has(leg) {
            let text = format!(in alloc; "--moved {leg}: it was not moved");
            lines.inform(rt, text);
        }
    }
}
