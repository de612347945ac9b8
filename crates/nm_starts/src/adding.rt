//! Legs that superblocks do not know yet.

use nm_commands::{OpeningSettings, Settings, SuperblockPlace};
use nm_leg_files::with_added;
use nm_reports::StartFault;
use nm_superblock::Superblock;

// The number that a word is, which the command line takes for one.
pub(crate) fn number_of(word: &str) -> u8 {
    let digits = word.strip_prefix('-').unwrap_or(word);
    digits.parse().unwrap_or(0)
}

// Whether the words say that the mirror may be copied over this leg.
fn is_added(opening: &OpeningSettings<'_>, leg: usize) -> bool {
    for word in opening.added.iter() {
        if number_of(word) as usize == leg {
            return true;
        }
    }
    false
}

/// Takes each superblock that was found as one of so many legs at least.
pub fn take_added(found: &mut [Option<Superblock>; 8], legs: u8) {
    for leg in 0..8 {
        if let Some(own) = found[leg] {
            found[leg] = Some(with_added(&own, legs));
        }
    }
}

/// Refuses a leg that is to be added and is none; and where there are no superblocks, or are none
/// yet, all that are to be added.
pub fn check_added(settings: &Settings<'_>, is_known: bool) -> Result<(), StartFault> {
    for word in settings.opening.added.iter() {
        let leg = number_of(word);
        if leg as usize >= settings.mirror.legs.len() {
            return Err(StartFault::NoLegToAdd(leg));
        }
        if !is_known || settings.opening.superblock == SuperblockPlace::Nowhere {
            return Err(StartFault::NothingToAddTo(leg));
        }
    }
    Ok(())
}

/// Refuses the first leg that superblocks of so many legs do not know, and that is not to be added.
pub fn check_known(settings: &Settings<'_>, legs: u8) -> Result<(), StartFault> {
    for leg in legs as usize..settings.mirror.legs.len() {
        if !is_added(&settings.opening, leg) {
            return Err(StartFault::NotKnown(leg));
        }
    }
    Ok(())
}
