//! The superblocks inside legs, in slots at the end of each leg's own file.

use nm_leg_files::{
    CallLimit, LateSlots, again, are_marked, blank_window, no_memory, open_writable,
};
use nm_reports::Unopened;
use nm_saves::{SlotFile, SuperblockFile};
use std::alloc::Global;
use std::fs::File;
use std::io;
use std::rt::Files;

/// Whether a file holds no superblock that a start goes by.
pub(crate) fn holds_none(file: &SuperblockFile<LateSlots>) -> bool {
    file.is_damaged() || file.newest().is_none()
}

/// What was found of a leg's superblock: its file, or the slots inside the leg that hold none.
pub(crate) type FoundSlots = (Option<SuperblockFile<LateSlots>>, Option<LateSlots>);

// Whether nothing of a superblock is in these slots.
fn are_free(slots: &mut LateSlots) -> io::Result<bool> {
    let (mut first, mut second) = ([0; 4096], [0; 4096]);
    slots.read_slot(false, &mut first)?;
    slots.read_slot(true, &mut second)?;
    Ok(!are_marked(&first, &second))
}

// Reads the superblock that stands from this byte of the file on.
fn read_slots(
    alloc: Global,
    file: File,
    from: u64,
    limit: &CallLimit,
) -> Result<FoundSlots, Unopened> {
    let Ok(slots) = LateSlots::here(alloc, file, from, limit) else {
        return Err(no_memory());
    };
    let mut slots = slots;
    match are_free(&mut slots) {
        Ok(true) => return Ok((None, Some(slots))),
        Ok(false) => (),
        Err(error) => return Err(Unopened::by(error)),
    }
    match SuperblockFile::open(slots) {
        Ok(found) => Ok((Some(found), None)),
        Err(error) => Err(Unopened::by(error)),
    }
}

/// Opens the file of this leg once more, and reads the superblock inside it.
pub(crate) fn read_inside<R: Files<File = File>>(
    rt: &R,
    alloc: Global,
    name: &str,
    leg: &File,
    from: u64,
    limit: &CallLimit,
) -> Result<FoundSlots, Unopened> {
    read_slots(alloc, again(open_writable(rt, name), leg)?, from, limit)
}

// Blanks the slots inside a leg where they hold nothing that a start goes by: it takes part.
fn blank_damaged(place: &mut Option<SuperblockFile<LateSlots>>) -> Result<(), Unopened> {
    if !matches!(&*place, Some(file) if holds_none(file)) {
        return Ok(());
    }
    let Some(file) = place.take() else {
        return Ok(());
    };
    match file.blank() {
        Ok(blank) => *place = Some(blank),
        Err(error) => return Err(Unopened::by(error)),
    }
    Ok(())
}

/// Makes slots inside a leg that hold no superblock those of its file: blank ones.
pub(crate) fn make_inside(
    place: &mut Option<SuperblockFile<LateSlots>>,
    free: Option<&mut Option<LateSlots>>,
    made: &mut Vec<LateSlots>,
) -> Result<(), Unopened> {
    let slots = match free {
        Some(slots) => slots.take(),
        None => None,
    };
    let Some(slots) = slots else {
        return blank_damaged(place);
    };
    let Ok(share) = slots.share() else {
        return Err(no_memory());
    };
    if made.push(share).is_err() {
        return Err(no_memory());
    }
    *place = Some(blank_window(slots)?);
    Ok(())
}
