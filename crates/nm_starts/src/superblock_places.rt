//! The places where superblocks are: that in which they are kept from now on, and that from which
//! they are moved, if one is named.

use crate::adding::take_added;
use crate::kept::Superblocks;
use crate::superblock_opening::FoundFiles;
use crate::two_places::{PlaceFound, carried_superblocks, counted, earlier_superblocks, is_moved};
use nm_assemble::{first_misfit, newest_of};
use nm_commands::{OpeningSettings, Settings, SuperblockPlace};
use nm_geometry::LegSet;
use nm_leg_files::{LateSlots, LegFiles, is_same, remove_durably};
use nm_reports::{LogLines, StartFault, Unopened};
use nm_saves::SuperblockFile;
use nm_superblock::Superblock;
use std::alloc::Global;
use std::fs::File;
use std::io;
use std::rt::Files;
use std::sync::Wait;

/// The files of superblocks as they were found: where they are kept from now on, and where they
/// were kept so far.
#[derive(Drop)]
pub struct FoundPlaces {
    /// Those of the place where they are kept.
    pub new: FoundFiles,
    /// Those of the place from which they are moved, if one is named.
    pub old: Option<OldPlace>,
}

/// The files of superblocks in the place from which they are moved.
#[derive(Drop)]
pub struct OldPlace {
    files: FoundFiles,
}

/// Refuses a place from which superblocks are to be moved, where it is the one to which they are,
/// or where one of the two is none.
pub fn check_from(opening: &OpeningSettings<'_>) -> Result<(), StartFault> {
    let Some(from) = opening.superblock_from else {
        return Ok(());
    };
    let to = opening.superblock;
    if from == SuperblockPlace::Nowhere || to == SuperblockPlace::Nowhere {
        return Err(StartFault::NoPlace);
    }
    if from == SuperblockPlace::Inside || to == SuperblockPlace::Inside {
        return Err(StartFault::StaysInside);
    }
    if from == to {
        return Err(StartFault::SamePlace);
    }
    Ok(())
}

// Whether both are one folder, by whatever names.
fn are_one_folder<R: Files<File = File>>(
    rt: &R,
    one: SuperblockPlace<'_>,
    other: SuperblockPlace<'_>,
) -> bool {
    let (SuperblockPlace::Folder(one), SuperblockPlace::Folder(other)) = (one, other) else {
        return false;
    };
    match (rt.metadata(one), rt.metadata(other)) {
        (Ok(one), Ok(other)) => is_same(&one, &other),
        _ => false,
    }
}

// The files in the place from which superblocks are moved, opened, locked and read.
fn open_old<R: Files<File = File>>(
    rt: &R,
    alloc: Global,
    settings: &Settings<'_>,
    legs: &LegFiles,
) -> Result<Option<OldPlace>, StartFault> {
    let Some(from) = settings.opening.superblock_from else {
        return Ok(None);
    };
    if are_one_folder(rt, settings.opening.superblock, from) {
        return Err(StartFault::SamePlace);
    }
    match FoundFiles::open(rt, alloc, &settings.mirror, from, legs) {
        Ok(files) => Ok(Some(OldPlace { files })),
        Err(StartFault::CannotSave(leg, why)) => Err(StartFault::CannotMove(leg, why)),
        Err(fault) => Err(fault),
    }
}

// The generation of what the file holds, which is a superblock, or damaged.
fn generation_in(file: &SuperblockFile<LateSlots>) -> Option<u64> {
    if file.is_damaged() {
        return Some(file.highest_stamp());
    }
    match file.newest() {
        Some(superblock) => Some(superblock.generation),
        None => None,
    }
}

// Whether a link has this name.
fn is_link<R: Files<File = File>>(rt: &R, name: &str) -> bool {
    matches!(rt.symlink_metadata(name), Ok(found) if found.file_type().is_symlink())
}

// Leaves no superblock in the file of this name, durably, and removes it, unless its name is a
// link. One that cannot be written to is removed durably.
fn make_invalid<R: Files<File = File>>(
    rt: &R,
    file: SuperblockFile<LateSlots>,
    name: &str,
) -> io::Result<()> {
    match file.blank() {
        Ok(_) => {
            if !is_link(rt, name) {
                let _ = rt.remove_file(name);
            }
            Ok(())
        }
        Err(error) if is_link(rt, name) => Err(error),
        Err(error) => match remove_durably(rt, name) {
            Ok(()) => Ok(()),
            Err(_) => Err(error),
        },
    }
}

impl OldPlace {
    // Whether nothing is there that a start would go by.
    fn is_empty(&self) -> bool {
        for file in self.files.files.iter() {
            if let Some(file) = file {
                if generation_in(file).is_some() {
                    return false;
                }
            }
        }
        true
    }

    // The highest stamp in the files.
    fn highest_stamp(&self) -> u64 {
        let mut highest = 0u64;
        for file in self.files.files.iter() {
            if let Some(file) = file {
                highest = highest.max(file.highest_stamp());
            }
        }
        highest
    }

    // Makes each superblock invalid that is moved, durably.
    fn leave<R: Files<File = File>>(
        self,
        rt: &R,
        superblocks: &Superblocks,
    ) -> Result<(), StartFault> {
        let OldPlace { files: own } = self;
        let FoundFiles { files, names, .. } = own;
        for (leg, (file, name)) in files.into_iter().zip(names.iter()).enumerate() {
            let Some(file) = file else {
                continue;
            };
            let Some(generation) = generation_in(&file) else {
                continue;
            };
            if !is_moved(generation, &superblocks.writer.files.superblock(leg)) {
                continue;
            }
            if let Err(error) = make_invalid(rt, file, name.as_str()) {
                return Err(StartFault::CannotMove(leg, Unopened::by(error)));
            }
        }
        Ok(())
    }
}

// What was found in these files.
fn found_in(files: &FoundFiles) -> PlaceFound {
    let mut damaged = LegSet::none();
    for leg in 0..8 {
        if let Some(Some(file)) = files.files.get(leg) {
            damaged.set(leg, file.is_damaged());
        }
    }
    PlaceFound {
        found: files.found(),
        damaged,
    }
}

// Refuses superblocks that do not count and that the newest one did not come after.
fn check_left(
    counted: &[Option<Superblock>; 8],
    new: &PlaceFound,
    old: &PlaceFound,
) -> Result<(), StartFault> {
    let Some(newest) = newest_of(counted) else {
        return Ok(());
    };
    let mut left = earlier_superblocks(&new.found, &old.found);
    take_added(&mut left, newest.legs);
    match first_misfit(&left, &newest) {
        Some((leg, _)) => Err(StartFault::PlacesApart(leg)),
        None => Ok(()),
    }
}

impl FoundPlaces {
    /// Opens, locks and reads the files that are in both places.
    pub fn open<R: Files<File = File>>(
        rt: &R,
        alloc: Global,
        settings: &Settings<'_>,
        legs: &LegFiles,
    ) -> Result<FoundPlaces, StartFault> {
        let old = open_old(rt, alloc, settings, legs)?;
        let place = settings.opening.superblock;
        let new = FoundFiles::open(rt, alloc, &settings.mirror, place, legs)?;
        Ok(FoundPlaces { new, old })
    }

    /// Tells of each file that is damaged, and where there is nothing to move.
    pub fn tell<R: Wait>(&self, rt: &R, alloc: Global, lines: &LogLines) {
        self.new.tell_damaged(rt, alloc, lines);
        let Some(old) = &self.old else {
            return;
        };
        old.files.tell_damaged(rt, alloc, lines);
        if old.is_empty() {
            let text = format!(in alloc; "--superblock-from: no superblocks are left there");
            lines.inform(rt, text);
        }
    }

    /// The superblocks that count. What is moved as it is, where its leg is not here, is noted.
    pub fn superblocks(
        &mut self,
        alloc: Global,
        opening: &OpeningSettings<'_>,
    ) -> Result<[Option<Superblock>; 8], StartFault> {
        let Some(own) = &self.old else {
            return Ok(self.new.found());
        };
        let (new, old) = (found_in(&self.new), found_in(&own.files));
        let both = counted(&new, &old);
        if opening.force_master.is_none() {
            check_left(&both, &new, &old)?;
        }
        match Vec::from_array(alloc, carried_superblocks(&both, &new.found)) {
            Ok(carried) => self.new.carried = carried,
            Err(_) => return Err(StartFault::Memory),
        }
        Ok(both)
    }

    /// The image under a generation that is not below any stamp in the old place: what is saved in
    /// the new one is later than all that is left there.
    pub fn above_old(&self, image: Superblock) -> Superblock {
        let mut above = image;
        if let Some(old) = &self.old {
            above.generation = above.generation.max(old.highest_stamp());
        }
        above
    }
}

impl OldPlace {
    /// Makes the superblocks invalid that were moved, which are saved in their new place, and tells
    /// so.
    pub fn leave_moved<R: Files<File = File> + Wait>(
        self,
        rt: &R,
        alloc: Global,
        superblocks: Option<&Superblocks>,
        lines: &LogLines,
    ) -> Result<(), StartFault> {
        let Some(superblocks) = superblocks else {
            return Ok(());
        };
        if self.is_empty() {
            return Ok(());
        }
        self.leave(rt, superblocks)?;
        lines.inform(
            rt,
            format!(in alloc; "--superblock-from: the superblocks were moved from there"),
        );
        Ok(())
    }
}
