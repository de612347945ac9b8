//! Superblocks inside legs, where a start was told of another place, and the other way round.

use crate::starting::named_master;
use crate::superblock_opening::FoundFiles;
use nm_commands::{OpeningSettings, Settings, SuperblockPlace};
use nm_leg_files::{LegFiles, blank_from, inside_from, superblock_inside};
use nm_reports::{StartFault, Unopened};
use std::fs::File;
use std::os::unix::fs::FileTypeExt;
use std::rt::Files;

/// Takes superblocks to be inside the legs where the words do not say where they are, and a leg is
/// a block device: beside that they would not outlive a restart.
pub fn settle_place<R: Files<File = File>>(rt: &R, settings: &mut Settings<'_>) {
    if settings.opening.names_superblock {
        return;
    }
    for name in settings.mirror.legs.iter() {
        if matches!(rt.metadata(*name), Ok(found) if found.file_type().is_block_device()) {
            settings.opening.superblock = SuperblockPlace::Inside;
        }
    }
}

/// Refuses that what legs have may go for superblocks inside them, where these are to be elsewhere.
pub fn check_shrink(opening: &OpeningSettings<'_>) -> Result<(), StartFault> {
    if opening.shrink && opening.superblock != SuperblockPlace::Inside {
        return Err(StartFault::NothingToShrink);
    }
    Ok(())
}

/// Refuses that what legs have may go for superblocks inside them, where they have some.
pub fn check_unshrunk(opening: &OpeningSettings<'_>) -> Result<(), StartFault> {
    if opening.shrink {
        return Err(StartFault::AlreadyShrunk);
    }
    Ok(())
}

/// Refuses the first leg that has a superblock inside it, where they are to be elsewhere and none
/// was found there: it would be lost to the export, or believed again later.
pub fn check_none_inside(files: &LegFiles) -> Result<(), StartFault> {
    for leg in 0..files.count() {
        if files
            .file(leg)
            .is_some_and(|file| superblock_inside(file).is_some())
        {
            return Err(StartFault::HeldInside(leg));
        }
    }
    Ok(())
}

/// Refuses the first leg that has a superblock inside it, where none are kept. Where a leg was
/// named as the newest by force, these superblocks are made invalid.
pub fn leave_none_inside(
    opening: &OpeningSettings<'_>,
    files: &LegFiles,
) -> Result<(), StartFault> {
    if opening.force_master.is_none() {
        return check_none_inside(files);
    }
    for leg in 0..files.count() {
        let Some(file) = files.file(leg) else {
            continue;
        };
        let Some(from) = inside_from(file) else {
            continue;
        };
        if superblock_inside(file).is_none() {
            continue;
        }
        if let Err(error) = blank_from(file, from) {
            return Err(StartFault::CannotSave(leg, Unopened::by(error)));
        }
    }
    Ok(())
}

impl FoundFiles {
    // Whether anything is there where a superblock is to be inside this leg.
    fn holds_data(&self, leg: usize) -> Result<bool, StartFault> {
        if matches!(self.files.get(leg), Some(Some(_))) {
            return Ok(true);
        }
        let Some(Some(slots)) = self.free.get(leg) else {
            return Ok(false);
        };
        match slots.is_clear() {
            Ok(is_clear) => Ok(!is_clear),
            Err(error) => Err(StartFault::CannotSave(leg, Unopened::by(error))),
        }
    }

    /// Refuses the first leg of a new mirror that has data where its superblock is to be inside it,
    /// unless these may go, or a master is named.
    pub fn check_free(&self, opening: &OpeningSettings<'_>) -> Result<(), StartFault> {
        if !self.at.is_inside() || opening.shrink || named_master(opening).is_some() {
            return Ok(());
        }
        for leg in 0..self.files.len() {
            if self.holds_data(leg)? {
                return Err(StartFault::HoldsData(leg));
            }
        }
        Ok(())
    }
}
