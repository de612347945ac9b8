//! What a start refuses of superblocks elsewhere than it was told.

use crate::inside::{check_none_inside, leave_none_inside};
use crate::no_superblocks::{check_no_superblocks, check_none_beside};
use crate::superblock_opening::FoundFiles;
use nm_commands::{OpeningSettings, Settings, SuperblockPlace};
use nm_leg_files::LegFiles;
use nm_reports::StartFault;
use std::alloc::Global;
use std::fs::File;
use std::rt::Files;

/// Refuses superblocks that are in another place, as far as that is known before any are read.
pub fn check_place<R: Files<File = File>>(
    rt: &R,
    alloc: Global,
    settings: &Settings<'_>,
    files: &LegFiles,
) -> Result<(), StartFault> {
    match settings.opening.superblock {
        SuperblockPlace::Nowhere => {
            check_no_superblocks(rt, alloc, settings)?;
            leave_none_inside(&settings.opening, files)
        }
        SuperblockPlace::Beside => Ok(()),
        SuperblockPlace::Folder(_) | SuperblockPlace::Inside => {
            check_none_beside(rt, alloc, settings)
        }
    }
}

/// Refuses the first superblocks of a mirror where legs have some inside, and inside legs that have
/// something else there.
pub fn check_first(
    opening: &OpeningSettings<'_>,
    files: &LegFiles,
    found: &FoundFiles,
) -> Result<(), StartFault> {
    if opening.superblock == SuperblockPlace::Inside {
        found.check_free(opening)
    } else {
        check_none_inside(files)
    }
}
