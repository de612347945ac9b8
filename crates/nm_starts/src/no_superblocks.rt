//! A start without superblocks beside the legs: legs that have some there are not to be written to
//! without them.

use nm_commands::{Settings, SuperblockPlace};
use nm_leg_files::{bytes_of, slot_at};
use nm_reports::{StartFault, Unopened, superblock_name};
use nm_superblock::{Superblock, is_place_damaged};
use std::alloc::{AllocError, Global};
use std::fs::File;
use std::io::ErrorKind;
use std::os::unix::fs::FileTypeExt;
use std::rt::Files;

/// How many bytes a superblock's file has.
const FILE_BYTES: u64 = 8192;

// The name of the superblock's file beside this leg, if there is such a file.
fn file_beside<R: Files<File = File>>(
    rt: &R,
    alloc: Global,
    leg: usize,
    name: &str,
) -> Result<Option<String>, AllocError> {
    let Some(own) = superblock_name(alloc, SuperblockPlace::Beside, leg, name)? else {
        return Ok(None);
    };
    match rt.symlink_metadata(own.as_str()) {
        Ok(_) => Ok(Some(own)),
        Err(_) => Ok(None),
    }
}

/// Refuses the first leg that has a superblock's file beside it. Where a leg was named as the
/// newest by force, these files are removed.
pub fn check_no_superblocks<R: Files<File = File>>(
    rt: &R,
    alloc: Global,
    settings: &Settings<'_>,
) -> Result<(), StartFault> {
    for (leg, name) in settings.mirror.legs.iter().enumerate() {
        let Some(own) = file_beside(rt, alloc, leg, name)? else {
            continue;
        };
        if settings.opening.force_master.is_none() {
            return Err(StartFault::HasSuperblock(leg));
        }
        if let Err(error) = rt.remove_file(own.as_str()) {
            return Err(StartFault::CannotSave(leg, Unopened::by(error)));
        }
    }
    Ok(())
}

// Whether the file holds a superblock, or something damaged. One that is too short never held one,
// and one of zeroes does no more. What cannot be read may.
fn may_hold(file: &File) -> bool {
    match bytes_of(file) {
        Some(bytes) if bytes >= FILE_BYTES => (),
        _ => return false,
    }
    match (slot_at(file, 0), slot_at(file, FILE_BYTES / 2)) {
        (Some(first), Some(second)) => {
            let is_one = Superblock::decode(&first).is_some();
            is_one || Superblock::decode(&second).is_some() || is_place_damaged(&first, &second)
        }
        _ => true,
    }
}

// Whether a file of this name may hold a superblock by which a start would go: a file or a block
// device.
fn may_go_by<R: Files<File = File>>(rt: &R, name: &str) -> bool {
    match rt.metadata(name) {
        Ok(found) if found.is_file() || found.file_type().is_block_device() => (),
        _ => return false,
    }
    match File::open(rt, name) {
        Ok(file) => may_hold(&file),
        Err(error) => error.kind() != ErrorKind::NotFound,
    }
}

/// Refuses the first leg that has a superblock beside it, where they are kept in a folder, unless
/// they are moved there, or inside the legs. It would be believed again later.
pub fn check_none_beside<R: Files<File = File>>(
    rt: &R,
    alloc: Global,
    settings: &Settings<'_>,
) -> Result<(), StartFault> {
    if settings.opening.superblock_from == Some(SuperblockPlace::Beside) {
        return Ok(());
    }
    for (leg, name) in settings.mirror.legs.iter().enumerate() {
        let Some(own) = file_beside(rt, alloc, leg, name)? else {
            continue;
        };
        if may_go_by(rt, own.as_str()) {
            return Err(match settings.opening.superblock {
                SuperblockPlace::Inside => StartFault::KeptBeside(leg),
                _ => StartFault::HeldBeside(leg),
            });
        }
    }
    Ok(())
}
