//! What tells a leg from all others, whatever its name is.
//!
//! A file is told by its number in its file system and the time of its birth, a device by what the
//! system has of it in `/sys/dev/block`.

use crate::in_use::{device_folder, device_of, line_of};
use crate::kernel_tables::{device_number, mount_of};
use crate::system_files::{contents, contents_in, ends_line};
use std::alloc::{AllocError, Global};
use std::fs::{File, Metadata};
use std::os::unix::fs::{FileTypeExt, MetadataExt};
use std::rt::Files;
use std::time::{Duration, SystemTime};

/// Where a device's folder has what it is told by: the first that is there.
static NAMES: [&str; 6] = [
    "wwid",
    "device/wwid",
    "serial",
    "device/serial",
    "dm/uuid",
    "md/uuid",
];

/// Kinds of file systems, beside those of FUSE, that may number their files anew.
static UNKEPT: [&str; 9] = [
    "nfs", "nfs4", "cifs", "smb3", "9p", "ceph", "afs", "virtiofs", "vboxsf",
];

// Whether a file system of this kind keeps its files' numbers.
fn keeps_numbers(kind: &[u8]) -> bool {
    let Ok(kind) = str::from_utf8(kind) else {
        return false;
    };
    !kind.starts_with("fuse") && !UNKEPT.contains(&kind)
}

// Whether the file system on this device keeps its files' numbers.
fn is_kept<R: Files<File = File>>(rt: &R, alloc: Global, device: u64) -> Result<bool, AllocError> {
    let mounts = contents(rt, alloc, "/proc/self/mountinfo")?;
    for line in mounts.split(ends_line) {
        if let Some(mount) = mount_of(line) {
            if device_number(mount.device) == Some(device_of(device)) {
                return Ok(keeps_numbers(mount.kind));
            }
        }
    }
    Ok(true)
}

// When the file that has these metadata was born, from 1970 on.
fn birth_of(metadata: &Metadata) -> Option<Duration> {
    let born = metadata.created().ok()?;
    born.duration_since(SystemTime::UNIX_EPOCH).ok()
}

// What tells the file that has these metadata, where its file system keeps that.
fn of_file<R: Files<File = File>>(
    rt: &R,
    alloc: Global,
    metadata: &Metadata,
) -> Result<Option<String>, AllocError> {
    let Some(since) = birth_of(metadata) else {
        return Ok(None);
    };
    if !is_kept(rt, alloc, metadata.dev())? {
        return Ok(None);
    }
    let (number, seconds, nanos) = (metadata.ino(), since.as_secs(), since.subsec_nanos());
    let text = format!(in alloc; "file {number} born {seconds}.{nanos:09}")?;
    Ok(Some(text))
}

// The text of a file in a device's folder, where there is one.
fn word<R: Files<File = File>>(
    rt: &R,
    alloc: Global,
    folder: &str,
    name: &str,
) -> Result<Option<String>, AllocError> {
    let bytes = contents_in(rt, alloc, folder, name)?;
    match str::from_utf8(line_of(&bytes)) {
        Ok(text) if !text.trim().is_empty() => Ok(Some(String::from_str(alloc, text.trim())?)),
        _ => Ok(None),
    }
}

// What tells the file behind the loop device with this folder.
fn of_backing<R: Files<File = File>>(
    rt: &R,
    alloc: Global,
    folder: &str,
) -> Result<Option<String>, AllocError> {
    let Some(path) = word(rt, alloc, folder, "loop/backing_file")? else {
        return Ok(None);
    };
    match rt.metadata(path.as_str()) {
        Ok(metadata) => of_file(rt, alloc, &metadata),
        Err(_) => Ok(None),
    }
}

// What tells the file behind a loop device, and where it begins there.
fn of_loop<R: Files<File = File>>(
    rt: &R,
    alloc: Global,
    folder: &str,
) -> Result<Option<String>, AllocError> {
    let Some(file) = of_backing(rt, alloc, folder)? else {
        return Ok(None);
    };
    let offset = word(rt, alloc, folder, "loop/offset")?.unwrap_or(String::new(alloc));
    Ok(Some(format!(in alloc; "loop {offset} {file}")?))
}

// What tells the device with this folder, which is no partition.
fn of_disk<R: Files<File = File>>(
    rt: &R,
    alloc: Global,
    folder: &str,
) -> Result<Option<String>, AllocError> {
    for name in &NAMES {
        if let Some(text) = word(rt, alloc, folder, name)? {
            return Ok(Some(format!(in alloc; "{name} {text}")?));
        }
    }
    of_loop(rt, alloc, folder)
}

// What tells the partition with this folder, which has this number on its disk.
fn of_partition<R: Files<File = File>>(
    rt: &R,
    alloc: Global,
    folder: &str,
    partition: &str,
) -> Result<Option<String>, AllocError> {
    match of_disk(rt, alloc, &format!(in alloc; "{folder}/..")?)? {
        Some(disk) => Ok(Some(format!(in alloc; "partition {partition} {disk}")?)),
        None => Ok(None),
    }
}

// What tells the block device of this number.
fn of_device<R: Files<File = File>>(
    rt: &R,
    alloc: Global,
    device: u64,
) -> Result<Option<String>, AllocError> {
    let (major, minor) = device_of(device);
    let folder = device_folder(alloc, major, minor)?;
    match word(rt, alloc, &folder, "partition")? {
        Some(partition) => of_partition(rt, alloc, &folder, &partition),
        None => of_disk(rt, alloc, &folder),
    }
}

/// What tells this file or device from all others, whatever its name is; none where nothing does.
pub fn identity_of<R: Files<File = File>>(
    rt: &R,
    alloc: Global,
    file: &File,
) -> Result<Option<String>, AllocError> {
    let Ok(metadata) = file.metadata() else {
        return Ok(None);
    };
    if metadata.file_type().is_block_device() {
        of_device(rt, alloc, metadata.rdev())
    } else {
        of_file(rt, alloc, &metadata)
    }
}
