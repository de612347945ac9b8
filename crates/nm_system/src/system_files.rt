//! Files in which the system tells of itself. What cannot be read counts as empty.

use std::alloc::{AllocError, Global};
use std::fs::File;
use std::io;
use std::io::{ErrorKind, Read};
use std::rt::Files;

/// How many bytes of a folder's names are read at once: the system gives none where the next one,
/// of at most 255, does not fit.
const AT_ONCE: usize = 4096;

/// How often a folder is read at most.
const MOST_READS: usize = 65_536;

// What was read, unless there was no memory for it.
fn unless_no_memory(bytes: Vec<u8>, read: io::Result<usize>) -> Result<Vec<u8>, AllocError> {
    match read {
        Err(error) if error.kind() == ErrorKind::OutOfMemory => Err(AllocError),
        _ => Ok(bytes),
    }
}

/// Whether the byte ends a line.
pub fn ends_line(byte: &u8) -> bool {
    *byte == b'\n'
}

/// Whether the byte ends a name in what [`names`] returns.
pub fn ends_name(byte: &u8) -> bool {
    *byte == 0
}

/// What the file holds.
pub fn contents<R: Files<File = File>>(
    rt: &R,
    alloc: Global,
    path: &str,
) -> Result<Vec<u8>, AllocError> {
    let mut bytes = Vec::new(alloc);
    let Ok(mut file) = File::open(rt, path) else {
        return Ok(bytes);
    };
    let read = file.read_to_end(&mut bytes);
    unless_no_memory(bytes, read)
}

/// What the file of this name in this folder holds.
pub fn contents_in<R: Files<File = File>>(
    rt: &R,
    alloc: Global,
    folder: &str,
    name: &str,
) -> Result<Vec<u8>, AllocError> {
    contents(rt, alloc, &format!(in alloc; "{folder}/{name}")?)
}

// Reads names of the folder once, and adds them to these. Whether there may be more.
fn read_some<F: Read>(
    folder: &mut F,
    room: &mut [u8],
    bytes: &mut Vec<u8>,
) -> Result<bool, AllocError> {
    match folder.read(room) {
        Ok(read) if read > 0 => {
            if let Some(some) = room.get(..read) {
                bytes.extend_from_slice(some)?;
            }
            Ok(true)
        }
        Err(error) if error.kind() == ErrorKind::Interrupted => Ok(true),
        _ => Ok(false),
    }
}

/// The names in the folder, each ended by a NUL.
pub fn names<R: Files<File = File>>(
    rt: &R,
    alloc: Global,
    path: &str,
) -> Result<Vec<u8>, AllocError> {
    let mut bytes = Vec::new(alloc);
    let Ok(mut folder) = rt.open_dir(path) else {
        return Ok(bytes);
    };
    let mut room = [0; AT_ONCE];
    for _ in 0..MOST_READS {
        if !read_some(&mut folder, &mut room, &mut bytes)? {
            break;
        }
    }
    Ok(bytes)
}
