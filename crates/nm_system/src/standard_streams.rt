//! Standard input, output and error, of which each may be closed as the program starts.

use std::alloc::Global;
use std::fs::{File, OpenOptions};
use std::os::fd::AsRawFd;
use std::rt::Files;

/// The highest number of a standard stream's descriptor.
const LAST: i32 = 2;

// A file that takes all and holds nothing.
fn open_null<R: Files<File = File>>(rt: &R) -> Option<File> {
    let mut both = OpenOptions::new();
    both.read(true);
    both.write(true);
    both.open(rt, "/dev/null").ok()
}

// Opens a file, and keeps it where it got a standard stream's descriptor. None where it cannot be
// opened or kept, else whether it was kept.
fn take_one<R: Files<File = File>>(rt: &R, taken: &mut Vec<File>) -> Option<bool> {
    let file = open_null(rt)?;
    if file.as_raw_fd() > LAST {
        return Some(false);
    }
    match taken.push(file) {
        Ok(()) => Some(true),
        Err(_) => None,
    }
}

/// Takes the descriptors of standard streams that are closed, so that no leg gets one of them and
/// has text written into it. They are taken as long as these files are kept.
///
/// None where something has to be opened for it and cannot be.
pub fn take_standard_streams<R: Files<File = File>>(rt: &R, alloc: Global) -> Option<Vec<File>> {
    let mut taken = Vec::new(alloc);
    for _ in 0..=LAST + 1 {
        match take_one(rt, &mut taken) {
            Some(true) => (),
            Some(false) => return Some(taken),
            None => return None,
        }
    }
    None
}
