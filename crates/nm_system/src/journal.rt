//! Whether standard error goes to the system's journal.

use std::alloc::Global;
use std::env;
use std::fs::{File, metadata};
use std::os::unix::fs::MetadataExt;
use std::rt::{Env, Files};

/// The name by which standard error's file is found, whatever it is.
const STANDARD_ERROR: &str = "/proc/self/fd/2";

/// Whether standard error is what the environment's JOURNAL_STREAM names: a device, and the number
/// of a file there. What a program inherits names the journal of another one, where standard error
/// is not the same any more.
pub fn is_journal<R: Files<File = File> + Env>(rt: &R, alloc: Global) -> bool {
    let Ok(named) = env::var(&(rt, alloc), "JOURNAL_STREAM") else {
        return false;
    };
    let Ok(own) = metadata(rt, STANDARD_ERROR) else {
        return false;
    };
    match format!(in alloc; "{}:{}", own.dev(), own.ino()) {
        Ok(own) => own == named,
        Err(_) => false,
    }
}
