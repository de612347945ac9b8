//! A file that may be opened later than the server starts.
ghost use Rattle.std.specs.Prelude.{◌≡◌, ◌≤◌, length, None, Some, IsErr, IfOk};

use crate::leg_time::{OpenFile, TimedFile, settled_time};
use crate::window::export_bytes;
use nm_file_leg::BackingFile;
use std::fs::File;
use std::io;
use std::io::ErrorKind;
use std::os::fd::AsRawFd;
use std::sync::OnceLock;

/// A leg's file, or that of its superblock: opened at the start or, where that could not be, once
/// later. Until then each call fails.
#[derive(Drop)]
pub struct LateFile {
    first: Option<File>,
    later: OnceLock<File>,
    // How many bytes at its end are not the leg's: they are for a superblock.
    window: u64,
}

impl LateFile {
    /// A file that is open from the start on, of which so many bytes at its end are not the leg's.
    pub fn opened(file: File, window: u64) -> LateFile
        ensures file { result.first ≡ Some file }
        ensures window { result.window ≡ window }
    {
        LateFile {
            first: Some(file),
            later: OnceLock::new(),
            window,
        }
    }

    /// One that is not open yet.
    pub fn missing(window: u64) -> LateFile
        ensures file { result.first ≡ None }
        ensures window { result.window ≡ window }
    {
        LateFile {
            first: None,
            later: OnceLock::new(),
            window,
        }
    }

    /// How many bytes at its end are not the leg's.
    pub fn window(&self) -> u64
        ensures { result ≡ self.now.window }
    {
        self.window
    }

    /// The file, if it is open.
    pub fn file(&self) -> Option<&File> {
        match &self.first {
            Some(file) => Some(file),
            None => self.later.get(),
        }
    }

    /// Makes the file durable as it is, and drops what the system's cache has of it. Whether that
    /// succeeded.
    pub fn settle(&self) -> bool {
        let Some(file) = self.file() else {
            return false;
        };
        let is_settled = OpenFile { file }.sync_data().is_ok();
        let _ = libc::posix_fadvise(file.as_raw_fd(), 0, 0, libc::POSIX_FADV_DONTNEED);
        is_settled
    }

    /// Makes the file durable, and says when it was changed last: 0 where that is unknown.
    pub fn settled_time(&self) -> u64 {
        match self.file() {
            Some(file) => settled_time(&mut OpenFile { file }),
            None => 0,
        }
    }

    /// The file was opened. It is dropped where one is open already.
    pub fn open_later(&self, file: File) {
        if self.first.is_none() {
            let _ = self.later.try_set(file);
        }
    }
}

// The fault of a call of a file that is not open.
fn not_open() -> io::Error {
    io::Error::from(ErrorKind::NotFound)
}

// Reads a file, if it is open.
fn read_open(file: Option<&File>, at: u64, into: &mut [u8]) -> io::Result<usize>
    ensures count { IfOk result (λ n. n ≤ length into.new) }
    ensures closed { file.entry ≡ None → IsErr result }
{
    match file {
        Some(file) => file.read_bytes(at, into),
        None => Err(not_open()),
    }
}

// Writes to a file, if it is open.
fn write_open(file: Option<&File>, at: u64, bytes: &[u8]) -> io::Result<usize>
    ensures closed { file.entry ≡ None → IsErr result }
{
    match file {
        Some(file) => file.write_bytes(at, bytes),
        None => Err(not_open()),
    }
}

// Makes durable what was written to a file, if it is open.
fn sync_open(file: Option<&File>) -> io::Result<()>
    ensures closed { file.entry ≡ None → IsErr result }
{
    match file {
        Some(file) => file.sync_bytes(),
        None => Err(not_open()),
    }
}

// How many bytes a file has before so many at its end, if it is open.
fn count_open(file: Option<&File>, window: u64) -> io::Result<u64>
    ensures closed { file.entry ≡ None → IsErr result }
{
    match file {
        Some(file) => Ok(export_bytes(file.count_bytes()?, window)),
        None => Err(not_open()),
    }
}

impl BackingFile for LateFile {
    fn read_bytes(&self, at: u64, into: &mut [u8]) -> io::Result<usize> {
        read_open(self.file(), at, into)
    }

    fn write_bytes(&self, at: u64, bytes: &[u8]) -> io::Result<usize> {
        write_open(self.file(), at, bytes)
    }

    fn sync_bytes(&self) -> io::Result<()> {
        sync_open(self.file())
    }

    fn count_bytes(&self) -> io::Result<u64> {
        count_open(self.file(), self.window)
    }

    fn has_hole(&self, at: u64, many: usize) -> bool {
        match self.file() {
            Some(file) => file.has_hole(at, many),
            None => false,
        }
    }
}
