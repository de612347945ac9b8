//! Opens legs' files by their names, in threads too.

use nm_system::{identity_of, is_in_use};
use std::alloc::{AllocError, Global};
use std::fs::{File, OpenOptions};
use std::io;
use std::io::ErrorKind;
use std::random::RandomSource;
use std::rt::Files;

/// What opens the files of legs and of their superblocks by their names. A thread is handed this in
/// place of all that may be done with files.
pub trait OpensLegs {
    /// Opens the file of this name for reading and writing.
    fn open(&self, name: &str) -> io::Result<File>;

    /// The same, and makes it where it is not there: then its folder keeps it durably.
    fn make(&self, name: &str) -> io::Result<File>;

    /// What tells the file from all others, whatever its name is; none where nothing does.
    fn identity(&self, alloc: Global, file: &File) -> Result<Option<String>, AllocError>;

    /// Whether the system has the file in use.
    fn is_in_use(&self, alloc: Global, file: &File) -> Result<bool, AllocError>;

    /// Draws a number at random.
    fn draw(&self) -> io::Result<u64>;
}

/// The system's files.
#[derive(Drop)]
pub struct LegOpener<'a, R> {
    rt: &'a R,
}

impl<'a, R> LegOpener<'a, R> {
    /// Those of this runtime.
    pub fn new(rt: &'a R) -> LegOpener<'a, R> {
        LegOpener { rt }
    }
}

// The folder that the file of this name is in.
fn folder_of(name: &str) -> &str {
    match name.rsplit_once('/') {
        Some(("", _)) => "/",
        Some((folder, _)) => folder,
        None => ".",
    }
}

// Makes the names durable that are in the folder of this one.
fn sync_folder<R: Files<File = File>>(rt: &R, name: &str) -> io::Result<()> {
    let folder = File::open(rt, folder_of(name))?;
    folder.sync_all()
}

/// Removes the file of this name, durably.
pub fn remove_durably<R: Files<File = File>>(rt: &R, name: &str) -> io::Result<()> {
    rt.remove_file(name)?;
    sync_folder(rt, name)
}

/// Opens the file of this name for reading and writing.
pub fn open_writable<R: Files<File = File>>(rt: &R, name: &str) -> io::Result<File> {
    let mut options = OpenOptions::new();
    options.read(true);
    options.write(true);
    options.open(rt, name)
}

/// Opens the file of this name for reading and writing, and makes it where it is not there: then
/// its folder keeps it durably.
pub fn open_or_make<R: Files<File = File>>(rt: &R, name: &str) -> io::Result<File> {
    let mut options = OpenOptions::new();
    options.read(true);
    options.write(true);
    options.create(true);
    let file = options.open(rt, name)?;
    sync_folder(rt, name)?;
    Ok(file)
}

impl<'a, R: Files<File = File> + RandomSource> OpensLegs for LegOpener<'a, R> {
    fn open(&self, name: &str) -> io::Result<File> {
        open_writable(self.rt, name)
    }

    fn make(&self, name: &str) -> io::Result<File> {
        open_or_make(self.rt, name)
    }

    fn identity(&self, alloc: Global, file: &File) -> Result<Option<String>, AllocError> {
        identity_of(self.rt, alloc, file)
    }

    fn is_in_use(&self, alloc: Global, file: &File) -> Result<bool, AllocError> {
        is_in_use(self.rt, alloc, file)
    }

    fn draw(&self) -> io::Result<u64> {
        let mut bytes = [0; 8];
        if self.rt.fill_bytes(&mut bytes).is_err() {
            return Err(io::Error::from(ErrorKind::Other));
        }
        Ok(u64::from_be_bytes(bytes))
    }
}
