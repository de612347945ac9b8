ghost use Rattle.std.specs.Arc.{arc_value};
ghost use Rattle.std.specs.Prelude.{◌≡◌, false, IfOk};
ghost use Rattle.nm_file_leg.specs.Media.{unknown};

use crate::backing_file::BackingFile;
use crate::shared_file::SharedFile;
use crate::{CalledMedium, Medium};
use std::alloc::AllocError;
use std::io;
use std::sync::Arc;

/// A shared file as one of its users has it.
///
/// Nothing is promised of its contents: that it is honest is a premise of whoever rests on it.
#[derive(Drop)]
pub struct FileUser<F: BackingFile> {
    file: Arc<SharedFile<F>>,
    number: usize,
}

impl<F: BackingFile> FileUser<F> {
    /// The user of this number, which is to have bytes of its own and no other leg's. A number that
    /// the file does not have fails each write and sync.
    pub fn new(file: &Arc<SharedFile<F>>, number: usize) -> Result<Self, AllocError>
        ensures file { IfOk result (λ user. arc_value user.file ≡ arc_value file.now) }
        ensures number { IfOk result (λ user. user.number ≡ number) }
    {
        let file = Arc::try_clone(file)?;
        Ok(FileUser { file, number })
    }
}

impl<F: BackingFile> Medium for FileUser<F> {
    ghost honest = { false };

    ghost held = { λ _. unknown };

    ghost tells = { λ _. false };

    ghost doubted = { λ _. false };

    fn read_at(&mut self, at: u64, into: &mut [u8]) -> io::Result<usize> {
        self.file.file().read_bytes(at, into)
    }

    fn write_at(&mut self, at: u64, bytes: &[u8]) -> io::Result<usize> {
        self.file.write(self.number, at, bytes)
    }

    fn sync(&mut self) -> io::Result<()> {
        self.file.sync(self.number)
    }

    fn len(&self) -> io::Result<u64> {
        self.file.file().count_bytes()
    }

    fn is_hole(&self, at: u64, many: usize) -> bool {
        self.file.file().has_hole(at, many)
    }

    fn tells_loss(&self) -> bool {
        self.file.tells_loss(self.number)
    }

    fn is_doubted(&self) -> bool {
        false
    }
}

impl<F: BackingFile> CalledMedium for FileUser<F> {
    ghost found = { λ _ _ _. Unit {0} };

    ghost wrote = { λ _ _ _. Unit {0} };

    ghost synced = { λ _. Unit {0} };

    fn read_at(&self, at: u64, into: &mut [u8]) -> io::Result<usize> {
        self.file.file().read_bytes(at, into)
    }

    fn write_at(&self, at: u64, bytes: &[u8]) -> io::Result<usize> {
        self.file.write(self.number, at, bytes)
    }

    fn sync(&self) -> io::Result<()> {
        self.file.sync_untold(self.number)
    }

    fn len(&self) -> io::Result<u64> {
        self.file.file().count_bytes()
    }

    fn is_hole(&self, at: u64, many: usize) -> bool {
        self.file.file().has_hole(at, many)
    }

    fn tells_loss(&self) -> bool {
        self.file.tells_loss(self.number)
    }

    fn is_doubted(&self) -> bool {
        false
    }
}
