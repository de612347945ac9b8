ghost use Rattle.std.specs.Prelude.{◌≡◌, ◌<◌};

use crate::Medium;
use nm_leg::Fuse;
use std::cell::Cell;
use std::io;
use std::io::ErrorKind;

/// A medium for tests, whose calls fail as a fuse says.
///
/// Each read, write and sync counts as a call, and one that fails does not reach the medium inside.
/// The fuse is set through a shared reference, so that it can be set while a leg has the medium.
#[derive(Drop)]
pub struct FuseMedium<M: Medium> {
    medium: M,
    fuse: Cell<Fuse>,
}

impl<M: Medium> FuseMedium<M> {
    /// This medium, of which no call fails.
    pub fn new(medium: M) -> Self
        ensures { result.medium ≡ medium }
    {
        FuseMedium {
            medium,
            fuse: Cell::new(Fuse::Never),
        }
    }

    /// The call of this number from now fails, once; 1 is the next. This takes the place of what
    /// was set before.
    pub fn set(&self, call: u64)
        requires { 0 < call }
    {
        self.fuse.set(Fuse::Once(call));
    }

    /// The call of this number from now and all later ones fail; 1 is the next. This takes the
    /// place of what was set before.
    pub fn fail_from(&self, call: u64)
        requires { 0 < call }
    {
        self.fuse.set(Fuse::From(call));
    }

    /// The medium inside.
    pub fn inner(&self) -> &M
        ensures { result.now ≡ self.now.medium }
    {
        &self.medium
    }

    /// Counts one call, and fails where the fuse says so.
    fn burn(&self) -> io::Result<()> {
        let mut fuse = self.fuse.get();
        let fails = fuse.burn();
        self.fuse.set(fuse);
        if fails {
            return Err(io::Error::from(ErrorKind::Other));
        }
        Ok(())
    }
}

impl<M: Medium> Medium for FuseMedium<M> {
    ghost honest = { M.honest };

    ghost held = { λ fused. M.held fused.medium };

    ghost tells = { λ fused. M.tells fused.medium };

    ghost doubted = { λ fused. M.doubted fused.medium };

    fn read_at(&mut self, at: u64, into: &mut [u8]) -> io::Result<usize> {
        self.burn()?;
        self.medium.read_at(at, into)
    }

    fn write_at(&mut self, at: u64, bytes: &[u8]) -> io::Result<usize> {
        self.burn()?;
        self.medium.write_at(at, bytes)
    }

    fn sync(&mut self) -> io::Result<()> {
        self.burn()?;
        self.medium.sync()
    }

    fn len(&self) -> io::Result<u64> {
        self.medium.len()
    }

    fn is_hole(&self, at: u64, many: usize) -> bool {
        self.medium.is_hole(at, many)
    }

    fn tells_loss(&self) -> bool {
        self.medium.tells_loss()
    }

    fn is_doubted(&self) -> bool {
        self.medium.is_doubted()
    }
}
