//! Legs that a start goes on without.
ghost use Rattle.std.specs.Prelude.{◌≡◌, false, IfOk};
ghost use Rattle.nm_leg_files.specs.Files.{name_of};
ghost use Rattle.nm_leg_files.specs.Here.{is_here};

use crate::late_file::LateFile;
use crate::leg_file::LegFile;
use crate::leg_files::LegFiles;
use crate::limited_file::LimitedFile;
use nm_file_leg::SharedFile;
use nm_geometry::{LegSet, MOST_STRIPES};
use std::alloc::{AllocError, Global};
use std::sync::Arc;
use std::{fmt, io};

/// Why a leg's file is not here.
#[derive(Clone, Copy)]
pub(crate) enum Absence {
    /// The system did not open it.
    Unopened(io::Error),
    /// It is another file than the one that the leg's superblock is of.
    Another,
    /// It was changed since the mirror ended.
    Changed,
    /// No superblock of the mirror came with it: what it holds is not the mirror's.
    Unknown,
}

impl fmt::Display for Absence {
    fn fmt<W: fmt::Write>(&self, f: &mut fmt::Formatter<W>) -> fmt::Result {
        match self {
            Absence::Unopened(error) => write!(f, "{error}"),
            Absence::Another => f.write_str("is another file than its superblock is of"),
            Absence::Changed => f.write_str("was changed since the mirror ended"),
            Absence::Unknown => f.write_str("has no superblock of this mirror"),
        }
    }
}

impl LegFile {
    /// The leg without its file, which is closed once nobody has a share of it.
    fn laid_aside(&self, alloc: Global, why: Absence) -> Result<LegFile, AllocError>
        ensures name { IfOk result (λ leg. name_of leg ≡ name_of self.now) }
        ensures here { IfOk result (λ leg. is_here leg ≡ false) }
    {
        let own = self.shared.file();
        let limited = LimitedFile::of(alloc, LateFile::missing(own.late().window()), own.limit())?;
        let shared = SharedFile::new(alloc, limited, MOST_STRIPES as usize)?;
        Ok(LegFile {
            name: String::from_str(alloc, self.name.as_str())?,
            shared: Arc::new(alloc, shared)?,
            unopened: Some(why),
            trouble: Arc::try_clone(&self.trouble)?,
            counts: Arc::try_clone(&self.counts)?,
        })
    }
}

// Why a leg's file that is here is not taken.
fn absence_by(was_changed: bool) -> Absence {
    if was_changed {
        Absence::Changed
    } else {
        Absence::Another
    }
}

impl LegFiles {
    /// Lets go of the files of legs whose own they are not, or no longer, since these were changed:
    /// the mirror starts without them.
    pub fn keep_own(
        &mut self,
        alloc: Global,
        own: &LegSet,
        changed: &LegSet,
    ) -> Result<(), AllocError> {
        for (leg, file) in self.files.iter_mut().enumerate() {
            if !own.has(leg) && file.unopened.is_none() {
                let why = absence_by(changed.has(leg));
                *file = file.laid_aside(alloc, why)?;
            }
        }
        Ok(())
    }

    /// Lets go of these legs' files: the mirror starts without them.
    pub fn lay_aside(&mut self, alloc: Global, legs: &LegSet) -> Result<(), AllocError> {
        for (leg, file) in self.files.iter_mut().enumerate() {
            if legs.has(leg) && file.unopened.is_none() {
                *file = file.laid_aside(alloc, Absence::Unknown)?;
            }
        }
        Ok(())
    }
}
