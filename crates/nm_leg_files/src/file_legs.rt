//! The legs of a mirror on the file of one leg.
ghost use Rattle.std.specs.Prelude.{◌≡◌, IfOk, IsErr, map};
ghost use Rattle.nm_leg_files.specs.Files.{file_places, leg_place};
ghost use Rattle.nm_leg_files.specs.Renewing.{IsAnew};

use crate::counting_file::BytesRead;
use crate::late_file::LateFile;
use crate::leg_file::LegFile;
use crate::leg_files::{Leg, stripe_leg};
use crate::limited_file::LimitedFile;
use crate::unfit::Unfit;
use nm_file_leg::SharedFile;
use nm_geometry::{MOST_STRIPES, Shape};
use nm_reports::StartFault;
use std::alloc::{AllocError, Global};
use std::fs::File;
use std::sync::Arc;

impl LegFile {
    /// A share of it.
    pub(crate) fn share(&self, alloc: Global) -> Result<LegFile, AllocError> {
        Ok(LegFile {
            name: String::from_str(alloc, self.name.as_str())?,
            shared: Arc::try_clone(&self.shared)?,
            unopened: self.unopened,
            trouble: Arc::try_clone(&self.trouble)?,
            counts: Arc::try_clone(&self.counts)?,
        })
    }

    /// The leg's file in the place of this one, under the same limit. What fails of it and how
    /// often it is called is noted where it was.
    fn anew(&self, alloc: Global, file: File) -> Result<LegFile, AllocError>
        ensures { IfOk result (IsAnew file self.now) }
    {
        let own = self.shared.file();
        let late = LateFile::opened(file, own.late().window());
        let limited = LimitedFile::of(alloc, late, own.limit())?;
        let shared = SharedFile::new(alloc, limited, MOST_STRIPES as usize)?;
        Ok(LegFile {
            name: String::from_str(alloc, self.name.as_str())?,
            shared: Arc::new(alloc, shared)?,
            unopened: None,
            trouble: Arc::try_clone(&self.trouble)?,
            counts: Arc::try_clone(&self.counts)?,
        })
    }

    /// Has this file in its place, and makes the legs of all stripes on it, stripe 0's first. What
    /// has failed of the other is forgotten.
    pub(crate) fn renew(
        &mut self,
        alloc: Global,
        file: File,
        number: usize,
        shape: &Shape,
        read: &BytesRead,
    ) -> Result<Vec<Leg>, Unfit>
        ensures file { IfOk result (λ _. IsAnew file self.old self.new) }
        ensures legs { IfOk result (λ legs.
            map (λ leg. leg_place leg.medium leg.stripe leg.shape) legs.items
            ≡ file_places shape.now.stripes shape.now self.new) }
        ensures stays { IsErr result → self.new ≡ self.old }
    {
        let Ok(anew) = self.anew(alloc, file) else {
            return Err(Unfit::no_memory());
        };
        let Ok(legs) = legs_on(alloc, &anew, number, shape, read) else {
            return Err(Unfit::no_memory());
        };
        anew.trouble.forget();
        *self = anew;
        Ok(legs)
    }
}

/// The legs of all stripes on this leg's file, stripe 0's first: each is a user of its own of it.
pub(crate) fn legs_on(
    alloc: Global,
    file: &LegFile,
    number: usize,
    shape: &Shape,
    read: &BytesRead,
) -> Result<Vec<Leg>, StartFault>
    ensures { IfOk result (λ legs.
        map (λ leg. leg_place leg.medium leg.stripe leg.shape) legs.items
        ≡ file_places shape.now.stripes shape.now file.now) }
{
    let mut legs = Vec::new(alloc);
    for stripe in 0..shape.stripes {
        let leg = match stripe_leg(alloc, file, number, shape, stripe, read) {
            Ok(leg) => leg,
            Err(fault) => return Err(fault),
        };
        if legs.push(leg).is_err() {
            return Err(StartFault::Memory);
        }
    }
    Ok(legs)
}
