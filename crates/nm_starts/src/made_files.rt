//! The files of superblocks that a start makes, and removes where it is refused.

use nm_geometry::LegSet;
use nm_leg_files::{CallLimit, LateSlots, blank_file, open_or_make};
use nm_reports::{StartFault, Unopened};
use nm_saves::SuperblockFile;
use nm_superblock::Superblock;
use std::alloc::Global;
use std::fs::File;
use std::rt::Files;

/// What a start has made: the files of these legs, and what is inside legs in these slots.
#[derive(Drop)]
pub(crate) struct Made {
    files: LegSet,
    pub(crate) slots: Vec<LateSlots>,
}

// Makes the superblock's file of this name, and has the folder keep it: with this superblock in it,
// or none yet.
fn make_file<R: Files<File = File>>(
    rt: &R,
    alloc: Global,
    name: &str,
    first: Option<Superblock>,
    limit: &CallLimit,
) -> Result<SuperblockFile<LateSlots>, Unopened> {
    let mut made = blank_file(alloc, open_or_make(rt, name), limit)?;
    if let Some(superblock) = first {
        if let Err(error) = made.save(&superblock) {
            return Err(Unopened::by(error));
        }
    }
    Ok(made)
}

impl Made {
    /// Nothing so far.
    pub(crate) fn nothing(alloc: Global) -> Made {
        Made {
            files: LegSet::none(),
            slots: Vec::new(alloc),
        }
    }

    /// Removes what was made: of the files of these names, and what is inside legs.
    pub(crate) fn remove<R: Files<File = File>>(&self, rt: &R, names: &[String]) {
        for (leg, name) in names.iter().enumerate() {
            if self.files.has(leg) {
                let _ = rt.remove_file(name.as_str());
            }
        }
        for slots in &self.slots {
            let _ = slots.clear();
        }
    }

    /// Makes the superblock's file of this leg, with this superblock in it, or none yet. It is
    /// noted as made by this start where nothing had its name.
    pub(crate) fn make<R: Files<File = File>>(
        &mut self,
        rt: &R,
        alloc: Global,
        leg: usize,
        name: &str,
        first: Option<Superblock>,
        limit: &CallLimit,
    ) -> Result<SuperblockFile<LateSlots>, StartFault> {
        if leg < 8 {
            self.files.set(leg, rt.symlink_metadata(name).is_err());
        }
        match make_file(rt, alloc, name, first, limit) {
            Ok(made) => Ok(made),
            Err(why) => Err(StartFault::CannotSave(leg, why)),
        }
    }
}
