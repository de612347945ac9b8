//! The superblock of a leg that was missing at the start.
ghost use Rattle.std.specs.Prelude.{◌≡◌, max};

use crate::late_file::LateFile;
use crate::leg_opener::OpensLegs;
use crate::leg_opening::lock_opened;
use crate::leg_place::are_one;
use crate::unfit::Unfit;
use crate::window::SlotsAt;
use nm_assemble::first_misfit;
use nm_reports::Unopened;
use nm_superblock::{Superblock, is_place_damaged, newer};
use std::fs::File;
use std::io;
use std::io::ErrorKind;
use std::os::unix::fs::FileExt;
use std::sync::Arc;

/// How many bytes a slot has.
const SLOT_BYTES: usize = 4096;

/// The superblock's file of a leg that was missing at the start, as was the file itself. Saves go
/// into it once it is opened.
#[derive(Drop)]
pub struct LateSuperblock {
    /// The leg.
    pub leg: usize,
    /// The file's name.
    pub name: String,
    /// The file, once it is open.
    pub file: Arc<LateFile>,
    /// Where in which file it stands.
    pub at: SlotsAt,
    /// The superblock that the start went by.
    pub went_by: Superblock,
}

/// The slot that begins at this byte.
pub fn slot_at(file: &File, at: u64) -> Option<[u8; 4096]> {
    let mut slot = [0; SLOT_BYTES];
    match file.read_at(&mut slot, at) {
        Ok(SLOT_BYTES) => Some(slot),
        _ => None,
    }
}

// The slots from this byte on.
fn slots_from(file: &File, from: u64) -> Option<([u8; SLOT_BYTES], [u8; SLOT_BYTES])> {
    let second = from.saturating_add(SLOT_BYTES as u64);
    Some((slot_at(file, from)?, slot_at(file, second)?))
}

/// The superblock that one of the slots from this byte on holds, also where the other is damaged.
pub(crate) fn held_from(file: &File, from: u64) -> Option<Superblock> {
    let (first, second) = slots_from(file, from)?;
    newer(Superblock::decode(&first), Superblock::decode(&second))
}

// The superblock of the slots from this byte on: none where one of them is damaged, which may have
// held the newest.
fn found_from(file: &File, from: u64) -> Option<Superblock> {
    let (first, second) = slots_from(file, from)?;
    if is_place_damaged(&first, &second) {
        return None;
    }
    newer(Superblock::decode(&first), Superblock::decode(&second))
}

/// The file of a leg that was opened, if it was, once more for the superblock inside it: this one
/// is locked, and the other is to be the same.
pub fn again(opened: io::Result<File>, leg: &File) -> Result<File, Unopened> {
    match opened {
        Ok(file) if are_one(&file, leg) => Ok(file),
        Ok(_) => Err(Unopened::by(io::Error::from(ErrorKind::NotFound))),
        Err(error) => Err(Unopened::by(error)),
    }
}

// Writes a slot of zeroes at this byte.
fn write_blank(file: &File, at: u64) -> io::Result<()> {
    match file.write_at(&[0; SLOT_BYTES], at) {
        Ok(SLOT_BYTES) => Ok(()),
        Ok(_) => Err(io::Error::from(ErrorKind::StorageFull)),
        Err(error) => Err(error),
    }
}

/// Leaves no superblock in the slots from this byte on, durably.
pub fn blank_from(file: &File, from: u64) -> io::Result<()> {
    write_blank(file, from)?;
    write_blank(file, from.saturating_add(SLOT_BYTES as u64))?;
    file.sync_all()
}

/// A superblock as one of so many legs, where it has fewer: legs were added since it was saved.
pub fn with_added(superblock: &Superblock, legs: u8) -> Superblock
    ensures { result ≡ record superblock.now { legs = max superblock.now.legs legs } }
{
    let mut own = *superblock;
    own.legs = own.legs.max(legs);
    own
}

impl LateSuperblock {
    // Refuses a leg that comes without a superblock: it may be another file. Refuses a superblock
    // too that the one which the start went by does not come after: what its leg has may be newer,
    // or another mirror's.
    fn check(&self, file: &File) -> Result<(), Unfit> {
        let Some(own) = found_from(file, self.at.first_byte()) else {
            return Err(Unfit::Unknown);
        };
        let mut found = [None; 8];
        if let Some(place) = found.get_mut(self.leg) {
            *place = Some(with_added(&own, self.went_by.legs));
        }
        match first_misfit(&found, &self.went_by) {
            Some((_, why)) => Err(Unfit::OtherSuperblock(why)),
            None => Ok(()),
        }
    }

    // Opens its file and locks it; the leg's own is locked already.
    fn open<O: OpensLegs>(&self, opener: &O, leg: &File) -> Result<File, Unopened> {
        let opened = opener.open(self.name.as_str());
        if self.at.is_inside() {
            again(opened, leg)
        } else {
            lock_opened(opened)
        }
    }

    // Opens its file and locks it, where it is there.
    fn open_there<O: OpensLegs>(&self, opener: &O, leg: &File) -> Result<File, Unfit> {
        match self.open(opener, leg) {
            Ok(file) => Ok(file),
            Err(Unopened::System(error)) if error.kind() == ErrorKind::NotFound => {
                Err(Unfit::Unknown)
            }
            Err(why) => Err(Unfit::NoSuperblock(why)),
        }
    }

    /// Opens the file anew and locks it, for the leg on this file, which is copied whole. From then
    /// on saves go into it.
    pub fn take<O: OpensLegs>(&self, opener: &O, leg: &File) -> Result<(), Unfit> {
        if self.file.file().is_some() {
            return Ok(());
        }
        let file = self.open_there(opener, leg)?;
        self.check(&file)?;
        // Its leg is to be copied whole.
        match blank_from(&file, self.at.first_byte()) {
            Ok(()) => {
                self.file.open_later(file);
                Ok(())
            }
            Err(error) => Err(Unfit::NoSuperblock(Unopened::by(error))),
        }
    }
}
