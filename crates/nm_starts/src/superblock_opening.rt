//! The files of legs' superblocks, as a start opens, locks, reads and makes them.
ghost use Rattle.std.specs.Prelude.{◌≡◌, IfOk};
ghost use Rattle.nm_saves.specs.Files.{AreFound};

use crate::inside_slots::{FoundSlots, holds_none, make_inside, read_inside};
use crate::made_files::Made;
use nm_commands::{MirrorSettings, SuperblockPlace};
use nm_geometry::LegSet;
use nm_leg_files::{
    CallLimit, LateFile, LateSlots, LateSuperblock, LegFiles, SlotsAt, bytes_of, no_memory,
    open_locked,
};
use nm_reports::{LogLines, StartFault, Unopened, superblock_name};
use nm_saves::{SuperblockFile, SuperblockFiles, found_beside};
use nm_superblock::Superblock;
use std::alloc::Global;
use std::fs::File;
use std::io::ErrorKind;
use std::rt::Files;
use std::sync::{Arc, Wait};

/// How many bytes a superblock's file has.
const FILE_BYTES: u64 = 8192;

/// The files of the legs' superblocks as they were found, leg 0's first, and their names.
#[derive(Drop)]
pub struct FoundFiles {
    pub(crate) files: Vec<Option<SuperblockFile<LateSlots>>>,
    pub(crate) names: Vec<String>,
    pub(crate) at: SlotsAt,
    // The slots inside legs that hold no superblock.
    pub(crate) free: Vec<Option<LateSlots>>,
    limits: Vec<CallLimit>,
    // Which of them this start has made.
    made: Made,
    // The superblocks of legs that are not here, which are moved into them as they are.
    pub(crate) carried: Vec<Option<Superblock>>,
}

/// The files of superblocks while the server serves.
#[derive(Drop)]
pub struct AllFiles {
    /// The files.
    pub files: SuperblockFiles<LateSlots>,
    /// Their names, from leg 0's on.
    pub names: Vec<String>,
    /// Those of missing legs that are opened later.
    pub late: Vec<LateSuperblock>,
    // Where in the files they stand.
    pub(crate) at: SlotsAt,
    // Which of them this start has made.
    made: Made,
}

impl AllFiles {
    /// Removes the files that this start has made: it is refused.
    pub fn remove_made<R: Files<File = File>>(&self, rt: &R) {
        self.made.remove(rt, &self.names);
    }
}

// Reads the superblock's file that was opened. One that is shorter than it is made to be was cut
// off while it was made, and never held a superblock.
fn read_opened(
    alloc: Global,
    file: File,
    limit: &CallLimit,
) -> Result<Option<SuperblockFile<LateSlots>>, Unopened> {
    match bytes_of(&file) {
        Some(bytes) if bytes >= FILE_BYTES => (),
        _ => return Ok(None),
    }
    let Ok(slots) = LateSlots::here(alloc, file, 0, limit) else {
        return Err(no_memory());
    };
    match SuperblockFile::open(slots) {
        Ok(found) => Ok(Some(found)),
        Err(error) => Err(Unopened::by(error)),
    }
}

// Opens, locks and reads the superblock's file of this name, if there is one.
fn read_file<R: Files<File = File>>(
    rt: &R,
    alloc: Global,
    name: &str,
    limit: &CallLimit,
) -> Result<Option<SuperblockFile<LateSlots>>, Unopened> {
    match open_locked(rt, name) {
        Ok(file) => read_opened(alloc, file, limit),
        Err(Unopened::System(error)) if error.kind() == ErrorKind::NotFound => Ok(None),
        Err(why) => Err(why),
    }
}

// The superblock that is moved as it is into the file of this leg, which is not here.
fn carried_to(all: &[Option<Superblock>], leg: usize, is_here: bool) -> Option<Superblock> {
    match all.get(leg) {
        Some(carried) if !is_here => *carried,
        _ => None,
    }
}

// The superblock's file of this name, of a leg that is missing, as is the file: both are opened
// later.
fn late_file(
    alloc: Global,
    leg: usize,
    name: &str,
    at: SlotsAt,
    went_by: Superblock,
    limit: &CallLimit,
) -> Result<(SuperblockFile<LateSlots>, LateSuperblock), StartFault> {
    let Ok(file) = Arc::new(alloc, LateFile::missing(0)) else {
        return Err(StartFault::Memory);
    };
    let late = LateSuperblock {
        leg,
        name: String::from_str(alloc, name)?,
        file: Arc::try_clone(&file)?,
        at,
        went_by,
    };
    match SuperblockFile::open(LateSlots::late(file, at.first_byte(), limit)?) {
        Ok(slots) => Ok((slots, late)),
        Err(error) => Err(StartFault::CannotSave(leg, Unopened::by(error))),
    }
}

// The superblock's file of this name, or the slots inside the leg on this file, if that is here.
fn find_slots<R: Files<File = File>>(
    rt: &R,
    alloc: Global,
    name: &str,
    at: SlotsAt,
    leg: Option<&File>,
    limit: &CallLimit,
) -> Result<FoundSlots, Unopened> {
    match (at, leg) {
        (SlotsAt::Inside(from), Some(leg)) => read_inside(rt, alloc, name, leg, from, limit),
        (SlotsAt::Inside(_), None) => Ok((None, None)),
        _ => Ok((read_file(rt, alloc, name, limit)?, None)),
    }
}

// Whether the superblock's file of a leg is still to be made or opened. What stands under the name
// of a missing leg's superblock and holds none is opened anew with the leg.
fn is_lacking(
    place: &mut Option<SuperblockFile<LateSlots>>,
    is_here: bool,
    is_carried: bool,
) -> bool {
    if is_carried || !is_here && matches!(&*place, Some(file) if holds_none(file)) {
        *place = None;
    }
    place.is_none()
}

impl FoundFiles {
    // None so far, of superblocks that stand there in the files.
    fn none(alloc: Global, at: SlotsAt, limits: Vec<CallLimit>) -> FoundFiles {
        FoundFiles {
            files: Vec::new(alloc),
            names: Vec::new(alloc),
            at,
            free: Vec::new(alloc),
            limits,
            made: Made::nothing(alloc),
            carried: Vec::new(alloc),
        }
    }

    // Opens, locks and reads the file of this name for a leg, whose own file this one is. That of a
    // leg that is not here may be unreadable: then none is there.
    fn add<R: Files<File = File>>(
        &mut self,
        rt: &R,
        alloc: Global,
        leg: usize,
        name: String,
        own: Option<&File>,
    ) -> Result<(), StartFault> {
        let Some(limit) = self.limits.get(leg) else {
            return Ok(());
        };
        let (file, slots) = match find_slots(rt, alloc, name.as_str(), self.at, own, limit) {
            Ok(found) => found,
            Err(Unopened::System(_)) if own.is_none() => (None, None),
            Err(why) => return Err(StartFault::CannotSave(leg, why)),
        };
        let is_kept = self.files.push(file).is_ok() && self.names.push(name).is_ok();
        if !is_kept || self.free.push(slots).is_err() {
            return Err(StartFault::Memory);
        }
        Ok(())
    }

    /// Opens, locks and reads the files that are in this place, leg after leg. That of a leg that
    /// is not here may be unreadable: then none is there.
    pub fn open<R: Files<File = File>>(
        rt: &R,
        alloc: Global,
        mirror: &MirrorSettings<'_>,
        place: SuperblockPlace<'_>,
        legs: &LegFiles,
    ) -> Result<FoundFiles, StartFault> {
        let (at, limits) = (SlotsAt::of(place, legs.export_bytes()), legs.limits(alloc)?);
        let mut found = FoundFiles::none(alloc, at, limits);
        for (leg, own) in mirror.legs.iter().enumerate() {
            let Some(name) = superblock_name(alloc, place, leg, own)? else {
                continue;
            };
            found.add(rt, alloc, leg, name, legs.file(leg))?;
        }
        Ok(found)
    }

    /// The superblocks that they hold: none in a file that is damaged.
    pub fn found(&self) -> [Option<Superblock>; 8]
        ensures { AreFound 8 self.now.files.items result }
    {
        found_beside(&self.files)
    }

    /// Tells of each file that is damaged.
    pub fn tell_damaged<R: Wait>(&self, rt: &R, alloc: Global, lines: &LogLines) {
        for (leg, file) in self.files.iter().enumerate() {
            let (Some(file), Some(name)) = (file, self.names.get(leg)) else {
                continue;
            };
            if file.is_damaged() {
                let name = name.as_str();
                let text = format!(in alloc;
                    "leg {leg}: its superblock ({name}) is damaged, and counts as missing"
                );
                lines.warn(rt, text);
            }
        }
    }

    // Makes the superblock's place inside a leg that has none so far.
    fn complete_inside(&mut self, leg: usize) -> Result<(), StartFault> {
        let Some(place) = self.files.get_mut(leg) else {
            return Ok(());
        };
        match make_inside(place, self.free.get_mut(leg), &mut self.made.slots) {
            Ok(()) => Ok(()),
            Err(why) => Err(StartFault::CannotSave(leg, why)),
        }
    }

    // Makes the file of a leg, with this superblock in it, or none yet.
    fn make_file_of<R: Files<File = File>>(
        &mut self,
        rt: &R,
        alloc: Global,
        leg: usize,
        first: Option<Superblock>,
    ) -> Result<(), StartFault> {
        let (Some(name), Some(limit)) = (self.names.get(leg), self.limits.get(leg)) else {
            return Ok(());
        };
        let made = self.made.make(rt, alloc, leg, name.as_str(), first, limit)?;
        if let Some(place) = self.files.get_mut(leg) {
            *place = Some(made);
        }
        Ok(())
    }

    // Has the file of a leg that is missing opened later.
    fn leave_for_later(
        &mut self,
        alloc: Global,
        leg: usize,
        went_by: Superblock,
    ) -> Result<Option<LateSuperblock>, StartFault> {
        let (Some(name), Some(limit)) = (self.names.get(leg), self.limits.get(leg)) else {
            return Ok(None);
        };
        let (slots, late) = late_file(alloc, leg, name.as_str(), self.at, went_by, limit)?;
        if let Some(place) = self.files.get_mut(leg) {
            *place = Some(slots);
        }
        Ok(Some(late))
    }

    // Makes the file of a leg that has none so far; that of a missing leg is opened later.
    fn complete_leg<R: Files<File = File>>(
        &mut self,
        rt: &R,
        alloc: Global,
        leg: usize,
        is_here: bool,
        went_by: Option<Superblock>,
    ) -> Result<Option<LateSuperblock>, StartFault> {
        if is_here && self.at.is_inside() {
            self.complete_inside(leg)?;
            return Ok(None);
        }
        let carried = carried_to(&self.carried, leg, is_here);
        let is_carried = carried.is_some();
        let Some(place) = self.files.get_mut(leg) else {
            return Ok(None);
        };
        if !is_lacking(place, is_here, is_carried) {
            return Ok(None);
        }
        if is_here || is_carried {
            self.make_file_of(rt, alloc, leg, carried)?;
            return Ok(None);
        }
        match went_by {
            Some(went_by) => self.leave_for_later(alloc, leg, went_by),
            None => Ok(None),
        }
    }

    // Does so for each leg. What is opened later is told.
    fn complete_legs<R: Files<File = File>>(
        &mut self,
        rt: &R,
        alloc: Global,
        here: &LegSet,
        went_by: Option<Superblock>,
    ) -> Result<Vec<LateSuperblock>, StartFault> {
        let mut late = Vec::new(alloc);
        for leg in 0..self.names.len() {
            let Some(one) = self.complete_leg(rt, alloc, leg, here.has(leg), went_by)? else {
                continue;
            };
            if late.push(one).is_err() {
                return Err(StartFault::Memory);
            }
        }
        Ok(late)
    }

    /// Makes the files that are not there, of legs that are here; those of missing legs are opened
    /// later, if the start went by a superblock. What saves go on from is this image. Where one
    /// cannot be made none is.
    pub fn complete<R: Files<File = File>>(
        self,
        rt: &R,
        alloc: Global,
        here: &LegSet,
        image: Superblock,
        went_by: Option<Superblock>,
    ) -> Result<AllFiles, StartFault>
        ensures { IfOk result (λ all. all.files.image ≡ image) }
    {
        let mut own = self;
        let late = match own.complete_legs(rt, alloc, here, went_by) {
            Ok(late) => late,
            Err(fault) => {
                own.made.remove(rt, &own.names);
                return Err(fault);
            }
        };
        let FoundFiles {
            files,
            names,
            at,
            made,
            ..
        } = own;
        Ok(AllFiles {
            files: SuperblockFiles::new(files, image),
            names,
            late,
            at,
            made,
        })
    }
}
