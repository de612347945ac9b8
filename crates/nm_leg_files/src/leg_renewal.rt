//! A leg's file is opened anew while the server runs.
ghost use Rattle.std.specs.Prelude.{IfOk, map};
ghost use Rattle.nm_leg_files.specs.Files.{AreOfStripes, leg_place};

use crate::counting_file::BytesRead;
use crate::identities::identity_by;
use crate::late_slots::LateSlots;
use crate::leg_file::LegFile;
use crate::leg_files::Leg;
use crate::leg_opener::OpensLegs;
use crate::leg_place::{LegPlace, are_one};
use crate::superblock_writer::SuperblockWriter;
use crate::unfit::Unfit;
use nm_geometry::Shape;
use std::fs::{File, TryLockError};
use std::sync::Wait;

// Locks the file.
fn lock(file: &File) -> Result<(), Unfit> {
    match file.try_lock() {
        Ok(()) => Ok(()),
        Err(TryLockError::WouldBlock) => Err(Unfit::Locked),
        Err(TryLockError::Error(error)) => Err(Unfit::Unopened(error)),
    }
}

// Locks the file that was opened anew. Where it is the one that is held, that one's lock is let go
// first, and taken again where this fails. Of a leg that was missing so far none is held.
fn lock_anew(file: &File, held: Option<&File>) -> Result<(), Unfit> {
    let Some(held) = held else {
        return lock(file);
    };
    if !are_one(file, held) {
        return lock(file);
    }
    held.unlock()?;
    let locked = lock(file);
    if locked.is_err() {
        let _ = held.try_lock();
    }
    locked
}

impl LegPlace {
    // Opens the file that the name leads to now, measures it and locks it.
    fn open_anew<O: OpensLegs>(&self, opener: &O, held: &LegFile) -> Result<File, Unfit> {
        let file = opener.open(self.name())?;
        self.see(opener, &file)
            .fits(&self.rules, self.file_bytes())?;
        lock_anew(&file, held.shared.file().late().file())?;
        Ok(file)
    }

    /// Opens the file that the name leads to now, measures it and locks it, and lets go of the one
    /// that was held, if one was. Nothing is opened while a call of that was left, and none that
    /// does not fit. The answer is the legs of all stripes on it, stripe 0's first.
    pub fn renew<R: Wait, O: OpensLegs>(
        &self,
        rt: &R,
        opener: &O,
        number: usize,
        shape: &Shape,
        read: &BytesRead,
    ) -> Result<Vec<Leg>, Unfit>
        ensures { IfOk result (λ legs. AreOfStripes shape.now
            (map (λ leg. leg_place leg.medium leg.stripe leg.shape) legs.items)) }
    {
        let mut held = self.file.lock(rt);
        if held.shared.file().has_left() {
            return Err(Unfit::CallLeft);
        }
        let file = self.open_anew(opener, &held)?;
        let legs = held.renew(self.alloc, file, number, shape, read)?;
        // Its superblock's file is made anew too.
        *self.superblock.lock(rt) = None;
        Ok(legs)
    }

    /// Leaves no superblock of the leg of this number, which is out for good.
    pub fn retire_superblock<R: Wait, O: OpensLegs>(
        &self,
        rt: &R,
        opener: &O,
        leg: u8,
        writer: &mut SuperblockWriter<LateSlots>,
    ) -> Result<(), Unfit> {
        let held = self.file.lock(rt);
        *self.superblock.lock(rt) = None;
        let own = held.shared.file();
        match writer.retire_leg(opener, leg, own.late().file(), own.limit()) {
            Ok(()) => Ok(()),
            Err(why) => Err(Unfit::NoSuperblock(why)),
        }
    }

    /// Gives the leg of this number a superblock's file, an id of its own, and its file's identity,
    /// under the limit of its calls.
    pub fn renew_superblock<R: Wait, O: OpensLegs>(
        &self,
        rt: &R,
        opener: &O,
        leg: u8,
        writer: &mut SuperblockWriter<LateSlots>,
    ) -> Result<(), Unfit> {
        let held = self.file.lock(rt);
        let own = held.shared.file();
        let Some(file) = own.late().file() else {
            return Err(Unfit::no_file());
        };
        let Ok(text) = opener.identity(self.alloc, file) else {
            return Err(Unfit::no_memory());
        };
        let identities = identity_by(leg as usize, text.as_deref());
        match writer.renew_leg(opener, leg, &identities, file, own.limit()) {
            Ok(()) => Ok(()),
            Err(why) => Err(Unfit::NoSuperblock(why)),
        }
    }
}
