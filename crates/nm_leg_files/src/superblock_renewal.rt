//! A leg that is replaced gets a superblock's file of its own, and a new id.
ghost use Rattle.std.specs.Prelude.{◌≡◌, ◌≢◌, IfErr, IfOk, OnOk};
ghost use Rattle.nm_leg_files.specs.Renewing.{HasNewFile, IsLeftOrGone};
ghost use Rattle.nm_saves.specs.Renewing.{LetsGo};

use crate::blank_files::{blank_file, blank_window, no_memory};
use crate::late_slots::LateSlots;
use crate::late_superblock::{again, blank_from, held_from};
use crate::leg_opener::OpensLegs;
use crate::leg_opening::lock_opened;
use crate::limited_file::CallLimit;
use crate::superblock_writer::SuperblockWriter;
use crate::window::SlotsAt;
use nm_reports::Unopened;
use nm_saves::SuperblockFile;
use nm_superblock::{LegIdentities, Superblock};
use std::fs::File;
use std::io::ErrorKind;

/// A leg's new id, from a number that was drawn at random: it is neither 0 nor its old one.
pub fn other_id(drawn: u64, old: u64) -> u64
    ensures other { result ≢ old }
    ensures some { result ≢ 0 }
{
    if drawn != 0 && drawn != old {
        drawn
    } else if old == 1 {
        2
    } else {
        1
    }
}

impl SuperblockWriter<LateSlots> {
    /// Lets the superblock of a leg go that is out, and leaves none in its file, durably. Nothing
    /// is saved beside the leg from then on. The leg's own file may be open.
    pub fn retire_leg<O: OpensLegs>(
        &mut self,
        opener: &O,
        leg: u8,
        held: Option<&File>,
        limit: &CallLimit,
    ) -> Result<(), Unopened>
        ensures ok { IfOk result (λ _. LetsGo leg self.old.files self.new.files) }
        ensures err { IfErr result (λ _. IsLeftOrGone leg self.old.files self.new.files) }
        ensures others { self.new ≡ record self.old { files = self.new.files } }
    {
        let at = leg as usize;
        if at >= 8 || at >= self.files.legs() || at >= self.names.len() {
            return Err(Unopened::Cut);
        }
        self.files.let_go(at);
        match opener.open(self.names[at].as_str()) {
            // Of a leg that is missing it may be missing too.
            Err(error) if error.kind() == ErrorKind::NotFound => Ok(()),
            Ok(file) if self.slots_at.is_inside() => self.retire_inside(file, leg, held),
            opened => {
                blank_file(self.alloc, opened, limit)?;
                Ok(())
            }
        }
    }

    // Whether this superblock, if there is one, is the mirror's for this leg.
    fn is_of(&self, found: Option<Superblock>, leg: u8) -> bool {
        match found {
            Some(found) => found.mirror == self.files.image().mirror && found.leg == leg,
            None => false,
        }
    }

    // Leaves no superblock inside the leg of this number, whose name leads to this file. Of a leg
    // that is missing another file may have the name: that is left as it is.
    fn retire_inside(&self, file: File, leg: u8, held: Option<&File>) -> Result<(), Unopened> {
        let from = self.slots_at.first_byte();
        let own = match held {
            Some(held) => again(Ok(file), held)?,
            None => {
                let file = lock_opened(Ok(file))?;
                if !self.is_of(held_from(&file, from), leg) {
                    return Ok(());
                }
                file
            }
        };
        match blank_from(&own, from) {
            Ok(()) => Ok(()),
            Err(error) => Err(Unopened::by(error)),
        }
    }

    // The leg's superblock's file made anew, with none in it: inside the leg's file, which this one
    // is.
    fn make_anew<O: OpensLegs>(
        &self,
        opener: &O,
        name: &str,
        leg: &File,
        limit: &CallLimit,
    ) -> Result<SuperblockFile<LateSlots>, Unopened> {
        match self.slots_at {
            SlotsAt::Inside(from) => {
                let file = again(opener.open(name), leg)?;
                let Ok(slots) = LateSlots::here(self.alloc, file, from, limit) else {
                    return Err(no_memory());
                };
                blank_window(slots)
            }
            _ => blank_file(self.alloc, opener.make(name), limit),
        }
    }

    /// Lets the leg's superblock go, makes its file anew with none in it, and gives the leg a new
    /// id, and the identity that it has in these: what is saved from now on has them. Where this
    /// fails the superblock is as it was, or was let go: then nothing is saved beside the leg. The
    /// leg's own file is open.
    pub fn renew_leg<O: OpensLegs>(
        &mut self,
        opener: &O,
        leg: u8,
        identities: &LegIdentities,
        own: &File,
        limit: &CallLimit,
    ) -> Result<(), Unopened>
        ensures ok { OnOk result (HasNewFile leg identities.now self.old.files self.new.files) }
        ensures err { IfErr result (λ _. IsLeftOrGone leg self.old.files self.new.files) }
        ensures others { self.new ≡ record self.old { files = self.new.files } }
    {
        let at = leg as usize;
        if at >= 8 || at >= self.files.legs() || at >= self.names.len() {
            return Err(Unopened::Cut);
        }
        let drawn = match opener.draw() {
            Ok(drawn) => drawn,
            Err(error) => return Err(Unopened::by(error)),
        };
        self.files.let_go(at);
        let made = self.make_anew(opener, self.names[at].as_str(), own, limit)?;
        let id = other_id(drawn, self.files.image().leg_ids[at]);
        self.files.renew(at, made, id, identities);
        Ok(())
    }
}
