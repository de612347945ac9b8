//! A leg that is replaced gets a superblock's file of its own, and a new id.
ghost use Rattle.std.specs.Prelude.{◌≡◌, ◌≢◌, ◌<◌, length, slice_index};
ghost use Rattle.nm_saves.specs.Renewing.{LetsGo, Renews, new_leg};

use crate::slot_file::SlotFile;
use crate::superblock_file::SuperblockFile;
use crate::superblock_files::SuperblockFiles;
use nm_superblock::LegIdentities;

impl<F: SlotFile> SuperblockFiles<F> {
    /// How many legs may have a file.
    pub fn legs(&self) -> usize
        ensures { result ≡ length self.now.files }
    {
        self.files.len()
    }

    /// Lets the leg's file go, and what has failed of it. Nothing is saved beside the leg until it
    /// is renewed.
    pub fn let_go(&mut self, leg: usize)
        requires file { leg < length self.old.files }
        requires leg { leg < 8 }
        ensures { LetsGo leg self.old self.new }
    {
        self.files[leg] = None;
        self.errors[leg] = None;
    }

    /// Gives the leg this file, a new id, and the identity that it has in these. All that is saved
    /// from now on has them.
    pub fn renew(
        &mut self,
        leg: usize,
        file: SuperblockFile<F>,
        id: u64,
        identities: &LegIdentities,
    )
        requires file { leg < length self.old.files }
        requires leg { leg < 8 }
        requires other { id ≢ slice_index self.old.image.leg_ids leg }
        requires some { id ≢ 0 }
        ensures { Renews leg (new_leg file id identities.now) self.old self.new }
    {
        self.highest = self.highest.max(file.highest_stamp());
        self.image.leg_ids[leg] = id;
        self.image.identities.put(leg, identities, leg);
        self.errors[leg] = None;
        self.files[leg] = Some(file);
    }
}
