//! Files of which a write or a sync failed are read again, so that they may be written again.
ghost use Rattle.std.specs.Prelude.{◌≡◌, ◌<◌, IsTrue, is_ok};
ghost use Rattle.nm_saves.specs.Errors.{TellsReading};
ghost use Rattle.nm_saves.specs.Files.{file_of};
ghost use Rattle.nm_saves.specs.Rereading.{RereadsAt, RereadsFailed, RereadsTo, TellsTo};
ghost use Rattle.nm_saves.specs.SlotFile.{IsDurably, KeepsSlots, place_of};

use crate::knowing::highest_of;
use crate::slot_file::SlotFile;
use crate::superblock_file::SuperblockFile;
use crate::superblock_files::SuperblockFiles;
use std::io;

// Settles the file, and reads both of its slots.
pub(crate) fn read_slots<F: SlotFile>(
    file: &mut F,
    first: &mut [u8; 4096],
    second: &mut [u8; 4096],
) -> io::Result<()>
    ensures durably { IsTrue F.honest → IsTrue (is_ok result)
        → IsDurably (place_of first.new second.new) (F.held file.new) }
    ensures keeps { IsTrue F.honest → KeepsSlots (F.held file.old) (F.held file.new) }
{
    file.settle()?;
    file.read_slot(false, first)?;
    file.read_slot(true, second)
}

// Reads the files again of the legs whose file has failed. The last error of each is kept.
fn read_failed<F: SlotFile>(
    files: &mut [Option<SuperblockFile<F>>],
    errors: &mut [Option<io::Error>; 8],
)
    ensures files { RereadsTo 8 F.honest files.old files.new }
    ensures errors { TellsTo 8 files.old files.new errors.old errors.new }
{
    'legs: for leg in 0..8 {
        read_failed_at(files, &mut errors[leg], leg);
    }
}

// Reads the file of this leg again, if it has one that has failed.
fn read_failed_at<F: SlotFile>(
    files: &mut [Option<SuperblockFile<F>>],
    last: &mut Option<io::Error>,
    leg: usize,
)
    requires { leg < 8 }
    ensures file { RereadsAt F.honest leg files.old files.new }
    ensures error { TellsReading (file_of leg files.old) (file_of leg files.new) last.old last.new }
{
    if leg >= files.len() {
        return;
    }
    if let Some(file) = &mut files[leg] {
        if file.has_failed() {
            *last = file.read_again().err();
        }
    }
}

impl<F: SlotFile> SuperblockFiles<F> {
    /// Settles each file that has failed and reads it again: where that goes well it may be written
    /// again. The next save has a generation above each stamp that is found.
    pub fn read_failed_again(&mut self)
        ensures { RereadsFailed F.honest self.old self.new }
    {
        read_failed(&mut self.files, &mut self.errors);
        self.highest = highest_of(&self.files, self.highest);
    }
}
