ghost use Rattle.std.specs.Prelude.{◌≡◌, IfOk, IsTrue, is_ok};
ghost use Rattle.nm_saves.specs.FileState.{HoldsBlank, Opens, SavesFile};
ghost use Rattle.nm_saves.specs.FileState.{newest_in};
ghost use Rattle.nm_saves.specs.Rereading.{RereadsFile};
ghost use Rattle.nm_saves.specs.SlotFile.{IsDurably, place_of};

use crate::fitting::all_fit;
use crate::rereading::read_slots;
use crate::slot_file::SlotFile;
use crate::writing::{write_blank, write_superblock};
use nm_superblock::{Superblock, highest_stamp, is_place_damaged, is_second_written, newer};
use std::io;
use std::io::ErrorKind;
use std::marker::Model;

/// The file beside a leg that keeps a superblock.
///
/// Once a write or a sync of it has failed it is not written again until it was settled and read
/// again: until then nobody knows what it holds.
#[derive(Drop)]
pub struct SuperblockFile<F: SlotFile> {
    file: F,
    first: Option<Superblock>,
    second: Option<Superblock>,
    /// No stamp in the file is higher.
    highest: u64,
    /// A write or a sync failed.
    failed: bool,
    /// A slot was damaged when the file was read last.
    damaged: bool,
}

impl<F: SlotFile> Model for SuperblockFile<F> {
    ghost use Rattle.nm_saves.specs.FileState.{FileState, IsSound, state_of};

    ghost Value = { FileState };

    ghost view = { λ f. state_of (F.held f.file) f.first f.second f.highest f.failed f.damaged };

    ghost invariant = { λ f. IsSound F.honest
        (state_of (F.held f.file) f.first f.second f.highest f.failed f.damaged) };
}

// A fault of a superblock that the file does not take.
fn refused() -> io::Error {
    io::Error::from(ErrorKind::InvalidInput)
}

impl<F: SlotFile> SuperblockFile<F> {
    /// A file that is there, settled and read.
    pub fn open(file: F) -> io::Result<Self>
        ensures { IfOk result (λ f. Opens F.honest f) }
    {
        let mut file = file;
        file.settle()?;
        let mut first = [0; 4096];
        file.read_slot(false, &mut first)?;
        let mut second = [0; 4096];
        file.read_slot(true, &mut second)?;
        Ok(SuperblockFile::of_slots(file, &first, &second))
    }

    /// A new file, written whole with zeroes: it has no superblock, and no stamps.
    pub fn create(file: F) -> io::Result<Self>
        ensures opens { IfOk result (λ f. Opens F.honest f) }
        ensures blank { IfOk result (λ f. HoldsBlank F.honest f) }
    {
        let mut file = file;
        let blank = [0; 4096];
        write_blank(&mut file, &blank)?;
        Ok(SuperblockFile::of_slots(file, &blank, &blank))
    }

    /// The file without its superblock: written whole with zeroes.
    pub fn blank(self) -> io::Result<Self>
        ensures opens { IfOk result (λ f. Opens F.honest f) }
        ensures blank { IfOk result (λ f. HoldsBlank F.honest f) }
    {
        SuperblockFile::create(self.file)
    }

    // The file that durably holds these slots.
    fn of_slots(file: F, first: &[u8; 4096], second: &[u8; 4096]) -> Self
        requires { IsTrue F.honest → IsDurably (place_of first.now second.now) (F.held file) }
        ensures held { result.held ≡ F.held file }
        ensures opens { Opens F.honest result }
    {
        let highest = highest_stamp(first).max(highest_stamp(second));
        SuperblockFile {
            file,
            first: Superblock::decode(first),
            second: Superblock::decode(second),
            highest,
            failed: false,
            damaged: is_place_damaged(first, second),
        }
    }

    /// The file's superblock.
    pub fn newest(&self) -> Option<Superblock>
        ensures { result ≡ newest_in self.now }
    {
        newer(self.first, self.second)
    }

    /// No stamp in the file is higher, in sectors that begin as a superblock's.
    pub fn highest_stamp(&self) -> u64
        ensures { result ≡ self.now.highest }
    {
        self.highest
    }

    /// Whether a write or a sync of it has failed, so that it is not written again.
    pub fn has_failed(&self) -> bool
        ensures { result ≡ self.now.failed }
    {
        self.failed
    }

    /// Whether a slot of it was damaged when it was read last: then a start finds no superblock in
    /// it, not even the other slot's, which may be older.
    pub fn is_damaged(&self) -> bool
        ensures { result ≡ self.now.damaged }
    {
        self.damaged
    }

    /// Settles a file that has failed, and reads it again: where that goes well it may be written
    /// again.
    pub fn read_again(&mut self) -> io::Result<()>
        ensures { RereadsFile F.honest (is_ok result) self.old self.new }
    {
        let mut first = [0; 4096];
        let mut second = [0; 4096];
        self.failed = true;
        read_slots(&mut self.file, &mut first, &mut second)?;
        let found = highest_stamp(&first).max(highest_stamp(&second));
        self.highest = self.highest.max(found);
        self.first = Superblock::decode(&first);
        self.second = Superblock::decode(&second);
        self.damaged = is_place_damaged(&first, &second);
        self.failed = false;
        Ok(())
    }

    /// Saves the superblock: into the slot that the file's superblock is not in, and durably. A
    /// file takes a superblock whose generation is above its highest stamp, unless it has failed.
    ///
    /// Where that fails, and where a crash cuts it off, the file is read as before, or as this
    /// superblock.
    pub fn save(&mut self, superblock: &Superblock) -> io::Result<()>
        ensures { SavesFile F.honest (is_ok result) superblock.now self.old self.new }
    {
        if self.failed || superblock.generation <= self.highest || !superblock.is_in_bounds() {
            return Err(refused());
        }
        all_fit(superblock);
        let second = is_second_written(&self.first, &self.second);
        self.failed = true;
        self.highest = superblock.generation;
        write_superblock(&mut self.file, second, superblock)?;
        if second {
            self.second = Some(*superblock);
        } else {
            self.first = Some(*superblock);
        }
        self.failed = false;
        Ok(())
    }
}
