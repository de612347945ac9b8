//! Whether a leg's file is still there under its name, or there at last.
ghost use Rattle.std.specs.Prelude.{◌≡◌, None};

use crate::identities::{RecordedFiles, identity_by};
use crate::late_file::LateFile;
use crate::late_superblock::LateSuperblock;
use crate::leg_file::LegFile;
use crate::leg_files::REGION;
use crate::leg_opener::OpensLegs;
use crate::leg_opening::{BLOCK_BYTES, LegRules, lock_opened};
use crate::leg_time::time_of_change;
use crate::limited_file::LimitedFile;
use crate::seen_file::SeenFile;
use crate::unfit::Unfit;
use nm_file_leg::{BackingFile, SharedFile};
use nm_reports::{FileCall, LegCall, LegCounts, LegTrouble, Unopened};
use std::alloc::Global;
use std::fs::{File, Metadata};
use std::os::unix::fs::MetadataExt;
use std::sync::{Arc, Mutex, Wait};

/// How many bytes of a leg's file a region has.
const REGION_BYTES: u64 = REGION * BLOCK_BYTES;

/// A leg's file as the server has it open and locked, or is to have it, and the name by which it is
/// opened.
#[derive(Drop)]
pub struct LegPlace {
    pub(crate) alloc: Global,
    name: String,
    pub(crate) file: Mutex<LegFile>,
    pub(crate) bytes: u64,
    pub(crate) rules: LegRules,
    // Of a leg that is missing since the start, where its superblock is missing too. Only who has
    // the lock of its file takes this one.
    pub(crate) superblock: Mutex<Option<LateSuperblock>>,
    // Who has it syncs the file ahead.
    sync_turn: Mutex<()>,
    // Its number, and what superblocks recorded of legs' files at the start: a file that was
    // missing then is to be the one that they are of, as it was.
    pub(crate) recorded: Option<(usize, RecordedFiles)>,
}

// A leg's file as it is open, with what is told of its calls.
#[derive(Drop)]
struct FileAtWork {
    shared: Arc<SharedFile<LimitedFile>>,
    trouble: Arc<LegTrouble>,
    counts: Arc<LegCounts>,
}

/// Whether both are of one file.
pub fn is_same(one: &Metadata, other: &Metadata) -> bool {
    one.dev() == other.dev() && one.ino() == other.ino()
}

/// Whether both files are one.
pub(crate) fn are_one(one: &File, other: &File) -> bool {
    match (one.metadata(), other.metadata()) {
        (Ok(one), Ok(other)) => is_same(&one, &other),
        _ => false,
    }
}

// Whether a block of the file can be read at this byte.
fn can_read(file: &LimitedFile, at: u64) -> bool {
    let mut block = [0u8; BLOCK_BYTES as usize];
    matches!(file.read_bytes(at, &mut block), Ok(found) if found == block.len())
}

// Where a region begins beside the one of this byte, in a file of so many bytes: the one before, or
// the second. The first, if there is no other.
fn region_beside(at: u64, bytes: u64) -> u64 {
    let region = at / REGION_BYTES;
    if region > 0 {
        (region - 1).saturating_mul(REGION_BYTES)
    } else if bytes > REGION_BYTES {
        REGION_BYTES
    } else {
        0
    }
}

impl LegPlace {
    /// The file of so many bytes for the export that is opened by this name, and what it has to
    /// keep to where it is opened later.
    pub fn new(alloc: Global, name: String, file: LegFile, bytes: u64, rules: LegRules) -> LegPlace
        ensures name { result.name ≡ name }
        ensures bytes { result.bytes ≡ bytes }
        ensures rules { result.rules ≡ rules }
        ensures recorded { result.recorded ≡ None }
    {
        LegPlace {
            alloc,
            name,
            file: Mutex::new(file),
            bytes,
            rules,
            superblock: Mutex::new(None),
            sync_turn: Mutex::new(()),
            recorded: None,
        }
    }

    /// Its superblock is to be opened with it.
    pub fn set_superblock(&mut self, superblock: LateSuperblock) {
        self.superblock = Mutex::new(Some(superblock));
    }

    /// How many bytes its file has: those for the export, and those for its superblock inside.
    pub(crate) fn file_bytes(&self) -> u64 {
        self.rules.bytes_for(self.bytes)
    }

    /// The name.
    pub fn name(&self) -> &str {
        self.name.as_str()
    }

    // The file as it is open, with what is told of its calls. None where a command is at it.
    fn at_work(&self) -> Option<FileAtWork> {
        let file = self.file.try_lock()?;
        Some(FileAtWork {
            shared: Arc::try_clone(&file.shared).ok()?,
            trouble: Arc::try_clone(&file.trouble).ok()?,
            counts: Arc::try_clone(&file.counts).ok()?,
        })
    }

    /// Syncs the file ahead of the stripes' syncs, which then have the less to write. Those that
    /// ask while one runs share the next. A file that a command is at is left.
    pub fn sync_ahead<R: Wait>(&self, rt: &R) {
        let Some(file) = self.at_work() else {
            return;
        };
        let ended = file.shared.ended();
        let _turn = self.sync_turn.lock(rt);
        match file.shared.sync_ahead(ended) {
            Ok(true) => file.counts.note(LegCall::Sync, Some(0)),
            Ok(false) => (),
            Err(error) => {
                file.trouble.note(FileCall::Sync, 0, Some(&error));
                file.counts.note_fault(Some(&error));
                file.counts.note(LegCall::Sync, None);
            }
        }
    }

    // What is seen of a file that was opened by the name.
    pub(crate) fn see<O: OpensLegs>(&self, opener: &O, file: &File) -> SeenFile {
        let is_free = self.rules.force_in_use
            || matches!(opener.is_in_use(self.alloc, file), Ok(false));
        SeenFile::of(file, !is_free)
    }

    // Opens the name anew, and finds the file that is open and locked, as long as it was.
    fn find_held<O: OpensLegs>(&self, opener: &O, held: &File) -> Result<(), Unfit> {
        let opened = opener.open(self.name.as_str())?;
        if !is_same(&opened.metadata()?, &held.metadata()?) {
            return Err(Unfit::OtherFile);
        }
        SeenFile::of(&opened, false).has_length(self.file_bytes())
    }

    // Refuses a file that is not the one that superblocks are of, or was changed since.
    fn check_own<O: OpensLegs>(&self, opener: &O, file: &File) -> Result<(), Unfit> {
        let Some((leg, recorded)) = self.recorded else {
            return Ok(());
        };
        let Ok(text) = opener.identity(self.alloc, file) else {
            return Err(Unfit::OtherFile);
        };
        let identities = &recorded.identities;
        if leg >= 8 || !identity_by(leg, text.as_deref()).is_same(leg, identities, leg) {
            return Err(Unfit::OtherFile);
        }
        match recorded.changed[leg] {
            0 => Ok(()),
            changed if time_of_change(file) == changed => Ok(()),
            _ => Err(Unfit::Changed),
        }
    }

    /// Makes the file durable, and says when it was changed last: 0 where that is unknown, and
    /// where the save of a superblock inside it changes that.
    pub fn settled_time<R: Wait>(&self, rt: &R) -> u64 {
        if self.rules.window > 0 {
            return 0;
        }
        self.file.lock(rt).shared.file().settled_time()
    }

    // Opens and locks the file that has the name.
    fn open_own<O: OpensLegs>(&self, opener: &O) -> Result<File, Unfit> {
        match lock_opened(opener.open(self.name.as_str())) {
            Ok(file) => Ok(file),
            Err(Unopened::System(error)) => Err(Unfit::Unopened(error)),
            Err(Unopened::Locked) => Err(Unfit::Locked),
            Err(_) => Err(Unfit::OtherFile),
        }
    }

    // Opens and locks the superblock of the file that was missing at the start, if it is missing
    // too.
    fn take_superblock<O: OpensLegs>(&self, opener: &O, file: &File) -> Result<(), Unfit> {
        let Some(mut superblock) = self.superblock.try_lock() else {
            return Err(Unfit::Command);
        };
        if let Some(own) = &*superblock {
            own.take(opener, file)?;
        }
        // From now on what saves it has its file alone.
        *superblock = None;
        Ok(())
    }

    // Opens and locks the file that was missing at the start, and its superblock.
    fn open_late<O: OpensLegs>(&self, opener: &O, late: &LateFile) -> Result<(), Unfit> {
        let file = self.open_own(opener)?;
        self.see(opener, &file)
            .fits(&self.rules, self.file_bytes())?;
        self.check_own(opener, &file)?;
        self.take_superblock(opener, &file)?;
        late.open_later(file);
        Ok(())
    }

    /// Opens the name anew. Refused are a file of which a call was left, one that may have lost
    /// what the server wrote to it, another file than the one that is open and locked, and another
    /// length.
    ///
    /// The file of a leg that was missing so far is opened and locked by this, where it has the
    /// right length, is not in use, and comes with no superblock that may be newer.
    pub fn check<O: OpensLegs>(&self, opener: &O) -> Result<(), Unfit> {
        let Some(file) = self.file.try_lock() else {
            return Err(Unfit::Command);
        };
        if file.trouble.was_cut() {
            return Err(Unfit::WasCut);
        }
        if file.shared.file().has_left() {
            return Err(Unfit::CallLeft);
        }
        let late = file.shared.file().late();
        let found = match late.file() {
            Some(held) => self.find_held(opener, held),
            None => self.open_late(opener, late),
        };
        match &found {
            Err(Unfit::Unopened(error)) => file.trouble.note_opened(Some(error)),
            _ => file.trouble.note_opened(None),
        }
        found
    }

    /// Whether the file can be read where no read failed, once one failed at this byte: its first
    /// block, its last one, and one of a region beside. None where it is being opened anew.
    pub fn probe(&self, at: u64) -> Option<bool> {
        let file = self.file.try_lock()?;
        let shared = Arc::try_clone(&file.shared).ok()?;
        drop(file);
        let own = shared.file();
        let last = self.bytes.saturating_sub(BLOCK_BYTES);
        let beside = region_beside(at, self.bytes);
        Some(can_read(own, 0) && can_read(own, last) && can_read(own, beside))
    }
}
