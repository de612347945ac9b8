//! Saving one superblock into the files of some legs, one after the other.
ghost use Rattle.std.specs.Prelude.{◌≡◌, ◌<◌, false, is_ok, not, replicate};
ghost use Rattle.nm_saves.specs.Errors.{KeepsErrors, KeepsFirst};
ghost use Rattle.nm_saves.specs.Files.{SavesAt, SavesTo, round_of};

use crate::slot_file::SlotFile;
use crate::superblock_file::SuperblockFile;
use nm_geometry::LegSet;
use nm_superblock::Superblock;
use std::io;
use std::io::ErrorKind;

/// The legs that were named by a superblock and lack it: they have no file, or writing it failed.
/// Where there is none, the save could not begin.
#[derive(Clone, Copy, PartialEq, Eq)]
pub struct FailedFiles {
    /// These legs.
    pub legs: LegSet,
}

impl FailedFiles {
    // What is answered for a save that could not begin.
    pub(crate) fn none() -> FailedFiles
        ensures { result.legs ≡ replicate 8 false }
    {
        FailedFiles {
            legs: LegSet::none(),
        }
    }
}

// Saves into the files of these legs. The answer is where that failed; the first error of each leg
// is kept.
pub(crate) fn save_to<F: SlotFile>(
    files: &mut [Option<SuperblockFile<F>>],
    errors: &mut [Option<io::Error>; 8],
    next: &Superblock,
    to: &LegSet,
) -> LegSet
    ensures files { SavesTo 8 F.honest (round_of next.now to.now result) files.old files.new }
    ensures errors { KeepsErrors result errors.old errors.new }
{
    let mut failed = LegSet::none();
    'legs: for leg in 0..8 {
        if to.has(leg) {
            failed.set(leg, !has_saved(files, &mut errors[leg], next, leg));
        }
    }
    failed
}

// Saves into the file of this leg: whether it has the superblock now. The first error is kept.
fn has_saved<F: SlotFile>(
    files: &mut [Option<SuperblockFile<F>>],
    first: &mut Option<io::Error>,
    next: &Superblock,
    leg: usize,
) -> bool
    requires { leg < 8 }
    ensures file { SavesAt F.honest result leg next.now files.old files.new }
    ensures error { KeepsFirst (not result) first.old first.new }
{
    match save_at(files, next, leg) {
        Ok(()) => true,
        Err(error) => {
            if first.is_none() {
                *first = Some(error);
            }
            false
        }
    }
}

// Saves into the file of this leg, if it has one.
fn save_at<F: SlotFile>(
    files: &mut [Option<SuperblockFile<F>>],
    next: &Superblock,
    leg: usize,
) -> io::Result<()>
    requires { leg < 8 }
    ensures { SavesAt F.honest (is_ok result) leg next.now files.old files.new }
{
    if leg >= files.len() {
        return Err(no_file());
    }
    let mut copy = *next;
    copy.leg = leg as u8;
    match &mut files[leg] {
        Some(file) => file.save(&copy),
        None => Err(no_file()),
    }
}

// The error of a leg that has no file.
fn no_file() -> io::Error {
    io::Error::from(ErrorKind::NotFound)
}
