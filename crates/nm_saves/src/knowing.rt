//! What is known of the files of all legs.
ghost use Rattle.std.specs.Prelude.{◌≡◌, ◌≤◌};
ghost use Rattle.nm_saves.specs.Files.{AreFailed, AreOthers, AreUpTo, IsLeastUpTo};
ghost use Rattle.nm_saves.specs.Files.{IsSeenAfter, file_of};
ghost use Rattle.nm_saves.specs.Files.{has_failed_in, round_of, stamp_in};

use crate::slot_file::SlotFile;
use crate::superblock_file::SuperblockFile;
use nm_geometry::LegSet;
use nm_superblock::Superblock;

// The highest of this generation and the files' stamps.
pub(crate) fn highest_of<F: SlotFile>(files: &[Option<SuperblockFile<F>>], after: u64) -> u64
    ensures own { after ≤ result }
    ensures above { AreUpTo 8 result files.now }
    ensures least { IsLeastUpTo 8 after result files.now }
{
    let mut highest = after;
    'legs: for leg in 0..8 {
        highest = highest.max(stamp_at(files, leg));
    }
    highest
}

// The highest stamp in the file of this leg.
fn stamp_at<F: SlotFile>(files: &[Option<SuperblockFile<F>>], leg: usize) -> u64
    ensures { result ≡ stamp_in (file_of leg files.now) }
{
    if leg >= files.len() {
        return 0;
    }
    match &files[leg] {
        Some(file) => file.highest_stamp(),
        None => 0,
    }
}

// The legs whose file has failed.
pub(crate) fn failed_legs<F: SlotFile>(files: &[Option<SuperblockFile<F>>]) -> LegSet
    ensures { AreFailed 8 files.now result }
{
    let mut failed = LegSet::none();
    'legs: for leg in 0..8 {
        failed.set(leg, failed_at(files, leg));
    }
    failed
}

// Whether the file of this leg has failed.
fn failed_at<F: SlotFile>(files: &[Option<SuperblockFile<F>>], leg: usize) -> bool
    ensures { result ≡ has_failed_in (file_of leg files.now) }
{
    if leg >= files.len() {
        return false;
    }
    match &files[leg] {
        Some(file) => file.has_failed(),
        None => false,
    }
}

// The legs that are not named, and not out.
pub(crate) fn other_legs(named: &LegSet, out: &LegSet) -> LegSet
    ensures { AreOthers 8 named.now out.now result }
{
    LegSet::of([true; 8]).without(&named.or(out))
}

// The last generation that was surely written beside each leg, after this superblock was saved
// beside those that it names, and beside others where it did not fail.
pub(crate) fn seen_after(
    next: &Superblock,
    named: &LegSet,
    others: &LegSet,
    lacking: &LegSet,
) -> [u64; 8]
    ensures { IsSeenAfter 8 named.now (round_of next.now others.now lacking.now) result }
{
    let mut seen = next.seen;
    'legs: for leg in 0..8 {
        if named.has(leg) || others.has(leg) && !lacking.has(leg) {
            seen[leg] = next.generation;
        }
    }
    seen
}
