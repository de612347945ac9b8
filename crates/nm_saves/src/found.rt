ghost use Rattle.std.specs.Prelude.{◌≡◌};
ghost use Rattle.nm_saves.specs.Files.{AreFound, file_of, found_of};

use crate::slot_file::SlotFile;
use crate::superblock_file::SuperblockFile;
use nm_superblock::Superblock;

/// The superblocks that were found beside the legs, for a start that looks which one it goes by. A
/// file that is damaged counts as one without a superblock.
pub fn found_beside<F: SlotFile>(files: &[Option<SuperblockFile<F>>]) -> [Option<Superblock>; 8]
    ensures { AreFound 8 files.now result }
{
    let mut found = [None; 8];
    'legs: for leg in 0..8 {
        found[leg] = found_at(files, leg);
    }
    found
}

// The superblock that a start finds beside this leg.
fn found_at<F: SlotFile>(files: &[Option<SuperblockFile<F>>], leg: usize) -> Option<Superblock>
    ensures { result ≡ found_of (file_of leg files.now) }
{
    if leg >= files.len() {
        return None;
    }
    match &files[leg] {
        Some(file) if !file.is_damaged() => file.newest(),
        _ => None,
    }
}
