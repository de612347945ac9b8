//! The names of the files that legs' superblocks are kept in.
ghost use Rattle.std.specs.Prelude.{◌≡◌, IfOk, option_map, string_bytes};
ghost use Rattle.nm_reports.specs.SuperblockNames.{superblock_name};

use nm_commands::SuperblockPlace;
use std::alloc::{AllocError, Global};

/// The name of the file for the superblock of this leg, whose own file has that name: that one
/// where superblocks are inside the legs, and none where they are nowhere.
pub fn superblock_name(
    alloc: Global,
    place: SuperblockPlace<'_>,
    leg: usize,
    name: &str,
) -> Result<Option<String>, AllocError>
    ensures { IfOk result (λ own.
        option_map string_bytes own ≡ superblock_name place.entry leg name.now) }
{
    match place {
        SuperblockPlace::Nowhere => Ok(None),
        SuperblockPlace::Beside => Ok(Some(format!(in alloc; "{name}.nbdmirror")?)),
        SuperblockPlace::Inside => Ok(Some(String::from_str(alloc, name)?)),
        SuperblockPlace::Folder(folder) => Ok(Some(format!(in alloc; "{folder}/leg{leg}")?)),
    }
}
