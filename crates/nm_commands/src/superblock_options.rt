//! What the options say of superblocks: where they are, and what a start makes of them.
ghost use Rattle.std.specs.Prelude.{◌≡◌, codes, map, option_map, IfErr, IfOk, Some};
ghost use Rattle.clap.specs.Words.{first_value, found_of, kind_of, matched_of, raw_values};
ghost use Rattle.clap.specs.declared.error.kind.ErrorKind.TheVariants.{OutOfMemory};
ghost use Rattle.nm_commands.specs.Settings.{AreAll, HasPlace, IsPlaceOf};

use crate::superblock_place::SuperblockPlace;
use crate::values::text;
use clap::{ArgMatches, Error};
use std::alloc::Global;

// The place that a word says.
fn place_of<'a>(word: &'a str) -> SuperblockPlace<'a>
    ensures { IsPlaceOf (Some word.entry.now) result }
{
    match word {
        "none" => SuperblockPlace::Nowhere,
        "beside" => SuperblockPlace::Beside,
        "inside" => SuperblockPlace::Inside,
        folder => SuperblockPlace::Folder(folder),
    }
}

/// Where the superblocks are.
pub fn superblock_place<'a>(matches: &ArgMatches<'a>) -> Result<SuperblockPlace<'a>, Error>
    ensures ok { IfOk result (λ place.
        IsPlaceOf (first_value (found_of matches.now) (codes "superblock")) place) }
    ensures memory { IfErr result (λ error. kind_of error ≡ OutOfMemory) }
{
    Ok(place_of(text(matches, "superblock")?))
}

/// Where the superblocks are taken from, if that is named.
pub fn place_from<'a>(matches: &ArgMatches<'a>) -> Option<SuperblockPlace<'a>>
    ensures { HasPlace (first_value (found_of matches.now) (codes "superblock-from")) result }
{
    match matches.get_str("superblock-from") {
        None => None,
        Some(word) => Some(place_of(word)),
    }
}

/// The legs that this option names, as the words have them: none where they have no such option.
pub fn named_legs<'a>(
    alloc: Global,
    matches: &ArgMatches<'a>,
    id: &str,
) -> Result<Vec<&'a str>, Error>
    ensures ok { IfOk result (λ legs. AreAll
        (option_map raw_values (matched_of (found_of matches.now) id.now))
        (map (λ leg. leg.now) legs.items)) }
    ensures memory { IfErr result (λ error. kind_of error ≡ OutOfMemory) }
{
    let mut legs = Vec::new(alloc);
    if let Some(names) = matches.get_strs(id) {
        legs.extend_from_slice(names)?;
    }
    Ok(legs)
}
