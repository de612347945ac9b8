//! What the system says of files that a start lacks.

use nm_commands::{Settings, SuperblockPlace};
use nm_leg_files::OpensLegs;
use nm_reports::{StartFault, superblock_name};
use std::alloc::{AllocError, Global};
use std::io;
use std::io::Write;

// What the system says of an error, without the number that it ends with.
fn without_number(text: &str) -> &str {
    match text.split_once(" (os error ") {
        Some((words, _)) => words,
        None => text,
    }
}

// Tells why this file of a leg is not opened.
fn put_unopened<E: Write>(
    alloc: Global,
    leg: usize,
    name: &str,
    error: io::Error,
    err: &mut E,
) -> Result<(), AllocError> {
    let whole = format!(in alloc; "{error}")?;
    let words = without_number(whole.as_str());
    let _ = writeln!(err, "nbdmirror: leg {leg}: {name}: {words}");
    Ok(())
}

// Tells why a leg's superblock is not opened, where it is looked for last.
fn tell_superblock<P: OpensLegs, E: Write>(
    alloc: Global,
    opener: &P,
    settings: &Settings<'_>,
    leg: usize,
    err: &mut E,
) -> Result<(), AllocError> {
    let own = settings.mirror.legs.get(leg).copied().unwrap_or("");
    let opening = &settings.opening;
    let place: SuperblockPlace<'_> = opening.superblock_from.unwrap_or(opening.superblock);
    let Some(name) = superblock_name(alloc, place, leg, own)? else {
        return Ok(());
    };
    match opener.open(name.as_str()) {
        Ok(_) => Ok(()),
        Err(error) => put_unopened(alloc, leg, name.as_str(), error, err),
    }
}

/// Tells of a start that lacks a leg why the system does not open that leg's file, or its
/// superblock.
pub fn tell_absent<P: OpensLegs, E: Write>(
    alloc: Global,
    opener: &P,
    fault: &StartFault,
    settings: &Settings<'_>,
    err: &mut E,
) -> Result<(), AllocError> {
    match *fault {
        StartFault::MayBeNewer(leg) => tell_superblock(alloc, opener, settings, leg, err),
        StartFault::NoneInSync(_) => {
            for (leg, name) in settings.mirror.legs.iter().enumerate() {
                match opener.open(name) {
                    Ok(_) => tell_superblock(alloc, opener, settings, leg, err)?,
                    Err(error) => put_unopened(alloc, leg, name, error, err)?,
                }
            }
            Ok(())
        }
        _ => Ok(()),
    }
}
