//! The numbers of legs whose superblocks are inside them, whatever the order of their names.

use nm_assemble::{Misnumbered, leg_numbers};
use nm_commands::{Settings, SuperblockPlace};
use nm_geometry::MOST_LEGS;
use nm_leg_files::superblock_inside;
use nm_reports::{LogLines, StartFault};
use std::alloc::{AllocError, Global};
use std::fs::File;
use std::os::unix::fs::FileTypeExt;
use std::rt::Files;
use std::sync::Wait;

// The number that the superblock inside the file of this name says, if there is one.
fn number_inside<R: Files<File = File>>(rt: &R, name: &str) -> Option<u8> {
    match rt.metadata(name) {
        Ok(found) if found.is_file() || found.file_type().is_block_device() => (),
        _ => return None,
    }
    let file = File::open(rt, name).ok()?;
    Some(superblock_inside(&file)?.leg)
}

// What the superblocks inside the files of these names say.
fn numbers_inside<R: Files<File = File>>(rt: &R, names: &[&str]) -> [Option<u8>; 8] {
    let mut said = [None; 8];
    for (own, name) in said.iter_mut().zip(names.iter()) {
        *own = number_inside(rt, *name);
    }
    said
}

// Why the legs have no numbers. That none is left cannot be: each number is said by one leg at
// most.
fn misnumbered(why: Misnumbered) -> StartFault {
    match why {
        Misnumbered::Twice(one, other, leg) => StartFault::TwoOfLeg(one, other, leg),
        Misnumbered::Beyond(one, leg) => StartFault::LegBeyond(one, leg),
        Misnumbered::NoneLeft => StartFault::Memory,
    }
}

// The names in the order of their legs' numbers.
fn in_order<'a>(
    alloc: Global,
    names: &[&'a str],
    numbers: &[u8; 8],
) -> Result<Vec<&'a str>, AllocError> {
    let mut sorted = Vec::new(alloc);
    for leg in 0..names.len() {
        for (name, number) in names.iter().zip(numbers.iter()) {
            if *number as usize == leg {
                sorted.push(*name)?;
            }
        }
    }
    Ok(sorted)
}

// Tells which legs the files of these names are that say it.
fn tell_numbers<R: Wait>(
    rt: &R,
    alloc: Global,
    names: &[&str],
    said: &[Option<u8>; 8],
    lines: &LogLines,
) {
    for (name, own) in names.iter().zip(said.iter()) {
        if let Some(leg) = own {
            lines.inform(rt, format!(in alloc; "{name} is leg {leg}"));
        }
    }
}

/// Puts the legs' names in the order of the numbers that the superblocks inside their files say,
/// and tells them. A file without one has one of the numbers that are left.
pub fn sort_legs<R: Files<File = File> + Wait>(
    rt: &R,
    alloc: Global,
    settings: &mut Settings<'_>,
    lines: &LogLines,
) -> Result<(), StartFault> {
    let count = settings.mirror.legs.len();
    if settings.opening.superblock != SuperblockPlace::Inside || count > MOST_LEGS as usize {
        return Ok(());
    }
    let said = numbers_inside(rt, &settings.mirror.legs);
    let numbers = match leg_numbers(&said, count as u8) {
        Ok(numbers) => numbers,
        Err(why) => return Err(misnumbered(why)),
    };
    tell_numbers(rt, alloc, &settings.mirror.legs, &said, lines);
    settings.mirror.legs = in_order(alloc, &settings.mirror.legs, &numbers)?;
    Ok(())
}
