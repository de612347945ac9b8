//! What a start finds of the legs.

use crate::moving::moved_legs;
use crate::superblock_choice::FoundLegs;
use nm_assemble::LegsHere;
use nm_commands::OpeningSettings;
use nm_leg_files::LegFiles;
use nm_reports::{LogLines, StartFault};
use nm_superblock::Superblock;
use std::alloc::Global;
use std::fs::File;
use std::rt::Files;
use std::sync::Wait;

/// What is found of the legs: these superblocks, and their files.
pub fn find_legs<R: Files<File = File> + Wait>(
    rt: &R,
    alloc: Global,
    opening: &OpeningSettings<'_>,
    files: &LegFiles,
    superblocks: &[Option<Superblock>; 8],
    lines: &LogLines,
) -> Result<FoundLegs, StartFault> {
    let legs = LegsHere {
        here: files.here(),
        settled: files.settle(),
        identities: files.identities(rt, alloc, lines)?,
        changed: files.changed(),
        moved: moved_legs(opening),
    };
    Ok(FoundLegs {
        found: *superblocks,
        legs,
    })
}

/// Tells why the legs are compared that superblocks tell of.
pub fn tell_compared<R: Wait>(rt: &R, alloc: Global, lines: &LogLines) {
    let text = format!(in alloc; "all legs were changed since the mirror ended: they are compared");
    lines.warn(rt, text);
}
