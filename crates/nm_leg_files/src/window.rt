//! The end of a leg, where its superblock is kept inside it.
ghost use Rattle.std.specs.Prelude.{◌≡◌, ◌-◌};

use crate::late_superblock::held_from;
use crate::leg_opening::bytes_of;
use nm_commands::SuperblockPlace;
use nm_superblock::Superblock;
use std::fs::File;

/// How many bytes at its end a leg has for the superblock inside it. The first 8,192 hold it, the
/// others are zeroes.
pub const WINDOW_BYTES: u64 = 65536;

/// How many bytes a block has.
const BLOCK_BYTES: u64 = nm_replay::BLOCK_BYTES as u64;

/// How many bytes a slot has.
const SLOT_BYTES: usize = 4096;

/// How many bytes a sector of a slot has.
const SECTOR_BYTES: usize = 512;

/// How many bytes at the end of each leg are its superblock's, where superblocks are in this place.
pub(crate) fn window_of(place: SuperblockPlace<'_>) -> u64 {
    match place {
        SuperblockPlace::Inside => WINDOW_BYTES,
        _ => 0,
    }
}

/// How many of so many bytes of a leg's file are the export's, where so many at its end are its
/// superblock's.
pub fn export_bytes(bytes: u64, window: u64) -> u64
    ensures { result ≡ bytes - window }
{
    bytes.saturating_sub(window)
}

/// Where the slots of legs' superblocks stand.
#[derive(Clone, Copy, PartialEq, Eq)]
pub enum SlotsAt {
    /// In a file beside each leg.
    Beside,
    /// In a file for each leg in a folder.
    Folder,
    /// In each leg's own file, from this byte on.
    Inside(u64),
}

impl SlotsAt {
    /// Where they stand in this place, where legs have so many bytes for the export.
    pub fn of(place: SuperblockPlace<'_>, bytes: u64) -> SlotsAt {
        match place {
            SuperblockPlace::Beside => SlotsAt::Beside,
            SuperblockPlace::Inside => SlotsAt::Inside(bytes),
            _ => SlotsAt::Folder,
        }
    }

    /// At which byte of a file they begin.
    pub fn first_byte(&self) -> u64 {
        match self {
            SlotsAt::Inside(at) => *at,
            _ => 0,
        }
    }

    /// Whether they are in the legs' own files.
    pub fn is_inside(&self) -> bool {
        matches!(self, SlotsAt::Inside(_))
    }
}

// Whether some sector of the slot begins as one of a superblock does.
fn has_mark(slot: &[u8; 4096]) -> bool {
    for number in 0..SLOT_BYTES / SECTOR_BYTES {
        let at = number * SECTOR_BYTES;
        if slot.get(at..at + 4) == Some(b"NMRS".as_slice()) {
            return true;
        }
    }
    false
}

/// Whether two slots inside a leg hold a superblock, or what is left of one. Else they hold what a
/// client wrote there, or nothing.
pub fn are_marked(first: &[u8; 4096], second: &[u8; 4096]) -> bool {
    has_mark(first) || has_mark(second)
}

/// At which byte of a leg's file a superblock inside it begins.
pub fn inside_from(file: &File) -> Option<u64> {
    bytes_of(file)?.checked_sub(WINDOW_BYTES)
}

/// The superblock inside the leg of this file: one of a mirror over as many blocks as the leg has
/// for the export before it.
pub fn superblock_inside(file: &File) -> Option<Superblock> {
    let from = inside_from(file)?;
    let own = held_from(file, from)?;
    if own.blocks == from / BLOCK_BYTES {
        Some(own)
    } else {
        None
    }
}
