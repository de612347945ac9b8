//! Opens, locks and measures one leg's file.
ghost use Rattle.std.specs.Prelude.{◌≡◌, ◌≤◌, ◌*◌, ◌-◌, ◌^◌, ◌||◌, false, not, None, IfSome};
ghost use Rattle.std.specs.Prelude.{IfOk, is_some};

use crate::leg_opener::open_writable;
use crate::limited_file::CallLimit;
use crate::seen_file::SeenFile;
use crate::timed_calls::TimedCalls;
use crate::unfit::Unfit;
use crate::window::{export_bytes, window_of};
use nm_commands::{Settings, SuperblockPlace};
use nm_geometry::MOST_BLOCKS;
use nm_reports::{StartFault, Unopened};
use nm_system::{Limits, is_in_use};
use std::alloc::{AllocError, Global};
use std::fs::{File, TryLockError};
use std::io;
use std::io::{ErrorKind, Seek, SeekFrom};
use std::rt::Files;
use std::sync::Arc;

/// How many bytes a block has.
pub const BLOCK_BYTES: u64 = nm_replay::BLOCK_BYTES as u64;

/// How many calls of stripes a leg's threads make at once at most; one more is for its superblock.
const MOST_CALLS: u8 = 16;

/// Which legs may be opened.
#[derive(Clone, Copy)]
pub struct LegRules {
    /// Some may be missing: the system does not open them.
    pub may_lack: bool,
    /// They may be in use by the system.
    pub force_in_use: bool,
    /// How long files may be that are written, in bytes.
    pub file_bytes: Option<u64>,
    /// After how many seconds a call of theirs is left, where it is.
    pub leg_timeout: Option<u32>,
    /// How many threads a leg has then for its calls.
    pub threads: u8,
    /// Superblocks stand beside them, so that none may be a block device.
    pub has_beside: bool,
    /// How many bytes at the end of each are its superblock's, and not the export's.
    pub window: u64,
}

impl LegRules {
    /// Those that the settings have, under these limits of the system: without superblocks no leg
    /// may be missing.
    pub fn of(settings: &Settings<'_>, limits: &Limits) -> LegRules {
        LegRules {
            may_lack: !matches!(settings.opening.superblock, SuperblockPlace::Nowhere),
            force_in_use: settings.mirror.force_in_use,
            file_bytes: limits.file_bytes,
            leg_timeout: settings.copies.leg_timeout,
            threads: settings.mirror.stripes.min(MOST_CALLS) + 1,
            has_beside: matches!(settings.opening.superblock, SuperblockPlace::Beside),
            window: window_of(settings.opening.superblock),
        }
    }

    /// How many bytes a leg's file has that has so many for the export.
    pub(crate) fn bytes_for(&self, export: u64) -> u64 {
        export.saturating_add(self.window)
    }

    /// A limit for the calls of one leg, where they have one.
    pub fn limit(&self, alloc: Global) -> Result<CallLimit, AllocError> {
        let Some(seconds) = self.leg_timeout else {
            return Ok(None);
        };
        let calls = TimedCalls::new(alloc, self.threads, seconds)?;
        Ok(Some(Arc::new(alloc, calls)?))
    }
}

/// A leg and how many blocks it has.
#[derive(Clone, Copy, PartialEq, Eq)]
pub struct LegLength {
    pub leg: usize,
    pub blocks: u64,
}

/// What was found by a leg's name: its file and how many blocks that has, or why the system does
/// not open it.
#[derive(Drop)]
pub struct FoundLeg {
    pub file: Option<File>,
    pub blocks: u64,
    pub unopened: Option<io::Error>,
}

/// Opens a file for reading and writing, and locks it.
pub fn open_locked<R: Files<File = File>>(rt: &R, name: &str) -> Result<File, Unopened> {
    lock_opened(open_writable(rt, name))
}

/// Locks a file that was opened, if it was.
pub fn lock_opened(opened: io::Result<File>) -> Result<File, Unopened> {
    let file = match opened {
        Ok(file) => file,
        Err(error) => return Err(Unopened::by(error)),
    };
    match file.try_lock() {
        Ok(()) => Ok(file),
        Err(TryLockError::WouldBlock) => Err(Unopened::Locked),
        Err(TryLockError::Error(error)) => Err(Unopened::System(error)),
    }
}

/// How many bytes a leg's file has, where it has a length.
pub fn bytes_of(file: &File) -> Option<u64> {
    let mut file = file;
    file.seek(SeekFrom::End(0)).ok()
}

// How many blocks so many bytes are without so many at their end, where they are whole blocks and
// no more than an export may have.
fn blocks_of(bytes: Option<u64>, window: u64) -> Option<u64>
    ensures bound { IfSome result (λ blocks. blocks ≤ 2 ^ 31) }
    ensures own { IfSome result (λ blocks.
        IfSome bytes (λ all. 512 * blocks ≡ all - window)) }
{
    let bytes = export_bytes(bytes?, window);
    let blocks = bytes / BLOCK_BYTES;
    let is_whole = bytes % BLOCK_BYTES == 0;
    if is_whole && 0 < blocks && blocks <= MOST_BLOCKS {
        Some(blocks)
    } else {
        None
    }
}

// Why a start refuses this leg, whose file does not fit so many bytes, as that leg has, if any.
fn fault_of(
    number: usize,
    file: &SeenFile,
    why: Unfit,
    bytes: u64,
    other: Option<LegLength>,
) -> StartFault {
    match (why, other) {
        (Unfit::InUse, _) => StartFault::InUse(number),
        (Unfit::OtherLength(own, _), Some(other)) => {
            StartFault::OtherLength(number, own, other.leg, bytes)
        }
        (Unfit::OverFileLimit(limit), _) => StartFault::OverFileLimit(number, bytes, limit),
        (Unfit::NoPlaceBeside, _) => StartFault::NoPlaceBeside(number),
        _ => StartFault::BadLength(number, file.bytes),
    }
}

// How many bytes a leg has for the export: as many as the first that is here, or its own.
fn bytes_wanted(first: Option<LegLength>, own: Option<u64>) -> u64
    requires first { IfSome first (λ other. other.blocks ≤ 2 ^ 31) }
    requires own { IfSome own (λ blocks. blocks ≤ 2 ^ 31) }
{
    match (first, own) {
        (Some(other), _) => other.blocks * BLOCK_BYTES,
        (None, Some(blocks)) => blocks * BLOCK_BYTES,
        (None, None) => u64::MAX,
    }
}

// How many blocks the file of this leg has, by what was seen of it.
fn blocks_seen(
    number: usize,
    seen: &SeenFile,
    first: Option<LegLength>,
    rules: &LegRules,
) -> Result<u64, StartFault>
    requires { IfSome first (λ other. other.blocks ≤ 2 ^ 31) }
    ensures { IfOk result (λ blocks. blocks ≤ 2 ^ 31) }
{
    let own = blocks_of(seen.bytes, rules.window);
    let bytes = rules.bytes_for(bytes_wanted(first, own));
    match (seen.fits(rules, bytes), own) {
        (Ok(()), Some(blocks)) => Ok(blocks),
        (Ok(()), None) => Err(StartFault::BadLength(number, seen.bytes)),
        (Err(why), Some(_)) => Err(fault_of(number, seen, why, bytes, first)),
        (Err(why), None) => Err(fault_of(number, seen, why, bytes, None)),
    }
}

// Locks and measures the file of this leg, where the first that is here has so many blocks.
fn measure<R: Files<File = File>>(
    rt: &R,
    alloc: Global,
    number: usize,
    file: File,
    first: Option<LegLength>,
    rules: &LegRules,
) -> Result<FoundLeg, StartFault>
    requires { IfSome first (λ other. other.blocks ≤ 2 ^ 31) }
    ensures blocks { IfOk result (λ found. found.blocks ≤ 2 ^ 31) }
    ensures here { IfOk result (λ found. found.unopened ≡ None) }
{
    let is_in_use = !rules.force_in_use && is_in_use(rt, alloc, &file)?;
    let seen = SeenFile::of(&file, is_in_use);
    match blocks_seen(number, &seen, first, rules) {
        Ok(blocks) => Ok(FoundLeg {
            file: Some(file),
            blocks,
            unopened: None,
        }),
        Err(fault) => Err(fault),
    }
}

/// Opens, locks and measures the file of this leg, where the first that is here has so many blocks.
/// One that the system does not open is missing, where that is allowed.
pub fn find_leg<R: Files<File = File>>(
    rt: &R,
    alloc: Global,
    number: usize,
    name: &str,
    first: Option<LegLength>,
    rules: &LegRules,
) -> Result<FoundLeg, StartFault>
    requires { IfSome first (λ other. other.blocks ≤ 2 ^ 31) }
    ensures blocks { IfOk result (λ found. found.blocks ≤ 2 ^ 31) }
    ensures here { rules.now.may_lack ≡ false → IfOk result (λ found. found.unopened ≡ None) }
{
    match open_writable(rt, name) {
        Err(error) if rules.may_lack && error.kind() != ErrorKind::IsADirectory => Ok(FoundLeg {
            file: None,
            blocks: 0,
            unopened: Some(error),
        }),
        opened => match lock_opened(opened) {
            Ok(file) => measure(rt, alloc, number, file, first, rules),
            Err(why) => Err(StartFault::CannotOpen(number, why)),
        },
    }
}

/// The first leg that is here, once this one was found.
pub fn first_of(number: usize, first: Option<LegLength>, found: &FoundLeg) -> Option<LegLength>
    requires first { IfSome first (λ own. own.blocks ≤ 2 ^ 31) }
    requires found { found.now.blocks ≤ 2 ^ 31 }
    ensures blocks { IfSome result (λ own. own.blocks ≤ 2 ^ 31) }
    ensures some { is_some result ≡ (is_some first || not (is_some found.now.unopened)) }
{
    match first {
        None if found.unopened.is_none() => Some(LegLength {
            leg: number,
            blocks: found.blocks,
        }),
        first => first,
    }
}
