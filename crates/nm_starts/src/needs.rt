//! What the server needs of the system, so that it is told at the start where it is too little.
ghost use Rattle.std.specs.Prelude.{◌≡◌, ◌+◌, ◌*◌};
ghost use Rattle.nm_starts.specs.Replies.{all_reply_bytes, reply_bytes};

use nm_leg_files::LegRules;
use nm_reports::StartFault;
use nm_system::{Limits, is_below};

/// How many KiB the stack of a thread has at least: twice what the deepest one needs.
const LEAST_STACK_KIB: u64 = 1024;

/// How many files are open beside those of legs and sessions: the standard streams, two sockets
/// that listen, and connections of the control port and of clients that are turned away.
const OTHER_FILES: u64 = 16;

// How many files are open at most: each leg's own, its superblock's, and one for each thread that
// makes its calls.
fn files_needed(legs: u8, threads: u8, sessions: u8) -> u64
    ensures { result ≡ legs * (2 + threads) + sessions + 16 }
{
    u64::from(legs) * (2 + u64::from(threads)) + u64::from(sessions) + OTHER_FILES
}

/// How many bytes the replies of all sessions carry at most.
const MOST_REPLY_BYTES: u64 = 4 << 30;

/// How many bytes the replies of all sessions may carry: 4 GiB, or half of the address space where
/// that is less.
pub fn all_reply_bytes(limits: &Limits) -> u64
    ensures { result ≡ all_reply_bytes limits.now.address_space }
{
    match limits.address_space {
        Some(most) => (most / 2).min(MOST_REPLY_BYTES),
        None => MOST_REPLY_BYTES,
    }
}

/// How many bytes the replies to what is outstanding in each of so many sessions may carry: its
/// part of those of all.
pub fn reply_bytes_of(limits: &Limits, sessions: u8) -> u64
    ensures { result ≡ reply_bytes limits.now.address_space sessions }
{
    all_reply_bytes(limits) / u64::from(sessions.max(1))
}

/// Refuses limits under which a thread would run out of its stack.
pub fn check_stack(limits: &Limits) -> Result<(), StartFault> {
    if is_below(limits.stack_bytes, LEAST_STACK_KIB << 10) {
        return Err(StartFault::SmallStack(LEAST_STACK_KIB));
    }
    Ok(())
}

/// Refuses limits under which so many sessions over so many legs would run out of descriptors. The
/// thread of a leg that makes its calls needs one.
pub fn check_files(
    limits: &Limits,
    legs: u8,
    rules: &LegRules,
    sessions: u8,
) -> Result<(), StartFault> {
    let threads = if rules.leg_timeout.is_some() {
        rules.threads
    } else {
        0
    };
    let needed = files_needed(legs, threads, sessions);
    if is_below(limits.open_files, needed) {
        return Err(StartFault::FewDescriptors(needed));
    }
    Ok(())
}
