//! Threads that are started once as a trial, so that it is told at the start where they cannot be
//! had.

use crate::needs::all_reply_bytes;
use crossbeam_channel::bounded;
use nm_reports::StartFault;
use nm_system::Limits;
use std::alloc::{AllocError, Global};
use std::sync::Wait;
use std::thread;
use std::thread::Threads;

/// How many bytes a thread of a trial asks for: the C library then sets address space aside for it.
const OWN_BYTES: usize = 4096;

/// Starts so many threads that are there at once, and ends them.
pub fn try_threads<R: Threads + Wait + Sync>(
    rt: &R,
    alloc: Global,
    count: usize,
) -> Result<(), StartFault> {
    match are_there(rt, alloc, &[], count) {
        Some(true) => Ok(()),
        _ => Err(StartFault::Memory),
    }
}

/// Refuses an address space into which so many threads do not fit at once beside the replies of all
/// sessions.
pub fn try_address_space<R: Threads + Wait + Sync>(
    rt: &R,
    alloc: Global,
    limits: &Limits,
    threads: usize,
) -> Result<(), StartFault> {
    if limits.address_space.is_none() {
        return Ok(());
    }
    let refused = Err(StartFault::SmallAddressSpace(threads));
    let Ok(replies) = Vec::<u8>::with_capacity(alloc, all_reply_bytes(limits) as usize) else {
        return refused;
    };
    match are_there(rt, alloc, replies.as_slice(), threads) {
        Some(true) => Ok(()),
        _ => refused,
    }
}

// Whether so many threads can be there at once, each with memory of its own, beside what is held.
// None where not even the channel to them can be had.
fn are_there<R: Threads + Wait + Sync>(
    rt: &R,
    alloc: Global,
    held: &[u8],
    count: usize,
) -> Option<bool> {
    let (trial, ended) = bounded::<(), _>(alloc, 1).ok()?;
    let ended = &ended;
    Some(thread::scope(thread::scope_env(), rt, |scope| {
        for _ in 0..count {
            let start = scope.spawn(move || {
                let own: Result<Vec<u8>, AllocError> = Vec::with_capacity(alloc, OWN_BYTES);
                // It ends once the sender is gone.
                let _ = ended.recv(rt);
                (own, held.len())
            });
            if start.is_err() {
                drop(trial);
                return false;
            }
        }
        drop(trial);
        true
    }))
}
