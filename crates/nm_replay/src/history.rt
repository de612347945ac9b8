ghost use Rattle.std.specs.Prelude.{◌≡◌, ◌≤◌, ◌↔◌, length, replicate};
ghost use Rattle.std.specs.Prelude.{IsTrue, IsOk, IfOk, option_copied};
ghost use Rattle.nm_replay.specs.Following.{IsLastFor, IsNext, MayFollow, bytes_at};
ghost use Rattle.nm_replay.specs.History.{Agrees, Consistent, last_on};

use crate::block::Block;
use crate::entry::{Entry, Kind};
use crate::replacing::may_replace;
use std::alloc::{AllocError, Global};

/// The bytes of the last entry on a block, if there is one: the search stops there.
fn latest(entries: &[Entry], block: u64) -> Option<&Block>
    ensures { option_copied result ≡ last_on block entries.now }
{
    let mut end = entries.len();
    while end > 0 {
        end -= 1;
        let entry = &entries[end];
        if entry.block == block {
            return Some(&entry.bytes);
        }
    }
    None
}

/// The bytes of the entry at this place, counted from 1. No entry has place 0.
fn bytes_at(entries: &[Entry], place: usize) -> Option<&Block>
    requires { place ≤ length entries.now }
    ensures { option_copied result ≡ bytes_at place entries.now }
{
    if place == 0 {
        return None;
    }
    Some(&entries[place - 1].bytes)
}

/// Where an entry is no write of a whole block, the bytes of the last of the entries before it on
/// its block.
fn latest_for<'a>(before: &'a [Entry], entry: &Entry) -> Option<&'a Block>
    ensures { IsLastFor before.now entry.now (option_copied result) }
{
    match entry.kind {
        Kind::Read | Kind::Patch(..) => latest(before, entry.block),
        Kind::Write(_) => None,
    }
}

/// Whether an entry's bytes may stand where `last` stood, if that is there.
fn agrees(before: &[Entry], entry: &Entry, last: Option<&Block>) -> bool
    requires { IsLastFor before.now entry.now (option_copied last) }
    ensures { IsTrue result ↔ Agrees before.now entry.now }
{
    match last {
        Some(last) => may_replace(entry.kind, last, &entry.bytes),
        None => true,
    }
}

/// Whether an entry's number is one more than that of the last before it.
fn is_next(before: &[Entry], entry: &Entry) -> bool
    ensures { IsTrue result ↔ IsNext before.now entry.now }
{
    match before.last() {
        Some(last) => last.seq < entry.seq && entry.seq - last.seq == 1,
        None => true,
    }
}

/// Whether an entry may follow those before it. If it is no write of a whole block, `last` has the
/// bytes of the last of them on its block.
fn may_follow(before: &[Entry], entry: &Entry, last: Option<&Block>) -> bool
    requires { IsLastFor before.now entry.now (option_copied last) }
    ensures { IsTrue result ↔ MayFollow before.now entry.now }
{
    is_next(before, entry) && agrees(before, entry, last)
}

/// Whether the entries are consistent: their numbers rise by one, and each read has the bytes of
/// the entry before it on its block, where there is one, and each write of a part has them outside
/// the part. Then, and only then, some array makes them legal (`laws::consistent_is_explained`).
///
/// It takes no memory. For each read and each write of a part it looks back to that entry, or to
/// the front, so its time may grow with the square of the number of entries. `check_indexed` says
/// the same and does not.
pub fn check(entries: &[Entry]) -> bool
    ensures { IsTrue result ↔ Consistent entries.now }
{
    for (index, entry) in entries.iter().enumerate() {
        let before = &entries[..index];
        if !may_follow(before, entry, latest_for(before, entry)) {
            return false;
        }
    }
    true
}

/// So many places of no entry.
fn no_places(alloc: Global, blocks: usize) -> Result<Vec<usize>, AllocError>
    ensures ok { IfOk result (λ places. places.items ≡ replicate blocks 0) }
    ensures memory_only_at_growth { blocks ≡ 0 → IsOk result }
{
    let mut places = Vec::with_capacity(alloc, blocks)?;
    places.resize(blocks, 0)?;
    Ok(places)
}

/// Whether the entries are consistent, as `check` says, in time that grows with their number.
///
/// It takes memory for `blocks` places, and notes in them where the last entry on each block below
/// `blocks` stands. At the first entry on another block it leaves the rest to `check`.
pub fn check_indexed(alloc: Global, entries: &[Entry], blocks: usize) -> Result<bool, AllocError>
    ensures ok { IfOk result (λ consistent. IsTrue consistent ↔ Consistent entries.now) }
    ensures memory_only_at_growth { blocks ≡ 0 → IsOk result }
{
    let mut places = no_places(alloc, blocks)?;
    for (index, entry) in entries.iter().enumerate() {
        let block = entry.block as usize;
        if block >= places.len() {
            return Ok(check(entries));
        }
        let last = bytes_at(entries, places[block]);
        if !may_follow(&entries[..index], entry, last) {
            return Ok(false);
        }
        places[block] = index + 1;
    }
    Ok(true)
}
