//! The answer to `history`: what a stripe has read and written last.
ghost use Rattle.std.specs.Prelude.{◌≡◌, take};
ghost use Rattle.sha2.specs.Sha256.{sha256};

use nm_lanes::Gate;
use nm_leg::LegPart;
use nm_mirror::{LastEntries, Mirror, Naming};
use nm_replay::{Block, Entry, Kind};
use sha2::{Digest, Sha256};
use std::alloc::{AllocError, Global};
use std::sync::Wait;
use std::time::Clock;

// The first 8 bytes of the SHA-256 of a block's bytes.
fn digest(block: &Block) -> [u8; 8]
    ensures { result ≡ take 8 (sha256 block.now.0) }
{
    let whole = Sha256::digest(block.0.as_slice());
    let mut first = [0; 8];
    first.copy_from_slice(&whole[..8]);
    first
}

// Puts an entry's number, and who made it. Who wrote a part of a block wrote the block.
fn put_kind(entry: &Entry, text: &mut String) -> Result<(), AllocError> {
    let seq = entry.seq;
    match entry.kind {
        Kind::Read => write!(text, "{seq} read"),
        Kind::Write(ticket) | Kind::Patch(ticket, _, _) => write!(text, "{seq} write {ticket}"),
    }
}

// Puts the line of an entry.
fn put_entry(entry: &Entry, text: &mut String) -> Result<(), AllocError> {
    put_kind(entry, text)?;
    let block = entry.block;
    let digest = u64::from_be_bytes(digest(&entry.bytes));
    writeln!(text, " {block} {digest:016x}")
}

// Puts a stripe's last entries.
fn put_entries(stripe: u32, last: &LastEntries, text: &mut String) -> Result<(), AllocError> {
    let (entries, total) = (last.entries(), last.total());
    let kept = entries.len();
    writeln!(text, "history {stripe}: {kept} of {total}")?;
    for entry in entries {
        put_entry(entry, text)?;
    }
    text.push_str("end\n")
}

/// The answer to `history`. The stripe is held only while its entries are copied.
pub fn put_history<R: Wait + Clock, L: LegPart, G: Gate + Drop, J: Naming>(
    rt: &R,
    alloc: Global,
    mirror: &Mirror<L, G, J>,
    stripe: u32,
    text: &mut String,
) -> Result<(), AllocError> {
    if stripe >= mirror.shape().stripes {
        return text.push_str("bad command\n");
    }
    match mirror.last_entries(rt, alloc, stripe) {
        Ok(Some(last)) => put_entries(stripe, &last, text),
        Ok(None) => writeln!(text, "history {stripe}: busy"),
        Err(_) => Err(AllocError),
    }
}
