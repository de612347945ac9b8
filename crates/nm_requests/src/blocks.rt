//! How the blocks of memory under the received bytes grow, and when a new one begins.
//!
//! A payload is a cut of a block, and one that is kept keeps the whole block.
ghost use Rattle.std.specs.Prelude.{◌≡◌, ◌+◌, ◌^◌, ◌<◌, ◌≤◌, ◌++◌, length, take, drop};
ghost use Rattle.std.specs.Prelude.{IfOk, OnOk, OnErr};
ghost use Rattle.nm_wire.specs.Sizes.{max_payload};

use bytes::{Bytes, BytesMut};
use std::alloc::AllocError;

// After a payload longer than this a new block begins.
const LONG_PAYLOAD: usize = 64 * 1024;

// A piece as long as this may begin a block of its own.
const LONG_PIECE: usize = 16 * 1024;

// A piece becomes a block itself only where it fills at least one part in this many of its room.
const MOST_ROOM: usize = 4;

// Once one part in this many of a request has come, its block is made as long as the request.
const FIRST_PART: usize = 16;

// Every payload may share a block up to this size.
const SMALL_BLOCK: usize = 1024 * 1024;

// A larger block is shared by payloads of at least a sixteenth of it.
const LEAST_PART: usize = 16;

// Whether a new block begins after a payload of this length.
pub(crate) fn is_long_payload(payload: usize) -> bool {
    payload > LONG_PAYLOAD
}

// Whether a payload of this length mostly has a block of its own.
pub(crate) fn has_own_room(payload: usize) -> bool {
    LONG_PIECE <= payload
}

// Whether the piece is a block worth keeping: long, and with little room behind it.
pub(crate) fn is_to_become_block(piece: &BytesMut) -> bool {
    LONG_PIECE <= piece.len() && piece.capacity() / MOST_ROOM <= piece.len()
}

// Appends the piece, where so many bytes of the first request have not come. The block doubles as
// bytes come, and once, after the first part of a request, it grows to the request's end and one
// more piece. A long piece that ends its request begins a block that the two fill: room that is
// left is zeroed first, and the payload takes most of it.
pub(crate) fn append_to(
    buffer: &mut BytesMut,
    piece: &[u8],
    missing: usize,
) -> Result<(), AllocError>
    requires capped { missing ≤ 28 + max_payload }
    ensures ok { OnOk result (buffer.new.items ≡ buffer.old.items ++ piece.now) }
    ensures room { OnOk result (buffer.old.spare ≤ buffer.new.spare + length piece.now) }
    ensures full { OnErr result (buffer.old.spare < length piece.now) }
    ensures err { OnErr result (buffer.new.items ≡ buffer.old.items) }
{
    if buffer.capacity() - buffer.len() < piece.len() {
        if missing <= piece.len() && LONG_PIECE <= piece.len() && buffer.len() <= piece.len() {
            return append_anew(buffer, piece);
        }
        let part = (buffer.len() + missing) / FIRST_PART;
        let has_come = part <= buffer.len() && buffer.len() - part < piece.len();
        if has_come && piece.len() < missing {
            lengthen(buffer, missing + piece.len());
        }
    }
    buffer.extend_from_slice(piece)
}

// Appends the piece in a new block with memory for both and no more.
fn append_anew(buffer: &mut BytesMut, piece: &[u8]) -> Result<(), AllocError>
    requires { buffer.old.spare < length piece.now }
    ensures ok { OnOk result (buffer.new.items ≡ buffer.old.items ++ piece.now) }
    ensures err { OnErr result (buffer.new.items ≡ buffer.old.items) }
{
    let alloc = *buffer.allocator();
    let mut block = Vec::with_capacity(alloc, buffer.len() + piece.len())?;
    block.extend_from_slice(buffer.as_slice())?;
    block.extend_from_slice(piece)?;
    *buffer = BytesMut::from_vec(block);
    Ok(())
}

// Moves the bytes to a block with memory for this many more and no others, if that is there.
// `BytesMut::reserve` would zero all of it at once; here it is untouched until bytes come.
fn lengthen(buffer: &mut BytesMut, more: usize)
    requires { more < 2 ^ 32 }
    ensures { buffer.new.items ≡ buffer.old.items }
{
    let alloc = *buffer.allocator();
    let Ok(mut block) = Vec::with_capacity(alloc, buffer.len() + more) else {
        return;
    };
    if block.extend_from_slice(buffer.as_slice()).is_ok() {
        *buffer = BytesMut::from_vec(block);
    }
}

// Takes the bytes up to the end of a range off the buffer, and returns those of the range: a cut of
// the buffer's block, but a copy where the block is large and the range a small part of it.
pub(crate) fn cut_range(
    buffer: &mut BytesMut,
    start: usize,
    len: usize,
) -> Result<Bytes, AllocError>
    requires { start + len ≤ length buffer.old.items }
    ensures payload { IfOk result (λ payload. payload ≡ take len (drop start buffer.old.items)) }
    ensures rest { IfOk result (λ _. buffer.new.items ≡ drop (start + len) buffer.old.items) }
    ensures err { OnErr result (buffer.new ≡ buffer.old) }
{
    let capacity = buffer.capacity();
    let end = start + len;
    if capacity > SMALL_BLOCK && len < capacity / LEAST_PART {
        let alloc = *buffer.allocator();
        let range = Bytes::copy_from_slice(alloc, &buffer.as_slice()[start..end])?;
        buffer.advance(end);
        return Ok(range);
    }
    let mut range = buffer.freeze_to(end)?;
    range.advance(start);
    Ok(range)
}
