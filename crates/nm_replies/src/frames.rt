ghost use Rattle.std.specs.Prelude.{◌≡◌, ◌+◌, ◌≤◌, ◌++◌, length, vec_len, vec_capacity};
ghost use Rattle.std.specs.Prelude.{IsOk, IfOk, OnOk, OnErr};
ghost use Rattle.nm_replies.specs.Answer.{frame_of, answer_with};

use crate::reply::Reply;
use nm_wire::{Memory, SimpleReply};
use std::alloc::Global;

/// The frame of a reply ("Simple reply message"), in a vector of its own.
///
/// The whole frame's room is asked for at once.
pub fn frame(alloc: Global, reply: &Reply) -> Result<Vec<u8>, Memory>
    ensures { IfOk result (λ frame. frame.items ≡ frame_of reply.now) }
{
    let mut frame = Vec::new(alloc);
    put_frame(&mut frame, reply.head(), reply.data())?;
    Ok(frame)
}

/// Appends a reply's frame: its header, and the data unless the header carries an error ("Simple
/// reply message").
///
/// The whole frame's room is asked for at once, and none where `out` has it already.
pub fn put_frame(out: &mut Vec<u8>, head: SimpleReply, bytes: &[u8]) -> Result<(), Memory>
    ensures ok { OnOk result
        (out.new.items ≡ out.old.items ++ frame_of (answer_with head bytes.now)) }
    ensures room { let size = length (frame_of (answer_with head bytes.now)) in
        vec_len out.old + size ≤ vec_capacity out.old → IsOk result }
    ensures err { OnErr result (out.new.items ≡ out.old.items) }
    ensures capacity { vec_capacity out.old ≤ vec_capacity out.new }
{
    let bytes = if head.error == 0 { bytes } else { &[] };
    let mut header = [0; SimpleReply::BYTES];
    head.put(&mut header);
    out.reserve(header.len() + bytes.len())?;
    out.extend_from_slice(&header).unwrap();
    out.extend_from_slice(bytes).unwrap();
    Ok(())
}
