//! Rooms of long payloads, for those to come to be read into.
ghost use Rattle.std.specs.Prelude.{◌≡◌, ◌+◌, ◌≤◌, [], IfOk, length, sum_by, vec_len};

use bytes::BytesMut;
use std::alloc::{AllocError, Global};

// A smaller room is not kept: to fill a new one with zeroes takes hardly any time.
const LEAST: usize = 16 * 1024;

// How many rooms are kept at most.
const MANY: usize = 16;

// How many bytes they have in all at most: those of 16 rooms for 256 KiB of a payload and a header.
const MOST: usize = 16 * (256 * 1024 + 28);

// Rooms whose payloads were written: at most 16, with 4 MiB and 448 bytes in all. Each was filled
// with zeroes once, when it was made.
#[derive(Drop)]
pub struct RoomPool {
    spare: Vec<BytesMut>,
    // How many bytes they have.
    bytes: usize,
    ghost few: { vec_len spare ≤ 16 },
    ghost all: { bytes ≡ sum_by (λ room. length room.items + room.spare) spare.items },
    ghost most: { bytes ≤ 4194752 },
}

impl RoomPool {
    // No room.
    pub(crate) fn new(alloc: Global) -> RoomPool {
        RoomPool {
            spare: Vec::new(alloc),
            bytes: 0,
        }
    }

    // An empty room for so many bytes: one that was kept, or a new one where none is kept or that
    // one is too small.
    pub(crate) fn take(&mut self, alloc: Global, size: usize) -> Result<BytesMut, AllocError>
        ensures empty { IfOk result (λ room. room.items ≡ []) }
        ensures room { IfOk result (λ room. size ≤ room.spare) }
    {
        match self.pop() {
            Some(room) if size <= room.capacity() => cut_to(room, size),
            _ => BytesMut::with_capacity(alloc, size),
        }
    }

    // The room that was kept last.
    #[tactic(auto, using(crate::proofs::Rooms::sum_of_both))]
    fn pop(&mut self) -> Option<BytesMut> {
        let room = self.spare.pop()?;
        self.bytes -= room.capacity();
        Some(room)
    }

    // Keeps a room, if there is place for it.
    #[tactic(auto, using(crate::proofs::Rooms::sum_of_both))]
    pub(crate) fn keep(&mut self, room: BytesMut) {
        let size = room.capacity();
        if size < LEAST || MOST - self.bytes < size || self.spare.len() >= MANY {
            return;
        }
        if self.spare.push(room).is_ok() {
            self.bytes += size;
        }
    }
}

// The room, emptied, for so many bytes and no more: what follows a payload is to have another one.
fn cut_to(room: BytesMut, size: usize) -> Result<BytesMut, AllocError>
    requires { size ≤ length room.items + room.spare }
    ensures empty { IfOk result (λ room. room.items ≡ []) }
    ensures room { IfOk result (λ room. size ≤ room.spare) }
{
    let mut room = room;
    room.clear();
    if size < room.capacity() {
        let _behind = room.split_off(size)?;
    }
    Ok(room)
}
