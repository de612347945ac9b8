ghost use Rattle.std.specs.Prelude.{◌≡◌, ◌<◌, [], IfOk};

use crate::room_pool::RoomPool;
use bytes::BytesMut;
use nm_wire::Memory;
use std::alloc::Global;
use std::mem::replace;

// How many bytes a read has room for at first, and at most unless it is of a long request.
const MOST: usize = 128 * 1024;

// How many at least.
const LEAST: usize = 4 * 1024;

// A request of which so many bytes have not come is read to its end, and the header behind it: the
// next request's payload then begins a room of its own, and is not copied.
const LONG: usize = 16 * 1024;

// How many bytes of such a request are read at once at most: first 128 KiB, and then twice as many
// once so many came.
const MOST_LONG: usize = 1024 * 1024;

// How many bytes a header has.
const HEADER: usize = 28;

// At first, and after a long request, so many headers in a row are read alone, unless another long
// one comes: the payload of the next is then not copied. A client that begins with short requests,
// or goes over to them, pays no more reads than these.
const MOST_HEADERS: u8 = 2;

// A room, and how many bytes are to be read into it before it is a piece, unless they end.
#[derive(Drop)]
pub struct Room {
    pub(crate) bytes: BytesMut,
    pub(crate) wanted: usize,
}

// What a room is for.
#[derive(Clone, Copy, Drop)]
pub enum Use {
    // Whatever comes.
    Any,
    // So many bytes of a long request, and the header behind it.
    Long(usize),
    // A header, or the rest of one.
    Header,
}

// The room for the next piece. A new one is filled up with zeroes, 128 KiB of which take longer
// than a small request; so it follows what the client sends, and is that of the last piece while it
// has the size. The room of a long piece has the payload, and is used again once that was written.
#[derive(Drop)]
pub struct ReadBuffer {
    bytes: usize,
    // How many bytes of a long request are read at once.
    long: usize,
    // What the last room is for.
    last_use: Use,
    // How many headers are still read alone.
    headers: u8,
    // How many bytes come up to the end of the next header that has not come.
    ahead: usize,
    // The room of the last piece that was for whatever comes, or none where it had another size.
    last: BytesMut,
    // The rooms of long payloads that were written.
    pool: RoomPool,
    ghost some: { 0 < bytes },
    ghost some_long: { 0 < long },
}

impl ReadBuffer {
    // The room for the first piece.
    pub(crate) fn new(alloc: Global) -> ReadBuffer {
        ReadBuffer {
            bytes: MOST,
            long: MOST,
            last_use: Use::Any,
            headers: MOST_HEADERS,
            ahead: HEADER,
            last: BytesMut::new(alloc),
            pool: RoomPool::new(alloc),
        }
    }

    // Takes back the room of a payload, if it came back.
    pub(crate) fn give_back(&mut self, room: Option<BytesMut>) {
        if let Some(room) = room {
            self.pool.keep(room);
        }
    }

    // Takes its room, while so many of the next request have not come.
    pub(crate) fn take(&mut self, alloc: Global, missing: usize) -> Result<Room, Memory>
        ensures empty { IfOk result (λ room. room.bytes.items ≡ []) }
        ensures some { IfOk result (λ room. 0 < room.bytes.spare) }
        ensures wanted { IfOk result (λ room. 0 < room.wanted) }
    {
        if 0 < missing || self.ahead == 0 {
            self.ahead = missing.saturating_add(HEADER);
        }
        if LONG <= missing {
            return self.take_long(alloc, missing.min(self.long));
        }
        if missing == 0 && 0 < self.headers {
            return self.take_header(alloc);
        }
        self.last_use = Use::Any;
        let mut bytes = replace(&mut self.last, BytesMut::new(alloc));
        bytes.clear();
        bytes.reserve(self.bytes)?;
        Ok(Room { bytes, wanted: 1 })
    }

    // A room for so many bytes of a long request, and a header.
    fn take_long(&mut self, alloc: Global, wanted: usize) -> Result<Room, Memory>
        requires { 0 < wanted }
        ensures empty { IfOk result (λ room. room.bytes.items ≡ []) }
        ensures some { IfOk result (λ room. 0 < room.bytes.spare) }
        ensures wanted { IfOk result (λ room. 0 < room.wanted) }
    {
        self.last_use = Use::Long(wanted);
        self.headers = MOST_HEADERS;
        let bytes = self.pool.take(alloc, wanted.saturating_add(HEADER))?;
        Ok(Room { bytes, wanted })
    }

    // A room for what has not come of the next header, and for nothing behind it. A read may bring
    // less, so no more than a byte is waited for.
    fn take_header(&mut self, alloc: Global) -> Result<Room, Memory>
        requires { 0 < self.old.ahead }
        ensures empty { IfOk result (λ room. room.bytes.items ≡ []) }
        ensures some { IfOk result (λ room. 0 < room.bytes.spare) }
        ensures wanted { IfOk result (λ room. 0 < room.wanted) }
    {
        self.last_use = Use::Header;
        let mut bytes = BytesMut::with_capacity(alloc, HEADER)?;
        if self.ahead < HEADER {
            // A block of its own would have room for eight bytes at least.
            let _behind = bytes.split_off(self.ahead)?;
        }
        Ok(Room { bytes, wanted: 1 })
    }

    // What follows a piece of so many bytes: its own room, where that was for whatever comes and
    // keeps its size. What is asked for of a long request at most doubles once so many bytes have
    // come.
    pub(crate) fn follow(&mut self, alloc: Global, count: usize, room: BytesMut) {
        self.ahead = self.ahead.saturating_sub(count);
        match self.last_use {
            Use::Any => self.follow_any(alloc, count, room),
            Use::Long(asked) => {
                if asked == self.long && asked <= count && asked < MOST_LONG {
                    self.long = asked * 2;
                }
                // The room is still there where the piece was copied.
                self.pool.keep(room);
            }
            Use::Header => {
                if self.ahead == 0 {
                    self.headers = self.headers.saturating_sub(1);
                }
            }
        }
    }

    // The same, where the room was for whatever comes.
    fn follow_any(&mut self, alloc: Global, count: usize, room: BytesMut) {
        let bytes = size_after(self.bytes, count);
        self.last = if bytes == self.bytes {
            room
        } else {
            BytesMut::new(alloc)
        };
        self.bytes = bytes;
    }
}

// How large the room is after a piece of so many bytes: twice as large where they filled it, half
// as large where they took less than a quarter.
fn size_after(now: usize, count: usize) -> usize
    requires { 0 < now }
    ensures { 0 < result }
{
    if count >= now && now <= MOST / 2 {
        now * 2
    } else if count < now / 4 && now / 2 >= LEAST {
        now / 2
    } else {
        now
    }
}
