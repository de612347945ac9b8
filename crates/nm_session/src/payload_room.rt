//! The room that a WRITE's payload lies in comes back once the payload was written.
ghost use Rattle.std.specs.Prelude.{◌≡◌, [], IfSome};

use bytes::{Bytes, BytesMut};

// The room of a shorter payload is not used again: it mostly has other payloads too.
const LEAST: usize = 16 * 1024;

// One more owner of the payload's bytes, where they are long.
pub(crate) fn hold(payload: &Bytes) -> Option<Bytes>
    ensures { IfSome result (λ held. held ≡ payload.now) }
{
    if payload.len() < LEAST {
        return None;
    }
    payload.slice(..).ok()
}

// The room, emptied, if nobody else has any of it by now.
pub(crate) fn room_of(held: Option<Bytes>) -> Option<BytesMut>
    ensures { IfSome result (λ room. room.items ≡ []) }
{
    let mut room = held?.reclaim()?;
    room.clear();
    Some(room)
}
