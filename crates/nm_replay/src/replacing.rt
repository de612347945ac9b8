ghost use Rattle.std.specs.Prelude.{◌↔◌, IsTrue};
ghost use Rattle.nm_replay.specs.Array.{SameOutside};
ghost use Rattle.nm_replay.specs.History.{MayReplace};

use crate::block::{BLOCK_BYTES, Block};
use crate::entry::Kind;

/// Whether two blocks are the same but for so many bytes from this place on.
fn is_same_outside(from: u16, len: u16, old: &Block, new: &Block) -> bool
    ensures same { IsTrue result ↔ SameOutside from len old.now new.now }
{
    let from = (from as usize).min(BLOCK_BYTES);
    let end = (from + len as usize).min(BLOCK_BYTES);
    old.0[..from] == new.0[..from] && old.0[end..] == new.0[end..]
}

/// Whether the bytes of an entry of this kind may stand where these stood on its block.
pub(crate) fn may_replace(kind: Kind, old: &Block, new: &Block) -> bool
    ensures fits { IsTrue result ↔ MayReplace kind old.now new.now }
{
    match kind {
        Kind::Read => *new == *old,
        Kind::Write(_) => true,
        Kind::Patch(_, from, len) => is_same_outside(from, len, old, new),
    }
}
