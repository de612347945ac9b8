ghost use Rattle.std.specs.Prelude.{◌≡◌, ◌+◌, ◌<◌, ◌^◌, length};
ghost use Rattle.nm_replay.specs.Heads.{entry_of, head_of, next_head};
ghost use Rattle.nm_replay.specs.Kept.{ticket_in};

use crate::block::{BLOCK_BYTES, Block};
use crate::entry::{Entry, Kind};

/// An entry but for its bytes.
#[derive(Clone, Copy, Debug)]
pub struct Head {
    seq: u64,
    kind: Kind,
    block: u64,
}

impl Head {
    /// All of an entry but for its bytes.
    pub(crate) fn of(entry: &Entry) -> Self
        ensures { result ≡ head_of entry.now }
    {
        Head {
            seq: entry.seq,
            kind: entry.kind,
            block: entry.block,
        }
    }

    /// That of an entry of this number, kind and block.
    pub(crate) fn new(seq: u64, kind: Kind, block: u64) -> Self
        ensures { result ≡ record { seq = seq; kind = kind; block = block } }
    {
        Head { seq, kind, block }
    }

    /// The head of the entry of a run's next block.
    pub(crate) fn next(&self) -> Self
        requires number { self.now.seq + 1 < 2 ^ 64 }
        requires ticket { ticket_in self.now.kind + 1 < 2 ^ 64 }
        requires block { self.now.block + 1 < 2 ^ 64 }
        ensures { result ≡ next_head self.now }
    {
        let kind = match self.kind {
            Kind::Read => Kind::Read,
            Kind::Write(ticket) => Kind::Write(ticket + 1),
            Kind::Patch(ticket, from, len) => Kind::Patch(ticket + 1, from, len),
        };
        Head {
            seq: self.seq + 1,
            kind,
            block: self.block + 1,
        }
    }

    /// The entry that this is the head of, with these bytes.
    pub(crate) fn entry(&self, bytes: &[u8]) -> Entry
        requires { length bytes.now ≡ 512 }
        ensures { result ≡ entry_of self.now bytes.now }
    {
        let mut block = Block::ZERO;
        block.0.copy_from_slice(bytes);
        Entry {
            seq: self.seq,
            kind: self.kind,
            block: self.block,
            bytes: block,
        }
    }
}
