ghost use Rattle.std.specs.Prelude.{◌≡◌};
ghost use Rattle.nm_leg.specs.HandedOut.{blocks_asked, room_asked};

use bytes::Bytes;
use nm_replay::BLOCK_BYTES;

/// What a stripe asks a leg for.
#[derive(Drop)]
pub enum Asks {
    /// To read so many blocks.
    Read(u16),
    /// To write these bytes, 512 for each block, shared with the write's record.
    Write(Bytes),
    /// To write so many blocks of zeroes.
    Zero(u16),
    /// To write one block, whose bytes are in the room of whoever makes the call.
    Merged,
    /// To make durable what was written.
    Sync,
}

impl Asks {
    /// How many blocks the call is for.
    pub fn blocks(&self) -> u64
        ensures { result ≡ blocks_asked self.now }
    {
        match self {
            Asks::Read(count) | Asks::Zero(count) => u64::from(*count),
            Asks::Write(bytes) => (bytes.len() / BLOCK_BYTES) as u64,
            Asks::Merged => 1,
            Asks::Sync => 0,
        }
    }

    /// How many bytes of its maker's room the call takes: for what it reads, or of what it writes.
    pub fn room(&self) -> usize
        ensures { result ≡ room_asked self.now }
    {
        match self {
            Asks::Read(count) => *count as usize * BLOCK_BYTES,
            Asks::Merged => BLOCK_BYTES,
            Asks::Write(_) | Asks::Zero(_) | Asks::Sync => 0,
        }
    }
}
