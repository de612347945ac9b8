ghost use Rattle.std.specs.Prelude.{◌≡◌, ◌↔◌, IsTrue};
ghost use Rattle.nm_fanout.specs.Data.{FitsBlocks, data_blocks, is_part};

use bytes::Bytes;
use nm_replay::BLOCK_BYTES;

/// How many blocks a run has at most.
pub const MOST_RUN: usize = 128;

/// What a write puts into its blocks, as it is handed in.
#[derive(Drop)]
pub enum Data {
    /// These bytes, 512 for each block, cut out of a receive buffer and shared with it.
    Cut(Bytes),
    /// The zero bytes of so many blocks.
    Zero(u16),
    /// These bytes, at least one, from this place of the block on. The rest of the block stays.
    Part { from: u16, bytes: Bytes },
    /// So many zero bytes, at least one, from this place of the block on. The rest of the block
    /// stays.
    ZeroPart { from: u16, len: u16 },
}

impl Data {
    /// Whether the data fit, as `Records::begin` requires: they are those of 1 to 128 whole blocks,
    /// or a part of at least one byte that ends inside its block.
    pub fn fits_run(&self) -> bool
        ensures fits { IsTrue result ↔ FitsBlocks self.now }
    {
        match self {
            Data::Cut(cut) => {
                !cut.is_empty()
                    && cut.len() % BLOCK_BYTES == 0
                    && cut.len() / BLOCK_BYTES <= MOST_RUN
            }
            Data::Zero(count) => *count > 0 && *count as usize <= MOST_RUN,
            Data::Part { from, bytes } => {
                !bytes.is_empty() && bytes.len() <= BLOCK_BYTES - (*from as usize).min(BLOCK_BYTES)
            }
            Data::ZeroPart { from, len } => {
                *len > 0 && *from as usize + *len as usize <= BLOCK_BYTES
            }
        }
    }

    /// How many blocks the data are for.
    pub fn blocks(&self) -> u64
        ensures blocks { result ≡ data_blocks self.now }
    {
        match self {
            Data::Cut(cut) => (cut.len() / BLOCK_BYTES) as u64,
            Data::Zero(count) => u64::from(*count),
            Data::Part { .. } | Data::ZeroPart { .. } => 1,
        }
    }

    /// Whether the data are for a part of a block, so that they are laid over what it holds.
    pub fn is_part(&self) -> bool
        ensures part { result ≡ is_part self.now }
    {
        matches!(self, Data::Part { .. } | Data::ZeroPart { .. })
    }
}
