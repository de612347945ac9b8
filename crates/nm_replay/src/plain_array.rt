ghost use Rattle.std.specs.Prelude.{◌≡◌, ◌↔◌, replicate, IsTrue, IsOk, IfOk, if◌then◌else◌};
ghost use Rattle.nm_replay.specs.History.{EntryFits, after_entry};

use crate::block::Block;
use crate::entry::{Entry, Kind};
use crate::memory::Memory;
use crate::replacing::may_replace;
use std::alloc::Global;
use std::marker::Model;

/// A plain, slow array, for tests: one block after the other, and each operation as it is defined.
#[derive(Debug, Drop)]
pub struct PlainArray {
    blocks: Vec<Block>,
}

impl Model for PlainArray {
    ghost use Rattle.nm_replay.specs.Array.{Array};

    ghost Value = { Array };

    ghost view = { λ a. a.blocks.items };
}

impl PlainArray {
    /// An array of so many blocks of zero bytes.
    pub fn new(alloc: Global, blocks: usize) -> Result<Self, Memory>
        ensures ok { IfOk result (λ array. array ≡ replicate blocks Block.ZERO) }
        ensures memory_only_at_growth { blocks ≡ 0 → IsOk result }
    {
        let mut zeroes = Vec::with_capacity(alloc, blocks)?;
        zeroes.resize(blocks, Block::ZERO)?;
        Ok(PlainArray { blocks: zeroes })
    }

    /// The blocks, in order.
    pub fn as_slice(&self) -> &[Block]
        ensures { result.now ≡ self.now }
    {
        self.blocks.as_slice()
    }

    /// Does an entry's operation if the entry fits; otherwise the array stays as it is.
    pub fn apply(&mut self, entry: &Entry) -> bool
        ensures fits { IsTrue result ↔ EntryFits entry.now self.old }
        ensures array { self.new ≡ (if result then after_entry entry.now self.old else self.old) }
    {
        let Ok(block) = usize::try_from(entry.block) else {
            return false;
        };
        let Some(place) = self.blocks.get_mut(block) else {
            return false;
        };
        let fits = may_replace(entry.kind, place, &entry.bytes);
        if fits && entry.kind != Kind::Read {
            *place = entry.bytes;
        }
        fits
    }
}
