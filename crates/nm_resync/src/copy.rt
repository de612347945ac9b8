#![tactic(auto, using(crate::proofs::BytesLemmas::cut_long, crate::proofs::BytesLemmas::is_buffer))]

ghost use Rattle.std.specs.Prelude.{◌≡◌, ◌+◌, ◌*◌, ◌<◌, ◌≤◌, None, length, take, drop, IfOk};
ghost use Rattle.std.specs.Borrow.{sem};
ghost use Rattle.nm_leg.specs.Leg.{cut_into};
ghost use Rattle.nm_resync.specs.Chunk.{IsChunkSize, IsCopyBuffer, empty, length_of, blocks_of};
ghost use Rattle.nm_resync.specs.Chunk.{written_of, buffered_of};
ghost use Rattle.nm_resync.specs.Moves.{next_move, IsRead, IsWrite, Reads, opened, filled};
ghost use Rattle.nm_resync.specs.Moves.{blocks_written, closed_by_write, dropped};
ghost use Rattle.nm_resync.specs.Work.{chunk_length};

use crate::copy_move::Move;
use crate::open_chunk::OpenChunk;
use nm_replay::{BLOCK_BYTES, Memory};
use std::alloc::Global;
use std::marker::Model;

/// How many blocks a chunk has at most.
pub const MOST_CHUNK: u64 = 65_536;

/// The buffer of a copy's open chunk.
///
/// A chunk is some blocks of a region, one after the other. All of them are read from the master
/// before the first is written to the leg, and the chunk closes with its last block.
#[derive(Drop)]
pub struct Copy {
    /// How many blocks a chunk has at most.
    most: u64,
    /// Places for so many blocks: one that is read stays there until the chunk closes.
    bytes: Vec<u8>,
    chunk: Option<OpenChunk>,
}

impl Model for Copy {
    ghost use Rattle.nm_resync.specs.Chunk.{CopyBuffer};
    ghost use Rattle.nm_resync.specs.Inside.{buffer_of, IsInside};

    ghost Value = { CopyBuffer };

    ghost view = { λ c. buffer_of c.most c.bytes.items c.chunk };

    ghost invariant = { λ c. IsInside c.most c.bytes.items c.chunk };
}

impl Copy {
    ghost use Rattle.nm_resync.specs.Lending.{LendsSlots};

    /// A buffer for chunks of at most so many blocks. No later call takes memory.
    pub fn new(alloc: Global, most: u64) -> Result<Copy, Memory>
        requires size { IsChunkSize most }
        ensures ok { IfOk result (λ copy. copy ≡ empty most) }
    {
        let long = BLOCK_BYTES * most as usize;
        let mut bytes = Vec::with_capacity(alloc, long)?;
        bytes.resize(long, 0)?;
        Ok(Copy {
            most,
            bytes,
            chunk: None,
        })
    }

    /// How many blocks a chunk has at most.
    pub fn most(&self) -> u64
        ensures most { result ≡ self.now.most }
        ensures buffer { IsCopyBuffer self.now }
    {
        self.most
    }

    /// How many blocks a chunk has that opens at the cursor of a region of so many blocks.
    pub fn chunk_length(&self, cursor: u64, region_length: u64) -> u64
        requires within { cursor < region_length }
        ensures length { result ≡ chunk_length self.now.most cursor region_length }
        ensures some { 0 < result }
        ensures most { result ≤ self.now.most }
    {
        self.most().min(region_length - cursor)
    }

    /// What the copy does next.
    pub fn next_move(&self) -> Move
        ensures next { result ≡ next_move self.now }
        ensures buffer { IsCopyBuffer self.now }
    {
        match self.chunk {
            None => Move::Open,
            Some(chunk) if chunk.read < chunk.blocks => Move::Read(chunk.read),
            Some(chunk) => Move::Write(chunk.written),
        }
    }

    /// How many blocks the open chunk has: none where no chunk is open.
    pub fn length(&self) -> u64
        ensures length { result ≡ length_of self.now.chunk }
        ensures buffer { IsCopyBuffer self.now }
    {
        match self.chunk {
            None => 0,
            Some(chunk) => chunk.blocks,
        }
    }

    /// How many blocks of the open chunk are read.
    fn blocks_read(&self) -> u64
        ensures read { result ≡ length (blocks_of self.now.chunk) }
        ensures buffer { IsCopyBuffer self.now }
    {
        match self.chunk {
            None => 0,
            Some(chunk) => chunk.read,
        }
    }

    /// How many blocks of the open chunk are written.
    pub fn blocks_written(&self) -> u64
        ensures written { result ≡ written_of self.now.chunk }
        ensures buffer { IsCopyBuffer self.now }
    {
        match self.chunk {
            None => 0,
            Some(chunk) => chunk.written,
        }
    }

    /// How many blocks stand in the buffer: they are read, and not written yet.
    pub fn blocks_buffered(&self) -> u64
        ensures buffered { result ≡ buffered_of self.now.chunk }
        ensures buffer { IsCopyBuffer self.now }
    {
        match self.chunk {
            None => 0,
            Some(chunk) => chunk.read - chunk.written,
        }
    }

    /// So many of the chunk's blocks, from the one of this number on, which is to be written next.
    pub fn blocks(&self, number: u64, count: u64) -> &[u8]
        requires next { next_move self.now ≡ Move.Write number }
        requires within { number + count ≤ length_of self.now.chunk }
        ensures blocks { cut_into count result.now
            ≡ take count (drop number (blocks_of self.now.chunk)) }
        ensures long { length result.now ≡ 512 * count }
    {
        let bytes = &self.bytes;
        let from = BLOCK_BYTES * number as usize;
        &bytes[from..from + BLOCK_BYTES * count as usize]
    }

    /// A chunk of so many blocks is opened. None is open yet.
    pub fn open(&mut self, blocks: u64)
        requires none_open { self.old.chunk ≡ None }
        requires some { 0 < blocks }
        requires most { blocks ≤ self.old.most }
        ensures opened { self.new ≡ opened blocks self.old }
        ensures next { next_move self.new ≡ Move.Read 0 }
        ensures buffer { IsCopyBuffer self.new }
    {
        self.chunk = Some(OpenChunk {
            blocks,
            read: 0,
            written: 0,
        });
    }

    /// Lends the places that the next blocks are read into, so many, also before their chunk is
    /// opened. What is written there counts for nothing until `fill`: so after a read that fails
    /// nothing is undone.
    pub fn read_slots(&mut self, count: u64) -> &mut [u8]
        requires reads { Reads (next_move self.old) }
        requires within { length (blocks_of self.old.chunk) + count ≤ self.old.most }
        ensures* slots { sem 𝓛 (LendsSlots self.entry result) }
        ensures was { result.now ≡ take (512 * count) self.old.rest }
        ensures long { length result.now ≡ 512 * count }
    {
        let from = BLOCK_BYTES * self.blocks_read() as usize;
        self.bytes
            .slice_mut(from..from + BLOCK_BYTES * count as usize)
    }

    /// So many of the chunk's next blocks are read: they stand in the first places. Nothing is said
    /// of the places after them.
    pub fn fill(&mut self, count: u64)
        requires reads { IsRead (next_move self.old) }
        requires within { length (blocks_of self.old.chunk) + count ≤ length_of self.old.chunk }
        ensures filled { self.new ≡ record (filled count self.old) { rest = self.new.rest } }
        ensures buffer { IsCopyBuffer self.new }
    {
        if let Some(chunk) = self.chunk {
            self.chunk = Some(OpenChunk {
                read: chunk.read + count,
                ..chunk
            });
        }
    }

    /// So many of the chunk's next blocks are written. Where its last one is among them the chunk
    /// closes, and its length is the result. Nothing is said of the places after it.
    pub fn wrote(&mut self, count: u64) -> Option<u64>
        requires writes { IsWrite (next_move self.old) }
        requires within { written_of self.old.chunk + count ≤ length_of self.old.chunk }
        ensures closed { result ≡ closed_by_write count self.old.chunk }
        ensures written { self.new ≡ record (blocks_written count self.old)
            { rest = self.new.rest } }
        ensures buffer { IsCopyBuffer self.new }
    {
        match self.chunk {
            Some(chunk) if chunk.written + count < chunk.blocks => {
                self.chunk = Some(OpenChunk {
                    written: chunk.written + count,
                    ..chunk
                });
                None
            }
            Some(chunk) => {
                self.chunk = None;
                Some(chunk.blocks)
            }
            None => None,
        }
    }

    /// Drops the open chunk, where one is open. Nothing is said of the places after it.
    pub fn drop_chunk(&mut self)
        ensures dropped { self.new ≡ record (dropped self.old) { rest = self.new.rest } }
        ensures buffer { IsCopyBuffer self.new }
    {
        self.chunk = None;
    }
}
