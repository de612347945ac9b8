use crate::block::Block;

/// What an entry did to its block.
#[derive(Clone, Copy, Debug, PartialEq, Eq)]
pub enum Kind {
    /// The block was read.
    Read,
    /// The block was written, by the write that holds this ticket.
    Write(u64),
    /// A part of the block was written, by the write that holds this ticket: from this place on, so
    /// many bytes.
    Patch(u64, u16, u16),
}

/// One operation on one block of an array, as a history keeps it.
#[derive(Clone, Copy, Debug, PartialEq, Eq)]
pub struct Entry {
    /// The entry's number: one more than that of the entry before it.
    pub seq: u64,
    /// Whether the block was read or written.
    pub kind: Kind,
    /// Which block of the array, counted from 0.
    pub block: u64,
    /// The bytes that a read found there, or that a write left there: those of the whole block.
    pub bytes: Block,
}
