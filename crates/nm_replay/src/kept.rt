ghost use Rattle.std.specs.Prelude.{◌≡◌, ◌+◌, ◌*◌, ◌/◌, ◌^◌, ◌<◌, ◌≤◌, [], ◌∷◌, ◌++◌};
ghost use Rattle.std.specs.Prelude.{length, min, IsOk, IfOk};
ghost use Rattle.circular_buffer.specs.Buffer.{keep_last};
ghost use Rattle.nm_replay.specs.Heads.{heads_from, joined};
ghost use Rattle.nm_replay.specs.Kept.{kept_with, run_from, ticket_in};

use crate::block::BLOCK_BYTES;
use crate::entry::{Entry, Kind};
use crate::head::Head;
use crate::memory::Memory;
use circular_buffer::HeapCircularBuffer;
use std::alloc::{AllocError, Global};
use std::marker::Model;

/// The last entries of the history of an array, as many as were asked for, and the count of all.
///
/// `new` takes all its memory, so a `push` takes none.
#[derive(Debug, Drop)]
pub struct Kept {
    heads: HeapCircularBuffer<Head>,
    /// The bytes of the entries, 512 for each: so those of a new one are copied once, in one run.
    bytes: HeapCircularBuffer<u8>,
    total: u64,
}

impl Model for Kept {
    ghost use Rattle.std.specs.Prelude.{◌≡◌, ◌*◌, length, min};
    ghost use Rattle.nm_replay.specs.Heads.{joined};
    ghost use Rattle.nm_replay.specs.Kept.{KeptHistory};

    ghost Value = { KeptHistory };

    ghost view = { λ k. record {
      last = record { entries = joined k.heads.items k.bytes.items; most = k.heads.capacity };
      total = k.total;
    } };

    ghost invariant = { λ k. (k.bytes.capacity ≡ 512 * k.heads.capacity)
        × (length k.heads.items ≡ min k.heads.capacity k.total)
        × (length k.bytes.items ≡ 512 * length k.heads.items) };
}

/// The entries of these heads, the bytes of each in front of those of the next.
fn joined(alloc: Global, heads: &[Head], bytes: &[u8]) -> Result<Vec<Entry>, AllocError>
    requires { length bytes.now ≡ 512 * length heads.now }
    ensures { IfOk result (λ entries. entries.items ≡ joined heads.now bytes.now) }
{
    let mut entries = Vec::with_capacity(alloc, heads.len())?;
    for (place, head) in heads.iter().enumerate() {
        let first = place * BLOCK_BYTES;
        entries.push(head.entry(&bytes[first..first + BLOCK_BYTES]))?;
    }
    Ok(entries)
}

/// Adds the heads of a run of so many blocks, of which this is the first.
fn add_heads(heads: &mut HeapCircularBuffer<Head>, first: Head, count: usize)
    requires few { length heads.old.items ≤ heads.old.capacity }
    requires numbers { first.seq + count < 2 ^ 64 }
    requires tickets { ticket_in first.kind + count < 2 ^ 64 }
    requires blocks { first.block + count < 2 ^ 64 }
    ensures items { heads.new.items
        ≡ keep_last heads.old.capacity (heads.old.items ++ heads_from count first) }
    ensures capacity { heads.new.capacity ≡ heads.old.capacity }
{
    let mut next = first;
    for _ in 0..count {
        heads.push_back(next);
        next = next.next();
    }
}

impl Kept {
    /// The empty history, with memory for as many entries as it will ever keep.
    pub fn new(alloc: Global, most: u16) -> Result<Self, Memory>
        ensures last { IfOk result (λ kept. kept.last ≡ record { entries = []; most = most }) }
        ensures total { IfOk result (λ kept. kept.total ≡ 0) }
    {
        let most = usize::from(most);
        Ok(Kept {
            heads: HeapCircularBuffer::with_capacity(alloc, most)?,
            bytes: HeapCircularBuffer::with_capacity(alloc, most * BLOCK_BYTES)?,
            total: 0,
        })
    }

    /// Adds an entry at the end. Where as many are kept as may be, the oldest is dropped.
    #[inline(always)]
    pub fn push(&mut self, entry: &Entry)
        requires { self.old.total < 2 ^ 63 }
        ensures last { self.new.last ≡ kept_with (entry.now ∷ []) self.old.last }
        ensures total { self.new.total ≡ self.old.total + 1 }
    {
        self.heads.push_back(Head::of(entry));
        self.bytes.extend_from_slice(&entry.bytes.0);
        self.total += 1;
    }

    /// Adds the entries of a run at the end, one for each block of the bytes: the numbers, kinds
    /// and blocks are those from these on. Of the bytes those that are kept are copied, once.
    pub fn push_run(&mut self, number: u64, kind: Kind, block: u64, bytes: &[u8])
        requires whole { length bytes.now ≡ 512 * (length bytes.now / 512) }
        requires total { self.old.total + length bytes.now / 512 ≤ 2 ^ 63 }
        requires numbers { number + length bytes.now / 512 < 2 ^ 64 }
        requires tickets { ticket_in kind + length bytes.now / 512 < 2 ^ 64 }
        requires blocks { block + length bytes.now / 512 < 2 ^ 64 }
        ensures last { self.new.last ≡ kept_with
            (run_from (length bytes.now / 512) number kind block bytes.now) self.old.last }
        ensures total { self.new.total ≡ self.old.total + length bytes.now / 512 }
    {
        let count = bytes.len() / BLOCK_BYTES;
        add_heads(&mut self.heads, Head::new(number, kind, block), count);
        self.bytes.extend_from_slice(bytes);
        self.total += count as u64;
    }

    /// How many entries were pushed in all.
    pub fn total(&self) -> u64
        ensures value { result ≡ self.now.total }
        ensures kept { length self.now.last.entries ≡ min self.now.last.most self.now.total }
    {
        self.total
    }

    /// A copy of the kept entries, in the order of their pushes.
    #[tactic(auto, using(crate::proofs::Heads::no_heads))]
    pub fn entries(&self, alloc: Global) -> Result<Vec<Entry>, Memory>
        ensures ok { IfOk result (λ copy. copy.items ≡ self.now.last.entries) }
        ensures memory_only_at_growth { self.now.last.entries ≡ [] → IsOk result }
    {
        if self.heads.is_empty() {
            return Ok(Vec::new(alloc));
        }
        let heads = self.heads.to_vec(alloc)?;
        let bytes = self.bytes.to_vec(alloc)?;
        Ok(joined(alloc, &heads, &bytes)?)
    }
}
