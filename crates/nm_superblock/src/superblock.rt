ghost use Rattle.std.specs.Prelude.{◌≡◌, ◌↔◌, IsTrue, IfSome};
ghost use Rattle.nm_superblock.specs.Layout.{slot_bytes};
ghost use Rattle.nm_superblock.specs.Bounds.{HasVersion, IsInBounds, IsSuperblock};

use crate::leg_identities::LegIdentities;
use crate::leg_sets::LegSets;
use crate::payload::read_payload;
use crate::sectors::{read_pieces, read_stamp, read_version, write_sectors};
use crate::span_map::SpanMap;

/// What is kept beside each leg of a mirror: the mirror's shape, and for each stripe which legs are
/// current.
#[derive(Clone, Copy, Debug, PartialEq, Eq)]
pub struct Superblock {
    /// The version of its format: 1, which tells of no identities, 2, or 3, whose headers check
    /// themselves.
    pub version: u8,
    /// Its number: each save has a greater one than any before it.
    pub generation: u64,
    /// The mirror's id, random, from its first superblock on.
    pub mirror: u128,
    /// The blocks of the mirror, 1 to 2^31.
    pub blocks: u64,
    /// The blocks of a region.
    pub region_blocks: u32,
    /// The regions of a span.
    pub span_regions: u32,
    /// The stripes, 1 to 64.
    pub stripes: u8,
    /// The legs, 1 to 8.
    pub legs: u8,
    /// The leg beside which it is kept.
    pub leg: u8,
    /// The server was ended in good order: no span is marked, and no leg is out.
    pub clean: bool,
    /// For each leg its id, random, from the leg's first superblock on; 0 where there is no leg.
    pub leg_ids: [u64; 8],
    /// For each leg the last generation that was surely written beside it.
    pub seen: [u64; 8],
    /// For each stripe which legs are in sync, about to be, or lack no more than marked spans.
    pub sets: LegSets,
    /// The lineage's id, and those of its ancestors, the youngest first; 0 for none.
    pub lineages: [u64; 4],
    /// For each of these lineages the generation that it went on from: the greatest one of its
    /// parent that was found when it began.
    pub forks: [u64; 4],
    /// The spans in which legs may differ.
    pub marked: SpanMap,
    /// For each leg the identity of its file or device.
    pub identities: LegIdentities,
    /// For each leg the time of its last change, in nanoseconds; 0 where it is unknown.
    pub changed: [u64; 8],
}

impl Superblock {
    /// Whether each number is within its bounds.
    pub fn is_in_bounds(&self) -> bool
        ensures { IsTrue result ↔ IsInBounds self.now }
    {
        let shape = self.blocks >= 1 && self.blocks <= 1 << 31;
        let spans = self.region_blocks >= 1 && self.span_regions >= 1;
        let stripes = self.stripes >= 1 && self.stripes <= 64;
        let legs = self.legs >= 1 && self.legs <= 8 && self.leg < self.legs;
        self.generation >= 1 && self.has_version() && shape && spans && stripes && legs
    }

    // Whether it is of a version, and tells no more than that has.
    fn has_version(&self) -> bool
        ensures { IsTrue result ↔ HasVersion self.now }
    {
        match self.version {
            1 => self.identities.words == [0; 32] && self.changed == [0; 8],
            version => version == 2 || version == 3,
        }
    }

    /// Writes the superblock's bytes, each sector with the generation as its stamp.
    pub fn encode(&self, slot: &mut [u8; 4096])
        requires { IsInBounds self.now }
        ensures { slot.new ≡ slot_bytes self.now }
    {
        let mut payload = [0; 3968];
        self.put(&mut payload);
        write_sectors(self.version, self.generation, &payload, slot);
    }

    /// The superblock that a slot holds: none, unless the slot has exactly the bytes of one.
    pub fn decode(slot: &[u8; 4096]) -> Option<Superblock>
        ensures some { IfSome result (λ s. IsSuperblock s × (slot.now ≡ slot_bytes s)) }
        ensures reads_back { (s : Superblock) → IsSuperblock s → slot.now ≡ slot_bytes s
            → result ≡ Some s }
    {
        let stamp = read_stamp(slot, 0);
        let superblock = read_payload(read_version(slot), stamp, &read_pieces(slot));
        if !superblock.is_in_bounds() {
            return None;
        }
        let mut again = [0; 4096];
        superblock.encode(&mut again);
        if !is_same(&again, slot) {
            return None;
        }
        Some(superblock)
    }
}

// Whether two slots have the same bytes.
fn is_same(first: &[u8; 4096], second: &[u8; 4096]) -> bool
    ensures { IsTrue result ↔ (first.now ≡ second.now) }
{
    first.as_slice() == second.as_slice()
}
