//! A superblock's payload, field by field.
ghost use Rattle.std.specs.Prelude.{◌≡◌, ◌++◌, length, take, if◌then◌else◌};
ghost use Rattle.sha2.specs.Sha256.{sha256};
ghost use Rattle.nm_superblock.specs.Bounds.{Fits};
ghost use Rattle.nm_superblock.specs.Layout.{payload_bytes};

use crate::bytes::{
    get_table, get_u32, get_u64, put_bytes, put_table, put_u32, put_u64, put_u128, put_zeroes,
};
use crate::leg_identities::LegIdentities;
use crate::leg_sets::LegSets;
use crate::span_map::SpanMap;
use crate::superblock::Superblock;
use byteorder::{BigEndian, ByteOrder};
use sha2::{Digest, Sha256};

impl Superblock {
    ghost use Rattle.nm_superblock.specs.Layout.{head_bytes, tail_bytes, zeroes};

    // Writes the payload.
    pub(crate) fn put(&self, payload: &mut [u8; 3968])
        ensures { payload.new ≡ payload_bytes self.now }
    {
        self.put_fields(payload);
        let digest = digest(payload);
        put_bytes(payload, 424, &digest);
    }

    // Writes the payload with zeroes in place of its digest.
    fn put_fields(&self, payload: &mut [u8; 3968])
        ensures written { payload.new ≡ head_bytes self.now ++ zeroes 8 ++ tail_bytes self.now }
        ensures sets { length self.now.sets.bytes ≡ 256 }
    {
        let flags = flags(self.clean);
        put_u128(payload, 0, self.mirror);
        put_u64(payload, 16, self.blocks);
        put_u32(payload, 24, self.region_blocks);
        put_u32(payload, 28, self.span_regions);
        put_bytes(
            payload,
            32,
            &[self.stripes, self.legs, self.leg, flags, 0, 0, 0, 0],
        );
        put_table(payload, 40, &self.leg_ids);
        put_table(payload, 104, &self.seen);
        put_bytes(payload, 168, &self.sets.bytes);
        put_zeroes(payload, 424, 8);
        put_table(payload, 432, &self.lineages);
        put_table(payload, 464, &self.forks);
        put_bytes(payload, 496, &self.marked.bytes);
        put_table(payload, 2544, &self.identities.words);
        put_table(payload, 2800, &self.changed);
        put_zeroes(payload, 2864, 1104);
    }
}

// What a payload says, field by field, whatever it is: a superblock's payload says that superblock.
pub(crate) fn read_payload(version: u8, generation: u64, payload: &[u8; 3968]) -> Superblock
    ensures fits { Fits result }
    ensures generation { result.generation ≡ generation }
    ensures reads_back { (s : Superblock) → Fits s → s.version ≡ version
        → s.generation ≡ generation → payload.now ≡ payload_bytes s → result ≡ s }
{
    let mut leg_ids = [0; 8];
    get_table(payload, 40, &mut leg_ids);
    let mut seen = [0; 8];
    get_table(payload, 104, &mut seen);
    let mut sets = [0; 256];
    sets.copy_from_slice(&payload[168..424]);
    let mut lineages = [0; 4];
    get_table(payload, 432, &mut lineages);
    let mut forks = [0; 4];
    get_table(payload, 464, &mut forks);
    let mut marked = [0; 2048];
    marked.copy_from_slice(&payload[496..2544]);
    let mut words = [0; 32];
    get_table(payload, 2544, &mut words);
    let mut changed = [0; 8];
    get_table(payload, 2800, &mut changed);
    Superblock {
        version,
        generation,
        mirror: BigEndian::read_u128(payload),
        blocks: get_u64(payload, 16),
        region_blocks: get_u32(payload, 24),
        span_regions: get_u32(payload, 28),
        stripes: payload[32],
        legs: payload[33],
        leg: payload[34],
        clean: payload[35] == 1,
        leg_ids,
        seen,
        sets: LegSets { bytes: sets },
        lineages,
        forks,
        marked: SpanMap { bytes: marked },
        identities: LegIdentities { words },
        changed,
    }
}

// The flags, of which there is one.
fn flags(clean: bool) -> u8
    ensures { result ≡ (if clean then 1 else 0) }
{
    if clean { 1 } else { 0 }
}

// The first 8 bytes of the payload's SHA-256.
fn digest(payload: &[u8; 3968]) -> [u8; 8]
    ensures { result ≡ take 8 (sha256 payload.now) }
{
    let whole = Sha256::digest(payload.as_slice());
    let mut first = [0; 8];
    first.copy_from_slice(&whole[..8]);
    first
}
