//! The regions that could not be read, so that they were not copied.
ghost use Rattle.std.specs.Prelude.{◌≡◌, ◌↔◌, ◌<◌, IsSome, IfSome};
ghost use Rattle.nm_geometry.specs.Geometry.{stripe_blocks};
ghost use Rattle.nm_reports.specs.Unread.{blocks_before, region_bytes};

use nm_geometry::{ByteRange, Shape};
use nm_mirror::{CopyRound, UnreadRegion};
use std::alloc::{AllocError, Global};
use std::sync::{Mutex, Wait};

/// How many bytes a block has.
const BLOCK_BYTES: u64 = nm_replay::BLOCK_BYTES as u64;

/// How many regions are listed at most. All are counted.
const MOST_LISTED: usize = 64;

/// The export's bytes of a region of a stripe, where the stripe has such a region.
pub fn region_bytes(shape: &Shape, stripe: u32, region: u64) -> Option<ByteRange>
    requires stripe { stripe < shape.now.stripes }
    ensures some { IsSome result
        ↔ blocks_before region shape.now < stripe_blocks stripe shape.now }
    ensures bytes { IfSome result (λ bytes. bytes ≡ region_bytes stripe region shape.now) }
{
    let blocks = shape.stripe_blocks(stripe);
    let before = region.checked_mul(shape.region)?;
    if before >= blocks {
        return None;
    }
    let count = shape.region.min(blocks - before);
    Some(ByteRange {
        offset: BLOCK_BYTES * shape.export_block(stripe, before),
        length: BLOCK_BYTES * count,
    })
}

// Regions that could not be read, and how many there are in all.
#[derive(Drop)]
struct Unread {
    regions: Vec<UnreadRegion>,
    count: u64,
}

/// The regions that could not be read, for whoever asks while they are being copied.
#[derive(Drop)]
pub struct UnreadList {
    known: Mutex<Unread>,
}

impl UnreadList {
    /// None so far. It takes no more memory.
    pub fn new(alloc: Global) -> Result<UnreadList, AllocError> {
        let mut regions = Vec::new(alloc);
        regions.reserve(MOST_LISTED)?;
        Ok(UnreadList {
            known: Mutex::new(Unread { regions, count: 0 }),
        })
    }

    /// Takes what the copies know by now, in place of what they knew before.
    pub fn set<R: Wait>(&self, rt: &R, round: &CopyRound) {
        let mut known = self.known.lock(rt);
        known.regions.clear();
        for region in round.unread().iter().take(MOST_LISTED) {
            if known.regions.push(*region).is_err() {
                break;
            }
        }
        known.count = round.unread_count();
    }

    /// How many there are.
    pub fn count<R: Wait>(&self, rt: &R) -> u64 {
        self.known.lock(rt).count
    }

    /// Puts a line for each region that is listed, and one that says how many there are.
    pub fn put<R: Wait>(&self, rt: &R, shape: &Shape, text: &mut String) -> Result<(), AllocError> {
        let known = self.known.lock(rt);
        for one in &known.regions {
            put_region(shape, *one, text)?;
        }
        writeln!(text, "end {}", known.count)
    }
}

// Puts the line of one region, with its bytes in the export.
fn put_region(shape: &Shape, one: UnreadRegion, text: &mut String) -> Result<(), AllocError> {
    let (stripe, region) = (one.stripe, one.region);
    if stripe >= shape.stripes {
        return Ok(());
    }
    match region_bytes(shape, stripe, region) {
        Some(ByteRange { offset, length }) => {
            writeln!(text, "unread {stripe} {region} {offset} {length}")
        }
        None => Ok(()),
    }
}
