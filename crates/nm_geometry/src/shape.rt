ghost use Rattle.std.specs.Prelude.{◌≡◌, ◌<◌, ◌≤◌, ◌↔◌, IsSome, IsTrue, IfSome};
ghost use Rattle.nm_geometry.specs.Geometry.{IsGeometry, geometry, regions, region_of, stripe_of};
ghost use Rattle.nm_geometry.specs.Geometry.{region_in_stripe, block_in_stripe, export_block};
ghost use Rattle.nm_geometry.specs.Geometry.{stripe_blocks, stripe_regions};
ghost use Rattle.nm_geometry.specs.Pieces.{LiesInside};

use crate::byte_range::ByteRange;
use std::marker::Model;

/// How many blocks an export has at most.
pub const MOST_BLOCKS: u64 = 1 << 31;

/// How many blocks a region has at most.
pub const MOST_REGION: u64 = 65_536;

/// How many stripes an export has at most.
pub const MOST_STRIPES: u32 = 64;

/// How many legs a stripe has at most.
pub const MOST_LEGS: u8 = 8;

/// How many entries the history of a stripe keeps at most.
pub const MOST_HISTORY: u16 = 1_024;

/// The shape of a mirror: how its export's blocks are shared out among stripes, and how much of
/// its history each of these keeps.
///
/// The export is cut into regions, of which only the last may be shorter, and its regions go to the
/// stripes in turn. Each stripe counts its own regions and blocks from 0, without gaps.
#[derive(Clone, Copy, Drop)]
pub struct Shape {
    /// How many blocks the export has: 1 to 2^31.
    pub blocks: u64,
    /// How many blocks a region has: 1 to 65,536.
    pub region: u64,
    /// How many blocks a chunk of a copy has: 1 to `region`.
    pub chunk: u64,
    /// How many stripes there are: 1 to 64, and no more than regions.
    pub stripes: u32,
    /// How many legs each stripe has: 1 to 8.
    pub legs: u8,
    /// How many entries the history of each stripe keeps: 0 to 1,024.
    pub history: u16,
}

impl Model for Shape {
    ghost use Rattle.nm_geometry.specs.Geometry.{Geometry};

    ghost Value = { Geometry };

    ghost use Rattle.nm_geometry.specs.Geometry.{IsGeometry};
    ghost use Rattle.nm_geometry.specs.Inside.{geometry_of, shape_of};

    ghost view = { geometry_of };

    ghost invariant = { λ s. IsGeometry (geometry_of s) };

    ghost inverse = { shape_of };
}

impl Shape {
    /// The shape of these numbers; none where one of them is out of its bounds.
    pub fn new(
        blocks: u64,
        region: u64,
        chunk: u64,
        stripes: u32,
        legs: u8,
        history: u16,
    ) -> Option<Shape>
        ensures some { IsSome result
            ↔ IsGeometry (geometry blocks region chunk stripes legs history) }
        ensures shape { IfSome result (λ shape.
            shape ≡ geometry blocks region chunk stripes legs history) }
    {
        let bounded = 1 <= blocks
            && blocks <= MOST_BLOCKS
            && 1 <= region
            && region <= MOST_REGION
            && 1 <= chunk
            && chunk <= region
            && 1 <= legs
            && legs <= MOST_LEGS
            && history <= MOST_HISTORY;
        if !bounded || stripes == 0 || stripes > MOST_STRIPES {
            return None;
        }
        if stripes as u64 > (blocks + region - 1) / region {
            return None;
        }
        Some(Shape {
            blocks,
            region,
            chunk,
            stripes,
            legs,
            history,
        })
    }

    /// How many regions the export has.
    pub fn regions(&self) -> u64
        ensures regions { result ≡ regions self.now }
        ensures shape { IsGeometry self.now }
    {
        (self.blocks + self.region - 1) / self.region
    }

    /// The region that a block of the export lies in.
    pub fn region_of(&self, block: u64) -> u64
        requires block { block < self.now.blocks }
        ensures region { result ≡ region_of block self.now }
        ensures inside { result < regions self.now }
    {
        block / self.region
    }

    /// The stripe that a block of the export lies in.
    pub fn stripe_of(&self, block: u64) -> u32
        requires block { block < self.now.blocks }
        ensures stripe { result ≡ stripe_of block self.now }
        ensures inside { result < self.now.stripes }
    {
        (self.region_of(block) % self.stripes as u64) as u32
    }

    /// The number, in its stripe, of the region that a block of the export lies in.
    pub fn region_in_stripe(&self, block: u64) -> u64
        requires block { block < self.now.blocks }
        ensures region { result ≡ region_in_stripe block self.now }
        ensures inside { result < stripe_regions (stripe_of block self.now) self.now }
    {
        self.region_of(block) / self.stripes as u64
    }

    /// The number, in its stripe, of a block of the export.
    pub fn block_in_stripe(&self, block: u64) -> u64
        requires block { block < self.now.blocks }
        ensures block { result ≡ block_in_stripe block self.now }
        ensures inside { result < stripe_blocks (stripe_of block self.now) self.now }
    {
        self.region_in_stripe(block) * self.region + block % self.region
    }

    /// The block of the export that is the block of this number in this stripe.
    pub fn export_block(&self, stripe: u32, number: u64) -> u64
        requires stripe { stripe < self.now.stripes }
        requires number { number < stripe_blocks stripe self.now }
        ensures block { result ≡ export_block stripe number self.now }
        ensures inside { result < self.now.blocks }
    {
        let region = number / self.region * self.stripes as u64 + stripe as u64;
        region * self.region + number % self.region
    }

    /// How many blocks this stripe has.
    pub fn stripe_blocks(&self, stripe: u32) -> u64
        requires stripe { stripe < self.now.stripes }
        ensures blocks { result ≡ stripe_blocks stripe self.now }
        ensures some { 0 < result }
        ensures most { result ≤ self.now.blocks }
        ensures shape { IsGeometry self.now }
    {
        let row = self.region * self.stripes as u64;
        let before = stripe as u64 * self.region;
        let last = (self.blocks % row).saturating_sub(before).min(self.region);
        self.blocks / row * self.region + last
    }

    /// How many regions this stripe has.
    pub fn stripe_regions(&self, stripe: u32) -> u64
        requires stripe { stripe < self.now.stripes }
        ensures regions { result ≡ stripe_regions stripe self.now }
        ensures some { 0 < result }
        ensures most { result ≤ regions self.now }
    {
        (self.stripe_blocks(stripe) + self.region - 1) / self.region
    }

    /// Whether these bytes lie in the export.
    pub fn holds(&self, range: ByteRange) -> bool
        ensures inside { IsTrue result ↔ LiesInside range self.now }
    {
        let size = self.blocks * 512;
        range.offset <= size && range.length <= size - range.offset
    }
}
