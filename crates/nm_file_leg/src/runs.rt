//! Runs of a stripe's blocks in a medium, by one call for each region that they lie in.
ghost use Rattle.std.specs.Prelude.{◌≡◌, ◌*◌, ◌-◌, ◌%◌, ◌<◌, min, length, IsTrue};
ghost use Rattle.nm_leg.specs.Leg.{IsRun, blocks_in};
ghost use Rattle.nm_geometry.specs.Geometry.{IsGeometry, stripe_blocks};
ghost use Rattle.nm_file_leg.specs.Blocks.{first_byte};
ghost use Rattle.nm_file_leg.specs.Medium.{Kept, WritesMedium};
ghost use Rattle.nm_file_leg.specs.Runs.{ReadsRun, WritesRun, KeepsRun, run_places};

use crate::Medium;
use crate::zeroes::are_zeroes;
use nm_geometry::Shape;
use nm_replay::BLOCK_BYTES;
use std::io;

/// Where a block of the stripe begins in the medium.
pub(crate) fn first_byte(shape: &Shape, stripe: u32, block: u64) -> u64
    requires shape { IsGeometry shape.now }
    requires stripe { stripe < shape.now.stripes }
    requires block { block < stripe_blocks stripe shape.now }
    ensures { result ≡ first_byte stripe shape.now block }
{
    BLOCK_BYTES as u64 * shape.export_block(stripe, block)
}

/// How many of so many bytes, from this block on, lie in its region.
pub(crate) fn bytes_in_region(shape: &Shape, block: u64, bytes: usize) -> usize
    requires shape { IsGeometry shape.now }
    ensures { result ≡ min bytes (512 * (shape.now.region - block % shape.now.region)) }
{
    let left = shape.region - block % shape.region;
    bytes.min(BLOCK_BYTES * left as usize)
}

/// Reads a run of blocks, and says whether it found all of it.
pub(crate) fn read_run<M: Medium>(
    medium: &mut M,
    shape: &Shape,
    stripe: u32,
    at: u64,
    into: &mut [u8],
) -> bool
    requires shape { IsGeometry shape.now }
    requires stripe { stripe < shape.now.stripes }
    requires run { IsRun at (stripe_blocks stripe shape.now) into.old }
    ensures { ReadsRun M.honest result (run_places stripe shape.now at) (M.held medium.old)
        (M.held medium.new) into.new }
{
    let mut done = 0;
    while done < into.len() {
        let block = at + (done / BLOCK_BYTES) as u64;
        let first = first_byte(shape, stripe, block);
        let many = bytes_in_region(shape, block, into.len() - done);
        match medium.read_at(first, &mut into[done..done + many]) {
            Ok(found) if found == many => done += many,
            _ => return false,
        }
    }
    true
}

/// Writes bytes that follow one another. Where `keeps_holes` is given, zeroes are not written into
/// a hole of the medium: they stand there.
fn write_stretch<M: Medium>(
    medium: &mut M,
    first: u64,
    part: &[u8],
    keeps_holes: bool,
) -> io::Result<usize>
    requires { IsTrue M.honest → IsTrue keeps_holes
        → Kept (M.held medium.old) first (length part.now) }
    ensures { WritesMedium M.honest result first part.now (M.held medium.old)
        (M.held medium.new) }
{
    if keeps_holes && are_zeroes(part) && medium.is_hole(first, part.len()) {
        return Ok(part.len());
    }
    medium.write_at(first, part)
}

/// Writes a run of blocks, and says whether all of it stands in the medium. Where `keeps_holes` is
/// given, zeroes are not written into the medium's holes, so that a sparse medium stays sparse;
/// then no sync that failed may have lost a block of the run.
pub(crate) fn write_run<M: Medium>(
    medium: &mut M,
    shape: &Shape,
    stripe: u32,
    at: u64,
    bytes: &[u8],
    keeps_holes: bool,
) -> bool
    requires shape { IsGeometry shape.now }
    requires stripe { stripe < shape.now.stripes }
    requires run { IsRun at (stripe_blocks stripe shape.now) bytes.now }
    requires kept { IsTrue M.honest → IsTrue keeps_holes
        → KeepsRun (M.held medium.old) (run_places stripe shape.now at) (blocks_in bytes.now) }
    ensures { WritesRun M.honest result (run_places stripe shape.now at) bytes.now
        (M.held medium.old) (M.held medium.new) }
{
    let mut done = 0;
    while done < bytes.len() {
        let block = at + (done / BLOCK_BYTES) as u64;
        let first = first_byte(shape, stripe, block);
        let many = bytes_in_region(shape, block, bytes.len() - done);
        match write_stretch(medium, first, &bytes[done..done + many], keeps_holes) {
            Ok(written) if written == many => done += many,
            _ => return false,
        }
    }
    true
}
