//! Runs of a stripe's blocks in a medium that several threads call at once, by one call for each
//! region that they lie in.
ghost use Rattle.std.specs.Prelude.{◌≡◌, ◌<◌, IsTrue};
ghost use Rattle.nm_leg.specs.Leg.{IsRun};
ghost use Rattle.nm_geometry.specs.Geometry.{IsGeometry, stripe_blocks};
ghost use Rattle.nm_file_leg.specs.Called.{MovesRun, wrote_or_found};
ghost use Rattle.nm_file_leg.specs.Runs.{run_places};

use crate::called_medium::CalledMedium;
use crate::runs::{bytes_in_region, first_byte};
use crate::zeroes::are_zeroes;
use nm_geometry::Shape;
use nm_replay::BLOCK_BYTES;

/// Reads a run of blocks, and says whether it found all of it.
pub(crate) fn read_called<M: CalledMedium>(
    medium: &M,
    shape: &Shape,
    stripe: u32,
    at: u64,
    into: &mut [u8],
) -> bool
    requires shape { IsGeometry shape.now }
    requires stripe { stripe < shape.now.stripes }
    requires run { IsRun at (stripe_blocks stripe shape.now) into.old }
    ensures { IsTrue result
        → MovesRun (M.found medium.now) (run_places stripe shape.now at) into.new }
{
    let mut done = 0;
    while done < into.len() {
        let block = at + (done / BLOCK_BYTES) as u64;
        let first = first_byte(shape, stripe, block);
        let many = bytes_in_region(shape, block, into.len() - done);
        match medium.read_at(first, &mut into[done..done + many]) {
            Ok(found) if found == many => done += many,
            _ => return false,
        }
    }
    true
}

/// Writes bytes that follow one another, and says whether all of them stand there. Where
/// `keeps_holes` is given, zeroes are not written into a hole of the medium.
fn write_stretch<M: CalledMedium>(medium: &M, first: u64, part: &[u8], keeps_holes: bool) -> bool
    ensures { IsTrue result
        → wrote_or_found (M.found medium.now) (M.wrote medium.now) first part.now }
{
    if keeps_holes && are_zeroes(part) && medium.is_hole(first, part.len()) {
        return true;
    }
    matches!(medium.write_at(first, part), Ok(written) if written == part.len())
}

/// Writes a run of blocks, and says whether all of it was written, or found. Where `keeps_holes` is
/// given, zeroes are not written into the medium's holes, so that a sparse medium stays sparse;
/// then no sync that failed may have lost a block of the run.
pub(crate) fn write_called<M: CalledMedium>(
    medium: &M,
    shape: &Shape,
    stripe: u32,
    at: u64,
    bytes: &[u8],
    keeps_holes: bool,
) -> bool
    requires shape { IsGeometry shape.now }
    requires stripe { stripe < shape.now.stripes }
    requires run { IsRun at (stripe_blocks stripe shape.now) bytes.now }
    ensures { IsTrue result → MovesRun (wrote_or_found (M.found medium.now) (M.wrote medium.now))
        (run_places stripe shape.now at) bytes.now }
{
    let mut done = 0;
    while done < bytes.len() {
        let block = at + (done / BLOCK_BYTES) as u64;
        let first = first_byte(shape, stripe, block);
        let many = bytes_in_region(shape, block, bytes.len() - done);
        if !write_stretch(medium, first, &bytes[done..done + many], keeps_holes) {
            return false;
        }
        done += many;
    }
    true
}
