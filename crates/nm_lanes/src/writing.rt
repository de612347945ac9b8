//! The write of a range.
ghost use Rattle.std.specs.Prelude.{◌≡◌, length, IfErr, IsOk, OnOk};
ghost use Rattle.nm_geometry.specs.Pieces.{LiesInside};
ghost use Rattle.nm_lanes.specs.Cuts.{cuts_for};
ghost use Rattle.nm_lanes.specs.Runs.{runs_of_range};
ghost use Rattle.nm_lanes.specs.Writes.{FailsWriting, HasWritten};

use crate::call::{Call, range_inside};
use crate::call_kind::CallKind;
use crate::caller::Caller;
use crate::cutting::split_payload;
use crate::gate::Gate;
use crate::lane::Lane;
use crate::piece_range::PieceRange;
use crate::region_runs::do_all;
use crate::write_fault::WriteFault;
use bytes::Bytes;
use nm_geometry::Shape;
use nm_leg::LegPart;
use std::alloc::Global;
use std::sync::Wait;

/// Writes all of the payload to the bytes of the export from `offset` on: each run of blocks that
/// they touch once, in order.
///
/// The payload is cut where runs end before the first step is done. Blocks that they fill are
/// written whole, in runs of up to 128 blocks of one region; of another block the rest stays. A
/// payload without bytes does no step, and succeeds.
///
/// # Errors
///
/// `WriteFault::Memory` where the cuts are refused their memory, and no step was done.
/// `WriteFault::Io` where a stripe could not go on, which ends the call. In each stripe the first
/// of its runs were written, and the next one's write may have begun.
pub fn write_by<'a, L: LegPart, K, D: Lane<L, K>, R: Wait, G: Gate>(
    caller: &'a Caller<'a, R, G, K>,
    alloc: Global,
    lanes: &mut [D],
    offset: u64,
    payload: Bytes,
) -> Result<(), WriteFault>
    requires locks { length caller.now.locks.now ≡ caller.now.shape.now.stripes }
    requires lanes { length lanes.old ≡ caller.now.shape.now.stripes }
    requires inside { LiesInside (record { offset = offset; length = length payload })
        caller.now.shape.now }
    ensures ok { OnOk result (HasWritten D.follows caller.now.shape.now
        (cuts_for (runs_of_range caller.now.shape.now
        (record { offset = offset; length = length payload })) payload)
        (lanes.old, lanes.new)) }
    ensures nothing { length payload ≡ 0 → IsOk result }
    ensures err { IfErr result (FailsWriting D.follows caller.now.shape.now
        (cuts_for (runs_of_range caller.now.shape.now
        (record { offset = offset; length = length payload })) payload)
        (lanes.old, lanes.new)) }
{
    if payload.is_empty() {
        return Ok(());
    }
    let len = payload.len() as u64;
    let range = range_inside(caller.shape, offset, len);
    let pieces = PieceRange {
        range,
        first: 0,
        count: range.pieces(),
        no_payload: false,
        is_read: false,
    };
    let Ok(mut writes) = split_payload(alloc, caller.shape, pieces, payload) else {
        return Err(WriteFault::Memory);
    };
    let call = Call {
        caller,
        kind: CallKind::Write,
        is_gone: None,
    };
    let written = do_all(&call, pieces, lanes, writes.as_mut_slice(), &mut []);
    match written {
        Ok(()) => Ok(()),
        Err(cause) => Err(WriteFault::Io(cause)),
    }
}
