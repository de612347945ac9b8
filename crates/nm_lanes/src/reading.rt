//! The read of a range.
ghost use Rattle.std.specs.Prelude.{◌≡◌, length, IfErr, OnOk};
ghost use Rattle.nm_geometry.specs.Pieces.{LiesInside};
ghost use Rattle.nm_lanes.specs.Reads.{HasRead, HasReadSome};
ghost use Rattle.nm_lanes.specs.Runs.{runs_of_range};

use crate::call::{Call, range_inside};
use crate::call_error::CallError;
use crate::call_kind::CallKind;
use crate::caller::Caller;
use crate::gate::Gate;
use crate::lane::Lane;
use crate::piece_range::PieceRange;
use crate::region_runs::do_all;
use nm_geometry::Shape;
use nm_leg::LegPart;
use std::sync::Wait;

/// Reads the bytes of the export from `offset` on into all of `into`: each run of blocks that they
/// touch once, in order. Whole blocks are read right into it.
///
/// On an error, in each stripe the first of its runs were read, and what stands in `into` is not
/// told.
pub fn read_by<'a, L: LegPart, K, D: Lane<L, K>, R: Wait, G: Gate>(
    caller: &'a Caller<'a, R, G, K>,
    lanes: &mut [D],
    offset: u64,
    into: &mut [u8],
) -> Result<(), CallError>
    requires locks { length caller.now.locks.now ≡ caller.now.shape.now.stripes }
    requires lanes { length lanes.old ≡ caller.now.shape.now.stripes }
    requires inside { LiesInside (record { offset = offset; length = length into.old })
        caller.now.shape.now }
    ensures ok { OnOk result (HasRead D.follows caller.now.shape.now
        (runs_of_range caller.now.shape.now
        (record { offset = offset; length = length into.old }))
        (lanes.old, lanes.new) into.new) }
    ensures err { IfErr result (HasReadSome D.follows caller.now.shape.now
        (runs_of_range caller.now.shape.now
        (record { offset = offset; length = length into.old }))
        (lanes.old, lanes.new)) }
{
    let call = Call {
        caller,
        kind: CallKind::Read,
        is_gone: None,
    };
    let range = range_inside(caller.shape, offset, into.len() as u64);
    let pieces = PieceRange {
        range,
        first: 0,
        count: range.pieces(),
        no_payload: true,
        is_read: true,
    };
    let read = do_all(&call, pieces, lanes, &mut [], into);
    match read {
        Ok(()) => Ok(()),
        Err(cause) => Err(cause),
    }
}
