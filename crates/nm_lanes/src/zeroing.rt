//! The write of zeroes to a range.
ghost use Rattle.std.specs.Prelude.{◌≡◌, length, IfErr, OnOk};
ghost use Rattle.nm_geometry.specs.Pieces.{LiesInside};
ghost use Rattle.nm_lanes.specs.Cuts.{zeroes_for};
ghost use Rattle.nm_lanes.specs.Runs.{runs_of_range};
ghost use Rattle.nm_lanes.specs.Writes.{HasWritten, HasWrittenSome};

use crate::call::{Call, range_inside};
use crate::call_error::CallError;
use crate::call_kind::CallKind;
use crate::caller::Caller;
use crate::gate::Gate;
use crate::lane::Lane;
use crate::piece_range::PieceRange;
use crate::region_runs::do_all;
use nm_geometry::Shape;
use nm_leg::LegPart;
use std::sync::Wait;
use std::sync::atomic::AtomicBool;

/// Writes zeroes to so many bytes of the export from `offset` on: to each run of blocks that they
/// touch once, in order.
///
/// It takes no memory. Before each run it asks `is_gone`, where there is one: once that is true no
/// further run is begun, and each that began is done; if some are left the call ends as
/// `CallErrorKind::Gone`. On another error the first runs of each stripe were written, and the next
/// one's write may have begun.
pub fn zero_by<'a, L: LegPart, K, D: Lane<L, K>, R: Wait, G: Gate>(
    caller: &'a Caller<'a, R, G, K>,
    lanes: &mut [D],
    offset: u64,
    len: u64,
    is_gone: Option<&'a AtomicBool>,
) -> Result<(), CallError>
    requires locks { length caller.now.locks.now ≡ caller.now.shape.now.stripes }
    requires lanes { length lanes.old ≡ caller.now.shape.now.stripes }
    requires inside { LiesInside (record { offset = offset; length = len }) caller.now.shape.now }
    ensures ok { OnOk result (HasWritten D.follows caller.now.shape.now
        (zeroes_for (runs_of_range caller.now.shape.now
        (record { offset = offset; length = len })))
        (lanes.old, lanes.new)) }
    ensures err { IfErr result (HasWrittenSome D.follows caller.now.shape.now
        (zeroes_for (runs_of_range caller.now.shape.now
        (record { offset = offset; length = len })))
        (lanes.old, lanes.new)) }
{
    let call = Call {
        caller,
        kind: CallKind::Zero,
        is_gone,
    };
    let range = range_inside(caller.shape, offset, len);
    let pieces = PieceRange {
        range,
        first: 0,
        count: range.pieces(),
        no_payload: true,
        is_read: false,
    };
    let zeroed = do_all(&call, pieces, lanes, &mut [], &mut []);
    match zeroed {
        Ok(()) => Ok(()),
        Err(cause) => Err(cause),
    }
}
