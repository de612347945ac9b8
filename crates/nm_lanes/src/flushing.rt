//! Syncs of every leg.
ghost use Rattle.std.specs.Prelude.{◌≡◌, ℕ, ◌<◌, ◌≤◌, ◌+◌, ◌^◌, length, IfErr, OnOk};
ghost use Rattle.nm_geometry.specs.Geometry.{IsGeometry};
ghost use Rattle.nm_geometry.specs.Pieces.{LiesInside, end_of, touched};
ghost use Rattle.nm_lanes.specs.Flushes.{HasFlushed, HasFlushedSome, IsStripeOf, Touches};
ghost use Rattle.nm_lanes.specs.Syncs.{InSpans, IsAround, LaneSyncs, LaneSyncStops, SyncsLanes};

use crate::call::{Call, range_inside, within_bounds};
use crate::call_error::CallError;
use crate::call_error_kind::CallErrorKind;
use crate::call_kind::CallKind;
use crate::caller::Caller;
use crate::gate::Gate;
use crate::lane::Lane;
use crate::stripe_call::StripeCall;
use nm_geometry::{ByteRange, Shape};
use nm_leg::LegPart;
use std::sync::Wait;

impl<R: Wait, G: Gate, K> StripeCall<'_, R, G, K> {
    /// Syncs each of so many legs that is not out.
    pub(crate) fn sync_all<L: LegPart, D: Lane<L, K>>(
        &self,
        lane: &mut D,
        legs: u8,
    ) -> Result<(), CallErrorKind>
        ensures ok { OnOk result (LaneSyncs D.follows (lane.old, lane.new) legs legs) }
        ensures err { IfErr result (LaneSyncStops D.follows (lane.old, lane.new) legs) }
    {
        for leg in 0..legs {
            self.sync_one(lane, leg)?;
        }
        Ok(())
    }
}

/// Syncs every leg of this stripe, whose lane stands alone.
fn flush_one<L: LegPart, K, D: Lane<L, K>, R: Wait, G: Gate>(
    call: &Call<'_, R, G, K>,
    stripe: u32,
    lanes: &mut [D],
) -> Result<(), CallError>
    requires one { length lanes.old ≡ 1 }
    requires inside { stripe < length call.now.caller.now.locks.now }
    ensures syncs { SyncsLanes D.follows call.now.caller.now.shape.now.legs stripe
        (lanes.old, lanes.new) result }
{
    let shape = call.caller.shape;
    let stripe_call = call.on_stripe(stripe, None);
    match stripe_call.sync_all(&mut lanes[0], shape.legs) {
        Ok(()) => Ok(()),
        Err(kind) => Err(CallError { stripe, kind }),
    }
}

/// Syncs every leg of the stripes of these lanes, of which the first is this stripe's, one after
/// the other. Each is asked, though an earlier one could not go on, so that all are told of a sync
/// of their leg's file that failed.
fn flush_lanes<L: LegPart, K, D: Lane<L, K>, R: Wait, G: Gate>(
    call: &Call<'_, R, G, K>,
    first: u32,
    lanes: &mut [D],
) -> Result<(), CallError>
    requires locks { length call.now.caller.now.locks.now ≤ 64 }
    requires inside { first + length lanes.old ≤ length call.now.caller.now.locks.now }
    ensures syncs { SyncsLanes D.follows call.now.caller.now.shape.now.legs first
        (lanes.old, lanes.new) result }
{
    if lanes.len() == 0 {
        return Ok(());
    }
    let (lane, rest) = lanes.split_at_mut(1);
    let done = flush_one(call, first, lane);
    let others = flush_lanes(call, first + 1, rest);
    match done {
        Ok(()) => others,
        Err(cause) => Err(cause),
    }
}

/// The stripes below one number, and those from a second on below a third.
struct Spans {
    low: u32,
    first: u32,
    end: u32,
}

/// Syncs every leg of the stripes below one number, and of those from a second on below a third.
fn flush_spans<L: LegPart, K, D: Lane<L, K>, R: Wait, G: Gate>(
    call: &Call<'_, R, G, K>,
    spans: Spans,
    lanes: &mut [D],
) -> Result<(), CallError>
    requires locks { length call.now.caller.now.locks.now ≡ call.now.caller.now.shape.now.stripes }
    requires lanes { length lanes.old ≡ call.now.caller.now.shape.now.stripes }
    requires order { (spans.low ≤ spans.first) × (spans.first ≤ spans.end) }
    requires inside { spans.end ≤ call.now.caller.now.shape.now.stripes }
    ensures ok { OnOk result (HasFlushed D.follows call.now.caller.now.shape.now.legs
        (InSpans spans.low spans.first spans.end) (lanes.old, lanes.new)) }
    ensures err { IfErr result (HasFlushedSome D.follows call.now.caller.now.shape.now.legs
        (InSpans spans.low spans.first spans.end) (lanes.old, lanes.new)) }
{
    within_bounds(call.caller.shape);
    let Spans { low, first, end } = spans;
    let (front, rest) = lanes.split_at_mut(low as usize);
    let (_, rest) = rest.split_at_mut((first - low) as usize);
    let (back, _) = rest.split_at_mut((end - first) as usize);
    if let Err(cause) = flush_lanes(call, 0, front) {
        return Err(cause);
    }
    match flush_lanes(call, first, back) {
        Ok(()) => Ok(()),
        Err(cause) => Err(cause),
    }
}

/// Syncs every leg of every stripe. A leg that is out is passed over; one that goes out by it is
/// asked again, and found out.
pub fn flush_by<'a, L: LegPart, K, D: Lane<L, K>, R: Wait, G: Gate>(
    caller: &'a Caller<'a, R, G, K>,
    lanes: &mut [D],
) -> Result<(), CallError>
    requires locks { length caller.now.locks.now ≡ caller.now.shape.now.stripes }
    requires lanes { length lanes.old ≡ caller.now.shape.now.stripes }
    ensures ok { OnOk result (HasFlushed D.follows caller.now.shape.now.legs
        (IsStripeOf caller.now.shape.now) (lanes.old, lanes.new)) }
    ensures err { IfErr result (HasFlushedSome D.follows caller.now.shape.now.legs
        (IsStripeOf caller.now.shape.now) (lanes.old, lanes.new)) }
{
    let call = Call {
        caller,
        kind: CallKind::Flush,
        is_gone: None,
    };
    let shape = caller.shape;
    let spans = Spans {
        low: 0,
        first: 0,
        end: shape.stripes,
    };
    match flush_spans(&call, spans, lanes) {
        Ok(()) => Ok(()),
        Err(cause) => Err(cause),
    }
}

/// The first region that the bytes touch, and how many stripes they touch, from that region's on in
/// turn.
fn stripes_touched(shape: &Shape, range: ByteRange) -> (u64, u64)
    requires inside { LiesInside range shape.now }
    requires end { end_of range < 2 ^ 64 }
    requires some { 0 < touched range }
    ensures touched { (stripe : ℕ) → Touches shape.now range stripe
        → IsAround shape.now result.0 result.1 stripe }
    ensures only { (stripe : ℕ) → IsAround shape.now result.0 result.1 stripe
        → Touches shape.now range stripe }
    ensures few { result.1 ≤ shape.now.stripes }
{
    within_bounds(shape);
    let first = shape.region_of(range.piece(0).block);
    let last = shape.region_of(range.piece(range.pieces() - 1).block);
    let count = (last.saturating_sub(first) + 1).min(shape.stripes as u64);
    (first, count)
}

/// The stripes of so many regions that follow one another, from this one on, as two runs.
fn spans_around(shape: &Shape, region: u64, count: u64) -> Spans
    requires geometry { IsGeometry shape.now }
    requires few { count ≤ shape.now.stripes }
    ensures some { (stripe : ℕ) → IsAround shape.now region count stripe
        → InSpans result.low result.first result.end stripe }
    ensures only { (stripe : ℕ) → InSpans result.low result.first result.end stripe
        → IsAround shape.now region count stripe }
    ensures order { (result.low ≤ result.first) × (result.first ≤ result.end) }
    ensures inside { result.end ≤ shape.now.stripes }
{
    let stripes = shape.stripes;
    let first = (region % stripes as u64) as u32;
    let end = first + count as u32;
    Spans {
        low: end.saturating_sub(stripes),
        first,
        end: end.min(stripes),
    }
}

/// Syncs every leg of the stripes in which some of the bytes from `offset` on lie.
pub fn sync_by<'a, L: LegPart, K, D: Lane<L, K>, R: Wait, G: Gate>(
    caller: &'a Caller<'a, R, G, K>,
    lanes: &mut [D],
    offset: u64,
    len: u64,
) -> Result<(), CallError>
    requires locks { length caller.now.locks.now ≡ caller.now.shape.now.stripes }
    requires lanes { length lanes.old ≡ caller.now.shape.now.stripes }
    requires inside { LiesInside (record { offset = offset; length = len }) caller.now.shape.now }
    ensures ok { OnOk result (HasFlushed D.follows caller.now.shape.now.legs
        (Touches caller.now.shape.now (record { offset = offset; length = len }))
        (lanes.old, lanes.new)) }
    ensures err { IfErr result (HasFlushedSome D.follows caller.now.shape.now.legs
        (Touches caller.now.shape.now (record { offset = offset; length = len }))
        (lanes.old, lanes.new)) }
{
    let call = Call {
        caller,
        kind: CallKind::SyncTouched,
        is_gone: None,
    };
    within_bounds(caller.shape);
    let range = range_inside(caller.shape, offset, len);
    if range.pieces() == 0 {
        return Ok(());
    }
    let (first, count) = stripes_touched(caller.shape, range);
    let spans = spans_around(caller.shape, first, count);
    match flush_spans(&call, spans, lanes) {
        Ok(()) => Ok(()),
        Err(cause) => Err(cause),
    }
}
