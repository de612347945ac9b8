//! A call of a mirror: what its steps on each stripe have in common.
ghost use Rattle.std.specs.Prelude.{◌≡◌, ◌<◌, ◌^◌, false, IsTrue, Some, length, slice_get};
ghost use Rattle.nm_geometry.specs.Geometry.{IsGeometry};
ghost use Rattle.nm_geometry.specs.Pieces.{LiesInside, end_of};

use crate::call_kind::CallKind;
use crate::caller::Caller;
use crate::gate::Gate;
use crate::piece_range::PieceRange;
use crate::stripe_call::StripeCall;
use nm_geometry::{ByteRange, Shape};
use std::sync::Wait;
use std::sync::atomic::{AtomicBool, Ordering};

/// Tells that a shape's numbers are within their bounds, as each shape's are.
pub(crate) fn within_bounds(shape: &Shape)
    ensures { IsGeometry shape.now }
{
    let _regions = shape.regions();
}

/// These bytes of the export.
pub(crate) fn range_inside(shape: &Shape, offset: u64, length: u64) -> ByteRange
    requires { LiesInside (record { offset = offset; length = length }) shape.now }
    ensures range { result ≡ record { offset = offset; length = length } }
    ensures end { end_of (record { offset = offset; length = length }) < 2 ^ 64 }
    ensures shape { IsGeometry shape.now }
{
    within_bounds(shape);
    ByteRange { offset, length }
}

/// A call of a mirror.
#[derive(Drop)]
pub(crate) struct Call<'a, R, G, K> {
    pub(crate) caller: &'a Caller<'a, R, G, K>,
    pub(crate) kind: CallKind,
    /// Where the caller can go: whether it is gone.
    pub(crate) is_gone: Option<&'a AtomicBool>,
}

impl<R: Wait, G: Gate, K> Call<'_, R, G, K> {
    /// Whether these pieces are not to be begun: they are zeroes, and the caller is gone. When that
    /// is so is not promised: it tells where a call's work would be for nobody.
    pub(crate) fn gives_up(&self, left: PieceRange) -> bool
        ensures { IsTrue result → IsTrue left.no_payload × (left.is_read ≡ false) }
    {
        match self.is_gone {
            Some(is_gone) => left.no_payload && !left.is_read && is_gone.load(Ordering::SeqCst),
            None => false,
        }
    }

    /// The call at work on one block of a stripe, or on none, through the stripe's own lock.
    pub(crate) fn on_stripe(&self, stripe: u32, block: Option<u64>) -> StripeCall<'_, R, G, K>
        requires { stripe < length self.now.caller.now.locks.now }
        ensures stripe { result.stripe ≡ stripe }
        ensures lock { slice_get self.now.caller.now.locks.now stripe ≡ Some result.lock.now }
    {
        StripeCall {
            rt: self.caller.rt,
            gate: self.caller.gate,
            lock: &self.caller.locks[stripe as usize],
            pass: self.caller.pass,
            call: self.kind,
            stripe,
            block,
        }
    }
}
