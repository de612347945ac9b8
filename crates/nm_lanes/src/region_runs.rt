//! Writes and reads of runs, one region after the other.
ghost use Rattle.std.specs.Prelude.{◌≡◌, ◌+◌, ◌<◌, length, IfErr, IfOk, OnOk};
ghost use Rattle.nm_lanes.specs.Ends.{LaneDid, LaneTries};
ghost use Rattle.nm_lanes.specs.Fillings.{filling, target_of, IsPieceRange};
ghost use Rattle.nm_lanes.specs.Lists.{steps_in};
ghost use Rattle.nm_lanes.specs.RegionPieces.{IsRegionPieces};
ghost use Rattle.nm_lanes.specs.RegionRuns.{DoesEach, DoesLanes, DoesNext, DoesSome};
ghost use Rattle.nm_lanes.specs.RegionRuns.{HasDone, HasDoneSome};

use crate::call::{Call, within_bounds};
use crate::call_error::CallError;
use crate::call_error_kind::CallErrorKind;
use crate::gate::Gate;
use crate::lane::Lane;
use crate::piece_range::PieceRange;
use crate::region_pieces::{RegionPieces, first_in_stripe, next_region};
use crate::run_write::RunWrite;
use nm_leg::LegPart;
use std::sync::Wait;

/// Writes or reads one run of a stripe after the other; zeroes as long as the caller is not gone.
fn do_lane<L: LegPart, K, D: Lane<L, K>, R: Wait, G: Gate>(
    call: &Call<'_, R, G, K>,
    region: RegionPieces,
    lane: &mut D,
    cuts: &mut [RunWrite],
    into: &mut [u8],
) -> Result<(), CallErrorKind>
    requires locks { length call.now.caller.now.locks.now ≡ call.now.caller.now.shape.now.stripes }
    requires pieces { IsPieceRange call.now.caller.now.shape.now region.pieces cuts.old }
    requires target { length into.old ≡ target_of region.pieces }
    requires region { IsRegionPieces call.now.caller.now.shape.now region }
    ensures ok { let shape = call.now.caller.now.shape.now in
        OnOk result (LaneDid D.follows (λ own. DoesEach shape region.pieces.is_read
        (filling shape region.pieces cuts.old) into.new
        (steps_in region.stripe own)) lane.old lane.new) }
    ensures err { let shape = call.now.caller.now.shape.now in
        IfErr result (λ kind. LaneTries D.follows (λ own. DoesSome shape region.pieces.is_read
        (filling shape region.pieces cuts.old) (steps_in region.stripe own))
        (record { stripe = region.stripe; kind = kind }) region.stripe lane.old lane.new) }
{
    let shape = call.caller.shape;
    within_bounds(shape);
    let mut block = first_in_stripe(shape, region);
    let mut left = region.pieces;
    let mut number = 0;
    let mut from = 0;
    while left.count > 0 {
        let (write, blocks) = left.take(shape, number, cuts);
        if call.gives_up(left) {
            return Err(CallErrorKind::Gone);
        }
        let to = from + left.first_of(blocks).target_of(shape);
        let stripe_call = call.on_stripe(region.stripe, Some(block));
        let read = region.pieces.is_read;
        stripe_call.do_one(lane, block, write, read, shape.legs, &mut into[from..to])?;
        block += blocks;
        left = left.rest_of(blocks);
        number += 1;
        from = to;
    }
    Ok(())
}

/// Writes or reads the runs of this stripe, whose lane stands alone.
fn do_stripe<L: LegPart, K, D: Lane<L, K>, R: Wait, G: Gate>(
    call: &Call<'_, R, G, K>,
    region: RegionPieces,
    lanes: &mut [D],
    cuts: &mut [RunWrite],
    into: &mut [u8],
) -> Result<(), CallError>
    requires one { length lanes.old ≡ 1 }
    requires locks { length call.now.caller.now.locks.now ≡ call.now.caller.now.shape.now.stripes }
    requires pieces { IsPieceRange call.now.caller.now.shape.now region.pieces cuts.old }
    requires target { length into.old ≡ target_of region.pieces }
    requires region { IsRegionPieces call.now.caller.now.shape.now region }
    ensures does { DoesLanes D.follows call.now.caller.now.shape.now region.pieces.is_read
        (filling call.now.caller.now.shape.now region.pieces cuts.old)
        region.stripe (lanes.old, lanes.new) into.new result }
{
    within_bounds(call.caller.shape);
    match do_lane(call, region, &mut lanes[0], cuts, into) {
        Ok(()) => Ok(()),
        Err(kind) => Err(CallError {
            stripe: region.stripe,
            kind,
        }),
    }
}

/// Writes or reads the runs of the next region, and tells how many blocks they have.
fn do_next<L: LegPart, K, D: Lane<L, K>, R: Wait, G: Gate>(
    call: &Call<'_, R, G, K>,
    pieces: PieceRange,
    lanes: &mut [D],
    cuts: &mut [RunWrite],
    into: &mut [u8],
) -> Result<u64, CallError>
    requires locks { length call.now.caller.now.locks.now ≡ call.now.caller.now.shape.now.stripes }
    requires lanes { length lanes.old ≡ call.now.caller.now.shape.now.stripes }
    requires pieces { IsPieceRange call.now.caller.now.shape.now pieces cuts.old }
    requires target { length into.old ≡ target_of pieces }
    requires some { 0 < pieces.count }
    ensures ok { IfOk result (DoesNext D.follows call.now.caller.now.shape.now pieces
        (cuts.old, cuts.new) (lanes.old, lanes.new) into.new) }
    ensures err { IfErr result (HasDoneSome D.follows call.now.caller.now.shape.now pieces.is_read
        (filling call.now.caller.now.shape.now pieces cuts.old) (lanes.old, lanes.new)) }
{
    let region = next_region(call.caller.shape, pieces);
    let done = region.pieces.count;
    let (_, rest) = lanes.split_at_mut(region.stripe as usize);
    let (lane, _) = rest.split_at_mut(1);
    let (own, _) = cuts.split_at_mut(region.pieces.cuts_of(call.caller.shape));
    let (near, _) = into.split_at_mut(region.pieces.target_of(call.caller.shape));
    match do_stripe(call, region, lane, own, near) {
        Ok(()) => Ok(done),
        Err(cause) => Err(cause),
    }
}

/// Writes all runs of a piece range, or reads them into the target, until a stripe cannot go on.
pub(crate) fn do_all<L: LegPart, K, D: Lane<L, K>, R: Wait, G: Gate>(
    call: &Call<'_, R, G, K>,
    pieces: PieceRange,
    lanes: &mut [D],
    cuts: &mut [RunWrite],
    into: &mut [u8],
) -> Result<(), CallError>
    requires locks { length call.now.caller.now.locks.now ≡ call.now.caller.now.shape.now.stripes }
    requires lanes { length lanes.old ≡ call.now.caller.now.shape.now.stripes }
    requires pieces { IsPieceRange call.now.caller.now.shape.now pieces cuts.old }
    requires target { length into.old ≡ target_of pieces }
    ensures ok { OnOk result (HasDone D.follows call.now.caller.now.shape.now pieces.is_read
        (filling call.now.caller.now.shape.now pieces cuts.old) (lanes.old, lanes.new) into.new) }
    ensures err { IfErr result (HasDoneSome D.follows call.now.caller.now.shape.now pieces.is_read
        (filling call.now.caller.now.shape.now pieces cuts.old) (lanes.old, lanes.new)) }
{
    let mut left = pieces;
    let mut taken = 0;
    let mut from = 0;
    while left.count > 0 {
        let done = do_next(call, left, lanes, &mut cuts[taken..], &mut into[from..])?;
        let first = left.first_of(done);
        taken += first.cuts_of(call.caller.shape);
        from += first.target_of(call.caller.shape);
        left = left.rest_of(done);
    }
    Ok(())
}
