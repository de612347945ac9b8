//! Stripes over legs on shared arrays: from the bytes of the arrays to what holds of each list of
//! steps.
ghost use Rattle.std.specs.Prelude.{◌≡◌, ◌<◌, [], ◌∷◌, length, IfOk};
ghost use Rattle.nm_file_leg.specs.Blocks.{all_blocks};
ghost use Rattle.nm_geometry.specs.Geometry.{stripe_blocks};
ghost use Rattle.nm_regions.specs.Sound.{AreSizes};
ghost use Rattle.nm_resync.specs.Chunk.{IsChunkSize};
ghost use Rattle.nm_rules.specs.Array.{stripe_array};
ghost use Rattle.nm_stripe.specs.Flush.{Flushes};
ghost use Rattle.nm_stripe.specs.Run.{AllAsked, NoneHalted, ActOnOneArray};

use crate::shared_medium::{SharedLeg, SharedMedium, leg_on_share};
use crate::shared_syncs::SharedSyncs;
use nm_file_leg::FileLeg;
use nm_geometry::Shape;
use nm_leg::LegPart;
use nm_stripe::{Answer, At, Policy, Step, Stripe};
use std::alloc::{AllocError, Global};
use std::process::Abort;
use std::sync::Arc;
use std::test::Fail;

/// The place of this stripe in a mirror of this shape.
fn place_of(shape: &Shape, stripe: u32) -> At
    requires { stripe < shape.now.stripes }
    ensures blocks { result.blocks ≡ stripe_blocks stripe shape.now }
    ensures sizes { AreSizes result.blocks result.region 2 }
    ensures chunk { IsChunkSize result.chunk }
{
    At {
        stripe,
        blocks: shape.stripe_blocks(stripe),
        region: shape.region,
        chunk: shape.chunk,
        history: shape.history,
    }
}

/// These two legs, in this order.
fn pair<L: LegPart>(alloc: Global, first: L, second: L) -> Result<Vec<L>, AllocError>
    ensures { IfOk result (λ legs. legs.items ≡ first ∷ second ∷ []) }
{
    let mut legs = Vec::new(alloc);
    legs.push(first)?;
    legs.push(second)?;
    Ok(legs)
}

/// Opens a stripe on two legs in sync that hold the same: its array is what they hold.
fn open_on<L: LegPart>(alloc: Global, place: At, first: L, second: L) -> Result<Stripe<L>, Fail>
    requires sizes { AreSizes place.blocks place.region 2 }
    requires chunk { IsChunkSize place.chunk }
    requires blocks { length (L.model first).contents ≡ place.blocks }
    requires alike { L.model second ≡ L.model first }
    ensures { IfOk result (λ stripe. stripe_array L.model stripe ≡ (L.model first).contents) }
{
    let legs = pair(alloc, first, second)?;
    match Stripe::open(alloc, place, legs, 3, 0, Policy::RoundRobin) {
        Ok(stripe) => Ok(stripe),
        Err((memory, _legs)) => Err(Fail::from(memory)),
    }
}

/// Opens a stripe on two legs in sync, each on an array of its own with these bytes: its array is
/// the blocks that the stripe has among them.
pub fn open_on_shares(
    alloc: Global,
    arrays: [&Arc<SharedSyncs>; 2],
    shape: &Shape,
    stripe: u32,
    bytes: &[u8],
) -> Result<Stripe<SharedLeg>, Fail>
    requires { stripe < shape.now.stripes }
    ensures { IfOk result (λ opened.
        stripe_array ⟦<FileLeg<SharedMedium> as LegPart>⟧.model opened
        ≡ all_blocks stripe shape.now bytes.now) }
{
    let place = place_of(shape, stripe);
    let first = leg_on_share(alloc, arrays[0], shape, stripe, bytes)?;
    let second = leg_on_share(alloc, arrays[1], shape, stripe, bytes)?;
    open_on(alloc, place, first, second)
}

/// Does steps of a stripe over shared arrays: each block read or written acts once, on one array,
/// and a flush is durable.
///
/// No premise is left but that no answer is `Halted`, since the arrays are honest media.
pub fn run_on_shares(
    alloc: Global,
    stripe: &mut Stripe<SharedLeg>,
    steps: Vec<Step<SharedLeg>>,
) -> Result<Vec<Answer<SharedLeg>>, Vec<Step<SharedLeg>>>
    requires { AllAsked ⟦<FileLeg<SharedMedium> as LegPart>⟧.model stripe.old steps.items }
    ensures headline { IfOk result (λ answers. NoneHalted answers.items
        → ActOnOneArray ⟦<FileLeg<SharedMedium> as LegPart>⟧.model steps.items answers.items
        stripe.old stripe.new) }
    ensures flushed { IfOk result (λ answers.
        Flushes ⟦<FileLeg<SharedMedium> as LegPart>⟧.model steps.items answers.items
        stripe.old stripe.new) }
{
    stripe.run(alloc, steps)
}
