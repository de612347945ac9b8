//! What the gate of a stripe takes the durable superblock to say, once an image is saved.
ghost use Rattle.std.specs.Prelude.{◌≡◌, ◌<◌, ◌≤◌, min, IfOk, length};
ghost use Rattle.nm_plans.specs.Plan.{AreDurablesOf, IsDurableOf, spans_of};

use crate::sets::marks_in;
use nm_gate::DurableState;
use nm_geometry::LegSet;
use nm_leg::LegPart;
use nm_mirror::MOST_SPANS;
use nm_stripe::{At, Stripe};
use nm_superblock::Superblock;
use std::alloc::{AllocError, Global};

// How many spans a stripe at this place has, each of so many regions.
fn spans_of(place: &At, span: u64) -> usize
    requires { 0 < span }
    ensures { result ≡ spans_of place.now span }
{
    let regions = place.blocks.div_ceil(place.region.max(1));
    regions.div_ceil(span).min(MOST_SPANS as u64) as usize
}

/// What the gate of this stripe, of so many spans, takes the durable superblock to say.
pub fn durable_state(
    alloc: Global,
    image: &Superblock,
    stripe: usize,
    spans: usize,
) -> Result<DurableState, AllocError>
    requires stripe { stripe < 64 }
    requires spans { spans ≤ 16384 }
    ensures { IfOk result (λ state. IsDurableOf image.now stripe spans state) }
{
    let named = image.sets.in_sync(stripe);
    let marks = marks_in(alloc, &image.marked, spans)?;
    Ok(DurableState::new(
        LegSet::of_bits(named),
        LegSet::of_bits(named | image.sets.candidates(stripe)),
        LegSet::of_bits(image.sets.partial(stripe)),
        marks,
        u64::from(image.span_regions.max(1)),
    ))
}

/// The same for each of these stripes, of which the first 64 have gates.
pub fn durable_states<L: LegPart>(
    alloc: Global,
    image: &Superblock,
    stripes: &[Stripe<L>],
) -> Result<Vec<DurableState>, AllocError>
    ensures { IfOk result (λ states.
        AreDurablesOf (min (length stripes.now) 64) image.now stripes.now states.items) }
{
    let span = u64::from(image.span_regions.max(1));
    let mut states = Vec::new(alloc);
    'stripes: for number in 0..stripes.len().min(64) {
        let spans = spans_of(&stripes[number].place(), span);
        states.push(durable_state(alloc, image, number, spans)?)?;
    }
    Ok(states)
}
