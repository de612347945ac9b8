//! The image that a start opens the legs by: a mirror's first one, or that of its superblocks.
ghost use Rattle.std.specs.Prelude.{◌≡◌, ◌<◌, IfOk, max, min};
ghost use Rattle.nm_starts.specs.StartImage.{GoesOnWith, GoesOnWithAll, IsFirstOf};
ghost use Rattle.nm_starts.specs.StartImage.{IsFirstOver, IsNewOf};
ghost use Rattle.nm_starts.specs.StartImage.{OpensBy, equal_legs, span_regions_for};

use crate::adding::{check_added, check_known};
use crate::ids::draw_mirror_id;
use crate::inside::check_unshrunk;
use crate::renewed_ids::{first_ids, renewed_ids, unknown_here};
use crate::starting::{master_or_first, named_master};
use crate::superblock_choice::{Choice, FoundLegs, choose, taken_legs};
use nm_assemble::{LegsHere, NewMirror, first_superblock};
use nm_commands::{OpeningSettings, Settings, Start};
use nm_geometry::{LegSet, Shape};
use nm_leg_files::LegFiles;
use nm_reports::StartFault;
use nm_superblock::{LegIdentities, Superblock};
use std::random::RandomSource;

/// How many regions the spans of one number have in all stripes: 64 MiB.
const SPAN_REGIONS: u32 = 1024;

// How many regions a span has in a mirror of so many stripes.
fn span_regions_for(stripes: u32) -> u32
    requires { 0 < stripes }
    ensures { result ≡ span_regions_for stripes }
{
    SPAN_REGIONS.div_ceil(stripes)
}

// A new mirror of this shape.
fn new_mirror<R: RandomSource>(
    rt: &R,
    shape: &Shape,
    lineage: u64,
    identities: &LegIdentities,
) -> Result<NewMirror, StartFault>
    ensures { IfOk result (IsNewOf shape.now lineage identities.now) }
{
    let leg_ids = match first_ids(rt, shape.legs) {
        Ok(leg_ids) => leg_ids,
        Err(fault) => return Err(fault),
    };
    let mirror = match draw_mirror_id(rt) {
        Ok(mirror) => mirror,
        Err(fault) => return Err(fault),
    };
    Ok(NewMirror {
        mirror,
        blocks: shape.blocks,
        region_blocks: shape.region as u32,
        span_regions: span_regions_for(shape.stripes),
        stripes: shape.stripes as u8,
        legs: shape.legs,
        leg_ids,
        lineage,
        identities: *identities,
    })
}

// The legs that are taken to be equal to the master: all that are here, where none was named as the
// master or the settings say that they are equal.
fn equal_legs(named: Option<u8>, start: Start, here: &LegSet) -> LegSet
    ensures { result ≡ equal_legs named start here.now }
{
    if named.is_none() || start == Start::Equal {
        *here
    } else {
        LegSet::none()
    }
}

// The image of a mirror's first superblocks.
fn first_image<R: RandomSource>(
    rt: &R,
    opening: &OpeningSettings<'_>,
    shape: &Shape,
    legs: &LegsHere,
    lineage: u64,
) -> Result<Superblock, StartFault>
    ensures { IfOk result (IsFirstOf opening.now shape.now legs.now lineage) }
{
    let new = match new_mirror(rt, shape, lineage, &legs.identities) {
        Ok(new) => new,
        Err(fault) => return Err(fault),
    };
    let named = named_master(opening);
    let equal = equal_legs(named, opening.start, &legs.here);
    Ok(first_superblock(&new, master_or_first(named) as usize, &equal))
}

// The image of the first superblocks of the mirror that the settings ask for.
fn first_for<R: RandomSource>(
    rt: &R,
    settings: &Settings<'_>,
    files: &LegFiles,
    seen: &FoundLegs,
    lineage: u64,
) -> Result<Superblock, StartFault>
    ensures { IfOk result (IsFirstOver files.now settings.now seen.now lineage) }
{
    check_added(settings, false)?;
    // Without superblocks nobody knows what a missing leg has.
    if let Some((leg, why)) = files.missing() {
        return Err(StartFault::CannotOpen(leg, why));
    }
    let Some(shape) = files.shape(settings.mirror.stripes, settings.mirror.history) else {
        return Err(StartFault::Memory);
    };
    first_image(rt, &settings.opening, &shape, &seen.legs, lineage)
}

// Refuses legs beyond the first so many, which superblocks know, where they were not added, or are
// missing.
fn check_beyond(settings: &Settings<'_>, files: &LegFiles, known: u8) -> Result<(), StartFault> {
    check_known(settings, known)?;
    for leg in known..settings.mirror.legs.len().min(8) as u8 {
        files.check_named(Some(leg))?;
    }
    Ok(())
}

// How many legs a mirror has that knows so many, and of which so many are named.
fn all_legs(known: u8, named: usize) -> u8
    ensures { result ≡ max known (min named 8) }
{
    known.max(named.min(8) as u8)
}

// The image with new ids for the legs that are here and that it knows in no stripe, and with so many
// legs at least.
fn with_named<R: RandomSource>(
    rt: &R,
    image: &Superblock,
    here: &LegSet,
    named: usize,
) -> Result<Superblock, StartFault>
    ensures { IfOk result (GoesOnWithAll named here.now image.now) }
{
    let unknown = unknown_here(image, here);
    let leg_ids = match renewed_ids(rt, &image.leg_ids, &unknown) {
        Ok(leg_ids) => leg_ids,
        Err(fault) => return Err(fault),
    };
    let legs = all_legs(image.legs, named);
    Ok(Superblock {
        leg_ids,
        legs,
        ..*image
    })
}

// The image that superblocks have, with the legs that are added to those that it knows.
fn with_all_legs<R: RandomSource>(
    rt: &R,
    settings: &Settings<'_>,
    files: &LegFiles,
    seen: &FoundLegs,
    image: Superblock,
) -> Result<Superblock, StartFault>
    ensures { IfOk result (GoesOnWith settings.now seen.now image) }
{
    check_unshrunk(&settings.opening)?;
    if settings.opening.force_master.is_none() {
        check_beyond(settings, files, image.legs)?;
    }
    let taken = taken_legs(&settings.opening, seen);
    with_named(rt, &image, &taken, settings.mirror.legs.len())
}

/// The image that the legs are opened by, and whether it is the first of a mirror.
pub fn image_for<R: RandomSource>(
    rt: &R,
    settings: &Settings<'_>,
    files: &LegFiles,
    seen: &FoundLegs,
    lineage: u64,
) -> Result<(Superblock, bool), StartFault>
    ensures { IfOk result (OpensBy files.now settings.now seen.now lineage) }
{
    match choose(&settings.opening, seen, lineage)? {
        Choice::First => Ok((first_for(rt, settings, files, seen, lineage)?, true)),
        Choice::Image(image) => Ok((with_all_legs(rt, settings, files, seen, image)?, false)),
    }
}
