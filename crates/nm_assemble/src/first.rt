//! The images of starts that no superblock decides: a first one, and one that a person forced.
ghost use Rattle.std.specs.Prelude.{◌≡◌};
ghost use Rattle.nm_assemble.specs.Image.{IsFirst, IsForced, IsFork, NamesAlone};
ghost use Rattle.nm_assemble.specs.StripeSets.{HasThese};
ghost use Rattle.nm_superblock.specs.Spans.{IsUnmarked};

use crate::own::{LegsHere, recorded};
use crate::stripe_sets::put;
use nm_geometry::LegSet;
use nm_superblock::{LegIdentities, LegSets, SpanMap, Superblock};

/// A mirror that has no superblock yet.
#[derive(Clone, Copy, PartialEq, Eq)]
pub struct NewMirror {
    /// Its id, drawn at random.
    pub mirror: u128,
    /// Its blocks.
    pub blocks: u64,
    /// The blocks of a region.
    pub region_blocks: u32,
    /// The regions of a span.
    pub span_regions: u32,
    /// Its stripes.
    pub stripes: u8,
    /// Its legs.
    pub legs: u8,
    /// For each leg its id, drawn at random; 0 where there is no leg.
    pub leg_ids: [u64; 8],
    /// The id of its first lineage, drawn at random.
    pub lineage: u64,
    /// The identities of its legs' files.
    pub identities: LegIdentities,
}

/// The first image of a mirror: this leg is the master, and these others are taken to be equal to
/// it.
pub fn first_superblock(new: &NewMirror, master: usize, equal: &LegSet) -> Superblock
    ensures { IsFirst new.now master equal.now result }
{
    Superblock {
        version: 3,
        generation: 0,
        mirror: new.mirror,
        blocks: new.blocks,
        region_blocks: new.region_blocks,
        span_regions: new.span_regions,
        stripes: new.stripes,
        legs: new.legs,
        leg: 0,
        clean: false,
        leg_ids: new.leg_ids,
        seen: [0; 8],
        sets: sets_alone(new.stripes, master, equal),
        lineages: [new.lineage, 0, 0, 0],
        forks: [0; 4],
        marked: no_marks(),
        identities: new.identities,
        changed: [0; 8],
    }
}

/// The image of a start that a person forced on this leg, whatever superblocks say: a new lineage,
/// in which no other leg is known. Each leg that is here has the file that it has now.
pub fn forced_image(newest: &Superblock, leg: usize, lineage: u64, legs: &LegsHere) -> Superblock
    ensures { IsForced leg lineage legs.now newest.now result }
{
    let fork = begin_lineage(newest, lineage);
    Superblock {
        version: 3,
        leg: 0,
        clean: false,
        sets: sets_alone(newest.stripes, leg, &LegSet::none()),
        marked: no_marks(),
        identities: recorded(&newest.identities, &legs.here, &legs.identities),
        changed: [0; 8],
        ..fork
    }
}

/// The image in a lineage of its own.
pub fn begin_lineage(image: &Superblock, lineage: u64) -> Superblock
    ensures fork { IsFork lineage image.now result }
    ensures others { result
        ≡ record image.now { lineages = result.lineages; forks = result.forks } }
{
    let [parent, second, third, _] = image.lineages;
    let [from, second_from, third_from, _] = image.forks;
    let mut new = *image;
    new.lineages = [lineage, parent, second, third];
    new.forks = [image.generation, from, second_from, third_from];
    new
}

// No span is marked.
fn no_marks() -> SpanMap
    ensures { IsUnmarked 16384 result }
{
    SpanMap { bytes: [0; 2048] }
}

// The sets of so many stripes, in each of which this leg is named alone.
fn sets_alone(stripes: u8, master: usize, equal: &LegSet) -> LegSets
    ensures { NamesAlone 64 stripes master equal.now result }
{
    let named = alone(master);
    let others = equal.without(&named);
    let mut sets = LegSets { bytes: [0; 256] };
    'stripes: for stripe in 0..64 {
        if stripe < stripes as usize {
            put(&mut sets, stripe, &named, &others, &others);
        }
    }
    sets
}

// The set of this leg alone.
fn alone(master: usize) -> LegSet
    ensures { HasThese 8 (λ leg. leg ≡ master) result }
{
    let mut set = LegSet::none();
    'legs: for leg in 0..8 {
        set.set(leg, leg == master);
    }
    set
}
