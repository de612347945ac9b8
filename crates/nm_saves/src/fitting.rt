//! Each number of a superblock fits its field. Nothing is computed: the contracts are the facts.
ghost use Rattle.std.specs.Prelude.{◌≡◌, ◌<◌, ◌^◌, length};
ghost use Rattle.nm_superblock.specs.Bounds.{AreNumbers, IsInBounds, IsSuperblock};

use nm_superblock::Superblock;

// The numbers of a table.
fn table_fits(numbers: &[u64])
    ensures { AreNumbers (length numbers.now) numbers.now }
{
    let _count = numbers.len();
}

// The generation and the mirror's id.
fn names_fit(generation: u64, mirror: u128)
    ensures { (generation < 2 ^ 64) × (mirror < 2 ^ 128) }
{}

// The sizes of a region and of a span.
fn sizes_fit(region: u32, span: u32)
    ensures { (region < 2 ^ 32) × (span < 2 ^ 32) }
{}

// The sets.
fn sets_fit(sets: &[u8; 256])
    ensures { length sets.now ≡ 256 }
{}

// The version.
fn version_fits(version: u8)
    ensures { version < 2 ^ 8 }
{}

// The marks.
fn marks_fit(marked: &[u8; 2048])
    ensures { length marked.now ≡ 2048 }
{}

// A superblock within its bounds can be kept.
pub(crate) fn all_fit(superblock: &Superblock)
    requires { IsInBounds superblock.now }
    ensures { IsSuperblock superblock.now }
{
    let value = *superblock;
    names_fit(value.generation, value.mirror);
    sizes_fit(value.region_blocks, value.span_regions);
    table_fits(&value.leg_ids);
    table_fits(&value.seen);
    table_fits(&value.lineages);
    table_fits(&value.forks);
    sets_fit(&value.sets.bytes);
    marks_fit(&value.marked.bytes);
    table_fits(&value.identities.words);
    table_fits(&value.changed);
    version_fits(value.version);
}
