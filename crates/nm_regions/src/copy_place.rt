ghost use Rattle.std.specs.Prelude.{◌≡◌, ◌+◌, ◌<◌, ◌^◌, IfSome};
ghost use Rattle.nm_regions.specs.Table.{copies, has_copied, copied};
ghost use Rattle.nm_regions.specs.Changes.{copy_but_of, moved};

/// Where the open copy stands.
#[derive(Clone, Copy, PartialEq, Eq)]
pub struct CopyPlace {
    /// The leg that is copied to.
    pub leg: u8,
    /// The region that is copied.
    pub region: u64,
    /// How many blocks of the region are copied.
    pub cursor: u64,
}

/// Whether the copy is in this region.
pub(crate) fn copies(copy: Option<CopyPlace>, region: u64) -> bool
    ensures { result ≡ copies region copy }
{
    match copy {
        Some(copy) => copy.region == region,
        None => false,
    }
}

/// Whether the copy is of this leg and region, and has passed this place in it.
#[inline(always)]
pub(crate) fn has_copied(copy: Option<CopyPlace>, leg: u8, region: u64, place: u64) -> bool
    ensures { result ≡ has_copied leg region place copy }
{
    match copy {
        Some(copy) => copy.leg == leg && copy.region == region && place < copy.cursor,
        None => false,
    }
}

/// How many blocks of its region the copy of this leg has copied.
pub(crate) fn blocks_copied(copy: Option<CopyPlace>, leg: u8) -> u64
    ensures { result ≡ copied leg copy }
{
    match copy {
        Some(copy) if copy.leg == leg => copy.cursor,
        _ => 0,
    }
}

/// The copy, unless it is of this leg.
pub(crate) fn copy_but_of(copy: Option<CopyPlace>, leg: u8) -> Option<CopyPlace>
    ensures { result ≡ copy_but_of leg copy }
{
    match copy {
        Some(copy) if copy.leg != leg => Some(copy),
        _ => None,
    }
}

/// The copy once so many more blocks are copied.
pub(crate) fn move_on(copy: Option<CopyPlace>, blocks: u64) -> Option<CopyPlace>
    requires { IfSome copy (λ c. c.cursor + blocks < 2 ^ 64) }
    ensures { result ≡ moved blocks copy }
{
    match copy {
        Some(copy) => Some(CopyPlace {
            leg: copy.leg,
            region: copy.region,
            cursor: copy.cursor + blocks,
        }),
        None => None,
    }
}
