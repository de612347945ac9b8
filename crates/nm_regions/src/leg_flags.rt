ghost use Rattle.std.specs.Prelude.{◌≡◌, ◌<◌, ◌≤◌, ◌^◌, length, map, replicate, All, Some, IsTrue};
ghost use Rattle.std.specs.Prelude.{IsFalse, IfOk};
ghost use Rattle.nm_regions.specs.LegFlags.{opened_leg, is_behind, next_behind, has_behind};
ghost use Rattle.nm_regions.specs.LegFlags.{dirty_marked, gone_out, attached, marked};
ghost use Rattle.nm_regions.specs.LegFlags.{marked_if_out, all_marked, set_aside, cleared};
ghost use Rattle.nm_regions.specs.Links.{behind_count, before_lowest, AreLinks, IsLastBelow};

use std::alloc::{AllocError, Global};
use std::marker::Model;

/// One leg's regions: whether the leg is out, and in which regions it is behind.
///
/// While the leg is not out its flags are only ever cleared. So links from each region behind to
/// the next one, made as the leg is attached, keep the lowest at hand. As a region is cleared, the
/// link to it leads on to the next one.
#[derive(Drop)]
pub(crate) struct LegFlags {
    out: bool,
    behind: Vec<bool>,
    /// How many regions are behind.
    count: u64,
    /// While the leg is not out, the lowest region behind; where none is, the number of regions.
    head: u32,
    /// While the leg is not out, for each region behind the next higher one; where none is, the
    /// number of regions.
    next: Vec<u32>,
}

impl Model for LegFlags {
    ghost use Rattle.nm_regions.specs.LegFlags.{LegRegions};
    ghost use Rattle.nm_regions.specs.Links.{AreLinked};

    ghost Value = { LegRegions };

    ghost view = { λ f. record { out = f.out; behind = f.behind.items } };

    ghost invariant = { λ f. AreLinked f.out f.behind.items f.count f.head f.next.items };
}

impl LegFlags {
    /// A leg of so many regions that is not out. Where it is not in sync all of them are behind.
    pub(crate) fn new(alloc: Global, regions: usize, in_sync: bool) -> Result<LegFlags, AllocError>
        requires few { regions ≤ 2 ^ 31 }
        ensures ok { IfOk result (λ leg. leg ≡ opened_leg regions in_sync) }
    {
        let behind = flags(alloc, regions, !in_sync)?;
        let next = no_links(alloc, regions)?;
        let mut leg = LegFlags {
            out: true,
            behind,
            count: if in_sync { 0 } else { regions as u64 },
            head: 0,
            next,
        };
        leg.attach();
        Ok(leg)
    }

    /// Whether the leg is out.
    pub(crate) fn is_out(&self) -> bool
        ensures { result ≡ self.now.out }
    {
        self.out
    }

    /// Whether this region is behind.
    pub(crate) fn is_behind(&self, region: usize) -> bool
        requires within { region < length self.now.behind }
        ensures { result ≡ is_behind region self.now }
    {
        self.behind[region]
    }

    /// How many regions are behind.
    pub(crate) fn behind_count(&self) -> u64
        ensures count { result ≡ behind_count self.now.behind }
        ensures most { result ≤ 2 ^ 31 }
    {
        self.count
    }

    /// Whether some region is behind.
    pub(crate) fn has_behind(&self) -> bool
        ensures { result ≡ has_behind self.now }
    {
        self.count > 0
    }

    /// The lowest region behind that is not below `from`, of a leg that is not out. Goes over the
    /// regions behind below `from`, and no others.
    pub(crate) fn next_behind(&self, from: u64) -> Option<u64>
        requires attached { IsFalse self.now.out }
        ensures { result ≡ next_behind from self.now }
    {
        let regions = self.behind.len();
        let next = match self.last_below(from.min(regions as u64) as usize) {
            Some(last) => self.next[last],
            None => self.head,
        };
        if (next as usize) < regions {
            Some(next as u64)
        } else {
            None
        }
    }

    /// The last region behind below `from`, of a leg that is not out. Goes over the regions behind
    /// below `from`.
    fn last_below(&self, from: usize) -> Option<usize>
        requires attached { IsFalse self.now.out }
        requires within { from ≤ length self.now.behind }
        ensures { IsLastBelow from self.now.behind result }
    {
        if self.head as usize >= from {
            return None;
        }
        let mut last = self.head as usize;
        while (self.next[last] as usize) < from {
            last = self.next[last] as usize;
        }
        Some(last)
    }

    /// The leg goes out, and falls behind in each region with a write under way, beside those that
    /// it is behind in. Goes over all regions.
    pub(crate) fn go_out(&mut self, writes: &[u16])
        requires places { length writes.now ≡ length self.old.behind }
        ensures { self.new ≡ gone_out writes.now self.old }
    {
        self.out = true;
        self.count = mark_dirty(&mut self.behind, writes);
    }

    /// The leg is not out any more. Its regions stay as they are. Goes over all regions.
    pub(crate) fn attach(&mut self)
        ensures { self.new ≡ attached self.old }
    {
        self.head = link(&self.behind, &mut self.next);
        self.out = false;
    }

    /// The region is behind from now on, on a leg that is out.
    pub(crate) fn mark(&mut self, region: usize)
        requires out { IsTrue self.old.out }
        requires within { region < length self.old.behind }
        ensures { self.new ≡ marked region self.old }
    {
        self.count += u64::from(!self.behind[region]);
        self.behind[region] = true;
    }

    /// The region is behind from now on, if the leg is out.
    pub(crate) fn mark_if_out(&mut self, region: usize)
        requires within { region < length self.old.behind }
        ensures { self.new ≡ marked_if_out region self.old }
    {
        if self.is_out() {
            self.mark(region);
        }
    }

    /// All regions are behind from now on, on a leg that is out. Goes over all regions.
    pub(crate) fn mark_all(&mut self)
        requires out { IsTrue self.old.out }
        ensures { self.new ≡ all_marked self.old }
    {
        self.count = self.behind.len() as u64;
        self.behind.fill(true);
    }

    /// The leg is out, and behind nowhere, until it is compared. Goes over all regions.
    pub(crate) fn set_aside(&mut self)
        ensures { self.new ≡ set_aside self.old }
    {
        self.out = true;
        self.count = 0;
        self.behind.fill(false);
    }

    /// The region is no longer behind, on a leg that is not out. Goes over the regions behind below
    /// it.
    pub(crate) fn clear(&mut self, region: usize)
        requires attached { IsFalse self.old.out }
        requires behind { IsTrue (is_behind region self.old) }
        ensures { self.new ≡ cleared region self.old }
    {
        let next = self.next[region];
        match self.last_below(region) {
            Some(last) => self.next[last] = next,
            None => self.head = next,
        }
        self.behind[region] = false;
        self.count -= 1;
    }
}

/// So many flags, all the same.
fn flags(alloc: Global, regions: usize, behind: bool) -> Result<Vec<bool>, AllocError>
    ensures { IfOk result (λ flags. flags.items ≡ replicate regions behind) }
{
    let mut flags = Vec::with_capacity(alloc, regions)?;
    flags.resize(regions, behind)?;
    Ok(flags)
}

/// So many links that are not made yet.
fn no_links(alloc: Global, regions: usize) -> Result<Vec<u32>, AllocError>
    ensures { IfOk result (λ links. length links.items ≡ regions) }
{
    let mut links = Vec::with_capacity(alloc, regions)?;
    links.resize(regions, 0)?;
    Ok(links)
}

/// Links each region that is behind to the next higher one, and gives the lowest.
fn link(behind: &[bool], next: &mut [u32]) -> u32
    requires places { length next.old ≡ length behind.now }
    requires few { length behind.now ≤ 2 ^ 31 }
    ensures links { AreLinks 0 behind.now next.new }
    ensures lowest { result ≡ before_lowest behind.now }
{
    let mut lowest = behind.len() as u32;
    let mut at = behind.len();
    while at > 0 {
        at -= 1;
        next[at] = lowest;
        if behind[at] {
            lowest = at as u32;
        }
    }
    lowest
}

/// Each region with a write under way is behind from now on. Gives how many are behind then.
fn mark_dirty(behind: &mut [bool], writes: &[u16]) -> u64
    requires places { length writes.now ≡ length behind.old }
    requires few { length behind.old ≤ 2 ^ 31 }
    ensures flags { behind.new ≡ dirty_marked writes.now behind.old }
    ensures count { result ≡ behind_count behind.new }
{
    let mut count = 0;
    let mut at = behind.len();
    while at > 0 {
        at -= 1;
        let is_behind = behind[at] | (writes[at] != 0);
        behind[at] = is_behind;
        count += u64::from(is_behind);
    }
    count
}

/// The legs of a table as it opens, one a flag.
pub(crate) fn open_legs(
    alloc: Global,
    regions: usize,
    in_sync: &[bool],
) -> Result<Vec<LegFlags>, AllocError>
    requires few { regions ≤ 2 ^ 31 }
    ensures ok { IfOk result (λ legs. legs.items ≡ map (opened_leg regions) in_sync.now) }
{
    let mut legs = Vec::with_capacity(alloc, in_sync.len())?;
    for named in in_sync {
        legs.push(LegFlags::new(alloc, regions, *named)?)?;
    }
    Ok(legs)
}

/// The region is behind from now on, for each of the legs that is out.
pub(crate) fn mark_where_out(legs: &mut [LegFlags], region: usize)
    requires within { All (λ leg. region < length leg.behind) legs.old }
    ensures { legs.new ≡ map (marked_if_out region) legs.old }
{
    for leg in legs.iter_mut() {
        leg.mark_if_out(region);
    }
}

/// Each of the legs is out, and behind nowhere, until it is compared.
pub(crate) fn set_aside_all(legs: &mut [LegFlags])
    ensures { legs.new ≡ map set_aside legs.old }
{
    for leg in legs.iter_mut() {
        leg.set_aside();
    }
}
