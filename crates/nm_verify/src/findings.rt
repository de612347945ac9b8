//! What a verification found.
ghost use Rattle.std.specs.Prelude.{◌≡◌};
ghost use Rattle.nm_verify.specs.Findings.{closed, counted, first_told, is_compared};
ghost use Rattle.nm_verify.specs.Findings.{missed, nothing, nothing_found, seen_in, told};

use crate::looks::Seen;

/// How many regions are told one by one, of those that differ, and of those that could not be read.
pub const MOST_TOLD: usize = 16;

/// A region, and the leg for which it is told.
#[derive(Clone, Copy, PartialEq, Eq)]
pub struct RegionPlace {
    /// The stripe's number.
    pub stripe: u32,
    /// The region's number in the stripe.
    pub region: u64,
    /// The leg's number.
    pub leg: u8,
}

/// What was found so far in the region that is compared.
#[derive(Clone, Copy, PartialEq, Eq)]
pub struct RegionFindings {
    /// The first leg that differs from the lowest leg in sync.
    pub differs: Option<u8>,
    /// The first leg of which a read failed.
    pub unread: Option<u8>,
    /// Whether something was not compared, since writes came between again and again, or since
    /// fewer than two legs were in sync.
    pub is_missed: bool,
}

/// What a verification found in the regions that it has left behind: each is counted once in each
/// of the counts that it belongs to.
#[derive(Clone, Copy, PartialEq, Eq)]
pub struct Findings {
    /// How many regions were compared as a whole, or differ.
    pub compared: u64,
    /// How many regions differ.
    pub differing: u64,
    /// In how many regions a read failed.
    pub unread: u64,
    /// In how many regions something was not compared.
    pub missed: u64,
    /// The first regions that differ, as many as there are, up to 16.
    pub places: [RegionPlace; MOST_TOLD],
    /// The first regions in which a read failed, as many as there are, up to 16.
    pub unread_places: [RegionPlace; MOST_TOLD],
}

/// No place.
const NOWHERE: RegionPlace = RegionPlace {
    stripe: 0,
    region: 0,
    leg: 0,
};

/// The count, one higher where that is so.
fn counted(is_so: bool, count: u64) -> u64
    ensures { result ≡ counted is_so count }
{
    if is_so {
        count.saturating_add(1)
    } else {
        count
    }
}

/// The places with this one after so many, where a leg is told and there is room.
fn told(
    leg: Option<u8>,
    stripe: u32,
    region: u64,
    count: u64,
    places: [RegionPlace; MOST_TOLD],
) -> [RegionPlace; MOST_TOLD]
    ensures { result ≡ told leg stripe region count places }
{
    let mut places = places;
    if let Some(leg) = leg {
        if count < MOST_TOLD as u64 {
            places[count as usize] = RegionPlace {
                stripe,
                region,
                leg,
            };
        }
    }
    places
}

/// The leg that is told, which is this one where none was.
fn first_told(told: Option<u8>, leg: u8) -> Option<u8>
    ensures { result ≡ first_told told leg }
{
    match told {
        Some(first) => Some(first),
        None => Some(leg),
    }
}

impl RegionFindings {
    /// Of a region of which nothing was compared.
    pub fn new() -> RegionFindings
        ensures { result ≡ nothing }
    {
        RegionFindings {
            differs: None,
            unread: None,
            is_missed: false,
        }
    }

    /// What is found where something was not compared.
    pub(crate) fn missed(self) -> RegionFindings
        ensures { result ≡ missed self }
    {
        RegionFindings {
            is_missed: true,
            ..self
        }
    }

    /// Whether it was compared as a whole, or differs.
    fn is_compared(self) -> bool
        ensures { result ≡ is_compared self }
    {
        self.differs.is_some() || (self.unread.is_none() && !self.is_missed)
    }

    /// What is found with these looks at two legs. The first leg that is told stays.
    pub(crate) fn with(self, seen: Seen) -> RegionFindings
        ensures { result ≡ seen_in seen self }
    {
        match seen {
            Seen::Differs(leg) => RegionFindings {
                differs: first_told(self.differs, leg),
                ..self
            },
            Seen::Unread(failed, _) => RegionFindings {
                unread: first_told(self.unread, failed),
                ..self
            },
            _ => self,
        }
    }
}

impl Findings {
    /// Before anything was compared.
    pub fn new() -> Findings
        ensures { result ≡ nothing_found }
    {
        Findings {
            compared: 0,
            differing: 0,
            unread: 0,
            missed: 0,
            places: [NOWHERE; MOST_TOLD],
            unread_places: [NOWHERE; MOST_TOLD],
        }
    }

    /// What was found once this region, of this stripe, is left behind.
    pub(crate) fn closed(self, stripe: u32, region: u64, here: RegionFindings) -> Findings
        ensures { result ≡ closed stripe region here self }
    {
        Findings {
            compared: counted(here.is_compared(), self.compared),
            differing: counted(here.differs.is_some(), self.differing),
            unread: counted(here.unread.is_some(), self.unread),
            missed: counted(here.is_missed, self.missed),
            places: told(here.differs, stripe, region, self.differing, self.places),
            unread_places: told(here.unread, stripe, region, self.unread, self.unread_places),
        }
    }
}
