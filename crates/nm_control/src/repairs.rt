//! What a verification that repairs a leg has written anew.

use nm_mirror::{Cursor, Findings, RegionPlace};

/// How often the repair of a run is tried that another write came before.
const MOST_TRIES: u32 = 100;

/// What a verification that repairs a leg has written anew so far.
#[derive(Clone, Copy, PartialEq, Eq)]
pub struct Repairs {
    leg: u8,
    // The regions that were written anew, as those that differ are kept.
    written: Findings,
    last: Option<RegionPlace>,
    // The run that was tried last, by its stripe and first block, and how often.
    tried: Option<(u32, u64)>,
    tries: u32,
}

impl Repairs {
    /// Nothing was repaired yet on this leg.
    pub fn of(leg: u8) -> Repairs {
        Repairs {
            leg,
            written: Findings::new(),
            last: None,
            tried: None,
            tries: 0,
        }
    }

    /// The leg that is repaired.
    pub fn leg(&self) -> u8 {
        self.leg
    }

    /// The regions that were written anew, as a verification finds those that differ.
    pub fn written(&self) -> &Findings {
        &self.written
    }

    /// Whether the run there is to be repaired once more. One that was written, and differs all the
    /// same, is not.
    pub fn tries_again(&mut self, at: Cursor) -> bool {
        let run = Some((at.stripe, at.block));
        if self.tried != run {
            self.tried = run;
            self.tries = 0;
        }
        self.tries = self.tries.saturating_add(1);
        self.tries <= MOST_TRIES
    }

    /// Some of this region was written anew, by the repair that was tried last.
    pub fn note(&mut self, stripe: u32, region: u64) {
        self.tries = MOST_TRIES;
        let leg = self.leg;
        let place = RegionPlace {
            stripe,
            region,
            leg,
        };
        if self.last == Some(place) {
            return;
        }
        self.last = Some(place);
        let count = self.written.differing;
        if let Some(next) = self.written.places.get_mut(count as usize) {
            *next = place;
        }
        self.written.differing = count.saturating_add(1);
    }
}
