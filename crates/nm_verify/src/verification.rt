//! A verification of a mirror's legs: where it is, and what it found.
ghost use Rattle.std.specs.Prelude.{◌≡◌, ◌-◌, ◌^◌, ◌<◌};
ghost use Rattle.nm_rules.specs.Runs.{FitsRun};
ghost use Rattle.nm_verify.specs.Verification.{after_leg, after_run, after_write, begun, noted};

use crate::cursor::{Cursor, MOST_TRIES};
use crate::findings::{Findings, RegionFindings};
use crate::looks::Seen;
use crate::runs::{ends_region, run_length};
use nm_stripe::At;

/// Where a verification is, what it found so far in the region there, and what it found in those
/// that it has left behind.
///
/// It goes through the stripes, the runs of each and the legs in sync, by rising numbers, and never
/// back: so each region is left behind once.
#[derive(Clone, Copy, PartialEq, Eq)]
pub struct Verification {
    /// Where it is.
    pub at: Cursor,
    /// What it found so far in the region there.
    pub here: RegionFindings,
    /// What it found in the regions that it has left behind.
    pub found: Findings,
}

impl Verification {
    /// A verification that has compared nothing.
    pub fn new() -> Verification
        ensures { result ≡ begun }
    {
        Verification {
            at: Cursor::at_stripe(0),
            here: RegionFindings::new(),
            found: Findings::new(),
        }
    }

    /// The verification after a leg was compared, or given up.
    fn after_leg(self, leg: u8, seen: Seen) -> Verification
        ensures { result ≡ after_leg leg seen self }
    {
        Verification {
            at: self.at.after_leg(leg),
            here: self.here.with(seen),
            ..self
        }
    }

    /// The verification after a write came between looks at this leg: it looks again, 100 times at
    /// most.
    fn after_write(self, leg: u8) -> Verification
        ensures { result ≡ after_write leg self }
    {
        let at = self.at.after_write();
        if at.tries < MOST_TRIES {
            return Verification { at, ..self };
        }
        Verification {
            at: self.at.after_leg(leg),
            here: self.here.missed(),
            ..self
        }
    }

    /// The verification after a run of so many blocks, where no leg is left.
    fn after_run(self, place: At, count: u64) -> Verification
        requires run { FitsRun place self.at.block count }
        requires stripe { self.at.stripe < 2 ^ 32 - 1 }
        ensures { result ≡ after_run place count self }
    {
        let here = if self.at.leg == 0 {
            self.here.missed()
        } else {
            self.here
        };
        let at = self.at.after_run(place, count);
        if !ends_region(place, self.at.block, count) {
            return Verification { at, here, ..self };
        }
        let region = self.at.block / place.region;
        Verification {
            at,
            here: RegionFindings::new(),
            found: self.found.closed(self.at.stripe, region, here),
        }
    }

    /// The verification after these looks at two legs of a stripe of this place.
    pub fn noted(self, place: At, seen: Seen) -> Verification
        requires stripe { self.at.stripe < 2 ^ 32 - 1 }
        ensures { result ≡ noted place seen self }
    {
        let count = run_length(place, self.at.block);
        if count == 0 {
            return Verification {
                at: Cursor::at_stripe(self.at.stripe + 1),
                ..self
            };
        }
        match seen {
            Seen::NoRun | Seen::NoLeg => self.after_run(place, count),
            Seen::Written(leg) => self.after_write(leg),
            Seen::Unread(_, leg) | Seen::Same(leg) | Seen::Differs(leg) => {
                self.after_leg(leg, seen)
            }
        }
    }
}
