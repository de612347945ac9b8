//! Since when a leg is out, and why.

use crate::elapsed::present_second;
use crate::leg_trouble::Trouble;
use std::sync::{Mutex, Wait};
use std::time::Clock;

/// Since when a leg is out, and by which call.
#[derive(Clone, Copy)]
pub struct Outage {
    /// The second, counted from 1970 on; 0 where the clock cannot be read.
    pub since: u64,
    /// The call that failed last as it went out, if one did.
    pub why: Option<Trouble>,
}

/// The outage of a leg, if it is out, for whoever asks.
#[derive(Drop)]
pub struct LastOutage {
    known: Mutex<Option<Outage>>,
}

impl LastOutage {
    /// The leg is not out.
    pub fn none() -> LastOutage {
        LastOutage {
            known: Mutex::new(None),
        }
    }

    /// The leg goes out, here or in more stripes than before, by this call where one failed.
    pub fn begin<R: Wait + Clock>(&self, rt: &R, why: Option<Trouble>) {
        let now = present_second(rt);
        let mut known = self.known.lock(rt);
        *known = match &*known {
            Some(outage) => Some(Outage {
                since: outage.since,
                why: why.or(outage.why),
            }),
            None => Some(Outage { since: now, why }),
        };
    }

    /// The leg is out no more.
    pub fn end<R: Wait>(&self, rt: &R) {
        *self.known.lock(rt) = None;
    }

    /// The outage, if the leg is out.
    pub fn known<R: Wait>(&self, rt: &R) -> Option<Outage> {
        *self.known.lock(rt)
    }
}
