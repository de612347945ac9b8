//! When the copier takes its next turn.

use crate::copied_mirror::CopiedMirror;
use crate::copier::Copier;
use nm_lanes::Gate;
use nm_leg::LegPart;
use nm_mirror::{Naming, Pass};
use nm_reports::microseconds_since;
use nm_service::{CopyTurn, rest_after};
use std::sync::Wait;
use std::thread;
use std::time::{Clock, Duration, Instant};

/// How many bytes a step of a copy counts for: one of two reads a run of 64 KiB, the other one
/// writes it.
const STEP_BYTES: u32 = 32 << 10;

/// How many microseconds a copier rests at most before its thread looks after other things.
const MOST_NAP: u64 = 100_000;

/// When the copier takes its next turn: at the rate that is set, or as clients leave it time.
#[derive(Drop)]
pub struct CopyPacer {
    // How many microseconds are left to rest.
    rest: u64,
    // How many calls clients had made as the last turn ended.
    calls: u64,
}

impl CopyPacer {
    /// The first turn is now.
    pub fn new() -> CopyPacer {
        CopyPacer { rest: 0, calls: 0 }
    }

    /// Rests for a part of what is left, a tenth of a second at most. Whether something was left.
    pub fn rest<R: Wait + Clock>(&mut self, rt: &R) -> bool {
        let nap = self.rest.min(MOST_NAP);
        if nap == 0 {
            return false;
        }
        thread::sleep(rt, Duration::from_micros(nap));
        self.rest = self.rest.saturating_sub(nap);
        true
    }

    /// Takes a turn at copying. Whether it did anything.
    pub fn turn<R: Wait + Clock, L: LegPart, G: Gate + Drop, J: Naming>(
        &mut self,
        rt: &R,
        copier: &mut Copier,
        copied: &CopiedMirror<'_, L, G, J>,
    ) -> bool {
        let begun = Instant::now(rt).ok();
        let steps = copier.turn(rt, copied.mirror, copied.orders);
        if steps == 0 {
            return false;
        }
        self.rest_after(rt, steps, &begun, copied);
        true
    }

    /// Takes a turn at comparing legs, as copies take theirs. Whether it did anything.
    pub fn verify<R: Wait + Clock, L: LegPart, G: Gate + Drop, J: Naming>(
        &mut self,
        rt: &R,
        copier: &mut Copier,
        copied: &CopiedMirror<'_, L, G, J>,
        pass: &mut Pass<L, J>,
        now: u64,
    ) -> bool {
        let begun = Instant::now(rt).ok();
        let runs = copier.verify(rt, copied, pass, now);
        if runs == 0 {
            return false;
        }
        self.rest_after(rt, runs.saturating_mul(2), &begun, copied);
        true
    }

    // Rests after so many steps since this moment.
    fn rest_after<R: Clock, L: LegPart, G: Gate + Drop, J: Naming>(
        &mut self,
        rt: &R,
        steps: u32,
        begun: &Option<Instant>,
        copied: &CopiedMirror<'_, L, G, J>,
    ) {
        let calls = copied.shared.state.places.calls();
        let turn = CopyTurn {
            bytes: steps.saturating_mul(STEP_BYTES),
            took: microseconds_since(rt, begun),
            is_shared: calls != self.calls,
        };
        self.calls = calls;
        self.rest = rest_after(copied.orders.rate(), &turn);
    }
}
