ghost use Rattle.std.specs.Prelude.{◌≡◌, length, is_ok};
ghost use Rattle.nm_leg.specs.Leg.{IsRun, ReadsLeg, WritesLeg, SyncsLeg};

use crate::{LegFault, LegPart};
use std::thread::yield_now;

/// Says whether the calls of a leg are held.
pub trait Hold: Drop {
    /// Whether a call has still to wait.
    fn is_held(&self) -> bool;
}

/// A leg for tests that asks a hold before each call, and waits while it says so, but for a stated
/// number of turns at most.
///
/// It promises what the leg inside promises. A turn is one question and one yield of the thread.
#[derive(Drop)]
pub struct HoldLeg<L: LegPart, H: Hold> {
    leg: L,
    hold: H,
    turns: u32,
}

impl<L: LegPart, H: Hold> HoldLeg<L, H> {
    /// A leg round this one, whose calls wait for this hold, so many turns at most.
    pub fn new(leg: L, hold: H, turns: u32) -> Self
        ensures leg { result.leg ≡ leg }
        ensures hold { result.hold ≡ hold }
        ensures turns { result.turns ≡ turns }
    {
        HoldLeg { leg, hold, turns }
    }

    /// The leg inside.
    pub fn inner(&self) -> &L
        ensures { result.now ≡ self.now.leg }
    {
        &self.leg
    }

    /// What holds the calls.
    pub fn hold(&self) -> &H
        ensures { result.now ≡ self.now.hold }
    {
        &self.hold
    }

    /// Waits while the hold says so.
    fn wait(&self) {
        for _ in 0..self.turns {
            if !self.hold.is_held() {
                return;
            }
            yield_now();
        }
    }
}

impl<L: LegPart, H: Hold> LegPart for HoldLeg<L, H> {
    ghost honest = { L.honest };

    ghost model = { λ held. L.model held.leg };

    ghost same_length = { λ held. L.same_length held.leg };

    ghost marked_each = { λ held. L.marked_each held.leg };

    ghost durable_elsewhere = { λ held. L.durable_elsewhere held.leg };

    fn len(&self) -> u64 {
        self.leg.len()
    }

    fn read(&mut self, at: u64, into: &mut [u8]) -> Result<(), LegFault>
        requires { IsRun at (length (L.model self.old.leg).contents) into.old }
        ensures reads { ReadsLeg L.honest (is_ok result) at (L.model self.old.leg)
            (L.model self.new.leg) into.new }
    {
        self.wait();
        self.leg.read(at, into)
    }

    fn write(&mut self, at: u64, bytes: &[u8]) -> Result<(), LegFault>
        requires { IsRun at (length (L.model self.old.leg).contents) bytes.now }
        ensures writes { WritesLeg L.honest (is_ok result) at bytes.now (L.model self.old.leg)
            (L.model self.new.leg) }
    {
        self.wait();
        self.leg.write(at, bytes)
    }

    fn sync(&mut self) -> Result<(), LegFault>
        ensures syncs { SyncsLeg L.honest (is_ok result) (L.model self.old.leg)
            (L.model self.new.leg) }
    {
        self.wait();
        self.leg.sync()
    }

    fn is_unsynced(&self, at: u64, count: u64) -> bool {
        self.leg.is_unsynced(at, count)
    }

    fn faults(&self) -> u64 {
        self.leg.faults()
    }
}
