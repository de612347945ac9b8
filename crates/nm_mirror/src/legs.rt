//! Takes a leg out of every stripe.
ghost use Rattle.std.specs.Prelude.{◌≡◌, ◌+◌, ◌-◌, ◌^◌, ◌<◌, length, None, IsSome};
ghost use Rattle.nm_leg.specs.Leg.{leg_type};
ghost use Rattle.nm_mirror.specs.Counted.{FailsEach, FailsIn, fail_answer};
ghost use Rattle.nm_mirror.specs.Counts.{failed_so, fails};
ghost use Rattle.nm_mirror.specs.Holding.{with_stripe};
ghost use Rattle.nm_mirror.specs.OwnNotes.{NotesFail};
ghost use Rattle.nm_rules.specs.Failing.{GoesOut, fail_cause};

use crate::counts::FailCounts;
use crate::held::Held;
use crate::mirror::Mirror;
use crate::trail::LogPass;
use nm_book::Naming;
use nm_geometry::MOST_LEGS;
use nm_lanes::{CallKind, Gate, StepKind};
use nm_leg::LegPart;
use nm_stripe::{LegState, Refusal, Stripe};
use std::sync::Wait;

/// Takes the leg out of this stripe, and counts what came of it.
fn fail_in<L: LegPart, J: Naming>(
    held: &mut Held<L, J>,
    pass: &mut LogPass<L, J>,
    leg: u8,
    counts: &mut FailCounts,
)
    requires leg { leg < length held.old.gated.stripe.legs }
    requires room { fails counts.old < 2 ^ 64 - 1 }
    ensures counts { counts.new ≡ failed_so (fail_cause held.old.gated.stripe leg) counts.old }
    ensures one { fails counts.new ≡ fails counts.old + 1 }
    ensures fails { fail_cause held.old.gated.stripe leg ≡ None
        → GoesOut held.old.gated.stripe held.new.gated.stripe leg }
    ensures stays { IsSome (fail_cause held.old.gated.stripe leg)
        → held.new.gated.stripe ≡ held.old.gated.stripe }
    ensures others { held.new ≡ with_stripe held.new.gated.stripe held.old }
    ensures notes { NotesFail (leg_type L.model L.honest) leg (held.old.gated, held.new.gated)
        pass.old pass.new }
{
    match held.fail_leg(pass, leg) {
        Ok(_) => counts.failed += 1,
        Err(Refusal::Stopped) => counts.stopped += 1,
        Err(Refusal::AlreadyOut) => counts.out += 1,
        Err(_) => counts.last += 1,
    }
}

/// The same in a stripe that may have no such leg, which it tells as out: then the pass looks.
fn fail_if_there<L: LegPart, J: Naming>(
    held: &mut Held<L, J>,
    pass: &mut LogPass<L, J>,
    leg: u8,
    counts: &mut FailCounts,
)
    requires room { fails counts.old < 2 ^ 64 - 1 }
    ensures counts { counts.new ≡ failed_so (fail_answer held.old.gated.stripe leg) counts.old }
    ensures one { fails counts.new ≡ fails counts.old + 1 }
    ensures fails { fail_answer held.old.gated.stripe leg ≡ None
        → GoesOut held.old.gated.stripe held.new.gated.stripe leg }
    ensures stays { IsSome (fail_answer held.old.gated.stripe leg)
        → held.new.gated.stripe ≡ held.old.gated.stripe }
    ensures others { held.new ≡ with_stripe held.new.gated.stripe held.old }
    ensures notes { NotesFail (leg_type L.model L.honest) leg (held.old.gated, held.new.gated)
        pass.old pass.new }
{
    if (leg as usize) < held.gated.stripe.legs() {
        fail_in(held, pass, leg, counts);
    } else if held.gated.stripe.is_stopped() {
        counts.stopped += 1;
        held.look(pass);
    } else {
        counts.out += 1;
        held.look(pass);
    }
}

/// Whether the leg joins the stripe, or is its master while another one joins.
fn spoils_copies<L: LegPart>(stripe: &Stripe<L>, leg: u8) -> bool
    requires { leg < length stripe.now.legs }
{
    if stripe.state(leg) == LegState::Joining {
        return true;
    }
    if stripe.master() != leg {
        return false;
    }
    let count = stripe.legs().min(MOST_LEGS as usize);
    for other in 0..count as u8 {
        if stripe.state(other) == LegState::Joining {
            return true;
        }
    }
    false
}

impl<L: LegPart, G: Gate + Drop, J: Naming> Mirror<L, G, J> {
    /// Takes the leg out of every stripe, and counts what came of it. It waits for no superblock,
    /// but wants the loss to be saved. This pass notes each.
    pub fn fail_leg<R: Wait>(&self, rt: &R, pass: &mut LogPass<L, J>, leg: u8) -> FailCounts
        requires { leg < self.now.shape.legs }
        ensures all { fails result ≡ self.now.shape.stripes }
        ensures each { FailsEach (leg_type L.model L.honest) leg self.now.shape.stripes
            pass.old (result, pass.new) }
    {
        let mut counts = FailCounts {
            failed: 0,
            last: 0,
            out: 0,
            stopped: 0,
        };
        for stripe in 0..self.shape.stripes {
            self.fail_one(rt, pass, stripe, leg, &mut counts);
            self.pass_gate(CallKind::FailLeg, stripe, StepKind::Fail);
        }
        self.want_save(rt);
        counts
    }

    /// Takes the leg out of the stripe of this number, and counts what came of it.
    fn fail_one<R: Wait>(
        &self,
        rt: &R,
        pass: &mut LogPass<L, J>,
        stripe: u32,
        leg: u8,
        counts: &mut FailCounts,
    )
        requires stripe { stripe < self.now.shape.stripes }
        requires room { fails counts.old < 2 ^ 64 - 1 }
        ensures one { fails counts.new ≡ fails counts.old + 1 }
        ensures counts { FailsIn (leg_type L.model L.honest) leg stripe
            (counts.old, pass.old) (counts.new, pass.new) }
    {
        let mut held = self.hold(rt, stripe);
        fail_if_there(&mut held, pass, leg, counts);
    }

    /// Takes the leg out of each stripe in which it joins, or from which others are copied that
    /// join: what it lost would be copied, or never be mended. It stays where it is the last in
    /// sync.
    pub fn spare_copies<R: Wait>(&self, rt: &R, leg: u8) {
        for lock in &self.locks {
            let mut held = lock.hold(rt);
            let there = (leg as usize) < held.gated.stripe.legs();
            if there && spoils_copies(&held.gated.stripe, leg) {
                let mut pass = held.trail.pass();
                let _ = held.fail_leg(&mut pass, leg);
            }
        }
        self.want_save(rt);
    }
}
