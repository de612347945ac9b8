//! Puts another leg in the place of one in every stripe.
ghost use Rattle.std.specs.Prelude.{◌≡◌, ◌≢◌, ◌+◌, ◌-◌, ◌^◌, ◌<◌, ◌≤◌, ◌↔◌, length, None};
ghost use Rattle.std.specs.Prelude.{IfErr, IfOk, IfSome, IsSome, IsTrue, OnOk, Some, false, true};
ghost use Rattle.std.specs.Prelude.{if◌then◌else◌};
ghost use Rattle.nm_choice.specs.declared.leg_state.LegState.TheVariants.{Out};
ghost use Rattle.nm_rules.specs.Attach.{Replaces, attach_cause};
ghost use Rattle.nm_rules.specs.State.{left, leg_state};
ghost use Rattle.nm_mirror.specs.Asks.{LetsPass};
ghost use Rattle.nm_mirror.specs.Counts.{replaced_so, replaces};
ghost use Rattle.nm_leg.specs.Leg.{leg_type};
ghost use Rattle.nm_mirror.specs.Holding.{with_stripe};
ghost use Rattle.nm_mirror.specs.OwnNotes.{NotesReplace};
ghost use Rattle.nm_mirror.specs.Replaced.{ReplacesEach, ReplacesIn, StaysOut};
ghost use Rattle.nm_mirror.specs.Replacing.{EndsWithdrawal, IsOnlyOne, IsWithdrawn};
ghost use Rattle.nm_mirror.specs.declared.ask.Ask.TheVariants as ask;

use crate::ask::{Ask, refusal_of};
use crate::counts::ReplaceCounts;
use crate::held::Held;
use crate::mirror::Mirror;
use crate::trail::LogPass;
use nm_book::Naming;
use nm_gate::GatedStripe;
use nm_lanes::{CallKind, Gate, StepKind};
use nm_leg::LegPart;
use nm_stripe::{LegState, Refusal, Stripe};
use std::sync::Wait;

/// What came of taking a leg out of every stripe so that another may take its place.
#[derive(Clone, Copy, Debug, PartialEq, Eq)]
pub enum Withdrawal {
    /// In some stripe it is the only one in sync.
    Last,
    /// So many stripes have stopped, and would keep it.
    Stopped(u64),
    /// It is out, but no superblock can be saved that says so.
    NotSaved,
    /// It is out everywhere, and no superblock says of it what it holds.
    Out,
}

/// Whether the leg is in sync in this stripe, and no other is.
fn is_only_one<L: LegPart>(stripe: &Stripe<L>, leg: u8) -> bool
    requires { leg < length stripe.now.legs }
    ensures { IsTrue result ↔ IsOnlyOne leg stripe.now }
{
    if stripe.state(leg) != LegState::InSync {
        return false;
    }
    'others: for other in 0..stripe.legs() {
        if other != leg as usize && stripe.state(other as u8) == LegState::InSync {
            return false;
        }
    }
    true
}

/// How many stripes have stopped, with this one, if so many others have.
fn count_stopped<L: LegPart>(stripe: &Stripe<L>, stopped: u64) -> u64
    requires { stopped < 2 ^ 64 - 1 }
    ensures counts { result ≡ (if stripe.now.stopped then stopped + 1 else stopped) }
    ensures few { result ≤ stopped + 1 }
{
    if stripe.is_stopped() {
        stopped + 1
    } else {
        stopped
    }
}

/// Whether the stripe has no such leg, or it is out.
fn is_gone<L: LegPart>(stripe: &Stripe<L>, leg: u8) -> bool
    ensures { IsTrue result → leg < length stripe.now.legs → leg_state leg stripe.now ≡ Out }
{
    (leg as usize) >= stripe.legs() || stripe.state(leg) == LegState::Out
}

/// Puts the new leg in the place of this one in this stripe, whose gate has to let that pass where
/// the leg is out, and counts what came of it.
fn replace_in<L: LegPart, J: Naming>(
    held: &mut Held<L, J>,
    pass: &mut LogPass<L, J>,
    leg: u8,
    part: L,
    counts: &mut ReplaceCounts,
)
    requires passes { LetsPass held.old.gated.durable held.old.gated.stripe (ask.Replace leg) }
    requires leg { leg < length held.old.gated.stripe.legs }
    requires length { length (L.model part).contents ≡ held.old.gated.stripe.place.blocks }
    requires room { replaces counts.old < 2 ^ 64 - 1 }
    ensures counts { counts.new
        ≡ replaced_so (attach_cause held.old.gated.stripe leg)
        (left leg held.new.gated.stripe) counts.old }
    ensures one { replaces counts.new ≡ replaces counts.old + 1 }
    ensures replaces { attach_cause held.old.gated.stripe leg ≡ None
        → Replaces held.old.gated.stripe held.new.gated.stripe leg part }
    ensures stays { IsSome (attach_cause held.old.gated.stripe leg)
        → held.new.gated.stripe ≡ held.old.gated.stripe }
    ensures others { held.new ≡ with_stripe held.new.gated.stripe held.old }
    ensures notes { NotesReplace (leg_type L.model L.honest) leg part
        (held.old.gated, held.new.gated) pass.old pass.new }
{
    match held.replace_leg(pass, leg, part) {
        Ok(left) => {
            counts.joining += 1;
            counts.left = counts.left.saturating_add(left);
        }
        Err((Refusal::Stopped, _)) => counts.stopped += 1,
        Err(_) => counts.not_out += 1,
    }
}

/// Whether the new leg may be put in the place of this one: the stripe has it, the new one is as
/// long, and the gate lets that pass where the old one is out.
fn may_replace<L: LegPart>(gated: &GatedStripe<L>, leg: u8, part: &L) -> bool
    ensures leg { IsTrue result → leg < length gated.now.stripe.legs }
    ensures length { IsTrue result
        → length (L.model part.now).contents ≡ gated.now.stripe.place.blocks }
    ensures passes { IsTrue result
        → LetsPass gated.now.durable gated.now.stripe (ask.Replace leg) }
    ensures stays { result ≡ false → StaysOut (leg_type L.model L.honest) leg part.now gated.now }
{
    if (leg as usize) >= gated.stripe.legs() {
        return false;
    }
    if part.len() != gated.stripe.blocks() {
        return false;
    }
    refusal_of(gated, Ask::Replace(leg)).is_none()
}

/// Puts it there, and counts what came of it. Where it may not be put there the old leg counts as
/// one that stays out, and the pass looks.
fn replace_if_fits<L: LegPart, J: Naming>(
    held: &mut Held<L, J>,
    pass: &mut LogPass<L, J>,
    leg: u8,
    part: L,
    counts: &mut ReplaceCounts,
)
    requires room { replaces counts.old < 2 ^ 64 - 1 }
    ensures one { replaces counts.new ≡ replaces counts.old + 1 }
    ensures counts { ReplacesIn (leg_type L.model L.honest) leg part
        held.old.gated.stripe.place.stripe (counts.old, pass.old) (counts.new, pass.new) }
{
    if may_replace(&held.gated, leg, &part) {
        replace_in(held, pass, leg, part, counts);
    } else {
        counts.out += 1;
        held.look(pass);
    }
}

impl<L: LegPart, G: Gate + Drop, J: Naming> Mirror<L, G, J> {
    /// Why the leg cannot be taken out to be replaced, as the stripes are looked at one after the
    /// other.
    fn hindrance_to_withdraw<R: Wait>(&self, rt: &R, leg: u8) -> Option<Withdrawal>
        ensures { IfSome result (EndsWithdrawal L leg self.now.shape.stripes) }
    {
        let mut stopped = 0u64;
        for stripe in 0..self.shape.stripes {
            let held = self.hold(rt, stripe);
            if (leg as usize) < held.gated.stripe.legs() && is_only_one(&held.gated.stripe, leg) {
                return Some(Withdrawal::Last);
            }
            stopped = count_stopped(&held.gated.stripe, stopped);
        }
        if stopped == 0 {
            return None;
        }
        Some(Withdrawal::Stopped(stopped))
    }

    /// Takes the leg out of every stripe. Why another may not take its place, where it stays in
    /// some.
    fn hindrance_to_fail<R: Wait>(&self, rt: &R, leg: u8) -> Option<Withdrawal>
        requires { leg < self.now.shape.legs }
        ensures { IfSome result (EndsWithdrawal L leg self.now.shape.stripes) }
    {
        let counts = self.fail_leg(rt, &mut self.actor(), leg);
        if counts.last > 0 {
            return Some(Withdrawal::Last);
        }
        if counts.stopped > 0 {
            return Some(Withdrawal::Stopped(counts.stopped));
        }
        None
    }

    /// Waits until a superblock is saved that says nothing of what the leg holds in the stripe of
    /// this number. Whether it is out there: not where it joined again meanwhile. None where no
    /// superblock can be saved.
    fn wait_to_replace<R: Wait>(&self, rt: &R, stripe: u32, leg: u8) -> Option<bool>
        requires { stripe < self.now.shape.stripes }
        ensures { result ≡ Some true → IsWithdrawn L leg stripe }
    {
        let held = self.lock_of(stripe).hold_for(rt, Ask::Replace(leg))?;
        Some(is_gone(&held.gated.stripe, leg))
    }

    /// The same in every stripe. None where the leg joined one again meanwhile.
    fn await_withdrawal<R: Wait>(&self, rt: &R, leg: u8) -> Option<Withdrawal>
        ensures { IfSome result (EndsWithdrawal L leg self.now.shape.stripes) }
    {
        for stripe in 0..self.shape.stripes {
            match self.wait_to_replace(rt, stripe, leg) {
                Some(true) => (),
                Some(false) => return None,
                None => return Some(Withdrawal::NotSaved),
            }
        }
        Some(Withdrawal::Out)
    }

    /// Takes the leg out of every stripe so that another may take its place, and waits until a
    /// superblock is saved that says nothing of what it holds.
    ///
    /// All stripes are looked at first. Where the leg is the only one in sync in some of them, or
    /// some have stopped, nothing is done. What becomes so after that look is refused the same way:
    /// then the leg stays out of the stripes that it was taken out of by then. Where somebody lets
    /// it join one again meanwhile, all is done once more.
    pub fn withdraw_leg<R: Wait>(&self, rt: &R, leg: u8) -> Withdrawal
        requires { leg < self.now.shape.legs }
        ensures { EndsWithdrawal L leg self.now.shape.stripes result }
    {
        for _ in rt.forever() {
            if let Some(why) = self.hindrance_to_withdraw(rt, leg) {
                return why;
            }
            if let Some(why) = self.hindrance_to_fail(rt, leg) {
                return why;
            }
            if let Some(end) = self.await_withdrawal(rt, leg) {
                return end;
            }
        }
        unreachable!()
    }

    /// Puts these legs, one a stripe, in the place of this one, which is out since `withdraw_leg`,
    /// and counts what came of it. The new leg joins every stripe with all of its regions behind.
    /// Nobody attaches the old one meanwhile: where somebody does, it stays.
    ///
    /// Where there are more or fewer legs than stripes they come back, and nothing is done. One
    /// that is not as long as its stripe does not join it: the old one stays out. This pass notes
    /// each that joins.
    pub fn replace_leg<R: Wait>(
        &self,
        rt: &R,
        pass: &mut LogPass<L, J>,
        leg: u8,
        parts: Vec<L>,
    ) -> Result<ReplaceCounts, Vec<L>>
        requires { leg < self.now.shape.legs }
        ensures all { OnOk result (length parts.items ≡ self.now.shape.stripes) }
        ensures counted { IfOk result (λ counts. replaces counts ≡ self.now.shape.stripes) }
        ensures each { IfOk result (λ counts. ReplacesEach (leg_type L.model L.honest) leg
            parts.items self.now.shape.stripes pass.old (counts, pass.new)) }
        ensures handed_back { IfErr result (λ back. (back.items ≡ parts.items)
            × (length parts.items ≢ self.now.shape.stripes)) }
    {
        if parts.len() != self.shape.stripes as usize {
            return Err(parts);
        }
        let mut counts = ReplaceCounts {
            joining: 0,
            left: 0,
            out: 0,
            not_out: 0,
            stopped: 0,
        };
        let mut rest = parts;
        rest.reverse();
        for stripe in 0..self.shape.stripes {
            let part = rest.pop().unwrap();
            self.replace_part(rt, pass, stripe, leg, part, &mut counts);
            self.pass_gate(CallKind::AttachLeg, stripe, StepKind::Replace);
        }
        self.want_save(rt);
        Ok(counts)
    }

    /// Puts the new leg in the place of this one in the stripe of this number.
    fn replace_part<R: Wait>(
        &self,
        rt: &R,
        pass: &mut LogPass<L, J>,
        stripe: u32,
        leg: u8,
        part: L,
        counts: &mut ReplaceCounts,
    )
        requires stripe { stripe < self.now.shape.stripes }
        requires room { replaces counts.old < 2 ^ 64 - 1 }
        ensures one { replaces counts.new ≡ replaces counts.old + 1 }
        ensures counts { ReplacesIn (leg_type L.model L.honest) leg part stripe
            (counts.old, pass.old) (counts.new, pass.new) }
    {
        let mut held = self.lock_of(stripe).hold_asking(rt, Ask::Replace(leg));
        replace_if_fits(&mut held, pass, leg, part, counts);
    }
}
