//! One turn of the resynchroniser.
ghost use Rattle.std.specs.Prelude.{◌≡◌, ◌*◌, ◌-◌, ◌^◌, ◌<◌, ◌≤◌, ◌||◌, length, is_some, not};
ghost use Rattle.nm_stripe.specs.Copy.{region_to_copy};
ghost use Rattle.nm_leg.specs.Leg.{leg_type};
ghost use Rattle.nm_mirror.specs.Holding.{with_stripe};
ghost use Rattle.nm_mirror.specs.RoundChanges.{GoesOnTo, visited};
ghost use Rattle.nm_mirror.specs.Resync.{BringsUp, CopiesTo, Helps, Pushes};
ghost use Rattle.nm_mirror.specs.Resync.{step_of, step_of_help, visit_of};
ghost use Rattle.nm_mirror.specs.declared.copy_round.Visit.{Visit};

use crate::bounds::within_bounds;
use crate::copy_round::{CopyRound, LegRound, Visit};
use crate::doubts::Doubts;
use crate::held::Held;
use crate::mirror::Mirror;
use nm_book::Naming;
use nm_fanout::MOST_RUN;
use nm_gate::GateRefusal;
use nm_lanes::{CallKind, Gate, StepKind};
use nm_leg::LegPart;
use nm_stripe::{Copying, LegState, Promotion, Reach, Refusal, Stripe};
use std::sync::Wait;

/// A step of the resynchroniser, and why it was refused, if it was.
#[derive(Clone, Copy)]
pub struct Try {
    /// What was tried.
    pub step: StepKind,
    /// Why it was refused.
    pub refusal: Option<Refusal>,
}

/// What was done for a leg in one hold of its stripe.
#[derive(Clone, Copy)]
pub enum Tried {
    /// Nothing: the leg does not join.
    Rests,
    /// Nothing: what is left to copy to it could not be read in this round.
    Waits,
    /// Nothing: the gate refused this step, until a superblock is saved.
    Refused(StepKind, GateRefusal),
    /// It was to be called in sync.
    Promoted(Result<Promotion, Refusal>),
    /// It was copied to, in this region.
    Copied(Option<u64>, Result<Copying, Refusal>),
}

/// What was done for what stood in the way of a copy.
#[derive(Clone, Copy)]
pub enum Helped {
    /// Nothing.
    Nothing,
    /// The write of this ticket was pushed to this leg.
    Pushed(u64, u8, Result<Reach, Refusal>),
    /// This leg was copied to.
    Copied(u8, Result<Copying, Refusal>),
}

impl Tried {
    /// The step that was tried.
    fn step(self) -> Option<Try>
        ensures { result ≡ step_of self }
    {
        match self {
            Tried::Rests | Tried::Waits => None,
            Tried::Refused(step, _) => Some(Try {
                step,
                refusal: Some(Refusal::SaveFailed),
            }),
            Tried::Promoted(answer) => Some(Try {
                step: StepKind::Promote,
                refusal: answer.err(),
            }),
            Tried::Copied(_, answer) => Some(Try {
                step: StepKind::Copy,
                refusal: answer.err(),
            }),
        }
    }

    /// What that says of the round.
    fn visit(self) -> Visit
        ensures { result ≡ visit_of self }
    {
        match self {
            Tried::Rests => Visit::Rests,
            Tried::Copied(_, Ok(Copying::Nothing)) => Visit::Ends,
            Tried::Copied(Some(region), Err(Refusal::Fault)) => Visit::PassesOver(region),
            _ => Visit::GoesOn,
        }
    }
}

/// Whether a copy to the leg has a region open.
fn is_open<L: LegPart>(stripe: &Stripe<L>, leg: u8) -> bool
    requires { leg < length stripe.now.legs }
    ensures { result ≡ is_some (region_to_copy leg (2 ^ 64 - 1) stripe.now) }
{
    stripe.region_to_copy(leg, u64::MAX).is_some()
}

/// The place of the copy to a leg that is paused: its round is over, but where a region is open.
fn place_paused<L: LegPart>(stripe: &Stripe<L>, leg: u8, place: LegRound) -> LegRound
    requires { leg < length stripe.now.legs }
    ensures from { result.from ≡ place.from }
    ensures over { result.is_over
        ≡ (place.is_over || not (is_some (region_to_copy leg (2 ^ 64 - 1) stripe.now))) }
{
    LegRound {
        from: place.from,
        is_over: place.is_over || !is_open(stripe, leg),
    }
}

/// Calls a joining leg in sync where nothing is left to copy to it, and else copies to it, unless
/// its round is over, or the gate refuses the step.
fn bring_up<L: LegPart, J: Naming>(held: &mut Held<L, J>, leg: u8, place: LegRound) -> Tried
    requires { leg < length held.old.gated.stripe.legs }
    ensures step { BringsUp (leg_type L.model L.honest) leg place held.old.gated
        held.new.gated result }
    ensures others { held.new ≡ with_stripe held.new.gated.stripe held.old }
{
    if held.gated.stripe.state(leg) != LegState::Joining {
        return Tried::Rests;
    }
    if held.gated.stripe.left(leg) == 0 {
        if let Some(why) = held.gated.may_promote(leg) {
            return Tried::Refused(StepKind::Promote, why);
        }
        return Tried::Promoted(held.promote_leg(leg));
    }
    if place.is_over {
        return Tried::Waits;
    }
    if let Some(why) = held.gated.may_copy(leg, place.from) {
        return Tried::Refused(StepKind::Copy, why);
    }
    let region = held.gated.stripe.region_to_copy(leg, place.from);
    Tried::Copied(region, held.copy_leg(leg, MOST_RUN as u64, place.from))
}

/// Takes a leg out that was called in sync, where it is in doubt: its sync tells nothing of what it
/// was written before. Nobody has seen it in sync, as long as the stripe is held.
fn drop_doubted<L: LegPart, J: Naming, D: Doubts>(
    held: &mut Held<L, J>,
    leg: u8,
    tried: Tried,
    doubts: &D,
)
    requires { leg < length held.old.gated.stripe.legs }
    ensures others { held.new ≡ with_stripe held.new.gated.stripe held.old }
{
    if matches!(tried, Tried::Promoted(Ok(Promotion::InSync))) && doubts.is_doubted(leg) {
        let mut pass = held.trail.pass();
        let _ = held.fail_leg(&mut pass, leg);
    }
}

/// Pushes the write of this ticket to the leg, if there is such a leg.
fn push_to<L: LegPart, J: Naming>(held: &mut Held<L, J>, owed: Option<(u64, u8)>) -> Helped
    ensures step { Pushes (leg_type L.model L.honest) owed held.old.gated.stripe
        held.new.gated.stripe result }
    ensures others { held.new ≡ with_stripe held.new.gated.stripe held.old }
{
    match owed {
        Some((ticket, leg)) if (leg as usize) < held.gated.stripe.legs() => {
            Helped::Pushed(ticket, leg, held.push_owed(ticket, leg))
        }
        _ => Helped::Nothing,
    }
}

/// Copies to the leg in the region that is open, if there is one and the gate lets it pass.
fn copy_to<L: LegPart, J: Naming>(held: &mut Held<L, J>, leg: u8) -> Helped
    ensures step { CopiesTo (leg_type L.model L.honest) leg held.old.gated held.new.gated result }
    ensures others { held.new ≡ with_stripe held.new.gated.stripe held.old }
{
    if (leg as usize) >= held.gated.stripe.legs()
        || !is_open(&held.gated.stripe, leg)
        || held.gated.may_copy(leg, 0).is_some()
    {
        return Helped::Nothing;
    }
    Helped::Copied(leg, held.copy_leg(leg, MOST_RUN as u64, 0))
}

/// Does a step for what stood in the way of a copy: the write that is under way there or, while a
/// failover is not over, the lowest one, is pushed, and another leg is copied to.
fn help<L: LegPart, J: Naming>(held: &mut Held<L, J>, refusal: Refusal) -> Helped
    ensures step { Helps (leg_type L.model L.honest) refusal held.old.gated held.new.gated result }
    ensures others { held.new ≡ with_stripe held.new.gated.stripe held.old }
{
    match refusal {
        Refusal::Busy(ticket) => {
            let owed = held.gated.stripe.next_owed(ticket).map(|leg| (ticket, leg));
            push_to(held, owed)
        }
        Refusal::Settling => {
            let owed = held.gated.stripe.first_owed();
            push_to(held, owed)
        }
        Refusal::OtherCopy(leg) => copy_to(held, leg),
        _ => Helped::Nothing,
    }
}

impl Helped {
    /// The step that was tried.
    fn step(self) -> Option<Try>
        ensures { result ≡ step_of_help self }
    {
        match self {
            Helped::Nothing => None,
            Helped::Pushed(_, _, answer) => Some(Try {
                step: StepKind::Push,
                refusal: answer.err(),
            }),
            Helped::Copied(_, answer) => Some(Try {
                step: StepKind::Copy,
                refusal: answer.err(),
            }),
        }
    }
}

impl<L: LegPart, G: Gate + Drop, J: Naming> Mirror<L, G, J> {
    /// In every stripe, for each joining leg, does what brings it nearer to being in sync: calls it
    /// so where nothing is left to copy to it, and else copies to it, by a run of blocks or half of
    /// that. Where a write or another copy stands in the way of the copy, it helps that by one
    /// step.
    ///
    /// A region that the last leg in sync cannot be read in is passed over, until `begin_again`;
    /// while a leg is paused it stays told. A copy to a leg that is paused opens no region.
    /// A leg in doubt is not called in sync: it goes out there.
    /// What a gate refuses is left for a later turn: it waits for no superblock, but wants one to
    /// be saved wherever that changes something. Answers how many steps were not refused.
    pub fn resync_turn<R: Wait, D: Doubts>(&self, rt: &R, round: &mut CopyRound, doubts: &D) -> u32
        requires stripes { round.old.stripes ≡ self.now.shape.stripes }
        requires legs { round.old.legs ≡ self.now.shape.legs }
        ensures most { result ≤ self.now.shape.stripes * self.now.shape.legs }
        ensures round { GoesOnTo round.old round.new }
    {
        within_bounds(&self.shape);
        let mut done = 0u32;
        for stripe in 0..self.shape.stripes {
            done += self.resync_stripe(rt, stripe, round, doubts);
        }
        done
    }

    /// The same for one stripe.
    fn resync_stripe<R: Wait, D: Doubts>(
        &self,
        rt: &R,
        stripe: u32,
        round: &mut CopyRound,
        doubts: &D,
    ) -> u32
        requires stripe { stripe < self.now.shape.stripes }
        requires stripes { round.old.stripes ≡ self.now.shape.stripes }
        requires legs { round.old.legs ≡ self.now.shape.legs }
        ensures most { result ≤ self.now.shape.legs }
        ensures round { GoesOnTo round.old round.new }
    {
        let mut done = 0u32;
        let mut goes_on = self.has_paused();
        for leg in 0..self.shape.legs {
            if let Some(first) = self.resync(rt, stripe, leg, round, doubts) {
                goes_on = true;
                done += self.end_step(rt, stripe, first);
            }
        }
        if !goes_on {
            round.settle(stripe);
        }
        done
    }

    /// The place of the copy to a leg, which may be paused.
    fn place_of(&self, stripe: &Stripe<L>, leg: u8, place: LegRound) -> LegRound
        requires { leg < length stripe.now.legs }
    {
        if self.is_paused(leg) {
            place_paused(stripe, leg, place)
        } else {
            place
        }
    }

    /// Does a step for one leg of one stripe, in one hold, and notes what came of it.
    fn resync<R: Wait, D: Doubts>(
        &self,
        rt: &R,
        stripe: u32,
        leg: u8,
        round: &mut CopyRound,
        doubts: &D,
    ) -> Option<Try>
        requires stripe { stripe < self.now.shape.stripes }
        requires in_round { (stripe < round.old.stripes) × (leg < round.old.legs) }
        ensures round { (visit : Visit) × (round.new ≡ visited stripe leg visit round.old) }
    {
        let mut held = self.locks[stripe as usize].hold_to_write(rt);
        if (leg as usize) >= held.gated.stripe.legs() {
            round.visit(stripe, leg, Visit::Rests);
            return None;
        }
        let place = self.place_of(&held.gated.stripe, leg, round.place(stripe, leg));
        let tried = bring_up(&mut held, leg, place);
        drop_doubted(&mut held, leg, tried, doubts);
        let is_unsaved = held.gated.wants_save();
        drop(held);
        if is_unsaved {
            self.want_save(rt);
        }
        round.visit(stripe, leg, tried.visit());
        tried.step()
    }

    /// Tells of a step, and helps what stood in its way by one step. How many of the two were not
    /// refused: one at most.
    fn end_step<R: Wait>(&self, rt: &R, stripe: u32, first: Try) -> u32
        requires { stripe < self.now.shape.stripes }
        ensures { result ≤ 1 }
    {
        self.locks[stripe as usize].note_write();
        self.pass_gate(CallKind::ResyncTurn, stripe, first.step);
        let Some(refusal) = first.refusal else {
            return 1;
        };
        let helped = help(&mut self.hold(rt, stripe), refusal);
        let Some(second) = helped.step() else {
            return 0;
        };
        self.pass_gate(CallKind::ResyncTurn, stripe, second.step);
        u32::from(second.refusal.is_none())
    }
}
