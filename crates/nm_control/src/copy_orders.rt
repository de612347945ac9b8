//! What an administrator wants of copies: at what rate they go, which legs stay out, and whether
//! legs are compared.
ghost use Rattle.std.specs.Prelude.{◌<◌, IfSome};

use crate::missing_legs::MissingLegs;
use crate::replacing::{RenewsLegs, Replaced, replace_now};
use crate::retiring::{Retired, retire_now};
use crate::verify_desk::VerifyDesk;
use nm_lanes::Gate;
use nm_leg::LegPart;
use nm_leg_files::CallLimit;
use nm_mirror::{AttachCounts, FailCounts, Mirror, Naming};
use nm_reports::MirrorDoubts;
use nm_service::LegOrders;
use std::sync::atomic::{AtomicBool, AtomicU32, Ordering};
use std::sync::{Condvar, Mutex, Wait};

/// The rate of copies, what is ordered of each leg, the order to compare legs, and whether copies
/// begin again.
#[derive(Drop)]
pub struct CopyOrders {
    // In MiB a second; 0 where none is set.
    rate: AtomicU32,
    // Nobody waits for anything who has this lock.
    legs: Mutex<LegOrders>,
    // A command on a leg has ended.
    ended: Condvar,
    verify: VerifyDesk,
    // How many of the last legs are out for good.
    retired: AtomicU32,
    wants_round: AtomicBool,
    missing: MissingLegs,
    // The limits of the legs' calls, from leg 0 on.
    limits: Option<Vec<CallLimit>>,
    doubts: MirrorDoubts,
}

impl CopyOrders {
    /// Copies at this rate, in MiB a second, or at what clients leave; no leg was taken out.
    pub fn new(rate: Option<u16>) -> CopyOrders {
        CopyOrders {
            rate: AtomicU32::new(u32::from(rate.unwrap_or(0))),
            legs: Mutex::new(LegOrders::new()),
            ended: Condvar::new(),
            verify: VerifyDesk::new(),
            retired: AtomicU32::new(0),
            wants_round: AtomicBool::new(false),
            missing: MissingLegs::none(),
            limits: None,
            doubts: MirrorDoubts::none(),
        }
    }

    /// The same, and these legs are missing.
    pub fn with_missing(self, missing: MissingLegs) -> CopyOrders {
        let mut own = self;
        own.missing = missing;
        own
    }

    /// The same, and these are the limits of the legs' calls, from leg 0 on.
    pub fn with_limits(self, limits: Vec<CallLimit>) -> CopyOrders {
        let mut own = self;
        own.limits = Some(limits);
        own
    }

    /// The same, and these legs are in doubt, or will be.
    pub fn with_doubts(self, doubts: MirrorDoubts) -> CopyOrders {
        let mut own = self;
        own.doubts = doubts;
        own
    }

    /// From now on the legs' calls have their limits, where they have some: the start is over.
    pub fn begin_limits(&self) {
        let Some(limits) = &self.limits else {
            return;
        };
        for calls in limits.iter().flatten() {
            calls.begin();
        }
    }

    // Whether a call of the leg was left and has not returned: it may still write.
    fn has_left_call(&self, leg: u8) -> bool {
        let Some(limits) = &self.limits else {
            return false;
        };
        match limits.get(leg as usize) {
            Some(Some(calls)) => calls.has_left(),
            _ => false,
        }
    }

    /// The legs whose files are missing.
    pub fn missing(&self) -> &MissingLegs {
        &self.missing
    }

    /// Which legs are in doubt.
    pub fn doubts(&self) -> &MirrorDoubts {
        &self.doubts
    }

    /// Where a verification is ordered.
    pub fn verify(&self) -> &VerifyDesk {
        &self.verify
    }

    /// At how many MiB a second legs are copied, where that is set.
    pub fn rate(&self) -> Option<u16>
        ensures { IfSome result (λ mib. 0 < mib) }
    {
        let mib = self.rate.load(Ordering::SeqCst).min(65_535) as u16;
        if mib == 0 { None } else { Some(mib) }
    }

    /// Has legs be copied at so many MiB a second, or at what clients leave.
    pub fn set_rate(&self, rate: Option<u16>) {
        let mib = u32::from(rate.unwrap_or(0));
        self.rate.store(mib, Ordering::SeqCst);
    }

    /// Has copies begin again: a stripe was opened anew.
    pub fn want_new_round(&self) {
        self.wants_round.store(true, Ordering::SeqCst);
    }

    /// Whether copies are to begin again, which is said once.
    pub fn take_new_round(&self) -> bool {
        self.wants_round.swap(false, Ordering::SeqCst)
    }

    // Begins to take the leg out or to attach it, once nobody does so. Whether it stayed out
    // before: none while it is being replaced.
    fn begin_move<R: Wait>(&self, rt: &R, leg: u8) -> Option<bool> {
        let legs = self.legs.lock(rt);
        let mut legs = self.ended.wait_while(rt, legs, |legs| legs.is_moving(leg));
        legs.begin_move(leg)
    }

    // The same, which waits for nobody: none where a command on the leg is under way.
    fn begin_move_now<R: Wait>(&self, rt: &R, leg: u8) -> Option<bool> {
        let mut legs = self.legs.lock(rt);
        legs.begin_move(leg)
    }

    // Ends the command on the leg, which stays out from now on or not.
    fn end_command<R: Wait>(&self, rt: &R, leg: u8, stays_out: bool) {
        self.legs.lock(rt).end(leg, stays_out);
        self.ended.notify_all();
    }

    // Lets the leg join every stripe again, and counts what came of it.
    fn attach_now<R: Wait, L: LegPart, G: Gate + Drop, J: Naming>(
        &self,
        rt: &R,
        mirror: &Mirror<L, G, J>,
        leg: u8,
    ) -> AttachCounts
        requires { leg < mirror.now.shape.legs }
    {
        let returning = self.doubts.returning(leg);
        mirror.attach_leg(rt, &mut mirror.actor(), leg, returning, &self.doubts)
    }

    /// Takes the leg out of every stripe by hand, and counts what came of it: none while it is
    /// being replaced.
    pub fn fail<R: Wait, L: LegPart, G: Gate + Drop, J: Naming>(
        &self,
        rt: &R,
        mirror: &Mirror<L, G, J>,
        leg: u8,
    ) -> Option<FailCounts>
        requires { leg < mirror.now.shape.legs }
    {
        let stayed_out = self.begin_move(rt, leg)?;
        self.doubts.note_taken_out(leg);
        let counts = mirror.fail_leg(rt, &mut mirror.actor(), leg);
        let stays_out = stayed_out || counts.failed > 0 || counts.out > 0;
        self.end_command(rt, leg, stays_out);
        Some(counts)
    }

    /// Takes the leg out where it has to be since a call of it failed: of every stripe in which it
    /// is not the last in sync where it fails as a whole, else of those whose copies it would
    /// spoil. It is not noted as taken out by hand. Then what was seen failing is handled: whether
    /// it is the first since the leg came back. Nothing is done while a command on the leg is under
    /// way, which may have it come back.
    pub fn take_out_failed<R: Wait, L: LegPart, G: Gate + Drop, J: Naming>(
        &self,
        rt: &R,
        mirror: &Mirror<L, G, J>,
        leg: u8,
        is_whole: bool,
        seen: u64,
    ) -> bool {
        if leg >= mirror.legs() {
            return false;
        }
        let Some(stays_out) = self.begin_move_now(rt, leg) else {
            return false;
        };
        if is_whole {
            let _ = mirror.fail_leg(rt, &mut mirror.actor(), leg);
        } else {
            mirror.spare_copies(rt, leg);
        }
        let is_first = match self.doubts.leg(leg) {
            Some(doubts) => doubts.handle(seen),
            None => false,
        };
        self.end_command(rt, leg, stays_out);
        is_first
    }

    /// Lets the leg join every stripe again by hand, and counts what came of it: none while it is
    /// being replaced, or a call of it that was left has not returned.
    pub fn attach<R: Wait, L: LegPart, G: Gate + Drop, J: Naming>(
        &self,
        rt: &R,
        mirror: &Mirror<L, G, J>,
        leg: u8,
    ) -> Option<AttachCounts>
        requires { leg < mirror.now.shape.legs }
    {
        let stayed_out = self.begin_move(rt, leg)?;
        if self.has_left_call(leg) {
            self.end_command(rt, leg, stayed_out);
            return None;
        }
        let counts = self.attach_now(rt, mirror, leg);
        self.end_command(rt, leg, false);
        Some(counts)
    }

    /// Whether the leg is being replaced, or taken out for good.
    pub fn is_replaced<R: Wait>(&self, rt: &R, leg: u8) -> bool {
        self.legs.lock(rt).is_replaced(leg)
    }

    // Begins to replace the leg, or to take it out for good, once it is neither taken out nor
    // attached. Whether it stayed out before: none where it is being replaced, or a call of it was
    // left.
    fn begin_replace<R: Wait>(&self, rt: &R, leg: u8) -> Option<bool> {
        let legs = self.legs.lock(rt);
        let mut legs = self.ended.wait_while(rt, legs, |legs| legs.is_moving(leg));
        if self.has_left_call(leg) {
            return None;
        }
        legs.begin_replace(leg)
    }

    /// Puts a leg on a file that is opened anew in the place of this one in every stripe. Where
    /// that is not done once it is out, it is out by hand.
    pub fn replace<R: Wait, L: LegPart, G: Gate + Drop, J: Naming, N: RenewsLegs<L>>(
        &self,
        rt: &R,
        mirror: &Mirror<L, G, J>,
        leg: u8,
        legs: &N,
    ) -> Replaced
        requires { leg < mirror.now.shape.legs }
    {
        let Some(was_out) = self.begin_replace(rt, leg) else {
            return Replaced::Busy;
        };
        let replaced = replace_now(rt, mirror, leg, legs);
        let is_out = match replaced {
            Replaced::Done(counts) => counts.joining == 0 && was_out,
            Replaced::Last | Replaced::Busy => was_out,
            Replaced::NotSaved | Replaced::Unfit(_) => true,
        };
        if let Replaced::Done(counts) = replaced {
            if counts.joining > 0 || counts.out > 0 {
                self.missing.remove(leg);
            }
            if counts.joining > 0 {
                self.verify.note_replaced(rt, leg, mirror.legs());
            }
        }
        self.end_command(rt, leg, is_out);
        replaced
    }

    /// How many legs the mirror has without those that are out for good.
    pub fn kept_of(&self, legs: u8) -> u8 {
        let retired = self.retired.load(Ordering::SeqCst).min(255) as u8;
        legs.saturating_sub(retired)
    }

    /// Takes the last leg out of every stripe for good. Where that is not done once it is out, it
    /// is out by hand.
    pub fn retire<R: Wait, L: LegPart, G: Gate + Drop, J: Naming, N: RenewsLegs<L>>(
        &self,
        rt: &R,
        mirror: &Mirror<L, G, J>,
        leg: u8,
        legs: &N,
    ) -> Retired
        requires { leg < mirror.now.shape.legs }
    {
        if leg.saturating_add(1) != self.kept_of(mirror.legs()) {
            return Retired::NotHighest;
        }
        let Some(was_out) = self.begin_replace(rt, leg) else {
            return Retired::Busy;
        };
        let retired = retire_now(rt, mirror, leg, legs);
        let is_out = match retired {
            Retired::Out | Retired::NotSaved | Retired::Kept(_) => true,
            _ => was_out,
        };
        if matches!(retired, Retired::Out) {
            self.retired.fetch_add(1, Ordering::SeqCst);
        }
        self.end_command(rt, leg, is_out);
        retired
    }

    /// Takes those legs out again that are out for good, of stripes that were opened anew.
    pub fn keep_retired_out<R: Wait, L: LegPart, G: Gate + Drop, J: Naming>(
        &self,
        rt: &R,
        mirror: &Mirror<L, G, J>,
    ) {
        let legs = mirror.legs();
        for leg in self.kept_of(legs)..legs {
            let _ = mirror.fail_leg(rt, &mut mirror.actor(), leg);
        }
    }

    /// Lets the leg join by itself: none where the leg was taken out by hand, a command on it is
    /// under way, or a call of it that was left has not returned.
    pub fn attach_by_itself<R: Wait, L: LegPart, G: Gate + Drop, J: Naming>(
        &self,
        rt: &R,
        mirror: &Mirror<L, G, J>,
        leg: u8,
    ) -> Option<AttachCounts> {
        if leg >= mirror.legs() {
            return None;
        }
        let stays_out = self.begin_move_now(rt, leg)?;
        if stays_out || self.has_left_call(leg) {
            self.end_command(rt, leg, stays_out);
            return None;
        }
        let counts = self.attach_now(rt, mirror, leg);
        self.end_command(rt, leg, false);
        Some(counts)
    }

    /// Whether the leg was taken out by hand: none where a command on it is under way.
    pub fn stays_out<R: Wait>(&self, rt: &R, leg: u8) -> Option<bool> {
        self.legs.lock(rt).stays_out(leg)
    }
}
