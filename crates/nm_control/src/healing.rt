//! Attaches legs again that went out by a failed call.

use crate::copied_mirror::CopiedMirror;
use crate::copy_orders::CopyOrders;
use nm_lanes::Gate;
use nm_leg::LegPart;
use nm_leg_files::{LegPlace, OpensLegs, Unfit};
use nm_mirror::Naming;
use nm_reports::{LegStory, LogLines};
use nm_service::{AttachTime, AutoAttach, LegEvent, ReadReturns, event_of};
use std::alloc::{AllocError, Global};
use std::sync::{Arc, Wait};

// A leg, when it is attached again, and the time of the next try that was told.
#[derive(Drop)]
struct HealingLeg {
    alloc: Global,
    number: u8,
    place: Arc<LegPlace>,
    tries: AutoAttach,
    told: Option<u64>,
    returns: ReadReturns,
    // Whether it stays out, since it came back too often after reads that failed.
    is_given_up: bool,
}

// How many seconds it is from now until then.
fn seconds_until(due: u64, now: u64) -> u64 {
    due.saturating_sub(now) / 1_000
}

impl HealingLeg {
    // Whether a read failed since the leg came back.
    fn has_unread(&self, orders: &CopyOrders) -> bool {
        match orders.doubts().leg(self.number) {
            Some(doubts) => doubts.has_unread(),
            None => false,
        }
    }

    // Whether the leg stays out, since it came back three times in a day after reads that failed,
    // which is told once. Where it no longer is out by a fault, as by hand, that counts anew.
    fn stays_out<R: Wait>(
        &mut self,
        rt: &R,
        event: LegEvent,
        orders: &CopyOrders,
        lines: &LogLines,
        now: u64,
    ) -> bool {
        if event != LegEvent::OutByFault {
            if self.is_given_up {
                self.is_given_up = false;
                self.returns = ReadReturns::new();
            }
            return false;
        }
        if self.is_given_up || !self.has_unread(orders) || !self.returns.are_spent(now) {
            return self.is_given_up;
        }
        self.is_given_up = true;
        self.tell_given_up(rt, lines);
        true
    }

    // Tells that the leg stays out.
    fn tell_given_up<R: Wait>(&self, rt: &R, lines: &LogLines) {
        let (alloc, leg, name) = (self.alloc, self.number, self.place.name());
        lines.warn(
            rt,
            format!(in alloc;
                "leg {leg} ({name}): not attached again by itself: it came back three times in a \
                 day after reads that failed; replace it, or attach it by hand"
            ),
        );
    }

    // Takes how the leg stands, and tells when the next try comes where that is new.
    fn note<R: Wait>(&mut self, rt: &R, event: LegEvent, lines: &LogLines, now: u64) {
        let AttachTime::At(due) = self.tries.take(event, now) else {
            self.told = None;
            return;
        };
        if self.told == Some(due) {
            return;
        }
        self.told = Some(due);
        let (alloc, seconds) = (self.alloc, seconds_until(due, now));
        let (leg, name) = (self.number, self.place.name());
        lines.inform(
            rt,
            format!(in alloc; "leg {leg} ({name}): to be attached again in {seconds} s"),
        );
    }

    // Opens the file of a leg that was missing, where somebody waits for it.
    fn find_wanted<R: Wait, O: OpensLegs>(
        &self,
        rt: &R,
        opener: &O,
        orders: &CopyOrders,
        lines: &LogLines,
    ) {
        let leg = self.number;
        if !orders.missing().is_wanted(leg) {
            return;
        }
        match self.place.check(opener) {
            Ok(()) => orders.missing().remove(leg),
            Err(why) => {
                orders.missing().note(leg, &why);
                self.tell_not_attached(rt, why, lines);
            }
        }
        orders.missing().answer(leg);
    }

    // Tells why the leg is not attached.
    fn tell_not_attached<R: Wait>(&self, rt: &R, why: Unfit, lines: &LogLines) {
        let (alloc, leg, name) = (self.alloc, self.number, self.place.name());
        let text = format!(in alloc; "leg {leg} ({name}): not attached: {why}");
        lines.warn(rt, text);
    }

    // Checks the leg's file, and attaches the leg.
    fn attach<R: Wait, O: OpensLegs, L: LegPart, G: Gate + Drop, J: Naming>(
        &self,
        rt: &R,
        opener: &O,
        copied: &CopiedMirror<'_, L, G, J>,
    ) -> Result<(), Unfit> {
        let (mirror, orders) = (copied.mirror, copied.orders);
        self.place.check(opener)?;
        orders.missing().remove(self.number);
        let Some(counts) = orders.attach_by_itself(rt, mirror, self.number) else {
            return Err(Unfit::Command);
        };
        if counts.joining == 0 && counts.stopped > 0 {
            return Err(Unfit::Stopped);
        }
        Ok(())
    }

    // Tells that the try of this number was in vain, and when the next one comes.
    fn tell_hindrance<R: Wait>(
        &mut self,
        rt: &R,
        number: u64,
        why: Unfit,
        lines: &LogLines,
        now: u64,
    ) {
        let AttachTime::At(due) = self.tries.take(LegEvent::OutByFault, now) else {
            return;
        };
        self.told = Some(due);
        let (alloc, seconds) = (self.alloc, seconds_until(due, now));
        let (leg, name) = (self.number, self.place.name());
        lines.warn(
            rt,
            format!(in alloc;
                "leg {leg} ({name}): not attached again, try {number}: {why}; the next try comes \
                 in {seconds} s"
            ),
        );
    }

    // Attaches the leg where that is due at this time.
    fn try_now<R: Wait, O: OpensLegs, L: LegPart, G: Gate + Drop, J: Naming>(
        &mut self,
        rt: &R,
        opener: &O,
        copied: &CopiedMirror<'_, L, G, J>,
        now: u64,
    ) {
        let AttachTime::Now(number) = self.tries.take(LegEvent::Time, now) else {
            return;
        };
        let lines = copied.shared.lines;
        let has_unread = self.has_unread(copied.orders);
        if let Err(why) = self.attach(rt, opener, copied) {
            self.tell_hindrance(rt, number, why, lines, now);
            return;
        }
        if has_unread {
            self.returns.note(now);
        }
        self.told = None;
        self.tell_attached(rt, number, lines);
    }

    // Tells that the leg was attached by the try of this number.
    fn tell_attached<R: Wait>(&self, rt: &R, number: u64, lines: &LogLines) {
        let (alloc, leg, name) = (self.alloc, self.number, self.place.name());
        lines.inform(
            rt,
            format!(in alloc; "leg {leg} ({name}): attached again by itself, try {number}"),
        );
    }
}

/// The legs that are attached again by themselves, or once somebody wants those that were missing.
#[derive(Drop)]
pub struct Healing {
    legs: Vec<HealingLeg>,
    by_itself: bool,
}

impl Healing {
    /// The legs on these files, from leg 0 on, which are attached again by themselves or not.
    pub fn new(
        alloc: Global,
        places: Vec<Arc<LegPlace>>,
        by_itself: bool,
    ) -> Result<Healing, AllocError> {
        let mut legs = Vec::new(alloc);
        for (number, place) in places.into_iter().enumerate() {
            legs.push(HealingLeg {
                alloc,
                number: number.min(255) as u8,
                place,
                tries: AutoAttach::new(),
                told: None,
                returns: ReadReturns::new(),
                is_given_up: false,
            })?;
        }
        Ok(Healing { legs, by_itself })
    }

    /// Looks at how each leg stands at this time, in milliseconds, and attaches those that are due.
    /// One on which a command is under way is passed over.
    pub fn look<R: Wait, O: OpensLegs, L: LegPart, G: Gate + Drop, J: Naming>(
        &mut self,
        rt: &R,
        opener: &O,
        story: &LegStory,
        copied: &CopiedMirror<'_, L, G, J>,
        now: u64,
    ) {
        let (orders, lines) = (copied.orders, copied.shared.lines);
        for leg in self.legs.iter_mut() {
            leg.find_wanted(rt, opener, orders, lines);
            if !self.by_itself {
                continue;
            }
            let Some(stays_out) = orders.stays_out(rt, leg.number) else {
                continue;
            };
            let event = event_of(&story.sight(leg.number as usize), stays_out);
            if leg.stays_out(rt, event, orders, lines, now) {
                continue;
            }
            leg.note(rt, event, lines, now);
            leg.try_now(rt, opener, copied, now);
        }
    }
}
