//! Who compares the legs in sync, and tells what differs.

use crate::finding::put_places;
use crate::repairs::Repairs;
use crate::verify_desk::{VerifyDesk, VerifyStage, Verifying};
use nm_lanes::Gate;
use nm_leg::LegPart;
use nm_mirror::{Cursor, Findings, MOST_BYTES, Mirror, Naming, Pass, Seen};
use nm_reports::LogLines;
use nm_service::Interval;
use std::alloc::{AllocError, Global};
use std::sync::Wait;
use std::thread;
use std::time::{Clock, Duration};

/// How many bytes two runs have at most.
const ROOM: usize = 2 * MOST_BYTES;

/// How often two legs are looked at in a turn.
const LOOKS: u32 = 8;

/// How many milliseconds pass at least from one line on progress to the next.
const TELL_MILLISECONDS: u64 = 10_000;

/// How many milliseconds pass after a write came between two looks.
const PAUSE_MILLISECONDS: u64 = 1;

// Puts that a verification of so many legs has started, and which of them is repaired, if one is.
fn put_started(legs: u8, repairs: &Option<Repairs>, text: &mut String) -> Result<(), AllocError> {
    write!(text, "verify: started, {legs} legs")?;
    match repairs {
        Some(repairs) => write!(text, ", leg {} is repaired", repairs.leg()),
        None => Ok(()),
    }
}

/// Compares the legs in sync of a mirror, where that is asked for.
#[derive(Drop)]
pub struct Verifier {
    alloc: Global,
    room: Vec<u8>,
    tells: Interval,
}

impl Verifier {
    /// One that has room for two runs. It takes no more memory but for lines.
    pub fn new(alloc: Global) -> Result<Verifier, AllocError> {
        let mut room = Vec::with_capacity(alloc, ROOM)?;
        room.resize(ROOM, 0)?;
        Ok(Verifier {
            alloc,
            room,
            tells: Interval::new(TELL_MILLISECONDS),
        })
    }

    /// Compares two legs by one run, and pauses where a write came between. Where they differ and a
    /// leg is repaired, they are compared once more after that.
    fn look<R: Wait + Clock, L: LegPart, G: Gate + Drop, J: Naming>(
        &mut self,
        rt: &R,
        mirror: &Mirror<L, G, J>,
        pass: &mut Pass<L, J>,
        known: &mut Verifying,
    ) {
        let before = known.round;
        if self.room.len() != ROOM || before.at.stripe >= mirror.shape().stripes {
            return;
        }
        match mirror.verify_turn(rt, &mut known.round, self.room.as_mut_slice()) {
            Seen::Written(_) => thread::sleep(rt, Duration::from_millis(PAUSE_MILLISECONDS)),
            Seen::Differs(_) => {
                if let Some(repairs) = &mut known.repairs {
                    if self.repair(rt, mirror, pass, before.at, repairs) {
                        known.round = before;
                    }
                }
            }
            _ => (),
        }
    }

    /// Has the run there written anew for the sake of a leg, as the others hold it. Whether it was,
    /// or is to be tried again.
    fn repair<R: Wait + Clock, L: LegPart, G: Gate + Drop, J: Naming>(
        &mut self,
        rt: &R,
        mirror: &Mirror<L, G, J>,
        pass: &mut Pass<L, J>,
        at: Cursor,
        repairs: &mut Repairs,
    ) -> bool {
        let shape = mirror.shape();
        let room = self.room.as_mut_slice();
        if room.len() != ROOM
            || at.stripe >= shape.stripes
            || pass.stripes() != shape.stripes as usize
            || !repairs.tries_again(at)
        {
            return false;
        }
        match mirror.repair_run(rt, self.alloc, pass, at, repairs.leg(), room) {
            Ok(true) => {
                repairs.note(at.stripe, at.block / shape.region.max(1));
                true
            }
            Ok(false) => false,
            Err(_) => {
                thread::sleep(rt, Duration::from_millis(PAUSE_MILLISECONDS));
                true
            }
        }
    }

    /// Takes a turn at a verification that was asked for, at this time in milliseconds, and tells
    /// how it begins, goes on and ends; what it repairs is written through the pass. How many runs
    /// it looked at, at most; none where none goes on.
    pub fn turn<R: Wait + Clock, L: LegPart, G: Gate + Drop, J: Naming>(
        &mut self,
        rt: &R,
        mirror: &Mirror<L, G, J>,
        pass: &mut Pass<L, J>,
        desk: &VerifyDesk,
        lines: &LogLines,
        now: u64,
    ) -> u32 {
        let mut known = desk.known(rt);
        match known.stage {
            VerifyStage::Asked => self.begin(rt, mirror, desk, lines, &known, now),
            VerifyStage::Stopping => {
                let _ = desk.note(rt, VerifyStage::Stopped, &known);
                self.tell(rt, mirror, lines, &desk.known(rt));
                return 0;
            }
            VerifyStage::Running => (),
            _ => return 0,
        }
        for _ in 0..LOOKS {
            self.look(rt, mirror, pass, &mut known);
        }
        self.end_turn(rt, mirror, desk, lines, &known, now);
        LOOKS
    }

    /// Tells that a verification begins.
    fn begin<R: Wait + Clock, L: LegPart, G: Gate + Drop, J: Naming>(
        &mut self,
        rt: &R,
        mirror: &Mirror<L, G, J>,
        desk: &VerifyDesk,
        lines: &LogLines,
        known: &Verifying,
        now: u64,
    ) {
        let _ = desk.note(rt, VerifyStage::Running, known);
        let _ = self.tells.take(now);
        let mut text = String::new(self.alloc);
        let line = match put_started(mirror.legs(), &known.repairs, &mut text) {
            Ok(()) => Ok(text),
            Err(error) => Err(error),
        };
        lines.inform(rt, line);
    }

    /// Notes how far it is, and tells it at the end, and every ten seconds before.
    fn end_turn<R: Wait + Clock, L: LegPart, G: Gate + Drop, J: Naming>(
        &mut self,
        rt: &R,
        mirror: &Mirror<L, G, J>,
        desk: &VerifyDesk,
        lines: &LogLines,
        known: &Verifying,
        now: u64,
    ) {
        let is_over = known.round.at.stripe >= mirror.shape().stripes;
        let stage = if is_over {
            VerifyStage::Done
        } else {
            VerifyStage::Running
        };
        let is_noted = desk.note(rt, stage, known);
        if is_noted && is_over {
            desk.end(rt, &known.round.found);
        }
        if is_over || self.tells.take(now) {
            self.tell(rt, mirror, lines, &desk.known(rt));
        }
    }

    /// Tells how it stands: a warning where legs differ, or could not be compared.
    fn tell<R: Wait + Clock, L: LegPart, G: Gate + Drop, J: Naming>(
        &self,
        rt: &R,
        mirror: &Mirror<L, G, J>,
        lines: &LogLines,
        known: &Verifying,
    ) {
        let mut text = String::new(self.alloc);
        let put = known.put(mirror.shape(), &mut text);
        let line = match put {
            Ok(()) => Ok(text),
            Err(error) => Err(error),
        };
        let found = &known.round.found;
        if known.stage == VerifyStage::Done && (found.differing > 0 || found.unread > 0) {
            lines.warn(rt, line);
            self.tell_bytes(rt, mirror, lines, "differ", found);
        } else {
            lines.inform(rt, line);
        }
        match (&known.repairs, known.stage) {
            (Some(repairs), VerifyStage::Done | VerifyStage::Stopped) => {
                self.tell_bytes(rt, mirror, lines, "were written anew", repairs.written());
            }
            _ => (),
        }
    }

    /// Tells of which bytes of the export this is so, if it is of some.
    fn tell_bytes<R: Wait, L: LegPart, G: Gate + Drop, J: Naming>(
        &self,
        rt: &R,
        mirror: &Mirror<L, G, J>,
        lines: &LogLines,
        what: &str,
        found: &Findings,
    ) {
        if found.differing == 0 {
            return;
        }
        let mut text = String::new(self.alloc);
        let line = match put_places(what, found, mirror.shape(), &mut text) {
            Ok(()) => Ok(text),
            Err(error) => Err(error),
        };
        lines.warn(rt, line);
    }
}
