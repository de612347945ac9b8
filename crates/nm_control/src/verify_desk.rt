//! Where a verification of the legs is ordered, and told of.

use crate::finding::Finding;
use crate::repairs::Repairs;
use crate::verify_text::{percent, put_end, put_written};
use nm_geometry::Shape;
use nm_mirror::{Findings, Verification};
use nm_reports::{Verified, milliseconds_since};
use std::alloc::AllocError;
use std::sync::{Mutex, Wait};
use std::time::{Clock, Instant};

/// What is done with a verification.
#[derive(Clone, Copy, PartialEq, Eq)]
pub enum VerifyStage {
    /// There was none.
    Never,
    /// It was asked for.
    Asked,
    /// It compares.
    Running,
    /// It was told to end.
    Stopping,
    /// It ended before it had compared all.
    Stopped,
    /// It has compared all.
    Done,
}

/// A verification, and what is done with it.
#[derive(Clone, Copy)]
pub struct Verifying {
    /// What is done with it.
    pub stage: VerifyStage,
    /// Where it is, and what it found.
    pub round: Verification,
    /// What it wrote anew, where it repairs a leg.
    pub repairs: Option<Repairs>,
}

impl Verifying {
    /// Whether it is not over.
    fn goes_on(&self) -> bool {
        self.stage == VerifyStage::Asked || self.stage == VerifyStage::Running
    }

    // Puts what is done with it by this word, and how much of the mirror it has compared.
    fn put_so_far(&self, word: &str, shape: &Shape, text: &mut String) -> Result<(), AllocError> {
        let so_far = percent(&self.round, shape);
        write!(text, "verify: {word} {so_far} %")
    }

    // Puts what is done with it.
    fn put_stage(&self, shape: &Shape, text: &mut String) -> Result<(), AllocError> {
        match self.stage {
            VerifyStage::Never => text.push_str("verify: none yet"),
            VerifyStage::Asked | VerifyStage::Running => self.put_so_far("running", shape, text),
            VerifyStage::Stopping | VerifyStage::Stopped => {
                self.put_so_far("stopped at", shape, text)
            }
            VerifyStage::Done => put_end(&self.round.found, text),
        }
    }

    /// Puts how it stands, without an end of the line.
    pub fn put(&self, shape: &Shape, text: &mut String) -> Result<(), AllocError> {
        self.put_stage(shape, text)?;
        match &self.repairs {
            Some(repairs) if !self.goes_on() => put_written(repairs, text),
            _ => Ok(()),
        }
    }
}

// Whether it has looked at nothing.
fn is_first(round: &Verification) -> bool {
    *round == Verification::new()
}

/// Where the control port orders a verification, and the thread that copies tells how far it is.
#[derive(Drop)]
pub struct VerifyDesk {
    known: Mutex<Verifying>,
    past: Mutex<Past>,
}

// What is known of verifications that have compared all: when the last one ended, and what the last
// one found that found a difference, and when. None where there was none, or the clock could not be
// read.
#[derive(Clone, Copy)]
struct Past {
    ended: Option<Instant>,
    finding: Option<(Finding, Option<Instant>)>,
}

impl VerifyDesk {
    /// Nothing was asked for.
    pub fn new() -> VerifyDesk {
        VerifyDesk {
            known: Mutex::new(Verifying {
                stage: VerifyStage::Never,
                round: Verification::new(),
                repairs: None,
            }),
            past: Mutex::new(Past {
                ended: None,
                finding: None,
            }),
        }
    }

    /// A verification has compared all, and found this. Where nothing differs, and nothing was left
    /// out, what an earlier one found is forgotten.
    pub fn end<R: Wait + Clock>(&self, rt: &R, found: &Findings) {
        let now = Instant::now(rt).ok();
        let mut past = self.past.lock(rt);
        past.ended = now;
        if found.differing > 0 {
            past.finding = Some((Finding::new(*found), now));
        } else if found.unread == 0 && found.missed == 0 {
            past.finding = None;
        }
    }

    /// This leg, of so many, was replaced.
    pub fn note_replaced<R: Wait>(&self, rt: &R, leg: u8, legs: u8) {
        let mut past = self.past.lock(rt);
        if let Some((finding, _)) = &mut past.finding {
            finding.note_replaced(leg, legs);
        }
    }

    /// What is known of the verifications so far.
    pub fn verified<R: Wait + Clock>(&self, rt: &R) -> Verified {
        let past = *self.past.lock(rt);
        let differing = match &past.finding {
            Some((finding, _)) => finding.differing(),
            None => 0,
        };
        let age = past
            .ended
            .map(|_| milliseconds_since(rt, &past.ended) / 1_000);
        Verified { differing, age }
    }

    /// Puts a line on what the last one found that found a difference, if there is one.
    pub fn put_finding<R: Wait + Clock>(
        &self,
        rt: &R,
        shape: &Shape,
        text: &mut String,
    ) -> Result<(), AllocError> {
        let past = *self.past.lock(rt);
        match &past.finding {
            Some((finding, at)) => {
                let age = milliseconds_since(rt, at) / 1_000;
                finding.put(age, shape, text)
            }
            None => Ok(()),
        }
    }

    /// How it stands.
    pub fn known<R: Wait>(&self, rt: &R) -> Verifying {
        *self.known.lock(rt)
    }

    /// Asks for a verification, which repairs this leg if one is named, unless one goes on. Whether
    /// it is a new one.
    pub fn ask<R: Wait>(&self, rt: &R, repaired: Option<u8>) -> bool {
        let mut known = self.known.lock(rt);
        if known.goes_on() {
            return false;
        }
        *known = Verifying {
            stage: VerifyStage::Asked,
            round: Verification::new(),
            repairs: repaired.map(Repairs::of),
        };
        true
    }

    /// Has the verification end that goes on. Whether there was one.
    pub fn stop<R: Wait>(&self, rt: &R) -> bool {
        let mut known = self.known.lock(rt);
        let goes_on = known.goes_on();
        if goes_on {
            known.stage = VerifyStage::Stopping;
        }
        goes_on
    }

    /// Notes how far it is, and what is done with it, unless it was told to end, or another was
    /// asked for. Whether it was noted.
    pub fn note<R: Wait>(&self, rt: &R, stage: VerifyStage, now: &Verifying) -> bool {
        let mut known = self.known.lock(rt);
        let is_its_own = match known.stage {
            VerifyStage::Running => true,
            VerifyStage::Asked => stage == VerifyStage::Running && is_first(&now.round),
            VerifyStage::Stopping => stage == VerifyStage::Stopped,
            _ => false,
        };
        if is_its_own {
            *known = Verifying { stage, ..*now };
        }
        is_its_own
    }
}
