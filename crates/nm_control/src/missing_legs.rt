//! The legs whose files were missing at the start, and those that somebody wants to attach.

use nm_geometry::MOST_LEGS;
use nm_leg_files::Unfit;
use std::alloc::AllocError;
use std::sync::Wait;
use std::sync::atomic::{AtomicBool, Ordering};
use std::thread;
use std::time::{Clock, Duration};

/// How many legs there are at most.
const LEGS: usize = MOST_LEGS as usize;

/// How many milliseconds pass from one look at a leg to the next.
const LOOK_MILLISECONDS: u64 = 50;

/// How often a leg is looked at, until its file was opened or could not be.
const LOOKS: u32 = 600;

/// The legs whose files are not open yet. One thread opens them: it looks whether somebody wants
/// that.
#[derive(Drop)]
pub struct MissingLegs {
    missing: [AtomicBool; LEGS],
    wanted: [AtomicBool; LEGS],
    // Whose file was last found to be another.
    other: [AtomicBool; LEGS],
    // For each leg its file and why that was not opened; empty where it was.
    reasons: Option<Vec<String>>,
}

// A flag that is not set.
fn unset() -> AtomicBool {
    AtomicBool::new(false)
}

// As many flags as there are legs.
fn flags() -> [AtomicBool; LEGS] {
    [
        unset(),
        unset(),
        unset(),
        unset(),
        unset(),
        unset(),
        unset(),
        unset(),
    ]
}

// Whether the leg's flag is set.
fn is_set(flags: &[AtomicBool; LEGS], leg: u8) -> bool {
    match flags.get(leg as usize) {
        Some(flag) => flag.load(Ordering::SeqCst),
        None => false,
    }
}

// Sets the leg's flag, or takes it back.
fn set(flags: &[AtomicBool; LEGS], leg: u8, value: bool) {
    if let Some(flag) = flags.get(leg as usize) {
        flag.store(value, Ordering::SeqCst);
    }
}

impl MissingLegs {
    /// None is missing.
    pub fn none() -> MissingLegs {
        MissingLegs {
            missing: flags(),
            wanted: flags(),
            other: flags(),
            reasons: None,
        }
    }

    /// Those are missing for which there is a reason here, leg 0's first.
    pub fn of(reasons: Vec<String>) -> MissingLegs {
        let mut legs = MissingLegs::none();
        for (leg, reason) in reasons.iter().enumerate() {
            if !reason.as_str().is_empty() {
                set(&legs.missing, leg.min(255) as u8, true);
            }
        }
        legs.reasons = Some(reasons);
        legs
    }

    /// Puts a line a leg that is missing: its file, and why that was not opened at the start.
    pub fn put(&self, text: &mut String) -> Result<(), AllocError> {
        let Some(reasons) = &self.reasons else {
            return Ok(());
        };
        for (leg, reason) in reasons.iter().enumerate() {
            if self.has(leg.min(255) as u8) {
                writeln!(text, "leg {leg}: no file: {reason}")?;
            }
        }
        Ok(())
    }

    /// The leg's file is open.
    pub fn remove(&self, leg: u8) {
        set(&self.missing, leg, false);
    }

    /// Whether the leg's file is missing.
    pub fn has(&self, leg: u8) -> bool {
        is_set(&self.missing, leg)
    }

    /// Whether somebody waits for the leg's file.
    pub fn is_wanted(&self, leg: u8) -> bool {
        is_set(&self.wanted, leg)
    }

    /// What was found in the place of a leg's file, which is not opened.
    pub fn note(&self, leg: u8, why: &Unfit) {
        let is_other = matches!(why, Unfit::Unknown | Unfit::OtherFile | Unfit::Changed);
        set(&self.other, leg, is_other);
    }

    /// Why the leg's file was not opened, as it is told to who waits for it.
    pub fn why_not(&self, leg: u8) -> Unfit {
        if is_set(&self.other, leg) {
            Unfit::OtherFile
        } else {
            Unfit::no_file()
        }
    }

    /// The file that somebody waits for was opened, or could not be.
    pub fn answer(&self, leg: u8) {
        set(&self.wanted, leg, false);
    }

    /// Has the leg's file be opened, if it is missing, and waits until that was tried. Whether it
    /// is open.
    pub fn find<R: Wait + Clock>(&self, rt: &R, leg: u8) -> bool {
        if !self.has(leg) {
            return true;
        }
        set(&self.wanted, leg, true);
        for _ in 0..LOOKS {
            if !self.is_wanted(leg) {
                break;
            }
            thread::sleep(rt, Duration::from_millis(LOOK_MILLISECONDS));
        }
        !self.has(leg)
    }
}
