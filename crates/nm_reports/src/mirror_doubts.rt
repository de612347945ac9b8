//! Which legs of a mirror are in doubt.

use crate::leg_doubts::LegDoubts;
use crate::leg_trouble::LegTrouble;
use crate::outage::Outage;
use nm_mirror::{Doubts, Returning};
use std::alloc::AllocError;
use std::fmt;
use std::sync::{Arc, Wait};

/// Which legs of a mirror are in doubt, by what failed of their files.
#[derive(Drop)]
pub struct MirrorDoubts {
    // From leg 0 on.
    legs: Option<Vec<Arc<LegTrouble>>>,
}

/// Whether a line of the control port may have this name.
pub fn is_printable(name: &str) -> bool {
    name.as_bytes()
        .iter()
        .all(|byte| 0x20 <= *byte && *byte < 0x7f)
}

// Ends a line with why, where that is known.
fn end_line<T: fmt::Display>(why: Option<&T>, text: &mut String) -> Result<(), AllocError> {
    if let Some(why) = why {
        write!(text, ": {why}")?;
    }
    text.push_str("\n")
}

// Puts a line with the name of the leg's file, if that is printable, and one on why it cannot be
// opened, if so.
fn put_file(leg: usize, own: &LegTrouble, text: &mut String) -> Result<(), AllocError> {
    let name = own.name();
    if is_printable(name) {
        writeln!(text, "leg {leg}: file {name}")?;
    }
    if let Some(error) = &own.unopened() {
        writeln!(text, "leg {leg}: cannot be opened: {error}")?;
    }
    Ok(())
}

// Puts a line on since which second the leg is out, and why.
fn put_outage(leg: usize, outage: &Outage, text: &mut String) -> Result<(), AllocError> {
    write!(text, "leg {leg}: out since {}", outage.since)?;
    end_line(outage.why.as_ref(), text)
}

impl MirrorDoubts {
    /// Nothing is known of any leg.
    pub fn none() -> MirrorDoubts {
        MirrorDoubts { legs: None }
    }

    /// By what failed of these legs, from leg 0 on.
    pub fn of(legs: Vec<Arc<LegTrouble>>) -> MirrorDoubts {
        MirrorDoubts { legs: Some(legs) }
    }

    /// What the leg may have lost, if it is known.
    pub fn leg(&self, leg: u8) -> Option<&LegDoubts> {
        let legs = self.legs.as_ref()?;
        let own = legs.get(leg as usize)?;
        Some(own.doubts())
    }

    /// Puts a line a leg with the name of its file, if that is printable, and one for each that is
    /// out: since which second, and why.
    pub fn put_legs<R: Wait>(&self, rt: &R, text: &mut String) -> Result<(), AllocError> {
        let Some(legs) = &self.legs else {
            return Ok(());
        };
        for (leg, own) in legs.iter().enumerate() {
            put_file(leg, own, text)?;
            if let Some(outage) = &own.outage().known(rt) {
                put_outage(leg, outage, text)?;
            }
        }
        Ok(())
    }

    /// Puts a line a leg of which reads failed where no other leg is in sync: how many, and the
    /// first of them.
    pub fn put(&self, text: &mut String) -> Result<(), AllocError> {
        let Some(legs) = &self.legs else {
            return Ok(());
        };
        for (leg, own) in legs.iter().enumerate() {
            let Some((count, first)) = own.failed_reads().told() else {
                continue;
            };
            let at = first.at;
            write!(
                text,
                "leg {leg}: failed reads {count}, the first at byte {at}"
            )?;
            end_line(first.error.as_ref(), text)?;
        }
        Ok(())
    }

    /// At how many places reads failed of legs beside which no other is in sync.
    pub fn failed_reads(&self) -> u64 {
        let Some(legs) = &self.legs else {
            return 0;
        };
        let mut all = 0u64;
        for own in legs {
            if let Some((count, _)) = own.failed_reads().told() {
                all = all.saturating_add(count);
            }
        }
        all
    }

    /// Notes that somebody takes the leg out.
    pub fn note_taken_out(&self, leg: u8) {
        if let Some(doubts) = self.leg(leg) {
            doubts.note_taken_out();
        }
    }

    /// How the leg comes back.
    pub fn returning(&self, leg: u8) -> Returning {
        match self.leg(leg) {
            Some(doubts) => doubts.returning(),
            None => Returning::Everywhere,
        }
    }
}

impl Doubts for MirrorDoubts {
    fn is_doubted(&self, leg: u8) -> bool {
        match self.leg(leg) {
            Some(doubts) => doubts.is_doubted(),
            None => false,
        }
    }

    fn forget(&self, leg: u8, returning: Returning) {
        if let Some(doubts) = self.leg(leg) {
            doubts.forget(returning);
        }
    }
}
