//! What the last verification found that found a difference.

use nm_geometry::Shape;
use nm_mirror::Findings;
use nm_reports::region_bytes;
use std::alloc::AllocError;

/// Whether a difference still stands.
#[derive(Clone, Copy, PartialEq, Eq)]
enum Stand {
    // No leg was replaced since it was found.
    Open,
    // A leg was, and others may still differ.
    Partly,
    // The leg that differed was: what was found is older than its copy.
    Older,
}

impl Stand {
    // Its word for the control port.
    fn word(self) -> &'static str {
        match self {
            Stand::Open => "open",
            Stand::Partly => "partly",
            Stand::Older => "older",
        }
    }
}

/// What a verification found, some of which differs, and whether legs were replaced since.
#[derive(Clone, Copy)]
pub struct Finding {
    found: Findings,
    stand: Stand,
}

impl Finding {
    /// This was found, and no leg was replaced since.
    pub fn new(found: Findings) -> Finding {
        Finding {
            found,
            stand: Stand::Open,
        }
    }

    // How many of the regions that differ are told.
    fn told(&self) -> usize {
        self.found.differing.min(self.found.places.len() as u64) as usize
    }

    // Whether this leg alone differs from the first one in sync, in each region.
    fn is_of(&self, leg: u8) -> bool {
        let told = self.told();
        self.found.differing == told as u64
            && self
                .found
                .places
                .iter()
                .take(told)
                .all(|place| place.leg == leg)
    }

    /// This leg, of so many, was replaced.
    pub fn note_replaced(&mut self, leg: u8, legs: u8) {
        self.stand = if legs <= 2 || self.stand == Stand::Older || self.is_of(leg) {
            Stand::Older
        } else {
            Stand::Partly
        };
    }

    /// How many regions differ that no replacement has repaired.
    pub fn differing(&self) -> u64 {
        if self.stand == Stand::Older {
            0
        } else {
            self.found.differing
        }
    }

    /// Puts a line that says what differs, and when, so many seconds ago, that was found.
    pub fn put(&self, age: u64, shape: &Shape, text: &mut String) -> Result<(), AllocError> {
        let (differing, compared) = (self.found.differing, self.found.compared);
        let word = self.stand.word();
        write!(
            text,
            "finding: differing {differing} compared {compared} age {age} {word} at"
        )?;
        self.put_bytes(shape, text)?;
        text.push_str("\n")
    }

    // Puts the bytes of the export of the regions that are told, as `262144+65536`.
    fn put_bytes(&self, shape: &Shape, text: &mut String) -> Result<(), AllocError> {
        for place in self.found.places.iter().take(self.told()) {
            if place.stripe >= shape.stripes {
                continue;
            }
            if let Some(bytes) = region_bytes(shape, place.stripe, place.region) {
                write!(text, " {}+{}", bytes.offset, bytes.length)?;
            }
        }
        Ok(())
    }
}

/// Puts the bytes of the export of the first of these regions, behind a word on them, as a line of
/// the log tells them.
pub fn put_places(
    what: &str,
    found: &Findings,
    shape: &Shape,
    text: &mut String,
) -> Result<(), AllocError> {
    write!(
        text,
        "verify: these bytes of the export {what}, from and how many:"
    )?;
    Finding::new(*found).put_bytes(shape, text)
}
