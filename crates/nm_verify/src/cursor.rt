//! Where a verification is.
ghost use Rattle.std.specs.Prelude.{◌≡◌, ◌-◌, ◌^◌, ◌<◌};
ghost use Rattle.nm_rules.specs.Runs.{FitsRun};
ghost use Rattle.nm_verify.specs.Cursor.{after_leg, after_run, after_write, at_stripe};

use nm_stripe::At;

/// How often two legs are looked at, where writes come between, until they are given up.
pub const MOST_TRIES: u32 = 100;

/// Where a verification is: the run that begins at this block of this stripe is compared, from this
/// leg on, after so many tries between which a write came.
#[derive(Clone, Copy, PartialEq, Eq)]
pub struct Cursor {
    /// The stripe's number.
    pub stripe: u32,
    /// The run's first block.
    pub block: u64,
    /// The lowest leg that may still be compared there.
    pub leg: u8,
    /// How often a write came between two looks at the next leg.
    pub tries: u32,
}

impl Cursor {
    /// The beginning of a stripe.
    pub(crate) fn at_stripe(stripe: u32) -> Cursor
        ensures { result ≡ at_stripe stripe }
    {
        Cursor {
            stripe,
            block: 0,
            leg: 0,
            tries: 0,
        }
    }

    /// The place after this leg was compared.
    pub(crate) fn after_leg(self, leg: u8) -> Cursor
        ensures { result ≡ after_leg leg self }
    {
        Cursor {
            leg: leg.saturating_add(1),
            tries: 0,
            ..self
        }
    }

    /// The place after a write came between.
    pub(crate) fn after_write(self) -> Cursor
        ensures { result ≡ after_write self }
    {
        Cursor {
            tries: self.tries.saturating_add(1),
            ..self
        }
    }

    /// The place after a run of so many blocks.
    pub(crate) fn after_run(self, place: At, count: u64) -> Cursor
        requires run { FitsRun place self.block count }
        requires stripe { self.stripe < 2 ^ 32 - 1 }
        ensures { result ≡ after_run place count self }
    {
        let next = self.block + count;
        if next < place.blocks {
            Cursor {
                block: next,
                ..Cursor::at_stripe(self.stripe)
            }
        } else {
            Cursor::at_stripe(self.stripe + 1)
        }
    }
}
