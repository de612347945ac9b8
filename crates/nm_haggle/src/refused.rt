ghost use Rattle.nm_haggle.specs.declared.refused.Refused.TheVariants.{Memory};
ghost use Rattle.std.specs.Prelude.{◌≡◌, Some};
ghost use Rattle.nm_haggle.specs.Refused.{number_of, refused_text};

use std::alloc::AllocError;
use std::error::Error;
use std::fmt;

/// Why a piece was not taken. Nothing changed.
#[derive(Clone, Copy, Debug, PartialEq, Eq, Hash)]
pub enum Refused {
    /// Out of memory; the piece may be fed again.
    Memory = 1,
    /// The haggling is over: transmission began or the session closed.
    Closed = 2,
}

impl Refused {
    /// The refusal's number: 1 for `Memory`, 2 for `Closed`.
    pub fn number(&self) -> u8
        ensures { result ≡ number_of self.now }
    {
        *self as u8
    }
}

impl fmt::Display for Refused {
    ghost output = { λ refused. Some (refused_text refused) };

    fn fmt<W: fmt::Write>(&self, f: &mut fmt::Formatter<W>) -> fmt::Result {
        f.write_str(match self {
            Refused::Memory => "out of memory",
            Refused::Closed => "the option haggling is over",
        })
    }
}

impl Error for Refused {}

impl From<AllocError> for Refused {
    ghost from_gives = { λ _ refused. refused ≡ Memory };

    fn from(_refused: AllocError) -> Refused {
        Self::Memory
    }
}
