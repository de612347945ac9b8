ghost use Rattle.std.specs.Prelude.{◌≡◌, Some};
ghost use Rattle.nm_session.specs.Refused.{number_of, refused_text};
ghost use Rattle.nm_session.specs.declared.refused.Refused.TheVariants.{Memory};

use std::alloc::AllocError;
use std::error::Error;
use std::fmt;

/// Why a session's core did not do what it was asked for. Nothing changed, but for `next`.
#[derive(Clone, Copy, Debug, PartialEq, Eq, Hash)]
pub enum Refused {
    /// No request of this index was read.
    UnknownIndex,
    /// The request was answered already, or needed no answer.
    Twice,
    /// Nothing more is read.
    Closed,
    /// Out of memory; the call may be made again.
    Memory,
}

impl Refused {
    /// The refusal's number: 1 UnknownIndex, 2 Twice, 3 Closed, 4 Memory.
    pub fn number(&self) -> u8
        ensures { result ≡ number_of self.now }
    {
        match self {
            Refused::UnknownIndex => 1,
            Refused::Twice => 2,
            Refused::Closed => 3,
            Refused::Memory => 4,
        }
    }
}

impl fmt::Display for Refused {
    ghost output = { λ refused. Some (refused_text refused) };

    fn fmt<W: fmt::Write>(&self, f: &mut fmt::Formatter<W>) -> fmt::Result {
        f.write_str(match self {
            Refused::UnknownIndex => "no request of this index was read",
            Refused::Twice => "the request is not outstanding",
            Refused::Closed => "the session takes no more bytes",
            Refused::Memory => "out of memory",
        })
    }
}

impl Error for Refused {}

impl From<AllocError> for Refused {
    ghost from_gives = { λ _ refused. refused ≡ Memory };

    fn from(_refused: AllocError) -> Refused {
        Refused::Memory
    }
}
