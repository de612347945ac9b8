ghost use Rattle.std.specs.Prelude.{◌≡◌, Some};
ghost use Rattle.nm_requests.specs.Faults.{number_of, text_of};
ghost use Rattle.nm_requests.specs.declared.fault.Fault.TheVariants.{Memory};

use std::alloc::AllocError;
use std::error::Error;
use std::fmt;

/// Why a reader hands out no request.
#[derive(Clone, Copy, Debug, PartialEq, Eq, Hash)]
pub enum Fault {
    /// A header begins with another magic number, or follows 2^63 requests. Permanent.
    Magic,
    /// A WRITE is longer than 32 MiB. Permanent.
    TooLong,
    /// Out of memory. Nothing changed, and the call may be made again.
    Memory,
}

impl Fault {
    /// The fault's number: 1 Magic, 2 TooLong, 3 Memory.
    pub fn number(&self) -> u8
        ensures { result ≡ number_of self.now }
    {
        match self {
            Fault::Magic => 1,
            Fault::TooLong => 2,
            Fault::Memory => 3,
        }
    }
}

impl fmt::Display for Fault {
    ghost output = { λ fault. Some (text_of fault) };

    fn fmt<W: fmt::Write>(&self, f: &mut fmt::Formatter<W>) -> fmt::Result {
        f.write_str(match self {
            Fault::Magic => "a request begins with another magic number",
            Fault::TooLong => "a WRITE is longer than 32 MiB",
            Fault::Memory => "out of memory",
        })
    }
}

impl Error for Fault {}

impl From<AllocError> for Fault {
    ghost from_gives = { λ _ fault. fault ≡ Memory };

    fn from(_refused: AllocError) -> Fault {
        Fault::Memory
    }
}
