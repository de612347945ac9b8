ghost use Rattle.std.specs.Prelude.{◌≡◌, Some};
ghost use Rattle.nm_lanes.specs.WriteFault.{fault_number, fault_text};

use crate::call_error::CallError;
use std::error::Error;
use std::fmt;

/// Why a write was not done.
#[derive(Debug, Clone, Copy, PartialEq, Eq, Drop)]
pub enum WriteFault {
    /// Out of memory for the cuts of the payload. No step was done.
    Memory,
    /// A stripe could not go on. Blocks that were written before stay written.
    Io(CallError),
}

impl WriteFault {
    /// The fault's number: 1 Memory, 2 Io.
    pub fn number(&self) -> u8
        ensures { result ≡ fault_number self.now }
    {
        match self {
            WriteFault::Memory => 1,
            WriteFault::Io(_) => 2,
        }
    }
}

impl fmt::Display for WriteFault {
    ghost output = { λ fault. Some (fault_text fault) };

    fn fmt<W: fmt::Write>(&self, f: &mut fmt::Formatter<W>) -> fmt::Result {
        f.write_str(match self {
            WriteFault::Memory => "out of memory",
            WriteFault::Io(_) => "a stripe cannot go on",
        })
    }
}

impl Error for WriteFault {}
