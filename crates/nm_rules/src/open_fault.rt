ghost use Rattle.std.specs.Prelude.{◌≡◌, Some};
ghost use Rattle.nm_rules.specs.OpenFault.{fault_number, fault_text};

use std::error::Error;
use std::fmt;

/// Why a stripe did not open by comparing its legs.
#[derive(Clone, Copy, Debug, PartialEq, Eq)]
pub enum OpenFault {
    /// Out of memory. No leg was called.
    Memory,
    /// A read of the master failed. No leg was called after it.
    MasterFault,
}

impl OpenFault {
    /// The fault's number, which stays the same whatever faults are added.
    pub fn number(&self) -> u8
        ensures { result ≡ fault_number self.now }
    {
        match self {
            OpenFault::Memory => 1,
            OpenFault::MasterFault => 2,
        }
    }
}

impl fmt::Display for OpenFault {
    ghost output = { λ fault. Some (fault_text fault) };

    fn fmt<W: fmt::Write>(&self, f: &mut fmt::Formatter<W>) -> fmt::Result {
        f.write_str(match self {
            OpenFault::Memory => "out of memory",
            OpenFault::MasterFault => "the master cannot be read",
        })
    }
}

impl Error for OpenFault {}
