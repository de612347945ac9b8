ghost use Rattle.std.specs.Prelude.{◌≡◌, Some};
ghost use Rattle.nm_wire.specs.WireFault.{fault_number, fault_text};

use std::error::Error;
use std::fmt;

/// Why bytes do not parse as a header, in the order tested.
#[derive(Clone, Copy, Debug, PartialEq, Eq, Hash)]
pub enum WireFault {
    /// 1: fewer bytes than the header has.
    Short = 1,
    /// 2: the bytes do not begin with the header's magic number.
    Magic = 2,
}

impl WireFault {
    /// The refusal's number.
    pub fn number(self) -> u8
        ensures { result ≡ fault_number self }
    {
        self as u8
    }
}

impl fmt::Display for WireFault {
    ghost output = { λ fault. Some (fault_text fault) };

    fn fmt<W: fmt::Write>(&self, f: &mut fmt::Formatter<W>) -> fmt::Result {
        f.write_str(match self {
            WireFault::Short => "too few bytes for the header",
            WireFault::Magic => "wrong magic number",
        })
    }
}

impl Error for WireFault {}
