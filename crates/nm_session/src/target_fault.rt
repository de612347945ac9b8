ghost use Rattle.std.specs.Prelude.{◌≡◌, Some};
ghost use Rattle.nm_session.specs.Target.{error_of, target_fault_text};

use nm_wire::errors::{EIO, ENOMEM, ENOSPC};
use std::error::Error;
use std::fmt;

/// Why a target did not do what a call asked for.
#[derive(Clone, Copy, Debug, PartialEq, Eq, Hash)]
pub enum TargetFault {
    /// Out of memory. The client is answered ENOMEM.
    Memory,
    /// The bytes could not be read, written or made durable. The client is answered EIO.
    Io,
    /// There is no space left for the bytes. The client is answered ENOSPC.
    Full,
}

impl TargetFault {
    /// The error that the client is answered with ("Error values").
    pub fn error(self) -> u32
        ensures { result ≡ error_of self }
    {
        match self {
            TargetFault::Memory => ENOMEM,
            TargetFault::Io => EIO,
            TargetFault::Full => ENOSPC,
        }
    }
}

impl fmt::Display for TargetFault {
    ghost output = { λ fault. Some (target_fault_text fault) };

    fn fmt<W: fmt::Write>(&self, f: &mut fmt::Formatter<W>) -> fmt::Result {
        f.write_str(match self {
            TargetFault::Memory => "out of memory",
            TargetFault::Io => "the target failed",
            TargetFault::Full => "no space left",
        })
    }
}

impl Error for TargetFault {}
