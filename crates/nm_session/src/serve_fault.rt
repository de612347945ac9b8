ghost use Rattle.std.specs.Prelude.{◌≡◌, Some};
ghost use Rattle.nm_session.specs.ServeFault.{serve_fault_number, serve_fault_text};

use std::error::Error;
use std::fmt;

/// Why a session broke off before its end.
#[derive(Clone, Copy, Debug, PartialEq, Eq, Hash)]
pub enum ServeFault {
    /// 1: out of memory, for the session itself.
    Memory,
    /// 2: a read failed.
    Read,
    /// 3: a write failed once so many bytes of what was to be written were.
    Write(usize),
}

impl ServeFault {
    /// The fault's number.
    pub fn number(self) -> u8
        ensures { result ≡ serve_fault_number self }
    {
        match self {
            ServeFault::Memory => 1,
            ServeFault::Read => 2,
            ServeFault::Write(_) => 3,
        }
    }
}

impl fmt::Display for ServeFault {
    ghost output = { λ fault. Some (serve_fault_text fault) };

    fn fmt<W: fmt::Write>(&self, f: &mut fmt::Formatter<W>) -> fmt::Result {
        match self {
            ServeFault::Memory => f.write_str("out of memory"),
            ServeFault::Read => f.write_str("a read failed"),
            ServeFault::Write(sent) => write!(f, "a write failed after {sent} bytes"),
        }
    }
}

impl Error for ServeFault {}
