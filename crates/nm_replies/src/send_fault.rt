ghost use Rattle.std.specs.Prelude.{◌≡◌, Some};
ghost use Rattle.nm_replies.specs.SendFault.{fault_number, fault_text};

use std::error::Error;
use std::fmt;

/// Why bytes were not all sent.
#[derive(Clone, Copy, Debug, PartialEq, Eq)]
pub enum SendFault {
    /// 1: a write failed, or took nothing, after this many bytes had been written. The writer has
    /// failed for good.
    Device(usize),
    /// 2: an earlier write had failed; nothing was written.
    Failed,
}

impl SendFault {
    /// The refusal's number.
    pub fn number(self) -> u8
        ensures { result ≡ fault_number self }
    {
        match self {
            SendFault::Device(_) => 1,
            SendFault::Failed => 2,
        }
    }
}

impl fmt::Display for SendFault {
    ghost output = { λ fault. Some (fault_text fault) };

    fn fmt<W: fmt::Write>(&self, f: &mut fmt::Formatter<W>) -> fmt::Result {
        match self {
            SendFault::Device(sent) => write!(f, "a write failed after {sent} bytes"),
            SendFault::Failed => f.write_str("an earlier write failed"),
        }
    }
}

impl Error for SendFault {}
