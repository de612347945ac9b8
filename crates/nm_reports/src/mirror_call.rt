ghost use Rattle.std.specs.Prelude.{◌≡◌};
ghost use Rattle.nm_reports.specs.MirrorCall.{changes};

use bytes::Bytes;

/// A call of a mirror, in bytes: offsets count from the export's first byte.
#[derive(Drop)]
pub enum MirrorCall {
    /// Reads the bytes from this offset on into all of the buffer that comes with the call.
    Read(u64),
    /// Writes these bytes from this offset on.
    Write(u64, Bytes),
    /// Writes zeroes from this offset on, to so many bytes.
    Zero(u64, u64),
    /// Makes durable all that was written before.
    Flush,
    /// Makes durable what was written before from this offset on, to so many bytes.
    Sync(u64, u64),
}

impl MirrorCall {
    /// Whether it changes what the export holds.
    pub fn changes(&self) -> bool
        ensures { result ≡ changes self.now }
    {
        matches!(self, MirrorCall::Write(_, _) | MirrorCall::Zero(_, _))
    }
}
