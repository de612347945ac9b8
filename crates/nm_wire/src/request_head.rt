ghost use Rattle.std.specs.Prelude.{◌≡◌, ◌≢◌, ◌↔◌, ◌≤◌, ◌<◌, ℕ, List, ◌++◌};
ghost use Rattle.std.specs.Prelude.{length, take, drop, IfOk};
ghost use Rattle.nm_wire.specs.Number.{be, request_magic};
ghost use Rattle.nm_wire.specs.Layout.{FitsRequestHead, request_head_bytes};

use crate::command_flags::CommandFlags;
use crate::magic::REQUEST_MAGIC;
use crate::number::{get_u16, get_u32, get_u64, put_u16, put_u32, put_u64};
use crate::wire_fault::WireFault;

/// The header of a request ("Request message").
#[derive(Clone, Copy, PartialEq, Eq)]
pub struct RequestHead {
    /// The command flags, unknown bits included.
    pub flags: CommandFlags,
    /// The request's type, known or not.
    pub kind: u16,
    /// What the reply repeats, so that the client can match it to the request.
    pub cookie: u64,
    /// Where the range begins, in bytes.
    pub offset: u64,
    /// How long the range is, in bytes.
    pub length: u32,
}

impl RequestHead {
    /// How many bytes the header has.
    pub const BYTES: usize = 28;

    /// Writes the header's 28 bytes.
    pub fn put(&self, bytes: &mut [u8; 28])
        ensures { bytes.new ≡ request_head_bytes self.now }
    {
        put_u32(bytes, 0, REQUEST_MAGIC);
        put_u16(bytes, 4, self.flags.0);
        put_u16(bytes, 6, self.kind);
        put_u64(bytes, 8, self.cookie);
        put_u64(bytes, 16, self.offset);
        put_u32(bytes, 24, self.length);
    }

    /// The header that the bytes begin with, whatever follows it.
    pub fn get(bytes: &[u8]) -> Result<RequestHead, WireFault>
        ensures ok { IfOk result
            (λ head. bytes.now ≡ request_head_bytes head ++ drop 28 bytes.now) }
        ensures fits { IfOk result FitsRequestHead }
        ensures reads_back { (head : RequestHead) (rest : List ℕ) → FitsRequestHead head
            → bytes.now ≡ request_head_bytes head ++ rest → result ≡ Ok head }
        ensures short { (result ≡ Err WireFault.Short) ↔ (length bytes.now < 28) }
        ensures magic { (result ≡ Err WireFault.Magic)
            ↔ ((28 ≤ length bytes.now) × (take 4 bytes.now ≢ be 4 request_magic)) }
    {
        if bytes.len() < 28 {
            return Err(WireFault::Short);
        }
        if get_u32(bytes, 0) != REQUEST_MAGIC {
            return Err(WireFault::Magic);
        }
        Ok(RequestHead {
            flags: CommandFlags(get_u16(bytes, 4)),
            kind: get_u16(bytes, 6),
            cookie: get_u64(bytes, 8),
            offset: get_u64(bytes, 16),
            length: get_u32(bytes, 24),
        })
    }
}
