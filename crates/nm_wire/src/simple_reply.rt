ghost use Rattle.std.specs.Prelude.{◌≡◌, ◌≢◌, ◌↔◌, ◌≤◌, ◌<◌, ℕ, List, ◌++◌};
ghost use Rattle.std.specs.Prelude.{length, take, drop, IfOk};
ghost use Rattle.nm_wire.specs.Number.{be, simple_reply_magic};
ghost use Rattle.nm_wire.specs.Layout.{FitsSimpleReply, simple_reply_bytes};

use crate::magic::SIMPLE_REPLY_MAGIC;
use crate::number::{get_u32, get_u64, put_u32, put_u64};
use crate::wire_fault::WireFault;

/// The header of a simple reply ("Simple reply message").
#[derive(Clone, Copy, PartialEq, Eq)]
pub struct SimpleReply {
    /// 0, or the error code of a request that failed ("Error values").
    pub error: u32,
    /// The request's cookie.
    pub cookie: u64,
}

impl SimpleReply {
    /// How many bytes the header has.
    pub const BYTES: usize = 16;

    /// Writes the header's 16 bytes.
    pub fn put(&self, bytes: &mut [u8; 16])
        ensures { bytes.new ≡ simple_reply_bytes self.now }
    {
        put_u32(bytes, 0, SIMPLE_REPLY_MAGIC);
        put_u32(bytes, 4, self.error);
        put_u64(bytes, 8, self.cookie);
    }

    /// The header that the bytes begin with, whatever follows it.
    pub fn get(bytes: &[u8]) -> Result<SimpleReply, WireFault>
        ensures ok { IfOk result
            (λ reply. bytes.now ≡ simple_reply_bytes reply ++ drop 16 bytes.now) }
        ensures fits { IfOk result FitsSimpleReply }
        ensures reads_back { (reply : SimpleReply) (rest : List ℕ) → FitsSimpleReply reply
            → bytes.now ≡ simple_reply_bytes reply ++ rest → result ≡ Ok reply }
        ensures short { (result ≡ Err WireFault.Short) ↔ (length bytes.now < 16) }
        ensures magic { (result ≡ Err WireFault.Magic)
            ↔ ((16 ≤ length bytes.now) × (take 4 bytes.now ≢ be 4 simple_reply_magic)) }
    {
        if bytes.len() < 16 {
            return Err(WireFault::Short);
        }
        if get_u32(bytes, 0) != SIMPLE_REPLY_MAGIC {
            return Err(WireFault::Magic);
        }
        Ok(SimpleReply {
            error: get_u32(bytes, 4),
            cookie: get_u64(bytes, 8),
        })
    }
}
