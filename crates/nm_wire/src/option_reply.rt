ghost use Rattle.std.specs.Prelude.{◌≡◌, ◌≢◌, ◌↔◌, ◌≤◌, ◌<◌, ℕ, List, ◌++◌};
ghost use Rattle.std.specs.Prelude.{length, take, drop, IfOk};
ghost use Rattle.nm_wire.specs.Number.{be, option_reply_magic};
ghost use Rattle.nm_wire.specs.Layout.{FitsOptionReply, option_reply_bytes};

use crate::magic::OPTION_REPLY_MAGIC;
use crate::number::{get_u32, get_u64, put_u32, put_u64};
use crate::wire_fault::WireFault;

/// The header of a reply to an option ("Fixed newstyle negotiation").
#[derive(Clone, Copy, PartialEq, Eq)]
pub struct OptionReply {
    /// The number of the option that is replied to.
    pub option: u32,
    /// The reply type's number.
    pub kind: u32,
    /// How many bytes of data follow.
    pub length: u32,
}

impl OptionReply {
    /// How many bytes the header has.
    pub const BYTES: usize = 20;

    /// Writes the header's 20 bytes.
    pub fn put(&self, bytes: &mut [u8; 20])
        ensures { bytes.new ≡ option_reply_bytes self.now }
    {
        put_u64(bytes, 0, OPTION_REPLY_MAGIC);
        put_u32(bytes, 8, self.option);
        put_u32(bytes, 12, self.kind);
        put_u32(bytes, 16, self.length);
    }

    /// The header that the bytes begin with, whatever follows it.
    pub fn get(bytes: &[u8]) -> Result<OptionReply, WireFault>
        ensures ok { IfOk result
            (λ reply. bytes.now ≡ option_reply_bytes reply ++ drop 20 bytes.now) }
        ensures fits { IfOk result FitsOptionReply }
        ensures reads_back { (reply : OptionReply) (rest : List ℕ) → FitsOptionReply reply
            → bytes.now ≡ option_reply_bytes reply ++ rest → result ≡ Ok reply }
        ensures short { (result ≡ Err WireFault.Short) ↔ (length bytes.now < 20) }
        ensures magic { (result ≡ Err WireFault.Magic)
            ↔ ((20 ≤ length bytes.now) × (take 8 bytes.now ≢ be 8 option_reply_magic)) }
    {
        if bytes.len() < 20 {
            return Err(WireFault::Short);
        }
        if get_u64(bytes, 0) != OPTION_REPLY_MAGIC {
            return Err(WireFault::Magic);
        }
        Ok(OptionReply {
            option: get_u32(bytes, 8),
            kind: get_u32(bytes, 12),
            length: get_u32(bytes, 16),
        })
    }
}
