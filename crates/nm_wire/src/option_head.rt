ghost use Rattle.std.specs.Prelude.{◌≡◌, ◌≢◌, ◌↔◌, ◌≤◌, ◌<◌, ℕ, List, ◌++◌};
ghost use Rattle.std.specs.Prelude.{length, take, drop, IfOk};
ghost use Rattle.nm_wire.specs.Number.{be, option_magic};
ghost use Rattle.nm_wire.specs.Layout.{FitsOptionHead, option_head_bytes};

use crate::magic::OPTION_MAGIC;
use crate::number::{get_u32, get_u64, put_u32, put_u64};
use crate::wire_fault::WireFault;

/// The header of an option that the client asks for ("Fixed newstyle negotiation").
#[derive(Clone, Copy, PartialEq, Eq)]
pub struct OptionHead {
    /// The option's number, known or not.
    pub option: u32,
    /// How many bytes of data follow.
    pub length: u32,
}

impl OptionHead {
    /// How many bytes the header has.
    pub const BYTES: usize = 16;

    /// Writes the header's 16 bytes.
    pub fn put(&self, bytes: &mut [u8; 16])
        ensures { bytes.new ≡ option_head_bytes self.now }
    {
        put_u64(bytes, 0, OPTION_MAGIC);
        put_u32(bytes, 8, self.option);
        put_u32(bytes, 12, self.length);
    }

    /// The header that the bytes begin with, whatever follows it.
    pub fn get(bytes: &[u8]) -> Result<OptionHead, WireFault>
        ensures ok { IfOk result
            (λ head. bytes.now ≡ option_head_bytes head ++ drop 16 bytes.now) }
        ensures fits { IfOk result FitsOptionHead }
        ensures reads_back { (head : OptionHead) (rest : List ℕ) → FitsOptionHead head
            → bytes.now ≡ option_head_bytes head ++ rest → result ≡ Ok head }
        ensures short { (result ≡ Err WireFault.Short) ↔ (length bytes.now < 16) }
        ensures magic { (result ≡ Err WireFault.Magic)
            ↔ ((16 ≤ length bytes.now) × (take 8 bytes.now ≢ be 8 option_magic)) }
    {
        if bytes.len() < 16 {
            return Err(WireFault::Short);
        }
        if get_u64(bytes, 0) != OPTION_MAGIC {
            return Err(WireFault::Magic);
        }
        Ok(OptionHead {
            option: get_u32(bytes, 8),
            length: get_u32(bytes, 12),
        })
    }
}
