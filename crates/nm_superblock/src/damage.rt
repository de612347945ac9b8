//! Whether a slot is damaged, and not new or torn.
ghost use Rattle.std.specs.Prelude.{◌<◌, ◌↔◌, IsTrue};
ghost use Rattle.nm_superblock.specs.Damage.{HasBadSector, HasOneStamp, IsBad};
ghost use Rattle.nm_superblock.specs.Damage.{IsDamaged, IsDamagedPlace};

use crate::sectors::{has_head, is_blank, read_stamp};
use crate::superblock::Superblock;

/// Whether one of a place's slots is damaged.
pub fn is_place_damaged(first: &[u8; 4096], second: &[u8; 4096]) -> bool
    ensures { IsTrue result
        ↔ IsDamagedPlace (record { first = first.now; second = second.now }) }
{
    is_damaged(first) || is_damaged(second)
}

/// Whether a slot is damaged: it holds no superblock, and bytes that no save has left there, be it
/// done or cut off.
pub fn is_damaged(slot: &[u8; 4096]) -> bool
    ensures { IsTrue result ↔ IsDamaged slot.now }
{
    Superblock::decode(slot).is_none() && (has_one_stamp(slot) || has_bad_sector(slot))
}

// Whether each head is valid, and all have one stamp.
fn has_one_stamp(slot: &[u8; 4096]) -> bool
    ensures { IsTrue result ↔ HasOneStamp slot.now }
{
    'sectors: for number in 0..8 {
        if !has_head(slot, number) || read_stamp(slot, number) != read_stamp(slot, 0) {
            return false;
        }
    }
    true
}

// Whether some sector is bad.
fn has_bad_sector(slot: &[u8; 4096]) -> bool
    ensures { IsTrue result ↔ HasBadSector slot.now }
{
    'sectors: for number in 0..8 {
        if is_bad(slot, number) {
            return true;
        }
    }
    false
}

// Whether the sector is neither blank, nor has a valid head.
fn is_bad(slot: &[u8; 4096], number: usize) -> bool
    requires { number < 8 }
    ensures { IsTrue result ↔ IsBad number slot.now }
{
    !is_blank(slot, number) && !has_head(slot, number)
}
