//! The sectors of a slot: a header with the stamp, and a piece of the payload.
ghost use Rattle.std.specs.Prelude.{◌≡◌, ◌⊎◌, ◌+◌, ◌*◌, ◌<◌, ◌++◌, ◌↔◌, IsTrue, length, take};
ghost use Rattle.std.specs.Prelude.{slice_index};
ghost use Rattle.nm_superblock.specs.Damage.{HasHead, HasHeadOf, IsBlank};
ghost use Rattle.nm_superblock.specs.Layout.{check_of, header_bytes, sectors_bytes};
ghost use Rattle.nm_superblock.specs.Sectors.{HasMagic, pieces_of, stamp_of};

use crate::bytes::{get_u64, put_bytes, put_u16, put_u64};

const SECTORS: usize = 8;

const SECTOR: usize = 512;

const HEADER: usize = 16;

const PIECE: usize = SECTOR - HEADER;

// The header of this sector.
fn header(version: u8, generation: u64, number: u8) -> [u8; 16]
    ensures { result ≡ header_bytes version generation number }
{
    let mut header = [
        0x4e, 0x4d, 0x52, 0x53, version, number, 0, 0, 0, 0, 0, 0, 0, 0, 0, 0,
    ];
    put_u16(&mut header, 6, check(version, generation, number));
    put_u64(&mut header, 8, generation);
    header
}

// What such a header checks itself by.
fn check(version: u8, generation: u64, number: u8) -> u16
    ensures { result ≡ check_of version generation number }
{
    if version < 3 {
        return 0;
    }
    let start = (0x4e4d_5253 * 256 + u128::from(version)) * 256 + u128::from(number);
    let whole = start * 0x1_0000_0000_0000_0000 + u128::from(generation);
    1 + (whole % 65521) as u16
}

// Writes the sectors of this payload, of this version and under this stamp.
pub(crate) fn write_sectors(
    version: u8,
    generation: u64,
    payload: &[u8; 3968],
    slot: &mut [u8; 4096],
)
    ensures { slot.new ≡ sectors_bytes version generation 8 payload.now }
{
    'sectors: for number in 0..SECTORS {
        let header = header(version, generation, number as u8);
        put_bytes(slot, SECTOR * number, &header);
        let piece = &payload[PIECE * number..PIECE * number + PIECE];
        put_bytes(slot, SECTOR * number + HEADER, piece);
    }
}

// The stamp in this sector, whatever else stands there.
pub(crate) fn read_stamp(slot: &[u8; 4096], number: usize) -> u64
    requires { number < 8 }
    ensures { result ≡ stamp_of number slot.now }
{
    get_u64(slot, SECTOR * number + 8)
}

// Whether this sector begins as each superblock's do.
fn has_magic(slot: &[u8; 4096], number: usize) -> bool
    requires { number < 8 }
    ensures { IsTrue result ↔ HasMagic number slot.now }
{
    is_same(
        &slot[SECTOR * number..SECTOR * number + 4],
        &[0x4e, 0x4d, 0x52, 0x53],
    )
}

// The stamp in this sector, or 0 where it does not begin as a superblock's.
pub(crate) fn read_tried(slot: &[u8; 4096], number: usize) -> u64
    requires { number < 8 }
    ensures magic { HasMagic number slot.now → result ≡ stamp_of number slot.now }
    ensures stands { (result ≡ 0)
        ⊎ (HasMagic number slot.now × (stamp_of number slot.now ≡ result)) }
{
    if !has_magic(slot, number) {
        return 0;
    }
    read_stamp(slot, number)
}

// Whether this sector's head is valid: that of its number under its stamp, which is not 0.
pub(crate) fn has_head(slot: &[u8; 4096], number: usize) -> bool
    requires { number < 8 }
    ensures { IsTrue result ↔ HasHead number slot.now }
{
    read_stamp(slot, number) >= 1
        && (has_head_of(slot, number, 1)
            || has_head_of(slot, number, 2)
            || has_head_of(slot, number, 3))
}

// Whether this sector has the head of this version.
fn has_head_of(slot: &[u8; 4096], number: usize, version: u8) -> bool
    requires { number < 8 }
    ensures { IsTrue result ↔ HasHeadOf version number slot.now }
{
    let head = header(version, read_stamp(slot, number), number as u8);
    is_same(&slot[SECTOR * number..SECTOR * number + HEADER], &head)
}

// The version of the format that the first sector's header says, whatever it is.
pub(crate) fn read_version(slot: &[u8; 4096]) -> u8
    ensures { result ≡ slice_index slot.now 4 }
{
    slot[4]
}

// Whether this sector has zeroes alone.
pub(crate) fn is_blank(slot: &[u8; 4096], number: usize) -> bool
    requires { number < 8 }
    ensures { IsTrue result ↔ IsBlank number slot.now }
{
    is_same(
        &slot[SECTOR * number..SECTOR * number + SECTOR],
        &[0; SECTOR],
    )
}

// Whether both have the same bytes.
fn is_same(first: &[u8], second: &[u8]) -> bool
    ensures { IsTrue result ↔ (first.now ≡ second.now) }
{
    first == second
}

// What stands in the sectors after their headers, whatever these are.
pub(crate) fn read_pieces(slot: &[u8; 4096]) -> [u8; 3968]
    ensures { result ≡ pieces_of 8 slot.now }
{
    let mut payload = [0; 3968];
    'sectors: for number in 0..SECTORS {
        let piece = &slot[SECTOR * number + HEADER..SECTOR * number + SECTOR];
        put_bytes(&mut payload, PIECE * number, piece);
    }
    payload
}
