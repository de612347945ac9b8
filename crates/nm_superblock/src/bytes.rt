//! Numbers and bytes at a given offset of a buffer, written one after the other.
ghost use Rattle.std.specs.Prelude.{◌≡◌, ◌+◌, ◌*◌, ◌≤◌, ◌++◌, length, take, drop};
ghost use Rattle.std.specs.Prelude.{List, ℕ};
ghost use Rattle.byteorder.specs.Endian.{big_number};
ghost use Rattle.nm_superblock.specs.Bounds.{AreNumbers};
ghost use Rattle.nm_superblock.specs.Layout.{be, table_bytes, zeroes};

use byteorder::{BigEndian, ByteOrder};

// Writes the number as 2 bytes at offset `at`.
pub(crate) fn put_u16(bytes: &mut [u8], at: usize, number: u16)
    requires { at + 2 ≤ length bytes.old }
    ensures { take (at + 2) bytes.new ≡ take at bytes.old ++ be 2 number }
{
    BigEndian::write_u16(&mut bytes[at..at + 2], number);
}

// Writes the number as 4 bytes at offset `at`.
pub(crate) fn put_u32(bytes: &mut [u8], at: usize, number: u32)
    requires { at + 4 ≤ length bytes.old }
    ensures { take (at + 4) bytes.new ≡ take at bytes.old ++ be 4 number }
{
    BigEndian::write_u32(&mut bytes[at..at + 4], number);
}

// Writes the number as 8 bytes at offset `at`.
pub(crate) fn put_u64(bytes: &mut [u8], at: usize, number: u64)
    requires { at + 8 ≤ length bytes.old }
    ensures { take (at + 8) bytes.new ≡ take at bytes.old ++ be 8 number }
{
    BigEndian::write_u64(&mut bytes[at..at + 8], number);
}

// Writes the number as 16 bytes at offset `at`.
pub(crate) fn put_u128(bytes: &mut [u8], at: usize, number: u128)
    requires { at + 16 ≤ length bytes.old }
    ensures { take (at + 16) bytes.new ≡ take at bytes.old ++ be 16 number }
{
    BigEndian::write_u128(&mut bytes[at..at + 16], number);
}

// Writes the numbers as 8 bytes each from offset `at` on.
pub(crate) fn put_table(bytes: &mut [u8], at: usize, numbers: &[u64])
    requires { at + 8 * length numbers.now ≤ length bytes.old }
    ensures { take (at + 8 * length numbers.now) bytes.new
        ≡ take at bytes.old ++ table_bytes numbers.now }
{
    BigEndian::write_u64_into(numbers, &mut bytes[at..at + 8 * numbers.len()]);
}

// Writes these bytes from offset `at` on.
pub(crate) fn put_bytes(bytes: &mut [u8], at: usize, piece: &[u8])
    requires { at + length piece.now ≤ length bytes.old }
    ensures written { take (at + length piece.now) bytes.new ≡ take at bytes.old ++ piece.now }
    ensures rest { drop (at + length piece.now) bytes.new ≡ drop (at + length piece.now) bytes.old }
{
    bytes[at..at + piece.len()].copy_from_slice(piece);
}

// Writes so many bytes of zero from offset `at` on.
pub(crate) fn put_zeroes(bytes: &mut [u8], at: usize, count: usize)
    requires { at + count ≤ length bytes.old }
    ensures { take (at + count) bytes.new ≡ take at bytes.old ++ zeroes count }
{
    bytes[at..at + count].fill(0);
}

// The number in the 4 bytes at offset `at`.
pub(crate) fn get_u32(bytes: &[u8], at: usize) -> u32
    requires { at + 4 ≤ length bytes.now }
    ensures { result ≡ big_number 4 (drop at bytes.now) }
{
    BigEndian::read_u32(&bytes[at..])
}

// The number in the 8 bytes at offset `at`.
pub(crate) fn get_u64(bytes: &[u8], at: usize) -> u64
    requires { at + 8 ≤ length bytes.now }
    ensures { result ≡ big_number 8 (drop at bytes.now) }
{
    BigEndian::read_u64(&bytes[at..])
}

// Reads the numbers of 8 bytes each that stand from offset `at` on.
pub(crate) fn get_table(bytes: &[u8], at: usize, numbers: &mut [u64])
    requires { at + 8 * length numbers.old ≤ length bytes.now }
    ensures fits { AreNumbers (length numbers.old) numbers.new }
    ensures reads_back { (table rest : List ℕ) → AreNumbers (length numbers.old) table
        → drop at bytes.now ≡ table_bytes table ++ rest → numbers.new ≡ table }
{
    let end = at + 8 * numbers.len();
    BigEndian::read_u64_into(&bytes[at..end], numbers);
}
