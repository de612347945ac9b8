//! Big-endian numbers at a given offset of a buffer.
ghost use Rattle.std.specs.Prelude.{◌≡◌, ◌+◌, ◌≤◌, ◌++◌, length, take, drop};
ghost use Rattle.nm_wire.specs.Number.{be};

use byteorder::{BigEndian, ByteOrder};

/// Writes the number as 2 bytes at offset `at`.
pub fn put_u16(bytes: &mut [u8], at: usize, number: u16)
    requires { at + 2 ≤ length bytes.old }
    ensures written { take (at + 2) bytes.new ≡ take at bytes.old ++ be 2 number }
    ensures rest { drop (at + 2) bytes.new ≡ drop (at + 2) bytes.old }
{
    BigEndian::write_u16(&mut bytes[at..at + 2], number);
}

/// Writes the number as 4 bytes at offset `at`.
pub fn put_u32(bytes: &mut [u8], at: usize, number: u32)
    requires { at + 4 ≤ length bytes.old }
    ensures written { take (at + 4) bytes.new ≡ take at bytes.old ++ be 4 number }
    ensures rest { drop (at + 4) bytes.new ≡ drop (at + 4) bytes.old }
{
    BigEndian::write_u32(&mut bytes[at..at + 4], number);
}

/// Writes the number as 8 bytes at offset `at`.
pub fn put_u64(bytes: &mut [u8], at: usize, number: u64)
    requires { at + 8 ≤ length bytes.old }
    ensures written { take (at + 8) bytes.new ≡ take at bytes.old ++ be 8 number }
    ensures rest { drop (at + 8) bytes.new ≡ drop (at + 8) bytes.old }
{
    BigEndian::write_u64(&mut bytes[at..at + 8], number);
}

/// The number in the 2 bytes at offset `at`.
pub fn get_u16(bytes: &[u8], at: usize) -> u16
    requires { at + 2 ≤ length bytes.now }
    ensures { take (at + 2) bytes.now ≡ take at bytes.now ++ be 2 result }
{
    BigEndian::read_u16(&bytes[at..])
}

/// The number in the 4 bytes at offset `at`.
pub fn get_u32(bytes: &[u8], at: usize) -> u32
    requires { at + 4 ≤ length bytes.now }
    ensures { take (at + 4) bytes.now ≡ take at bytes.now ++ be 4 result }
{
    BigEndian::read_u32(&bytes[at..])
}

/// The number in the 8 bytes at offset `at`.
pub fn get_u64(bytes: &[u8], at: usize) -> u64
    requires { at + 8 ≤ length bytes.now }
    ensures { take (at + 8) bytes.now ≡ take at bytes.now ++ be 8 result }
{
    BigEndian::read_u64(&bytes[at..])
}
