//! One field of a record: a little-endian number at an offset of a slice of bytes.

ghost use Rattle.std.specs.Prelude.{◌≡◌, ◌+◌, ◌^◌, ◌<◌, ◌≤◌, length, nat_le};
ghost use Rattle.std.specs.Int.{w64, cast_signed, cast_unsigned};
ghost use Rattle.elf_records.specs.Fields.{bytes_of, number_at, splice};

use byteorder::{ByteOrder, LittleEndian};

/// Whether `size` bytes from offset `at` on end no later than `bytes` does. No sum wraps: `at` may be any number.
#[inline(always)]
pub fn fits(bytes: &[u8], at: u64, size: u64) -> bool
    ensures { result ≡ nat_le (at + size) (length bytes.now) }
{
    let len = bytes.len() as u64;
    size <= len && at <= len - size
}

#[inline(always)]
#[tactic(auto, unfolding(crate::specs::Fields::number_at))]
pub fn u8_at(bytes: &[u8], at: usize) -> u8
    requires { at + 1 ≤ length bytes.now }
    ensures { result ≡ number_at 1 at bytes.now }
{
    bytes[at]
}

#[inline(always)]
pub fn u16_at(bytes: &[u8], at: usize) -> u16
    requires { at + 2 ≤ length bytes.now }
    ensures { result ≡ number_at 2 at bytes.now }
{
    LittleEndian::read_u16(&bytes[at..])
}

#[inline(always)]
pub fn u32_at(bytes: &[u8], at: usize) -> u32
    requires { at + 4 ≤ length bytes.now }
    ensures { result ≡ number_at 4 at bytes.now }
{
    LittleEndian::read_u32(&bytes[at..])
}

#[inline(always)]
pub fn u64_at(bytes: &[u8], at: usize) -> u64
    requires { at + 8 ≤ length bytes.now }
    ensures { result ≡ number_at 8 at bytes.now }
{
    LittleEndian::read_u64(&bytes[at..])
}

/// A signed number is read in two's complement.
#[inline(always)]
pub fn i64_at(bytes: &[u8], at: usize) -> i64
    requires { at + 8 ≤ length bytes.now }
    ensures { result ≡ cast_signed w64 (number_at 8 at bytes.now) }
{
    u64_at(bytes, at).cast_signed()
}

pub fn put_bytes(bytes: &mut [u8], at: usize, part: &[u8])
    requires { at + length part.now ≤ length bytes.old }
    ensures { bytes.new ≡ splice at part.now bytes.old }
{
    bytes[at..at + part.len()].copy_from_slice(part);
}

// The clause `fits` tells the writer of a record that the field's value is in the range of its type.
pub fn put_u8(bytes: &mut [u8], at: usize, value: u8)
    requires { at + 1 ≤ length bytes.old }
    ensures written { bytes.new ≡ splice at (bytes_of 1 value) bytes.old }
    ensures fits { value < 2 ^ 8 }
{
    bytes[at] = value;
}

pub fn put_u16(bytes: &mut [u8], at: usize, value: u16)
    requires { at + 2 ≤ length bytes.old }
    ensures written { bytes.new ≡ splice at (bytes_of 2 value) bytes.old }
    ensures fits { value < 2 ^ 16 }
{
    LittleEndian::write_u16(&mut bytes[at..], value);
}

pub fn put_u32(bytes: &mut [u8], at: usize, value: u32)
    requires { at + 4 ≤ length bytes.old }
    ensures written { bytes.new ≡ splice at (bytes_of 4 value) bytes.old }
    ensures fits { value < 2 ^ 32 }
{
    LittleEndian::write_u32(&mut bytes[at..], value);
}

pub fn put_u64(bytes: &mut [u8], at: usize, value: u64)
    requires { at + 8 ≤ length bytes.old }
    ensures written { bytes.new ≡ splice at (bytes_of 8 value) bytes.old }
    ensures fits { value < 2 ^ 64 }
{
    LittleEndian::write_u64(&mut bytes[at..], value);
}

/// A signed number is written in two's complement.
pub fn put_i64(bytes: &mut [u8], at: usize, value: i64)
    requires { at + 8 ≤ length bytes.old }
    ensures { bytes.new ≡ splice at (bytes_of 8 (cast_unsigned w64 value)) bytes.old }
{
    put_u64(bytes, at, value.cast_unsigned());
}
