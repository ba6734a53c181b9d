//! Other numbers in place of one.

use job_changes::Generator;

/// Numbers at which readers test.
const LIMITS: [u64; 36] = [
    0,
    1,
    2,
    3,
    4,
    5,
    6,
    7,
    8,
    9,
    10,
    11,
    15,
    16,
    24,
    63,
    64,
    65,
    255,
    256,
    4095,
    4096,
    4097,
    8192,
    0xff00,
    0xffff,
    0x1_0000,
    0x10_0000,
    0x10_0001,
    0x100_0000,
    0x7fff_ffff,
    0x8000_0000,
    0xffff_ffff,
    0x1_0000_0000,
    0x8000_0000_0000_0000,
    0xffff_ffff_ffff_ffff,
];

/// A power of two, of any size.
fn power(generator: &mut Generator) -> u64 {
    1 << generator.below(64)
}

/// A power of two that is small.
fn small_power(generator: &mut Generator) -> u64 {
    1 << generator.below(8)
}

/// A limit.
fn limit(generator: &mut Generator) -> u64 {
    generator.pick(&LIMITS).unwrap_or(0)
}

/// Another number in place of this one, where a neighbour has that one.
pub(crate) fn other_number(generator: &mut Generator, old: u64, neighbour: u64) -> u64 {
    match generator.below(10) {
        0 => old.wrapping_add(1),
        1 => old.wrapping_sub(1),
        2 => old.wrapping_add(small_power(generator)),
        3 => old.wrapping_sub(small_power(generator)),
        4 => old ^ small_power(generator),
        5 => old ^ power(generator),
        6 => limit(generator),
        7 => generator.below(48),
        _ => neighbour,
    }
}

/// Bytes of the instructions of sequences, and of others that are near to them.
const CODE: [u8; 16] = [
    0x66, 0x48, 0x4c, 0x8d, 0x3d, 0x05, 0xe8, 0xff, 0x15, 0x10, 0x8b, 0x03, 0x90, 0xc3, 0x64, 0x00,
];

/// Another byte in place of this one, or by chance the same.
pub(crate) fn other_byte(generator: &mut Generator, old: u8) -> u8 {
    match generator.below(4) {
        0 => old ^ (1 << generator.below(8)),
        1 => old.wrapping_add(1),
        2 => generator.pick(&CODE).unwrap_or(0),
        _ => generator.below(256) as u8,
    }
}
