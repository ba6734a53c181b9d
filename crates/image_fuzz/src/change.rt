//! Changes bytes of an image, in its headers, in its dynamic tables or anywhere, to a nearby byte or to any byte.

ghost use Rattle.std.specs.Prelude.{◌<◌};

use job_changes::Generator;

/// Bytes of the header and of ten program headers.
const HEADERS: u64 = 64 + 10 * 56;

/// An offset in a file of `size` bytes, of which the last `tables` hold the dynamic tables.
fn offset(generator: &mut Generator, size: u64, tables: u64) -> u64
    requires { 0 < size }
    ensures { result < size }
{
    let tables = tables.clamp(1, size);
    match generator.below(3) {
        0 => generator.below(HEADERS.min(size)),
        1 => size - tables + generator.below(tables),
        _ => generator.below(size),
    }
}

/// A byte to put in place of `old`; it may be the same.
fn byte(generator: &mut Generator, old: u8) -> u8 {
    match generator.below(3) {
        0 => old ^ (1 << generator.below(8)),
        1 => old.wrapping_add(1),
        _ => generator.below(256) as u8,
    }
}

/// Changes one byte.
fn change_one(generator: &mut Generator, bytes: &mut [u8], tables: usize) {
    let size = bytes.len();
    if size == 0 {
        return;
    }
    let at = offset(generator, size as u64, tables as u64) as usize;
    bytes[at] = byte(generator, bytes[at]);
}

/// Changes one to three bytes.
pub(crate) fn change(generator: &mut Generator, bytes: &mut [u8], tables: usize) {
    let count = 1 + generator.below(3);
    for _ in 0..count {
        change_one(generator, bytes, tables);
    }
}
