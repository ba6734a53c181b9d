//! What may be wrong with the header of a LOAD.

ghost use Rattle.std.specs.Prelude.{◌≡◌, ◌+◌, ◌<◌, ◌≤◌, ◌↔◌, IsTrue};
ghost use Rattle.image_faults.specs.Parts.{loads as loads_of, segment as segment_header};
ghost use Rattle.image_faults.specs.Segments.{IsPlaced, IsClass, IsWhole, IsInRange, IsOfFewWritten, IsLastConstant};
ghost use Rattle.image_faults.specs.Segments.{IsRightLoad};
ghost use Rattle.image_faults.specs.Faults.{IsFirstAt};

use crate::headers::Headers;
use crate::searches::{READ_WRITE, has_relro, written_below};
use elf_records::Segment;
use elf_records::alignment::PAGE;
use elf_records::program_header::{PF_R, PF_X};

/// How many addresses an image may span.
const RANGE: u128 = 1 << 26;

/// Whether the bytes of a segment stand in the file at the offset that its address requires.
pub fn is_placed(headers: &Headers, segment: &Segment) -> bool
    ensures { IsTrue result ↔ IsPlaced headers.now.bytes.now segment.now }
{
    u128::from(segment.vaddr) + u128::from(PAGE)
        == u128::from(segment.offset) + u128::from(headers.base)
}

/// Whether the flags are those of code, of constant data or of data that programs write.
fn is_class(segment: &Segment) -> bool
    ensures { IsTrue result ↔ IsClass segment.now }
{
    segment.flags == PF_X || segment.flags == PF_R || segment.flags == READ_WRITE
}

/// Whether a segment has bytes, all of them in the file, and begins at a page.
fn is_whole(segment: &Segment) -> bool
    ensures { IsTrue result ↔ IsWhole segment.now }
{
    segment.filesz == segment.memsz && 0 < segment.memsz && segment.vaddr % PAGE == 0
}

/// The address after a segment.
fn end_of(segment: &Segment) -> u128
    ensures { result ≡ segment.now.vaddr + segment.now.memsz }
{
    u128::from(segment.vaddr) + u128::from(segment.memsz)
}

/// Whether a LOAD lies in the range of the image, and no lower than the end of the one before.
fn is_in_range(headers: &Headers, number: u64) -> bool
    requires { number < headers.now.count }
    ensures { IsTrue result ↔ IsInRange headers.now.bytes.now number }
{
    let segment = headers.segment(number);
    if segment.vaddr < headers.base || u128::from(headers.base) + RANGE < end_of(&segment) {
        return false;
    }
    number == 0 || end_of(&headers.segment(number - 1)) <= u128::from(segment.vaddr)
}

/// Whether a LOAD is not writable, or is one of the two that may be.
fn is_of_few_written(headers: &Headers, number: u64) -> bool
    requires { number < headers.now.count }
    ensures { IsTrue result ↔ IsOfFewWritten headers.now.bytes.now number }
{
    let limit = if has_relro(headers) { 2 } else { 1 };
    headers.segment(number).flags != READ_WRITE || written_below(headers, number) < limit
}

/// Whether a LOAD is not the last, or is constant.
fn is_last_constant(headers: &Headers, loads: u64, number: u64) -> bool
    requires loads { loads ≡ loads_of headers.now.bytes.now }
    requires number { number < headers.now.count }
    ensures { IsTrue result ↔ IsLastConstant headers.now.bytes.now number }
{
    number + 1 != loads || headers.segment(number).flags == PF_R
}

/// Whether the header of a LOAD keeps its rule.
fn is_right_load(headers: &Headers, loads: u64, number: u64) -> bool
    requires loads { loads ≡ loads_of headers.now.bytes.now }
    requires number { number < headers.now.count }
    ensures { IsTrue result ↔ IsRightLoad headers.now.bytes.now number }
{
    let segment = headers.segment(number);
    is_placed(headers, &segment)
        && is_class(&segment)
        && is_whole(&segment)
        && is_in_range(headers, number)
        && is_of_few_written(headers, number)
        && is_last_constant(headers, loads, number)
}

/// The first LOAD whose header breaks its rule.
pub fn first_wrong_load(headers: &Headers, loads: u64) -> Option<u64>
    requires loads { loads ≡ loads_of headers.now.bytes.now }
    requires few { loads ≤ headers.now.count }
    ensures { IsFirstAt (λ i. (i < loads) × (IsRightLoad headers.now.bytes.now i → ⊥)) result }
{
    for number in 0..loads {
        if !is_right_load(headers, loads, number) {
            return Some(number);
        }
    }
    None
}
