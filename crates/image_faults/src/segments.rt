//! The program headers: LOADs, then DYNAMIC, then TLS, then GNU_RELRO.

ghost use Rattle.std.specs.Prelude.{◌≡◌, ◌+◌, ◌-◌, ◌^◌, ◌<◌, ◌≤◌, ◌↔◌, ℕ, length, IsTrue, IfOk};
ghost use Rattle.image_faults.specs.Parts.{count as header_count, loads as loads_of, last as last_of};
ghost use Rattle.image_faults.specs.Parts.{has_tls as has_tls_of, tls_size as tls_size_of};
ghost use Rattle.image_faults.specs.Parts.{relro_place as relro_place_of};
ghost use Rattle.image_faults.specs.Array.{array_size as array_size_of};
ghost use Rattle.image_faults.specs.Segments.{IsRightDynamic, HoldsInitialImage, IsRightTls};
ghost use Rattle.image_faults.specs.Segments.{IsRightRelro, IsRightRest};
ghost use Rattle.image_faults.specs.Faults.{IsFirstAt, IsFirst, IsFault, KeepsBelow, Answers};

use crate::found::fault_at;
use crate::headers::Headers;
use crate::loads::{first_wrong_load, is_placed};
use crate::searches::{behind_last_writable, load_count};
use elf_records::alignment::is_alignment;
use elf_records::program_header::{PF_R, PT_DYNAMIC, PT_GNU_RELRO, PT_TLS};
use elf_records::{Header, Segment};
use image_rules::{ImageFault, Rule};

/// The most bytes of an image's TLS block.
const TLS_LIMIT: u64 = 1 << 20;

/// An image whose program headers are right.
#[derive(Clone, Copy)]
pub struct Segments<'a> {
    pub headers: Headers<'a>,
    /// How many LOADs there are.
    pub loads: u64,
    /// The last of them, which holds the dynamic tables.
    pub last: Segment,
    /// How many bytes the dynamic array has. It begins where the last LOAD does.
    pub array_size: u64,
    /// Whether there is a TLS segment.
    pub has_tls: bool,
    /// How many bytes it has in memory, or 0.
    pub tls_size: u64,
    pub ghost loads_are: { loads ≡ loads_of headers.bytes.now },
    pub ghost loads_in: { (0 < loads) × (loads < headers.count) },
    pub ghost last_is: { last ≡ last_of headers.bytes.now },
    pub ghost last_inside: { last.offset + last.filesz ≤ length headers.bytes.now },
    pub ghost array_is: { array_size ≡ array_size_of headers.bytes.now },
    pub ghost array_in: { array_size ≤ last.filesz },
    pub ghost tls_is: { has_tls ≡ has_tls_of headers.bytes.now },
    pub ghost tls_size_is: { tls_size ≡ tls_size_of headers.bytes.now },
    pub ghost tls_small: { tls_size ≤ 2 ^ 20 },
}

/// Whether the header after the LOADs is that of the dynamic array.
fn is_right_dynamic(headers: &Headers, loads: u64) -> bool
    requires { loads ≡ loads_of headers.now.bytes.now }
    ensures { IsTrue result ↔ IsRightDynamic headers.now.bytes.now loads }
{
    if loads == 0 || headers.count <= loads {
        return false;
    }
    let dynamic = headers.segment(loads);
    let last = headers.segment(loads - 1);
    dynamic.kind == PT_DYNAMIC
        && is_placed(headers, &dynamic)
        && dynamic.vaddr == last.vaddr
        && dynamic.filesz <= last.filesz
}

/// Whether a LOAD holds the initial image of a TLS segment.
fn holds_initial_image(headers: &Headers, loads: u64, tls: &Segment, number: u64) -> bool
    requires loads { loads ≡ loads_of headers.now.bytes.now }
    requires number { number < headers.now.count }
    ensures { IsTrue result ↔ HoldsInitialImage headers.now.bytes.now tls.now number }
{
    let load = headers.segment(number);
    number + 1 < loads && load.flags == PF_R && load.vaddr == tls.vaddr && load.filesz == tls.filesz
}

/// Whether some LOAD holds it.
fn has_initial_image(headers: &Headers, loads: u64, tls: &Segment) -> bool
    requires loads { loads ≡ loads_of headers.now.bytes.now }
    requires few { loads ≤ headers.now.count }
    ensures { IsTrue result ↔ ((i : ℕ) × HoldsInitialImage headers.now.bytes.now tls.now i) }
{
    for number in 0..loads {
        if holds_initial_image(headers, loads, tls, number) {
            return true;
        }
    }
    false
}

/// Whether the header of a TLS segment keeps its rule.
fn is_right_tls(headers: &Headers, loads: u64, tls: &Segment) -> bool
    requires loads { loads ≡ loads_of headers.now.bytes.now }
    requires few { loads ≤ headers.now.count }
    ensures { IsTrue result ↔ IsRightTls headers.now.bytes.now tls.now }
{
    is_placed(headers, tls)
        && tls.filesz <= tls.memsz
        && 0 < tls.memsz
        && tls.memsz <= TLS_LIMIT
        && is_alignment(tls.align)
        && tls.vaddr % tls.align == 0
        && (tls.filesz == 0 || has_initial_image(headers, loads, tls))
}

/// Whether GNU_RELRO is the last LOAD that may be written.
fn is_right_relro(headers: &Headers, loads: u64, relro: &Segment) -> bool
    requires loads { loads ≡ loads_of headers.now.bytes.now }
    requires few { loads ≤ headers.now.count }
    ensures { IsTrue result ↔ IsRightRelro headers.now.bytes.now relro.now }
{
    let behind = behind_last_writable(headers, loads);
    if behind == 0 {
        return false;
    }
    let written = headers.segment(behind - 1);
    is_placed(headers, relro)
        && relro.vaddr == written.vaddr
        && relro.filesz == written.filesz
        && relro.memsz == written.memsz
}

/// Whether the header after DYNAMIC is that of a TLS segment.
fn has_tls(headers: &Headers, loads: u64) -> bool
    requires loads { loads ≡ loads_of headers.now.bytes.now }
    requires few { loads ≤ headers.now.count }
    ensures { result ≡ has_tls_of headers.now.bytes.now }
{
    loads + 1 < headers.count && headers.segment(loads + 1).kind == PT_TLS
}

/// Where GNU_RELRO stands, if there is one.
fn relro_place(headers: &Headers, loads: u64) -> u64
    requires loads { loads ≡ loads_of headers.now.bytes.now }
    requires few { loads ≤ headers.now.count }
    ensures { result ≡ relro_place_of headers.now.bytes.now }
{
    if has_tls(headers, loads) {
        loads + 2
    } else {
        loads + 1
    }
}

/// Whether a header after DYNAMIC is TLS or GNU_RELRO, at its place, and keeps its rule.
fn is_right_rest(headers: &Headers, loads: u64, number: u64) -> bool
    requires loads { loads ≡ loads_of headers.now.bytes.now }
    requires few { loads ≤ headers.now.count }
    requires number { number < headers.now.count }
    ensures { IsTrue result ↔ IsRightRest headers.now.bytes.now number }
{
    let segment = headers.segment(number);
    (number == loads + 1 && segment.kind == PT_TLS && is_right_tls(headers, loads, &segment))
        || (number == relro_place(headers, loads)
            && segment.kind == PT_GNU_RELRO
            && is_right_relro(headers, loads, &segment))
}

/// The first header after DYNAMIC that breaks its rule.
fn first_wrong_rest(headers: &Headers, loads: u64) -> Option<u64>
    requires loads { loads ≡ loads_of headers.now.bytes.now }
    requires few { loads < headers.now.count }
    ensures { IsFirstAt (λ i. (loads < i) × (i < header_count headers.now.bytes.now)
        × (IsRightRest headers.now.bytes.now i → ⊥)) result }
{
    for number in loads + 1..headers.count {
        if !is_right_rest(headers, loads, number) {
            return Some(number);
        }
    }
    None
}

/// How many bytes the TLS segment has in memory, or 0.
fn tls_size(headers: &Headers, loads: u64) -> u64
    requires loads { loads ≡ loads_of headers.now.bytes.now }
    requires few { loads ≤ headers.now.count }
    ensures { result ≡ tls_size_of headers.now.bytes.now }
{
    if has_tls(headers, loads) {
        headers.segment(loads + 1).memsz
    } else {
        0
    }
}

/// The fault of a program header, or of a missing one at the end of the table.
fn segment_fault(headers: &Headers, number: u64) -> ImageFault
    requires few { number ≤ 10 }
    requires first { IsFirst headers.now.bytes.now Rule.Segment number }
    ensures { IsFault headers.now.bytes.now result }
{
    let offset = Header::SIZE + Segment::SIZE * number;
    fault_at(Rule::Segment, headers.bytes, number, offset)
}

/// Checks the program headers.
pub fn segments_of<'a>(headers: Headers<'a>) -> Result<Segments<'a>, ImageFault>
    requires { KeepsBelow 9 headers.bytes.now }
    ensures segments { IfOk result (λ segments. segments.headers.bytes.now ≡ headers.entry.bytes.now) }
    ensures answers { Answers 9 headers.entry.bytes.now result }
{
    let loads = load_count(&headers);
    if let Some(number) = first_wrong_load(&headers, loads) {
        return Err(segment_fault(&headers, number));
    }
    if !is_right_dynamic(&headers, loads) {
        return Err(segment_fault(&headers, loads));
    }
    if let Some(number) = first_wrong_rest(&headers, loads) {
        return Err(segment_fault(&headers, number));
    }
    Ok(Segments {
        headers,
        loads,
        last: headers.segment(loads - 1),
        array_size: headers.segment(loads).filesz,
        has_tls: has_tls(&headers, loads),
        tls_size: tls_size(&headers, loads),
    })
}
