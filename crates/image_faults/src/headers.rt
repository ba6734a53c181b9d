//! The file's header and the program headers: they lie in the file, and have the right values.

ghost use Rattle.std.specs.Prelude.{◌≡◌, ◌+◌, ◌*◌, ◌<◌, ◌≤◌, ◌↔◌, ℕ, length, IsTrue, MatchOption, IfOk};
ghost use Rattle.image_rules.specs.declared.rule.Rule.TheVariants.{Field};
ghost use Rattle.image_rules.specs.Rules.{number};
ghost use Rattle.image_faults.specs.Parts.{header, base as base_of, segment as segment_header};
ghost use Rattle.image_faults.specs.Fields.{IsWrongIdent, IsRightField, field_offset};
ghost use Rattle.image_faults.specs.Segments.{HasSegmentPastEnd, PassesEnd};
ghost use Rattle.image_faults.specs.Faults.{IsFirstAt, KeepsBelow, Answers};

use crate::found::fault_at;
use elf_records::file_header::{ELF_IDENT, EM_X86_64, ET_DYN, ET_EXEC, EV_CURRENT};
use elf_records::{Header, Segment, fits, read_header, read_segment};
use image_rules::{FieldRule, ImageFault, Rule};

/// The most program headers that an image has.
const SEGMENT_LIMIT: u16 = 10;

/// The address at which a program at fixed addresses begins.
const PROGRAM_BASE: u64 = 0x40_0000;

/// The bytes of a file that holds all its program headers and the bytes of all segments.
#[derive(Clone, Copy)]
pub struct Headers<'a> {
    pub bytes: &'a [u8],
    /// How many program headers there are.
    pub count: u64,
    /// The address at which the image begins.
    pub base: u64,
    /// Whether it may be loaded anywhere.
    pub is_shared: bool,
    pub ghost count_is: { count ≡ (header bytes.now).e_phnum },
    pub ghost base_is: { base ≡ base_of bytes.now },
    pub ghost shared_is: { IsTrue is_shared ↔ ((header bytes.now).e_type ≡ 3) },
    pub ghost few: { (0 < count) × (count ≤ 10) },
    pub ghost inside: { 64 + 56 * count ≤ length bytes.now },
    pub ghost segments_inside: { (i : ℕ) → HasSegmentPastEnd bytes.now i → ⊥ },
}

/// The file's header. `None` exactly where the file is too short for one.
#[tactic(auto, unfolding(crate::specs::Parts::header))]
fn file_header(bytes: &[u8]) -> Option<Header>
    ensures { MatchOption result (length bytes.now < Header.SIZE)
        (λ found. (Header.SIZE ≤ length bytes.now) × (found ≡ header bytes.now)) }
{
    read_header(bytes, 0)
}

/// The first byte of the identification that differs from that of ELF with 64 bits and little-endian data.
fn first_wrong_ident(header: &Header) -> Option<u64>
    ensures { IsFirstAt (IsWrongIdent header.now) result }
{
    for index in 0..ELF_IDENT.len() {
        if header.ident[index] != ELF_IDENT[index] {
            return Some(index as u64);
        }
    }
    None
}

/// Whether a field of the header has the right value.
fn is_right_field(rule: FieldRule, header: &Header) -> bool
    ensures { IsTrue result ↔ IsRightField rule header.now }
{
    match rule {
        FieldRule::FileType => header.e_type == ET_EXEC || header.e_type == ET_DYN,
        FieldRule::Machine => header.e_machine == EM_X86_64,
        FieldRule::Version => header.e_version == EV_CURRENT,
        FieldRule::TableOffset => header.e_phoff == Header::SIZE,
        FieldRule::EntrySize => u64::from(header.e_phentsize) == Segment::SIZE,
        FieldRule::Count => 0 < header.e_phnum && header.e_phnum <= SEGMENT_LIMIT,
    }
}

/// Where a field stands in the file.
fn field_offset(rule: FieldRule) -> u64
    ensures { result ≡ field_offset rule }
{
    match rule {
        FieldRule::FileType => 16,
        FieldRule::Machine => 18,
        FieldRule::Version => 20,
        FieldRule::TableOffset => 32,
        FieldRule::EntrySize => 54,
        FieldRule::Count => 56,
    }
}

/// Checks a field of the header.
fn ask_field(rule: FieldRule, bytes: &[u8], found: &Header) -> Result<(), ImageFault>
    requires header { found.now ≡ header bytes.now }
    requires earlier { KeepsBelow (number (Field rule)) bytes.now }
    ensures answers { Answers (number (Field rule)) bytes.now result }
    ensures right { IfOk result (λ _. IsRightField rule found.now) }
{
    if is_right_field(rule, found) {
        Ok(())
    } else {
        Err(fault_at(Rule::Field(rule), bytes, 0, field_offset(rule)))
    }
}

/// Checks the file's header.
fn ask_header(bytes: &[u8]) -> Result<Header, ImageFault>
    ensures answers { Answers 7 bytes.now result }
    ensures header { IfOk result (λ found. found ≡ header bytes.now) }
    ensures long { IfOk result (λ _. 64 ≤ length bytes.now) }
    ensures count { IfOk result (λ found. (0 < found.e_phnum) × (found.e_phnum ≤ 10)) }
{
    let Some(found) = file_header(bytes) else {
        return Err(fault_at(Rule::Length, bytes, 0, bytes.len() as u64));
    };
    if let Some(index) = first_wrong_ident(&found) {
        return Err(fault_at(Rule::Ident, bytes, index, index));
    }
    ask_field(FieldRule::FileType, bytes, &found)?;
    ask_field(FieldRule::Machine, bytes, &found)?;
    ask_field(FieldRule::Version, bytes, &found)?;
    ask_field(FieldRule::TableOffset, bytes, &found)?;
    ask_field(FieldRule::EntrySize, bytes, &found)?;
    ask_field(FieldRule::Count, bytes, &found)?;
    Ok(found)
}

/// Program header `number`.
#[tactic(auto, unfolding(crate::specs::Parts::segment))]
fn segment_in(bytes: &[u8], number: u64) -> Segment
    requires few { number < 10 }
    requires inside { 64 + 56 * number + 56 ≤ length bytes.now }
    ensures { result ≡ segment_header bytes.now number }
{
    match read_segment(bytes, Header::SIZE + Segment::SIZE * number) {
        Some(segment) => segment,
        None => unreachable!(),
    }
}

/// Whether the bytes of a segment pass the end of the file.
fn has_segment_past_end(bytes: &[u8], found: &Header, number: u64) -> bool
    requires header { found.now ≡ header bytes.now }
    requires number { number < found.now.e_phnum }
    requires few { found.now.e_phnum ≤ 10 }
    requires inside { 64 + 56 * found.now.e_phnum ≤ length bytes.now }
    ensures { IsTrue result ↔ HasSegmentPastEnd bytes.now number }
{
    let segment = segment_in(bytes, number);
    !fits(bytes, segment.offset, segment.filesz)
}

/// The first segment whose bytes pass the end of the file.
fn segment_past_end(bytes: &[u8], found: &Header) -> Option<u64>
    requires header { found.now ≡ header bytes.now }
    requires few { found.now.e_phnum ≤ 10 }
    requires inside { 64 + 56 * found.now.e_phnum ≤ length bytes.now }
    ensures { IsFirstAt (HasSegmentPastEnd bytes.now) result }
{
    for number in 0..u64::from(found.e_phnum) {
        if has_segment_past_end(bytes, found, number) {
            return Some(number);
        }
    }
    None
}

/// Whether the program headers, or the bytes of a segment, pass the end of the file.
fn passes_end(bytes: &[u8], found: &Header) -> bool
    requires header { found.now ≡ header bytes.now }
    requires few { found.now.e_phnum ≤ 10 }
    ensures wrong { IsTrue result → PassesEnd bytes.now }
    ensures inside { (IsTrue result → ⊥) → 64 + 56 * found.now.e_phnum ≤ length bytes.now }
    ensures segments { (IsTrue result → ⊥) → (i : ℕ) → HasSegmentPastEnd bytes.now i → ⊥ }
{
    let size = Segment::SIZE * u64::from(found.e_phnum);
    !fits(bytes, Header::SIZE, size) || segment_past_end(bytes, found).is_some()
}

/// Reads the file's header, and checks it and where the segments lie.
pub fn headers_of(bytes: &[u8]) -> Result<Headers<'_>, ImageFault>
    ensures headers { IfOk result (λ headers. headers.bytes.now ≡ bytes.now) }
    ensures answers { Answers 8 bytes.now result }
{
    let header = ask_header(bytes)?;
    if passes_end(bytes, &header) {
        return Err(fault_at(Rule::Extent, bytes, 0, bytes.len() as u64));
    }
    Ok(Headers {
        bytes,
        count: u64::from(header.e_phnum),
        base: if header.e_type == ET_EXEC {
            PROGRAM_BASE
        } else {
            0
        },
        is_shared: header.e_type == ET_DYN,
    })
}

impl Headers<'_> {
    /// A program header.
    pub fn segment(&self, number: u64) -> Segment
        requires { number < self.now.count }
        ensures segment { result ≡ segment_header self.now.bytes.now number }
        ensures inside { result.offset + result.filesz ≤ length self.now.bytes.now }
    {
        segment_in(self.bytes, number)
    }
}
