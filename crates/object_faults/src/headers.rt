//! The file's header, and where the table of section headers lies.

ghost use Rattle.std.specs.Prelude.{◌≡◌, ◌+◌, ◌*◌, ◌<◌, ◌≤◌, ◌↔◌, length, IsTrue, MatchOption, IfOk, IfErr};
ghost use Rattle.object_faults.specs.Parts.{header, section as section_header};
ghost use Rattle.object_faults.specs.Faults.{IsElf, IsRelocatable, IsFault};

use elf_records::file_header::{EM_X86_64, ET_REL, is_elf};
use elf_records::symbol::SHN_LORESERVE;
use elf_records::{Header, SectionHeader, fits, read_header, section_numbered};
use object_rules::{FaultKind, ObjectFault, fault_at};

/// The bytes of a relocatable file that holds its whole table of section headers.
#[derive(Clone, Copy)]
pub struct Headers<'a> {
    pub bytes: &'a [u8],
    /// Where the table begins.
    pub table: u64,
    /// How many sections there are, number 0 included.
    pub count: u64,
    /// The section that holds the names of sections.
    pub names: u64,
    ghost long: { 64 ≤ length bytes.now },
    ghost elf: { IsElf (header bytes.now) },
    ghost relocatable: { IsRelocatable (header bytes.now) },
    ghost table_is: { table ≡ (header bytes.now).e_shoff },
    ghost count_is: { count ≡ (header bytes.now).e_shnum },
    ghost names_is: { names ≡ (header bytes.now).e_shstrndx },
    ghost inside: { table + 64 * count ≤ length bytes.now },
}

/// Whether `size` bytes from `at` on lie in the file. No sum wraps.
pub fn lies_in(bytes: &[u8], at: u64, size: u64) -> bool
    ensures { IsTrue result ↔ (at + size ≤ length bytes.now) }
{
    fits(bytes, at, size)
}

impl Headers<'_> {
    /// The header of a section.
    #[tactic(auto, unfolding(crate::specs::Parts::section))]
    pub fn section(&self, number: u64) -> SectionHeader
        requires { number < self.now.count }
        ensures { result ≡ section_header self.now.bytes.now number }
    {
        section_numbered(self.bytes, self.table, number)
    }
}

/// Whether the header is that of an object for x86-64 with a table of section headers.
fn is_relocatable(header: &Header) -> bool
    ensures { IsTrue result ↔ IsRelocatable header.now }
{
    header.e_type == ET_REL
        && header.e_machine == EM_X86_64
        && u64::from(header.e_shentsize) == SectionHeader::SIZE
        && 0 < header.e_shnum
        && header.e_shnum < SHN_LORESERVE
        && 0 < header.e_shstrndx
        && header.e_shstrndx < header.e_shnum
}

/// The file's header. `None` exactly where the file is too short for one.
#[tactic(auto, unfolding(crate::specs::Parts::header))]
fn file_header(bytes: &[u8]) -> Option<Header>
    ensures { MatchOption result (length bytes.now < Header.SIZE)
        (λ found. (Header.SIZE ≤ length bytes.now) × (found ≡ header bytes.now)) }
{
    read_header(bytes, 0)
}

/// Reads the file's header, and checks it and where the table lies.
pub fn headers_of(bytes: &[u8]) -> Result<Headers<'_>, ObjectFault>
    ensures headers { IfOk result (λ headers. headers.bytes.now ≡ bytes.now) }
    ensures fault { IfErr result (IsFault bytes.now) }
{
    let Some(header) = file_header(bytes) else {
        return Err(fault_at(0, 0, FaultKind::Truncated));
    };
    if !is_elf(&header) {
        return Err(fault_at(0, 0, FaultKind::NotElf));
    }
    if !is_relocatable(&header) {
        return Err(fault_at(0, 0, FaultKind::NotRelocatable));
    }
    let table = header.e_shoff;
    let count = u64::from(header.e_shnum);
    if !lies_in(bytes, table, SectionHeader::SIZE * count) {
        return Err(fault_at(0, 0, FaultKind::Truncated));
    }
    Ok(Headers {
        bytes,
        table,
        count,
        names: u64::from(header.e_shstrndx),
    })
}
