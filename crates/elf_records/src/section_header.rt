//! Section headers (gABI, "Sections").

ghost use Rattle.std.specs.Prelude.{◌≡◌, ◌+◌, ◌*◌, ◌≤◌, ◌↔◌, IsTrue, length, take, drop};
ghost use Rattle.elf_records.specs.Fields.{splice};
ghost use Rattle.elf_records.specs.FieldLaws.{IsReadAt};
ghost use Rattle.elf_records.specs.Records.{section_at, section_bytes, HasBytes};

use crate::field::{fits, put_u32, put_u64, u32_at, u64_at};

// Section types (gABI, "Section Types").
/// The header is unused: it describes no section.
pub const SHT_NULL: u32 = 0;
/// Bytes whose meaning the program decides.
pub const SHT_PROGBITS: u32 = 1;
/// A symbol table.
pub const SHT_SYMTAB: u32 = 2;
/// A string table: texts, each with a zero byte after it.
pub const SHT_STRTAB: u32 = 3;
/// Relocation entries with an addend.
pub const SHT_RELA: u32 = 4;
/// Notes.
pub const SHT_NOTE: u32 = 7;
/// Zeros, which take no bytes of the file.
pub const SHT_NOBITS: u32 = 8;
/// Relocation entries without an addend.
pub const SHT_REL: u32 = 9;
/// A group of sections that are kept or dropped together.
pub const SHT_GROUP: u32 = 17;
/// Section numbers that do not fit in a symbol's 16 bits.
pub const SHT_SYMTAB_SHNDX: u32 = 18;
/// Tables for unwinding the stack (psABI, "Special Sections").
pub const SHT_X86_64_UNWIND: u32 = 0x7000_0001;

// Section flags (gABI, "Section Attribute Flags").
/// The program may write there.
pub const SHF_WRITE: u64 = 0x1;
/// The section takes memory while the program runs.
pub const SHF_ALLOC: u64 = 0x2;
/// The section holds code.
pub const SHF_EXECINSTR: u64 = 0x4;
/// A linker may merge equal entries.
pub const SHF_MERGE: u64 = 0x10;
/// The entries are texts, each with a zero byte after it.
pub const SHF_STRINGS: u64 = 0x20;
/// Each thread has its own copy of the section.
pub const SHF_TLS: u64 = 0x400;

/// An entry of the section header table: what a section is called, what it holds and where its bytes lie in the file.
#[derive(Clone, Copy, PartialEq, Eq, Debug)]
pub struct SectionHeader {
    /// Where the name begins in the string table of section names.
    pub name: u32,
    /// The type, as [`SHT_PROGBITS`].
    pub kind: u32,
    /// Bits such as [`SHF_ALLOC`].
    pub flags: u64,
    /// The address at which the section is loaded; 0 in an object.
    pub addr: u64,
    /// Where the section's bytes begin in the file.
    pub offset: u64,
    /// How many bytes the section has; those of [`SHT_NOBITS`] take none of the file.
    pub size: u64,
    /// Another section: for a symbol table its string table, for relocations their symbol table.
    pub link: u32,
    /// For a symbol table, the number of its first symbol that is not local; for relocations, the
    /// section that they apply to.
    pub info: u32,
    /// A power of two; the address must be a multiple of it. 0 and 1 require nothing.
    pub addralign: u64,
    /// Bytes that each entry takes, in a section that is a table.
    pub entsize: u64,
}

impl SectionHeader {
    /// Bytes that a section header takes in a file.
    pub const SIZE: u64 = 64;
}

/// Reads the section header at offset `at`. `None` exactly where it would pass the end of `bytes`.
#[inline]
#[tactic(auto, unfolding(crate::specs::Records::section_at))]
pub fn read_section(bytes: &[u8], at: u64) -> Option<SectionHeader>
    ensures { IsReadAt SectionHeader.SIZE section_at bytes.now at result }
{
    if !fits(bytes, at, SectionHeader::SIZE) {
        return None;
    }
    let at = at as usize;
    Some(SectionHeader {
        name: u32_at(bytes, at),
        kind: u32_at(bytes, at + 4),
        flags: u64_at(bytes, at + 8),
        addr: u64_at(bytes, at + 16),
        offset: u64_at(bytes, at + 24),
        size: u64_at(bytes, at + 32),
        link: u32_at(bytes, at + 40),
        info: u32_at(bytes, at + 44),
        addralign: u64_at(bytes, at + 48),
        entsize: u64_at(bytes, at + 56),
    })
}

/// Header `number` of the table that begins at `table`.
#[inline]
pub fn section_numbered(bytes: &[u8], table: u64, number: u64) -> SectionHeader
    requires { table + SectionHeader.SIZE * number + SectionHeader.SIZE ≤ length bytes.now }
    ensures { result ≡ section_at (table + SectionHeader.SIZE * number) bytes.now }
{
    match read_section(bytes, table + SectionHeader::SIZE * number) {
        Some(header) => header,
        None => unreachable!(),
    }
}

/// Whether the file holds bytes of the section.
#[inline]
pub fn has_bytes(header: &SectionHeader) -> bool
    ensures { IsTrue result ↔ HasBytes header.now }
{
    header.kind != SHT_NULL && header.kind != SHT_NOBITS
}

/// Writes the section header at offset `at`, over the bytes that stand there.
pub fn write_section(fields: &SectionHeader, bytes: &mut [u8], at: u64)
    requires { at + SectionHeader.SIZE ≤ length bytes.old }
    ensures bytes { bytes.new ≡ splice at (section_bytes fields.now) bytes.old }
    ensures again { section_at at bytes.new ≡ fields.now }
    ensures before { take at bytes.new ≡ take at bytes.old }
    ensures after { drop (at + SectionHeader.SIZE) bytes.new ≡ drop (at + SectionHeader.SIZE) bytes.old }
{
    let at = at as usize;
    put_u32(bytes, at, fields.name);
    put_u32(bytes, at + 4, fields.kind);
    put_u64(bytes, at + 8, fields.flags);
    put_u64(bytes, at + 16, fields.addr);
    put_u64(bytes, at + 24, fields.offset);
    put_u64(bytes, at + 32, fields.size);
    put_u32(bytes, at + 40, fields.link);
    put_u32(bytes, at + 44, fields.info);
    put_u64(bytes, at + 48, fields.addralign);
    put_u64(bytes, at + 56, fields.entsize);
}
