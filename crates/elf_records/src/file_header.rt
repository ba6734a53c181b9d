//! The header that every ELF file begins with (gABI, "ELF Header").

ghost use Rattle.std.specs.Prelude.{◌≡◌, ◌+◌, ◌≤◌, ◌↔◌, IsTrue, length, take, drop};
ghost use Rattle.elf_records.specs.Fields.{splice};
ghost use Rattle.elf_records.specs.FieldLaws.{IsReadAt};
ghost use Rattle.elf_records.specs.Records.{header_at, header_bytes, IsElf};

use crate::field::{fits, put_bytes, put_u16, put_u32, put_u64, u16_at, u32_at, u64_at};

// The first bytes of `ident`, in which every file for x86-64 agrees (gABI, "ELF Identification").
/// The magic number, class 2 (64 bits), data encoding 1 (little-endian) and version 1.
pub const ELF_IDENT: [u8; 7] = [0x7f, b'E', b'L', b'F', 2, 1, 1];

// Values of `e_type`, `e_machine` and `e_version`.
/// An object, to be linked.
pub const ET_REL: u16 = 1;
/// A program whose addresses are fixed.
pub const ET_EXEC: u16 = 2;
/// A shared object, or a program that may be loaded anywhere.
pub const ET_DYN: u16 = 3;
/// The x86-64 processor.
pub const EM_X86_64: u16 = 62;
/// The only version of the format.
pub const EV_CURRENT: u32 = 1;

/// The header of an ELF file: what the file is, and where its two tables of headers lie.
#[derive(Clone, Copy, PartialEq, Eq, Debug)]
pub struct Header {
    /// The magic number 7f 45 4c 46, then the class, the data encoding, the version and what systems add.
    pub ident: [u8; 16],
    /// What kind of file it is, as [`ET_REL`].
    pub e_type: u16,
    /// The processor, as [`EM_X86_64`].
    pub e_machine: u16,
    /// The version of the format, [`EV_CURRENT`].
    pub e_version: u32,
    /// The address at which a program begins, or 0.
    pub e_entry: u64,
    /// Where the table of program headers begins in the file.
    pub e_phoff: u64,
    /// Where the table of section headers begins in the file.
    pub e_shoff: u64,
    /// Flags of the processor; x86-64 has none.
    pub e_flags: u32,
    /// Bytes of this header.
    pub e_ehsize: u16,
    /// Bytes of each program header.
    pub e_phentsize: u16,
    /// How many program headers there are.
    pub e_phnum: u16,
    /// Bytes of each section header.
    pub e_shentsize: u16,
    /// How many section headers there are.
    pub e_shnum: u16,
    /// The section that holds the names of sections.
    pub e_shstrndx: u16,
}

impl Header {
    /// Bytes that the header takes in a file.
    pub const SIZE: u64 = 64;
}

/// Reads the ELF header at offset `at`. `None` exactly where it would pass the end of `bytes`.
#[tactic(auto, unfolding(crate::specs::Records::header_at, crate::specs::Fields::part_at))]
pub fn read_header(bytes: &[u8], at: u64) -> Option<Header>
    ensures { IsReadAt Header.SIZE header_at bytes.now at result }
{
    if !fits(bytes, at, Header::SIZE) {
        return None;
    }
    let at = at as usize;
    let mut ident = [0; 16];
    ident.copy_from_slice(&bytes[at..at + 16]);
    Some(Header {
        ident,
        e_type: u16_at(bytes, at + 16),
        e_machine: u16_at(bytes, at + 18),
        e_version: u32_at(bytes, at + 20),
        e_entry: u64_at(bytes, at + 24),
        e_phoff: u64_at(bytes, at + 32),
        e_shoff: u64_at(bytes, at + 40),
        e_flags: u32_at(bytes, at + 48),
        e_ehsize: u16_at(bytes, at + 52),
        e_phentsize: u16_at(bytes, at + 54),
        e_phnum: u16_at(bytes, at + 56),
        e_shentsize: u16_at(bytes, at + 58),
        e_shnum: u16_at(bytes, at + 60),
        e_shstrndx: u16_at(bytes, at + 62),
    })
}

/// Whether the first bytes are those of ELF with 64 bits and little-endian data.
pub fn is_elf(header: &Header) -> bool
    ensures { IsTrue result ↔ IsElf header.now }
{
    header.ident[..7] == ELF_IDENT[..] && header.e_version == EV_CURRENT
}

/// Writes the ELF header at offset `at`, over the bytes that stand there.
pub fn write_header(fields: &Header, bytes: &mut [u8], at: u64)
    requires { at + Header.SIZE ≤ length bytes.old }
    ensures bytes { bytes.new ≡ splice at (header_bytes fields.now) bytes.old }
    ensures again { header_at at bytes.new ≡ fields.now }
    ensures before { take at bytes.new ≡ take at bytes.old }
    ensures after { drop (at + Header.SIZE) bytes.new ≡ drop (at + Header.SIZE) bytes.old }
{
    let at = at as usize;
    put_bytes(bytes, at, &fields.ident);
    put_u16(bytes, at + 16, fields.e_type);
    put_u16(bytes, at + 18, fields.e_machine);
    put_u32(bytes, at + 20, fields.e_version);
    put_u64(bytes, at + 24, fields.e_entry);
    put_u64(bytes, at + 32, fields.e_phoff);
    put_u64(bytes, at + 40, fields.e_shoff);
    put_u32(bytes, at + 48, fields.e_flags);
    put_u16(bytes, at + 52, fields.e_ehsize);
    put_u16(bytes, at + 54, fields.e_phentsize);
    put_u16(bytes, at + 56, fields.e_phnum);
    put_u16(bytes, at + 58, fields.e_shentsize);
    put_u16(bytes, at + 60, fields.e_shnum);
    put_u16(bytes, at + 62, fields.e_shstrndx);
}
