//! The parts of an object: sections with their relocations, and symbols.

ghost use Rattle.std.specs.Prelude.{◌<◌};

use elf_records::section_header::{
    SHF_ALLOC, SHF_EXECINSTR, SHF_TLS, SHF_WRITE, SHT_NOBITS, SHT_PROGBITS,
};
use elf_records::symbol::{STB_GLOBAL, STB_LOCAL};
use elf_records::{Rela, SymbolEntry};

/// A section. It borrows its bytes and relocations.
#[derive(Clone, Copy, Debug)]
pub struct Section<'a> {
    pub name: &'a [u8],
    /// The type, as `SHT_PROGBITS`.
    pub kind: u32,
    pub flags: u64,
    pub alignment: u64,
    /// The bytes in the file.
    pub bytes: &'a [u8],
    /// How many bytes it has in memory.
    pub size: u64,
    pub relocations: &'a [Rela],
}

impl<'a> Section<'a> {
    /// A section whose bytes are in the file.
    pub fn of(name: &'a [u8], flags: u64, bytes: &'a [u8]) -> Section<'a> {
        Section {
            name,
            kind: SHT_PROGBITS,
            flags,
            alignment: 1,
            bytes,
            size: bytes.len() as u64,
            relocations: &[],
        }
    }

    /// A section of zeros, which take no bytes of the file.
    pub fn zeros(name: &'a [u8], flags: u64, size: u64) -> Section<'a> {
        Section {
            name,
            kind: SHT_NOBITS,
            flags,
            alignment: 1,
            bytes: &[],
            size,
            relocations: &[],
        }
    }

    /// Code, `.text`.
    pub fn code(bytes: &'a [u8]) -> Section<'a> {
        Section::of(b".text", SHF_ALLOC | SHF_EXECINSTR, bytes)
    }

    /// Constants, `.rodata`.
    pub fn constants(bytes: &'a [u8]) -> Section<'a> {
        Section::of(b".rodata", SHF_ALLOC, bytes)
    }

    /// Thread-local variables that begin with these bytes, `.tdata`.
    pub fn variables(bytes: &'a [u8]) -> Section<'a> {
        Section::of(b".tdata", SHF_ALLOC | SHF_WRITE | SHF_TLS, bytes)
    }

    /// Thread-local variables that begin as zeros, `.tbss`.
    pub fn zero_variables(size: u64) -> Section<'a> {
        Section::zeros(b".tbss", SHF_ALLOC | SHF_WRITE | SHF_TLS, size)
    }

    /// Data that programs write, `.data`.
    pub fn data(bytes: &'a [u8]) -> Section<'a> {
        Section::of(b".data", SHF_ALLOC | SHF_WRITE, bytes)
    }

    /// The section with these relocations.
    pub fn with(self, relocations: &'a [Rela]) -> Section<'a> {
        Section {
            name: self.name,
            kind: self.kind,
            flags: self.flags,
            alignment: self.alignment,
            bytes: self.bytes,
            size: self.size,
            relocations,
        }
    }
}

/// A symbol. In its entry the name is 0 until the object is drafted.
#[derive(Clone, Copy, Debug)]
pub struct Symbol<'a> {
    pub name: &'a [u8],
    pub entry: SymbolEntry,
}

/// An entry of the symbol table, with no name.
fn entry_of(info: u8, section: u16, value: u64, size: u64) -> SymbolEntry {
    SymbolEntry {
        name: 0,
        info,
        other: 0,
        shndx: section,
        value,
        size,
    }
}

impl<'a> Symbol<'a> {
    /// A GLOBAL symbol of a type such as `STT_FUNC`, `value` bytes past the start of the section.
    pub fn global(name: &'a [u8], kind: u8, section: u16, value: u64, size: u64) -> Symbol<'a>
        requires { kind < 16 }
    {
        Symbol {
            name,
            entry: entry_of(SymbolEntry::info_of(STB_GLOBAL, kind), section, value, size),
        }
    }

    /// A LOCAL symbol.
    pub fn local(name: &'a [u8], kind: u8, section: u16, value: u64, size: u64) -> Symbol<'a>
        requires { kind < 16 }
    {
        Symbol {
            name,
            entry: entry_of(SymbolEntry::info_of(STB_LOCAL, kind), section, value, size),
        }
    }
}

/// A relocation of a type such as `R_X86_64_TPOFF32`, for the field at an offset.
pub fn rela(offset: u64, kind: u32, symbol: u32, addend: i64) -> Rela {
    Rela {
        offset,
        info: Rela::info_of(symbol, kind),
        addend,
    }
}
