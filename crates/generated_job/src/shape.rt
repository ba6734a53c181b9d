//! An object from its parts.
ghost use Rattle.std.specs.Prelude.{◌≡◌, ◌<◌, ◌≤◌, IfOk, length};
ghost use Rattle.generated_job.specs.Drafts.{shape_held, IsShort};
ghost use Rattle.generated_job.specs.Shapes.{symbol_of, symbols_of, names_of, section_of, sections_of, object_bytes};
ghost use Rattle.generated_job.specs.Shapes.{zeros_alignment};

use elf_records::section_header::{
    SHF_ALLOC, SHF_EXECINSTR, SHF_TLS, SHF_WRITE, SHT_NOBITS, SHT_NULL, SHT_PROGBITS, SHT_RELA,
    SHT_STRTAB, SHT_SYMTAB,
};
use elf_records::{Rela, SectionHeader, SymbolEntry};
use object_builder::{object_header, put_header, put_relocations, put_sections, put_symbols};
use std::alloc::{AllocError, Global};

/// The parts of an object with one function and one thread-local variable.
#[derive(Clone, Copy)]
pub(crate) struct ObjectShape<'a> {
    /// The function's name.
    pub function: &'a [u8],
    /// The variable's name.
    pub variable: &'a [u8],
    /// The function's code.
    pub code: &'a [u8],
    /// The relocations of the code.
    pub relocations: &'a [Rela],
    /// The variable's initial bytes.
    pub initial: &'a [u8],
    /// How many zeros follow the variable.
    pub zeros: u64,
    /// Whether the code calls `__tls_get_addr`.
    pub calls: bool,
}

/// How many sections there are, number 0 included.
const SECTIONS: u16 = 8;

/// Where the contents of sections begin.
const CONTENTS: u64 = 576;

/// The sections' names, each followed by a zero byte.
const SECTION_NAMES: [u8; 57] =
    *b"\0.text\0.rela.text\0.tdata\0.tbss\0.symtab\0.strtab\0.shstrtab\0";

const CODE_FLAGS: u64 = SHF_ALLOC | SHF_EXECINSTR;

const VARIABLE_FLAGS: u64 = SHF_WRITE | SHF_ALLOC | SHF_TLS;

/// The numbers of the sections that others name.
const TEXT: u16 = 1;

const TDATA: u16 = 3;

const SYMTAB: u32 = 5;

const STRTAB: u32 = 6;

// Bindings times 16 plus types of symbols.
const GLOBAL_NOTYPE: u8 = 0x10;

const GLOBAL_FUNC: u8 = 0x12;

const GLOBAL_TLS: u8 = 0x16;

impl ObjectShape<'_> {
    /// The bytes of the object's file.
    pub(crate) fn bytes(&self, alloc: Global) -> Result<Vec<u8>, AllocError>
        requires { IsShort (shape_held self.now) }
        ensures { IfOk result (λ bytes. bytes.items ≡ object_bytes (shape_held self.now)) }
    {
        let symbols = self.symbols(alloc)?;
        let names = self.names(alloc)?;
        let sections = self.sections(symbols.as_slice(), names.as_slice());
        let mut bytes = Vec::new(alloc);
        put_header(&mut bytes, &object_header(SECTIONS))?;
        put_sections(&mut bytes, &sections)?;
        bytes.extend_from_slice(self.code)?;
        bytes.extend_from_slice(self.initial)?;
        put_symbols(&mut bytes, symbols.as_slice())?;
        bytes.extend_from_slice(names.as_slice())?;
        bytes.extend_from_slice(&SECTION_NAMES)?;
        put_relocations(&mut bytes, self.relocations)?;
        Ok(bytes)
    }

    /// The symbols: the reserved one, the function, the variable, and `__tls_get_addr` if it is called.
    fn symbols(&self, alloc: Global) -> Result<Vec<SymbolEntry>, AllocError>
        requires { IsShort (shape_held self.now) }
        ensures { IfOk result (λ symbols. symbols.items ≡ symbols_of (shape_held self.now)) }
    {
        let variable_name = 2 + self.function.len() as u32;
        let mut symbols = vec![in alloc;
            symbol_of(0, 0, 0, 0),
            symbol_of(1, GLOBAL_FUNC, TEXT, self.code.len() as u64),
            symbol_of(variable_name, GLOBAL_TLS, TDATA, self.initial.len() as u64),
        ]?;
        if self.calls {
            let getter_name = 3 + self.function.len() as u32 + self.variable.len() as u32;
            symbols.push(symbol_of(getter_name, GLOBAL_NOTYPE, 0, 0))?;
        }
        Ok(symbols)
    }

    /// The symbols' names, each followed by a zero byte.
    fn names(&self, alloc: Global) -> Result<Vec<u8>, AllocError>
        ensures { IfOk result (λ names. names.items ≡ names_of (shape_held self.now)) }
    {
        let mut names = vec![in alloc; 0]?;
        names.extend_from_slice(self.function)?;
        names.push(0)?;
        names.extend_from_slice(self.variable)?;
        names.push(0)?;
        if self.calls {
            names.extend_from_slice(b"__tls_get_addr\0")?;
        }
        Ok(names)
    }

    /// The headers of the sections.
    fn sections(&self, symbols: &[SymbolEntry], names: &[u8]) -> [SectionHeader; 8]
        requires short { IsShort (shape_held self.now) }
        requires symbols { symbols.now ≡ symbols_of (shape_held self.now) }
        requires names { names.now ≡ names_of (shape_held self.now) }
        ensures { result ≡ sections_of (shape_held self.now) }
    {
        let code = self.code.len() as u64;
        let initial = self.initial.len() as u64;
        let symbol_table = SymbolEntry::SIZE * symbols.len() as u64;
        let relocation_table = Rela::SIZE * self.relocations.len() as u64;
        let symbols_at = CONTENTS + code + initial;
        let names_at = symbols_at + symbol_table;
        let section_names_at = names_at + names.len() as u64;
        let relocations_at = section_names_at + SECTION_NAMES.len() as u64;
        [
            section_of(0, SHT_NULL, 0, 0, 0, 0),
            section_of(1, SHT_PROGBITS, CODE_FLAGS, CONTENTS, code, 16),
            table_of(7, SHT_RELA, relocations_at, relocation_table, SYMTAB),
            section_of(
                18,
                SHT_PROGBITS,
                VARIABLE_FLAGS,
                CONTENTS + code,
                initial,
                4,
            ),
            section_of(
                25,
                SHT_NOBITS,
                VARIABLE_FLAGS,
                symbols_at,
                self.zeros,
                self.zeros_alignment(),
            ),
            table_of(31, SHT_SYMTAB, symbols_at, symbol_table, STRTAB),
            section_of(39, SHT_STRTAB, 0, names_at, names.len() as u64, 1),
            section_of(
                47,
                SHT_STRTAB,
                0,
                section_names_at,
                SECTION_NAMES.len() as u64,
                1,
            ),
        ]
    }

    /// The alignment of the zeros: none needs no alignment.
    fn zeros_alignment(&self) -> u64
        ensures { result ≡ zeros_alignment self.now.zeros }
    {
        if self.zeros == 0 { 1 } else { 4 }
    }
}

/// A symbol whose value is 0.
fn symbol_of(name: u32, info: u8, section: u16, size: u64) -> SymbolEntry
    ensures { result ≡ symbol_of name info section size }
{
    SymbolEntry {
        name,
        info,
        other: 0,
        shndx: section,
        value: 0,
        size,
    }
}

/// A section that is not a table of records.
fn section_of(
    name: u32,
    kind: u32,
    flags: u64,
    offset: u64,
    size: u64,
    alignment: u64,
) -> SectionHeader
    ensures { result ≡ section_of name kind flags offset size 0 0 alignment 0 }
{
    SectionHeader {
        name,
        kind,
        flags,
        addr: 0,
        offset,
        size,
        link: 0,
        info: 0,
        addralign: alignment,
        entsize: 0,
    }
}

/// A table of records of 24 bytes, linked to another section. Relocations apply to section 1; symbol number 1 is the
/// first that is not local.
fn table_of(name: u32, kind: u32, offset: u64, size: u64, link: u32) -> SectionHeader
    ensures { result ≡ section_of name kind 0 offset size link 1 8 24 }
{
    SectionHeader {
        name,
        kind,
        flags: 0,
        addr: 0,
        offset,
        size,
        link,
        info: 1,
        addralign: 8,
        entsize: 24,
    }
}
