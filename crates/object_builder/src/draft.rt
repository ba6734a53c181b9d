//! An object as records, before they are written.

use crate::given::{Section, Symbol};
use crate::header::object_header;
use crate::put::{put_header, put_relocations, put_sections, put_symbols};
use elf_records::section_header::{SHT_NULL, SHT_RELA, SHT_STRTAB, SHT_SYMTAB};
use elf_records::symbol::STB_LOCAL;
use elf_records::{Header, Rela, SectionHeader, SymbolEntry};
use std::alloc::{AllocError, Global};

/// The records of an object, in the order of the file. A field that a caller changes is written as changed.
#[derive(Drop)]
pub struct Draft {
    pub header: Header,
    /// The headers of sections, number 0 included. The last three are those of the symbols, of the names of symbols
    /// and of the names of sections.
    pub sections: Vec<SectionHeader>,
    /// The contents of sections, one after another.
    pub contents: Vec<u8>,
    /// The relocations of all sections, one after another.
    pub relocations: Vec<Rela>,
    /// The symbols, number 0 included.
    pub symbols: Vec<SymbolEntry>,
    /// The names of symbols, each after a zero byte.
    pub names: Vec<u8>,
    /// The names of sections.
    pub section_names: Vec<u8>,
}

/// The bytes of the object with these sections and symbols.
pub fn object_of(
    alloc: Global,
    sections: &[Section],
    symbols: &[Symbol],
) -> Result<Vec<u8>, AllocError> {
    draft_of(alloc, sections, symbols)?.bytes(alloc)
}

/// The records of the object with these sections and symbols.
pub fn draft_of(
    alloc: Global,
    sections: &[Section],
    symbols: &[Symbol],
) -> Result<Draft, AllocError> {
    let layout = layout_of(sections);
    let mut draft = nothing(alloc, &layout)?;
    for section in sections {
        draft.add_section(section, &layout)?;
    }
    for symbol in symbols {
        draft.add_symbol(symbol)?;
    }
    draft.add_tables(&layout, first_shared(symbols))?;
    Ok(draft)
}

/// The number of the symbol table, and where the contents of sections, their relocations and the symbols begin in the
/// file.
#[derive(Clone, Copy)]
struct Layout {
    table: u32,
    contents: u64,
    relocations: u64,
    symbols: u64,
}

/// Where `entries` entries of `size` bytes end, if the first one is at `offset`.
fn behind(offset: u64, entries: usize, size: u64) -> u64 {
    offset.saturating_add((entries as u64).saturating_mul(size))
}

/// Where the parts of the object with these sections and symbols lie.
fn layout_of(sections: &[Section]) -> Layout {
    let mut table = 1_u32;
    let mut bytes = 0_u64;
    let mut relocations = 0_u64;
    for section in sections {
        table = table.saturating_add(if section.relocations.is_empty() { 1 } else { 2 });
        bytes = behind(bytes, section.bytes.len(), 1);
        relocations = behind(relocations, section.relocations.len(), Rela::SIZE);
    }
    let headers = u64::from(table.saturating_add(3)).saturating_mul(SectionHeader::SIZE);
    let contents = Header::SIZE.saturating_add(headers);
    let relocations_at = contents.saturating_add(bytes);
    Layout {
        table,
        contents,
        relocations: relocations_at,
        symbols: relocations_at.saturating_add(relocations),
    }
}

/// How many symbols are LOCAL, number 0 included.
fn first_shared(symbols: &[Symbol]) -> u32 {
    let mut number = 1_u32;
    for symbol in symbols {
        if symbol.entry.binding() == STB_LOCAL {
            number = number.saturating_add(1);
        }
    }
    number
}

/// An object with only the reserved section and symbol.
fn nothing(alloc: Global, layout: &Layout) -> Result<Draft, AllocError> {
    let reserved = SymbolEntry {
        name: 0,
        info: 0,
        other: 0,
        shndx: 0,
        value: 0,
        size: 0,
    };
    let sections = layout.table.saturating_add(3);
    Ok(Draft {
        header: object_header(u16::try_from(sections).unwrap_or(u16::MAX)),
        sections: vec![in alloc; section_of(0, SHT_NULL, 0, 0)]?,
        contents: Vec::new(alloc),
        relocations: Vec::new(alloc),
        symbols: vec![in alloc; reserved]?,
        names: vec![in alloc; 0]?,
        section_names: vec![in alloc; 0]?,
    })
}

/// The header of a section of `size` bytes that begins at `offset` in the file.
fn section_of(name: u32, kind: u32, offset: u64, size: u64) -> SectionHeader {
    SectionHeader {
        name,
        kind,
        flags: 0,
        addr: 0,
        offset,
        size,
        link: 0,
        info: 0,
        addralign: 1,
        entsize: 0,
    }
}

/// Adds a name to a string table, and returns its offset.
fn add_name(table: &mut Vec<u8>, name: &[u8]) -> Result<u32, AllocError> {
    let at = u32::try_from(table.len()).unwrap_or(u32::MAX);
    table.extend_from_slice(name)?;
    table.push(0)?;
    Ok(at)
}

impl Draft {
    /// Adds a section and then the section of its relocations, if it has any.
    fn add_section(&mut self, section: &Section, layout: &Layout) -> Result<(), AllocError> {
        let number = u32::try_from(self.sections.len()).unwrap_or(u32::MAX);
        let name = add_name(&mut self.section_names, section.name)?;
        let offset = behind(layout.contents, self.contents.len(), 1);
        let mut header = section_of(name, section.kind, offset, section.size);
        header.flags = section.flags;
        header.addralign = section.alignment;
        self.sections.push(header)?;
        self.contents.extend_from_slice(section.bytes)?;
        if section.relocations.is_empty() {
            return Ok(());
        }
        self.add_relocations(section.relocations, number, layout)
    }

    /// Adds the section with the relocations of the section of this number.
    fn add_relocations(
        &mut self,
        relocations: &[Rela],
        target: u32,
        layout: &Layout,
    ) -> Result<(), AllocError> {
        let name = add_name(&mut self.section_names, b".rela")?;
        let offset = behind(layout.relocations, self.relocations.len(), Rela::SIZE);
        let size = behind(0, relocations.len(), Rela::SIZE);
        let mut header = section_of(name, SHT_RELA, offset, size);
        header.link = layout.table;
        header.info = target;
        header.entsize = Rela::SIZE;
        self.sections.push(header)?;
        self.relocations.extend_from_slice(relocations)
    }

    /// Adds a symbol and its name.
    fn add_symbol(&mut self, symbol: &Symbol) -> Result<(), AllocError> {
        let name = add_name(&mut self.names, symbol.name)?;
        let mut entry = symbol.entry;
        entry.name = name;
        self.symbols.push(entry)?;
        Ok(())
    }

    /// Adds the symbol table, whose first symbol that is not LOCAL has number `first_shared`, and
    /// the two string tables.
    fn add_tables(&mut self, layout: &Layout, first_shared: u32) -> Result<(), AllocError> {
        let name = add_name(&mut self.section_names, b".symtab")?;
        let size = behind(0, self.symbols.len(), SymbolEntry::SIZE);
        let mut symbols = section_of(name, SHT_SYMTAB, layout.symbols, size);
        symbols.link = layout.table.saturating_add(1);
        symbols.info = first_shared;
        symbols.entsize = SymbolEntry::SIZE;
        self.sections.push(symbols)?;
        let at = behind(layout.symbols, self.symbols.len(), SymbolEntry::SIZE);
        let name = add_name(&mut self.section_names, b".strtab")?;
        let size = self.names.len() as u64;
        self.sections.push(section_of(name, SHT_STRTAB, at, size))?;
        let at = at.saturating_add(size);
        let name = add_name(&mut self.section_names, b".shstrtab")?;
        let size = self.section_names.len() as u64;
        self.sections.push(section_of(name, SHT_STRTAB, at, size))?;
        Ok(())
    }

    /// The bytes of the file.
    pub fn bytes(&self, alloc: Global) -> Result<Vec<u8>, AllocError> {
        let mut bytes = Vec::new(alloc);
        put_header(&mut bytes, &self.header)?;
        put_sections(&mut bytes, self.sections.as_slice())?;
        bytes.extend_from_slice(self.contents.as_slice())?;
        put_relocations(&mut bytes, self.relocations.as_slice())?;
        put_symbols(&mut bytes, self.symbols.as_slice())?;
        bytes.extend_from_slice(self.names.as_slice())?;
        bytes.extend_from_slice(self.section_names.as_slice())?;
        Ok(bytes)
    }
}
