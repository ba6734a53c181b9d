//! The names at a place of an object's bytes, which may have faults: no number in them is believed.
ghost use Rattle.std.specs.Prelude.{◌≡◌};
ghost use Rattle.elf_records.specs.Records.{rela_at, symbol_at};
ghost use Rattle.terminal_notes.specs.Names.{entry_in, header_in, section_in, text_in, symbol_in, named_in, part_of};
ghost use Rattle.terminal_notes.specs.Names.{section_name, symbol_name};

use elf_records::strings::text_at;
use elf_records::{
    Header, Rela, SectionHeader, SymbolEntry, fits, read_header, rela_numbered, section_numbered,
    symbol_numbered,
};
use object_rules::FaultKind;

/// What the entry of a fault is, if it is one.
#[derive(Clone, Copy)]
pub enum Part {
    /// None: the fault is the section's, or the file's.
    Whole,
    /// A symbol of the section.
    Symbol,
    /// A relocation of the section.
    Relocation,
}

impl Part {
    fn of(kind: FaultKind) -> Part
        ensures { result ≡ part_of kind }
    {
        match kind {
            FaultKind::SymbolTable
            | FaultKind::SymbolName
            | FaultKind::SymbolSection
            | FaultKind::SymbolRange
            | FaultKind::SymbolKind => Part::Symbol,
            FaultKind::RelocSymbol
            | FaultKind::RelocKind
            | FaultKind::RelocRange
            | FaultKind::RelocOverlap
            | FaultKind::Sequence
            | FaultKind::StrayCall => Part::Relocation,
            _ => Part::Whole,
        }
    }
}

fn header_in(bytes: &[u8]) -> Option<Header>
    ensures { result ≡ header_in bytes.now }
{
    read_header(bytes, 0)
}

#[tactic(auto, unfolding(crate::specs::Names::section_in))]
fn section_in(bytes: &[u8], section: u32) -> Option<SectionHeader>
    ensures { result ≡ section_in bytes.now section }
{
    let header = header_in(bytes)?;
    let number = u64::from(section);
    let end = SectionHeader::SIZE * number + SectionHeader::SIZE;
    if !fits(bytes, header.e_shoff, end) {
        return None;
    }
    Some(section_numbered(bytes, header.e_shoff, number))
}

fn symbol_at(bytes: &[u8], table: u64, number: u32) -> Option<SymbolEntry>
    ensures { result ≡ entry_in 24 symbol_at table number bytes.now }
{
    let number = u64::from(number);
    if !fits(bytes, table, SymbolEntry::SIZE * number + SymbolEntry::SIZE) {
        return None;
    }
    Some(symbol_numbered(bytes, table, number))
}

fn relocation_at(bytes: &[u8], table: u64, number: u32) -> Option<Rela>
    ensures { result ≡ entry_in 24 rela_at table number bytes.now }
{
    let number = u64::from(number);
    if !fits(bytes, table, Rela::SIZE * number + Rela::SIZE) {
        return None;
    }
    Some(rela_numbered(bytes, table, number))
}

/// The text at an offset of a section, a string table.
#[tactic(auto, unfolding(crate::specs::Names::text_in))]
fn text_in(bytes: &[u8], section: u32, at: u32) -> &[u8]
    ensures { result.now ≡ text_in bytes.now section at }
{
    let Some(table) = section_in(bytes, section) else {
        return &[];
    };
    if !fits(bytes, table.offset, table.size) {
        return &[];
    }
    let begin = table.offset as usize;
    let end = (table.offset + table.size) as usize;
    text_at(&bytes[begin..end], at as usize)
}

/// The name of a section; empty if it has none.
#[tactic(auto, unfolding(crate::specs::Names::section_name))]
pub fn section_name(bytes: &[u8], section: u32) -> &[u8]
    ensures { result.now ≡ section_name bytes.now section }
{
    match (header_in(bytes), section_in(bytes, section)) {
        (Some(header), Some(part)) => text_in(bytes, u32::from(header.e_shstrndx), part.name),
        _ => &[],
    }
}

/// The name of a symbol of the symbol table in this section.
#[tactic(auto, unfolding(crate::specs::Names::symbol_in))]
fn symbol_in(bytes: &[u8], section: u32, number: u32) -> &[u8]
    ensures { result.now ≡ symbol_in bytes.now section number }
{
    let Some(table) = section_in(bytes, section) else {
        return &[];
    };
    match symbol_at(bytes, table.offset, number) {
        Some(symbol) => text_in(bytes, table.link, symbol.name),
        None => &[],
    }
}

/// The name of the symbol that a relocation of this section names.
#[tactic(auto, unfolding(crate::specs::Names::named_in))]
fn named_in(bytes: &[u8], section: u32, number: u32) -> &[u8]
    ensures { result.now ≡ named_in bytes.now section number }
{
    let Some(table) = section_in(bytes, section) else {
        return &[];
    };
    match relocation_at(bytes, table.offset, number) {
        Some(relocation) => symbol_in(bytes, table.link, relocation.symbol()),
        None => &[],
    }
}

/// The name of the symbol that a fault of this kind concerns; empty if there is none.
pub fn symbol_name(kind: FaultKind, bytes: &[u8], section: u32, entry: u32) -> &[u8]
    ensures { result.now ≡ symbol_name (part_of kind) bytes.now section entry }
{
    match Part::of(kind) {
        Part::Whole => &[],
        Part::Symbol => symbol_in(bytes, section, entry),
        Part::Relocation => named_in(bytes, section, entry),
    }
}
