//! The sections of an object, all of whose bytes lie in the file.

ghost use Rattle.std.specs.Prelude.{◌≡◌, ◌+◌, ◌*◌, ◌^◌, ◌<◌, ◌≤◌, ◌↔◌, ℕ, length, IsTrue, MatchOption, IfOk};
ghost use Rattle.object_faults.specs.Parts.{header, section as section_header, symbol_table as table_of_symbols};
ghost use Rattle.object_faults.specs.Parts.{symbol as symbol_entry, symbol_count, IsSection, IsStrings, IsTable};
ghost use Rattle.object_faults.specs.Parts.{HasBytes};
ghost use Rattle.object_faults.specs.Classes.{IsKeptSection};
ghost use Rattle.object_faults.specs.Names.{IsEndOfNames, Ends};
ghost use Rattle.object_faults.specs.Tables.{AreSymbols};
ghost use Rattle.object_faults.specs.Faults.{IsFault, IsFirstAt, HasPartPastEnd, Answers};

use crate::class::kept_class;
use crate::headers::{Headers, headers_of, lies_in};
use crate::symbols::Symbols;
use elf_records::section_header::{SHT_STRTAB, SHT_SYMTAB, has_bytes};
use elf_records::strings::names_end;
use elf_records::{SectionHeader, SymbolEntry, section_numbered, symbol_numbered};
use object_rules::{FaultKind, ObjectFault, fault_at};

/// The sections of an object: the table of headers and the bytes of each section lie in the file.
#[derive(Clone, Copy)]
pub struct Tables<'a> {
    pub bytes: &'a [u8],
    /// Where the table of section headers begins.
    pub table: u64,
    /// How many sections there are, number 0 included.
    pub count: u64,
    /// The section that holds the names of sections.
    pub names: u64,
    /// The offset after the last zero byte of that section, or 0.
    pub names_end: u64,
    /// The symbols.
    pub symbols: Symbols,
    pub ghost table_is: { table ≡ (header bytes.now).e_shoff },
    pub ghost count_is: { count ≡ (header bytes.now).e_shnum },
    pub ghost names_is: { names ≡ (header bytes.now).e_shstrndx },
    pub ghost names_in: { (0 < names) × (names < count) },
    pub ghost few: { count < 2 ^ 16 },
    pub ghost inside: { table + 64 * count ≤ length bytes.now },
    pub ghost parts_inside: { (s : ℕ) → IsSection bytes.now s → HasBytes (section_header bytes.now s) →
        (section_header bytes.now s).offset + (section_header bytes.now s).size ≤ length bytes.now },
    pub ghost names_end_is: { IsStrings bytes.now names → IsEndOfNames bytes.now names names_end },
    pub ghost symbols_are: { AreSymbols bytes.now symbols },
}

/// Whether the bytes of a section pass the end of the file.
fn has_part_past_end(headers: &Headers, section: u64) -> bool
    requires { IsSection headers.now.bytes.now section }
    ensures { IsTrue result ↔ HasPartPastEnd headers.now.bytes.now section }
{
    let header = headers.section(section);
    has_bytes(&header) && !lies_in(headers.bytes, header.offset, header.size)
}

/// The first section whose bytes pass the end of the file.
fn first_past_end(headers: &Headers) -> Option<u64>
    ensures { IsFirstAt (HasPartPastEnd headers.now.bytes.now) result }
{
    for section in 1..headers.count {
        if has_part_past_end(headers, section) {
            return Some(section);
        }
    }
    None
}

/// The first section of symbols, or 0.
fn symbol_table(headers: &Headers) -> u64
    ensures first { result ≡ table_of_symbols headers.now.bytes.now }
    ensures found { 0 < result → IsTable headers.now.bytes.now result }
{
    for section in 1..headers.count {
        if headers.section(section).kind == SHT_SYMTAB {
            return section;
        }
    }
    0
}

/// The offset after the last zero byte of a string table, or 0.
fn strings_end(headers: &Headers, section: u64) -> u64
    requires { (s : ℕ) → HasPartPastEnd headers.now.bytes.now s → ⊥ }
    ensures { IsStrings headers.now.bytes.now section → IsEndOfNames headers.now.bytes.now section result }
{
    if section == 0 || headers.count <= section {
        return 0;
    }
    let header = headers.section(section);
    if header.kind != SHT_STRTAB {
        return 0;
    }
    names_end(headers.bytes, header.offset, header.size)
}

/// Where the symbols lie.
fn symbols_of(headers: &Headers) -> Symbols
    requires { (s : ℕ) → HasPartPastEnd headers.now.bytes.now s → ⊥ }
    ensures { AreSymbols headers.now.bytes.now result }
{
    let table = symbol_table(headers);
    if table == 0 {
        return Symbols {
            table,
            at: 0,
            count: 0,
            names_end: 0,
        };
    }
    let header = headers.section(table);
    Symbols {
        table,
        at: header.offset,
        count: header.size / SymbolEntry::SIZE,
        names_end: strings_end(headers, u64::from(header.link)),
    }
}

/// Reads the file's header and the table of section headers.
pub fn tables_of(bytes: &[u8]) -> Result<Tables<'_>, ObjectFault>
    ensures tables { IfOk result (λ tables. tables.bytes.now ≡ bytes.now) }
    ensures answers { Answers 2 bytes.now result }
{
    let headers = headers_of(bytes)?;
    if let Some(section) = first_past_end(&headers) {
        return Err(fault_at(section, 0, FaultKind::Truncated));
    }
    Ok(Tables {
        bytes,
        table: headers.table,
        count: headers.count,
        names: headers.names,
        names_end: strings_end(&headers, headers.names),
        symbols: symbols_of(&headers),
    })
}

impl Tables<'_> {
    /// The header of a section.
    #[inline]
    #[tactic(auto, unfolding(crate::specs::Parts::section))]
    pub fn section(&self, number: u64) -> SectionHeader
        requires { number < self.now.count }
        ensures { result ≡ section_header self.now.bytes.now number }
    {
        section_numbered(self.bytes, self.table, number)
    }

    /// Whether there is such a section, and it is not the reserved one.
    #[inline]
    pub fn has_section(&self, number: u64) -> bool
        ensures { IsTrue result ↔ IsSection self.now.bytes.now number }
    {
        0 < number && number < self.count
    }

    /// The header of a section, if there is one of this number.
    #[inline]
    pub fn section_at(&self, number: u64) -> Option<SectionHeader>
        ensures { MatchOption result (IsSection self.now.bytes.now number → ⊥)
            (λ header. IsSection self.now.bytes.now number × (header ≡ section_header self.now.bytes.now number)) }
    {
        if self.has_section(number) {
            Some(self.section(number))
        } else {
            None
        }
    }

    /// Whether there is a section of this number, and linking keeps it.
    pub fn is_kept(&self, number: u64) -> bool
        ensures { IsTrue result ↔ IsKeptSection self.now.bytes.now number }
    {
        match self.section_at(number) {
            Some(header) => kept_class(&header).is_some(),
            None => false,
        }
    }

    /// A symbol.
    #[inline]
    #[tactic(auto, unfolding(crate::specs::Parts::symbol))]
    pub fn symbol(&self, number: u64) -> SymbolEntry
        requires { number < symbol_count self.now.bytes.now }
        ensures { result ≡ symbol_entry self.now.bytes.now number }
    {
        symbol_numbered(self.bytes, self.symbols.at, number)
    }
}
