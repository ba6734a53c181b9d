//! What may be wrong with one symbol: one test for each kind of fault.

ghost use Rattle.std.specs.Prelude.{◌≡◌, ◌<◌, ◌↔◌, IsTrue};
ghost use Rattle.object_rules.specs.declared.fault.FaultKind.TheVariants.{SymbolTable, SymbolName, SymbolSection};
ghost use Rattle.object_rules.specs.declared.fault.FaultKind.TheVariants.{SymbolRange, SymbolKind};
ghost use Rattle.object_faults.specs.Parts.{IsSection, IsStrings};
ghost use Rattle.object_faults.specs.Classes.{IsTls};
ghost use Rattle.object_faults.specs.Names.{Ends};
ghost use Rattle.object_faults.specs.Faults.{Stands, IsSymbol, IsMisplaced, IsMisnamed, IsMisdefined, IsMistyped};
ghost use Rattle.object_faults.specs.Faults.{IsDropped, IsTlsSection, symbol_strings};

use crate::class::{SectionClass, kept_class};
use crate::tables::Tables;
use elf_records::SymbolEntry;
use elf_records::section_header::SHT_STRTAB;
use elf_records::symbol::{
    SHN_ABS, SHN_UNDEF, STB_GLOBAL, STB_LOCAL, STB_WEAK, STT_COMMON, STT_FILE, STT_FUNC, STT_TLS,
};

/// A LOCAL symbol stands among the others, or another among the LOCAL ones.
#[tactic(auto, unfolding(crate::specs::Faults::Stands))]
pub fn symbol_order(tables: &Tables, entry: u64) -> bool
    requires { IsSymbol tables.now.bytes.now tables.now.symbols.table entry }
    ensures { IsTrue result ↔ Stands SymbolTable tables.now.bytes.now tables.now.symbols.table entry }
{
    let first = u64::from(tables.section(tables.symbols.table).info);
    if tables.symbol(entry).binding() == STB_LOCAL {
        first <= entry
    } else {
        entry < first
    }
}

/// Whether a name that begins at this offset of the symbols' names ends.
#[tactic(auto, using(crate::proofs::EndsOfNames::ends_before, crate::proofs::EndsOfNames::no_end_after))]
fn name_ends(tables: &Tables, at: u64) -> bool
    requires table { 0 < tables.now.symbols.table }
    requires strings { IsStrings tables.now.bytes.now (symbol_strings tables.now.bytes.now) }
    ensures { IsTrue result ↔ Ends tables.now.bytes.now (symbol_strings tables.now.bytes.now) at }
{
    at < tables.symbols.names_end
}

/// The symbol's name does not end, or it is empty and the symbol is not LOCAL.
#[tactic(auto, unfolding(crate::specs::Faults::Stands))]
pub fn symbol_name(tables: &Tables, entry: u64) -> bool
    requires { IsSymbol tables.now.bytes.now tables.now.symbols.table entry }
    ensures { IsTrue result ↔ Stands SymbolName tables.now.bytes.now tables.now.symbols.table entry }
{
    let Some(strings) = tables.section_at(u64::from(tables.section(tables.symbols.table).link))
    else {
        return false;
    };
    if strings.kind != SHT_STRTAB {
        return false;
    }
    let symbol = tables.symbol(entry);
    let name = u64::from(symbol.name);
    if !name_ends(tables, name) {
        return true;
    }
    symbol.binding() != STB_LOCAL && tables.bytes[(strings.offset + name) as usize] == 0
}

/// Whether this is a section, and linking drops it.
#[inline]
pub fn is_dropped(tables: &Tables, section: u64) -> bool
    ensures { IsTrue result ↔ IsDropped tables.now.bytes.now section }
{
    match tables.section_at(section) {
        Some(header) => kept_class(&header).is_none(),
        None => false,
    }
}

/// Whether a symbol is defined where no symbol of its binding may be.
fn is_misdefined(tables: &Tables, symbol: &SymbolEntry) -> bool
    ensures { IsTrue result ↔ IsMisdefined tables.now.bytes.now symbol.now }
{
    let binding = symbol.binding();
    let is_named = binding == STB_GLOBAL || binding == STB_WEAK;
    match symbol.shndx {
        SHN_UNDEF => binding == STB_LOCAL,
        SHN_ABS => is_named,
        section => {
            let section = u64::from(section);
            !tables.has_section(section) || is_named && is_dropped(tables, section)
        }
    }
}

/// The symbol is defined in no section, or in one that does not fit its binding.
#[tactic(auto, unfolding(crate::specs::Faults::Stands))]
pub fn symbol_section(tables: &Tables, entry: u64) -> bool
    requires { IsSymbol tables.now.bytes.now tables.now.symbols.table entry }
    ensures { IsTrue result ↔ Stands SymbolSection tables.now.bytes.now tables.now.symbols.table entry }
{
    is_misdefined(tables, &tables.symbol(entry))
}

/// The symbol passes the end of a kept section.
#[tactic(auto, unfolding(crate::specs::Faults::Stands))]
pub fn symbol_range(tables: &Tables, entry: u64) -> bool
    requires { IsSymbol tables.now.bytes.now tables.now.symbols.table entry }
    ensures { IsTrue result ↔ Stands SymbolRange tables.now.bytes.now tables.now.symbols.table entry }
{
    let symbol = tables.symbol(entry);
    let Some(header) = tables.section_at(u64::from(symbol.shndx)) else {
        return false;
    };
    if kept_class(&header).is_none() {
        return false;
    }
    header.size < symbol.value || header.size - symbol.value < symbol.size
}

/// Whether this is a section of thread-local storage.
fn is_tls_section(tables: &Tables, section: u64) -> bool
    ensures { IsTrue result ↔ IsTlsSection tables.now.bytes.now section }
{
    match tables.section_at(section) {
        Some(header) => matches!(kept_class(&header), Some(SectionClass::Tls { .. })),
        None => false,
    }
}

/// Whether linking does not know the symbol's binding or type, or the type does not fit the section.
fn is_mistyped(tables: &Tables, symbol: &SymbolEntry) -> bool
    ensures { IsTrue result ↔ IsMistyped tables.now.bytes.now symbol.now }
{
    let kind = symbol.kind();
    if symbol.binding() > STB_WEAK || kind == STT_COMMON || kind > STT_TLS {
        return true;
    }
    if is_tls_section(tables, u64::from(symbol.shndx)) {
        kind == STT_FUNC || kind == STT_FILE
    } else {
        kind == STT_TLS && symbol.shndx != SHN_UNDEF
    }
}

/// Linking does not know the symbol's binding or type, or the type does not fit the section.
#[tactic(auto, unfolding(crate::specs::Faults::Stands))]
pub fn symbol_kind(tables: &Tables, entry: u64) -> bool
    requires { IsSymbol tables.now.bytes.now tables.now.symbols.table entry }
    ensures { IsTrue result ↔ Stands SymbolKind tables.now.bytes.now tables.now.symbols.table entry }
{
    is_mistyped(tables, &tables.symbol(entry))
}
