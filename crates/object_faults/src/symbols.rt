//! The symbol table: where it lies, and what may be wrong with it as a whole.

ghost use Rattle.std.specs.Prelude.{◌<◌, ◌↔◌, IsTrue};
ghost use Rattle.object_rules.specs.declared.fault.FaultKind.TheVariants.{SymbolTable};
ghost use Rattle.object_faults.specs.Parts.{IsTable, IsStrings};
ghost use Rattle.object_faults.specs.Faults.{Stands, IsBadTable, IsFirstAt, NoneBelow, Answers};

use crate::symbol_tests::symbol_order;
use crate::tables::Tables;
use elf_records::SymbolEntry;
use elf_records::section_header::{SHT_STRTAB, SHT_SYMTAB};
use object_rules::{FaultKind, ObjectFault, fault_at};

/// The symbol table of an object; without one, the numbers are 0.
#[derive(Clone, Copy)]
pub struct Symbols {
    /// The section that holds the table, or 0.
    pub table: u64,
    /// Where the table begins in the file.
    pub at: u64,
    /// How many symbols there are, number 0 included.
    pub count: u64,
    /// The offset after the last zero byte of the table's string table, or 0.
    pub names_end: u64,
}

/// Whether the section is a string table.
fn is_strings(tables: &Tables, section: u64) -> bool
    ensures { IsTrue result ↔ IsStrings tables.now.bytes.now section }
{
    match tables.section_at(section) {
        Some(header) => header.kind == SHT_STRTAB,
        None => false,
    }
}

/// Whether a section of symbols is a second one, or its entry size, size, string table or first global symbol is wrong.
fn is_bad_table(tables: &Tables, section: u64) -> bool
    requires { IsTable tables.now.bytes.now section }
    ensures { IsTrue result ↔ IsBadTable tables.now.bytes.now section }
{
    let header = tables.section(section);
    section != tables.symbols.table
        || header.entsize != SymbolEntry::SIZE
        || header.size % SymbolEntry::SIZE != 0
        || !is_strings(tables, u64::from(header.link))
        || header.size / SymbolEntry::SIZE < u64::from(header.info)
}

/// The first section of symbols after the symbol table.
fn second_table(tables: &Tables) -> Option<u64>
    ensures { IsFirstAt (λ s. (tables.now.symbols.table < s) × IsTable tables.now.bytes.now s) result }
{
    for section in tables.symbols.table + 1..tables.count {
        if tables.section(section).kind == SHT_SYMTAB {
            return Some(section);
        }
    }
    None
}

/// The first symbol, number 0 left out, that stands on the wrong side: LOCAL ones come first.
fn first_misplaced(tables: &Tables) -> Option<u64>
    requires { 0 < tables.now.symbols.table }
    ensures { IsFirstAt (λ e. (0 < e) × Stands SymbolTable tables.now.bytes.now tables.now.symbols.table e) result }
{
    for entry in 1..tables.symbols.count {
        if symbol_order(tables, entry) {
            return Some(entry);
        }
    }
    None
}

/// Checks the symbol table as a whole.
pub fn ask_symbol_table(tables: &Tables) -> Result<(), ObjectFault>
    requires { NoneBelow 7 tables.now.bytes.now }
    ensures { Answers 7 tables.now.bytes.now result }
{
    let kind = FaultKind::SymbolTable;
    let section = tables.symbols.table;
    if section == 0 {
        return Ok(());
    }
    if is_bad_table(tables, section) {
        return Err(fault_at(section, 0, kind));
    }
    if let Some(entry) = first_misplaced(tables) {
        return Err(fault_at(section, entry, kind));
    }
    match second_table(tables) {
        Some(section) => Err(fault_at(section, 0, kind)),
        None => Ok(()),
    }
}
