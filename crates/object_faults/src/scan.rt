//! Checks one kind of fault at all its places, in order.

ghost use Rattle.std.specs.Prelude.{◌<◌, ◌↔◌, IsTrue};
ghost use Rattle.object_faults.specs.Parts.{IsSection};
ghost use Rattle.object_rules.specs.Kinds.{of_section, of_symbol, of_reloc};
ghost use Rattle.object_faults.specs.Faults.{Stands, number, NoneBelow, Answers, IsFirstAt, IsSymbol};

use crate::reloc_tests::{reloc_stands, reloc_table};
use crate::section_tests::{section_align, section_kind, section_name, too_large};
use crate::symbol_tests::{symbol_kind, symbol_name, symbol_range, symbol_section};
use crate::tables::Tables;
use object_rules::{ObjectFault, RelocFault, SectionFault, SymbolFault, fault_at};

/// Whether a kind of fault of sections stands at a section.
fn section_stands(fault: SectionFault, tables: &Tables, section: u64) -> bool
    requires { IsSection tables.now.bytes.now section }
    ensures { IsTrue result ↔ Stands (of_section fault) tables.now.bytes.now section 0 }
{
    match fault {
        SectionFault::Name => section_name(tables, section),
        SectionFault::Kind => section_kind(tables, section),
        SectionFault::Align => section_align(tables, section),
        SectionFault::Large => too_large(tables, section),
    }
}

/// Checks one kind of fault at all sections.
pub fn ask_sections(fault: SectionFault, tables: &Tables) -> Result<(), ObjectFault>
    requires { NoneBelow (number (of_section fault)) tables.now.bytes.now }
    ensures { Answers (number (of_section fault)) tables.now.bytes.now result }
{
    for section in 1..tables.count {
        if section_stands(fault, tables, section) {
            return Err(fault_at(section, 0, fault.kind()));
        }
    }
    Ok(())
}

/// Whether a kind of fault of symbols stands at a symbol.
fn symbol_stands(fault: SymbolFault, tables: &Tables, entry: u64) -> bool
    requires { IsSymbol tables.now.bytes.now tables.now.symbols.table entry }
    ensures { IsTrue result ↔ Stands (of_symbol fault) tables.now.bytes.now tables.now.symbols.table entry }
{
    match fault {
        SymbolFault::Name => symbol_name(tables, entry),
        SymbolFault::Section => symbol_section(tables, entry),
        SymbolFault::Range => symbol_range(tables, entry),
        SymbolFault::Kind => symbol_kind(tables, entry),
    }
}

/// The first symbol, number 0 left out, at which a kind of fault of symbols stands.
fn first_symbol(fault: SymbolFault, tables: &Tables) -> Option<u64>
    requires { 0 < tables.now.symbols.table }
    ensures { IsFirstAt (λ e. (0 < e) × Stands (of_symbol fault)
        tables.now.bytes.now tables.now.symbols.table e) result }
{
    for entry in 1..tables.symbols.count {
        if symbol_stands(fault, tables, entry) {
            return Some(entry);
        }
    }
    None
}

/// Checks one kind of fault at all symbols.
pub fn ask_symbols(fault: SymbolFault, tables: &Tables) -> Result<(), ObjectFault>
    requires { NoneBelow (number (of_symbol fault)) tables.now.bytes.now }
    ensures { Answers (number (of_symbol fault)) tables.now.bytes.now result }
{
    let section = tables.symbols.table;
    if section == 0 {
        return Ok(());
    }
    match first_symbol(fault, tables) {
        Some(entry) => Err(fault_at(section, entry, fault.kind())),
        None => Ok(()),
    }
}

/// The first entry of a section at which a kind of fault of relocations stands.
fn first_reloc(fault: RelocFault, tables: &Tables, section: u64) -> Option<u64>
    requires { IsSection tables.now.bytes.now section }
    ensures { IsFirstAt (Stands (of_reloc fault) tables.now.bytes.now section) result }
{
    let relocs = reloc_table(tables, section)?;
    for entry in 0..relocs.count {
        if reloc_stands(fault, tables, section, &relocs, entry) {
            return Some(entry);
        }
    }
    None
}

/// Checks one kind of fault at all relocations.
pub fn ask_relocs(fault: RelocFault, tables: &Tables) -> Result<(), ObjectFault>
    requires { NoneBelow (number (of_reloc fault)) tables.now.bytes.now }
    ensures { Answers (number (of_reloc fault)) tables.now.bytes.now result }
{
    for section in 1..tables.count {
        if let Some(entry) = first_reloc(fault, tables, section) {
            return Err(fault_at(section, entry, fault.kind()));
        }
    }
    Ok(())
}
