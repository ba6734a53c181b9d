//! All kinds of fault, checked in their order.

ghost use Rattle.std.specs.Prelude.{◌≡◌, IfOk, IfErr};
ghost use Rattle.object_faults.specs.Faults.{IsFault, NoneBelow, Answers};
ghost use Rattle.object_faults.specs.Checked.{IsRead};

use crate::overlap::ask_overlaps;
use crate::scan::{ask_relocs, ask_sections, ask_symbols};
use crate::symbols::ask_symbol_table;
use crate::tables::{Tables, tables_of};
use crate::targets::ask_targets;
use crate::walk::most_to_mark;
use object_rules::{ObjectFault, RelocFault, SectionFault, SymbolFault};
use std::alloc::Global;

/// Checks all sections.
fn ask_all_sections(tables: &Tables) -> Result<(), ObjectFault>
    requires { NoneBelow 3 tables.now.bytes.now }
    ensures { Answers 6 tables.now.bytes.now result }
{
    ask_sections(SectionFault::Name, tables)?;
    ask_sections(SectionFault::Kind, tables)?;
    ask_sections(SectionFault::Align, tables)?;
    ask_sections(SectionFault::Large, tables)?;
    Ok(())
}

/// Checks all symbols.
fn ask_all_symbols(tables: &Tables) -> Result<(), ObjectFault>
    requires { NoneBelow 7 tables.now.bytes.now }
    ensures { Answers 11 tables.now.bytes.now result }
{
    ask_symbol_table(tables)?;
    ask_symbols(SymbolFault::Name, tables)?;
    ask_symbols(SymbolFault::Section, tables)?;
    ask_symbols(SymbolFault::Range, tables)?;
    ask_symbols(SymbolFault::Kind, tables)?;
    Ok(())
}

/// Checks each relocation by itself.
fn ask_each_reloc(tables: &Tables) -> Result<(), ObjectFault>
    requires { NoneBelow 13 tables.now.bytes.now }
    ensures { Answers 15 tables.now.bytes.now result }
{
    ask_relocs(RelocFault::Symbol, tables)?;
    ask_relocs(RelocFault::Kind, tables)?;
    ask_relocs(RelocFault::Range, tables)?;
    Ok(())
}

/// Checks all relocations. It looks for the first fault only if one walk has found that there is a fault.
fn ask_all_relocs(alloc: Global, tables: &Tables) -> Result<(), ObjectFault>
    requires { NoneBelow 13 tables.now.bytes.now }
    ensures { Answers 16 tables.now.bytes.now result }
{
    match most_to_mark(tables) {
        Some(most) => ask_overlaps(alloc, tables, most),
        None => ask_each_reloc(tables),
    }
}

/// What a check keeps of an object in which no fault stands.
#[derive(Drop)]
pub struct FaultFree<'a> {
    pub tables: Tables<'a>,
    /// For each section, the section that holds its relocations, or 0.
    pub targets: Vec<u32>,
}

/// Checks for all kinds of fault. Returns the first fault, or what is kept of an object without faults.
#[tactic(auto, using(crate::proofs::Order::object_of))]
pub fn fault_free(alloc: Global, bytes: &[u8]) -> Result<FaultFree<'_>, ObjectFault>
    ensures bytes { IfOk result (λ object. object.tables.bytes.now ≡ bytes.now) }
    ensures read { IfOk result (λ object. IsRead bytes.now object.targets.items) }
    ensures fault { IfErr result (IsFault bytes.now) }
{
    let tables = tables_of(bytes)?;
    ask_all_sections(&tables)?;
    ask_all_symbols(&tables)?;
    let targets = ask_targets(alloc, &tables)?;
    ask_all_relocs(alloc, &tables)?;
    Ok(FaultFree { tables, targets })
}
