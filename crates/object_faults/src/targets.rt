//! Which section holds the relocations of which section.

ghost use Rattle.std.specs.Prelude.{◌≡◌, ◌+◌, ◌<◌, ◌↔◌, ℕ, length, slice_index, IsTrue, IfOk, IfNone};
ghost use Rattle.object_rules.specs.declared.fault.FaultKind.TheVariants.{RelocTarget};
ghost use Rattle.object_faults.specs.Parts.{section as section_header, IsSection, IsTable};
ghost use Rattle.object_faults.specs.Tables.{AreTargets, AreTargetsBelow};
ghost use Rattle.object_faults.specs.Faults.{Stands, IsFirstAt, IsSecond, NoneBelow, Answers};

use crate::class::kept_class;
use crate::tables::Tables;
use elf_records::Rela;
use elf_records::section_header::{SHT_NOBITS, SHT_RELA, SHT_SYMTAB};
use object_rules::{FaultKind, ObjectFault, fault_at};
use std::alloc::Global;

/// Whether the section holds symbols.
fn is_table(tables: &Tables, section: u64) -> bool
    ensures { IsTrue result ↔ IsTable tables.now.bytes.now section }
{
    match tables.section_at(section) {
        Some(header) => header.kind == SHT_SYMTAB,
        None => false,
    }
}

/// Whether an earlier section holds relocations of the same target. `found` has the section found for each target.
#[tactic(auto, using(crate::specs::Searches::second_found, crate::specs::Searches::second_is))]
fn is_second(tables: &Tables, section: u64, found: &[u32]) -> bool
    requires section { IsSection tables.now.bytes.now section }
    requires target { IsSection tables.now.bytes.now (section_header tables.now.bytes.now section).info }
    requires len { length found.now ≡ tables.now.count }
    requires found { AreTargetsBelow tables.now.bytes.now section found.now }
    ensures { IsTrue result ↔ IsSecond tables.now.bytes.now section }
{
    found[tables.section(section).info as usize] != 0
}

/// A section of relocations has no target, or linking keeps the target and the section does not fit it.
#[tactic(auto, unfolding(crate::specs::Faults::Stands))]
fn reloc_target(tables: &Tables, section: u64, found: &[u32]) -> bool
    requires section { IsSection tables.now.bytes.now section }
    requires len { length found.now ≡ tables.now.count }
    requires found { AreTargetsBelow tables.now.bytes.now section found.now }
    ensures { IsTrue result ↔ Stands RelocTarget tables.now.bytes.now section 0 }
{
    let header = tables.section(section);
    if header.kind != SHT_RELA {
        return false;
    }
    let Some(target) = tables.section_at(u64::from(header.info)) else {
        return true;
    };
    if kept_class(&target).is_none() {
        return false;
    }
    if header.entsize != Rela::SIZE
        || header.size % Rela::SIZE != 0
        || !is_table(tables, u64::from(header.link))
    {
        return true;
    }
    target.kind == SHT_NOBITS && header.size != 0 || is_second(tables, section, found)
}

/// Notes which target a section of relocations has, unless an earlier one has the same.
fn note_target(tables: &Tables, section: u64, found: &mut [u32])
    requires section { IsSection tables.now.bytes.now section }
    requires len { length found.old ≡ tables.now.count }
    requires found { AreTargetsBelow tables.now.bytes.now section found.old }
    ensures { AreTargetsBelow tables.now.bytes.now (section + 1) found.new }
{
    let header = tables.section(section);
    let target = header.info as usize;
    if header.kind != SHT_RELA || found.len() <= target {
        return;
    }
    if found[target] == 0 {
        found[target] = section as u32;
    }
}

/// The first section of relocations whose target is at fault. If there is none, `found` is filled.
fn first_mistargeted(tables: &Tables, found: &mut [u32]) -> Option<u64>
    requires len { length found.old ≡ tables.now.count }
    requires empty { (t : ℕ) → slice_index found.old t ≡ 0 }
    ensures first { IsFirstAt (λ s. Stands RelocTarget tables.now.bytes.now s 0) result }
    ensures found { IfNone result (AreTargets tables.now.bytes.now found.new) }
{
    for section in 1..tables.count {
        if reloc_target(tables, section, found) {
            return Some(section);
        }
        note_target(tables, section, found);
    }
    None
}

/// Checks the targets of all sections of relocations, and returns for each section the one that holds
/// its relocations, or 0.
pub fn ask_targets(alloc: Global, tables: &Tables) -> Result<Vec<u32>, ObjectFault>
    requires { NoneBelow 12 tables.now.bytes.now }
    ensures answers { Answers 12 tables.now.bytes.now result }
    ensures len { IfOk result (λ found. length found.items ≡ tables.now.count) }
    ensures found { IfOk result (λ found. AreTargets tables.now.bytes.now found.items) }
{
    let mut found = vec![in alloc; 0; tables.count as usize]?;
    match first_mistargeted(tables, &mut found) {
        Some(section) => Err(fault_at(section, 0, FaultKind::RelocTarget)),
        None => Ok(found),
    }
}
