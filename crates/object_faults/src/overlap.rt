//! Finds in one pass relocations whose fields share a byte: each byte of a target keeps the mark of the section whose
//! relocation covered it last.

ghost use Rattle.std.specs.Prelude.{◌≡◌, ◌≢◌, ◌+◌, ◌<◌, ◌≤◌, ◌↔◌, ◌⊎◌, ℕ, length, slice_index, IsTrue, IfNone};
ghost use Rattle.std.specs.Prelude.{MatchOption};
ghost use Rattle.object_rules.specs.declared.fault.FaultKind.TheVariants.{RelocOverlap};
ghost use Rattle.object_faults.specs.Parts.{IsSection, rela as entry_of};
ghost use Rattle.object_faults.specs.Relocations.{Covers, width_at};
ghost use Rattle.object_faults.specs.Tables.{AreRelocs, HasRoom};
ghost use Rattle.object_faults.specs.Faults.{Stands, IsFirstAt, NoneBelow, Answers};
ghost use Rattle.object_faults.specs.Walks.{HasRoomToMark};

use crate::reloc_tests::{RelocTable, rela_in, reloc_table};
use crate::tables::Tables;
use crate::walk::{Walk, walk_over};
use elf_records::relocation::width_of;
use object_rules::{FaultKind, ObjectFault, fault_at};
use std::alloc::Global;

/// Marks the bytes from `from` to `to`, and says whether one of them had the mark already.
fn mark(marks: &mut [u32], from: usize, to: usize, mark: u32) -> bool
    requires ordered { from ≤ to }
    requires inside { to ≤ length marks.old }
    ensures had { IsTrue result ↔ ((k : ℕ) × (from ≤ k) × (k < to) × (slice_index marks.old k ≡ mark)) }
    ensures within { (k : ℕ) → from ≤ k → k < to → slice_index marks.new k ≡ mark }
    ensures outside { (k : ℕ) → (k < from) ⊎ (to ≤ k) → slice_index marks.new k ≡ slice_index marks.old k }
{
    let mut had = false;
    for index in from..to {
        if marks[index] == mark {
            had = true;
        }
        marks[index] = mark;
    }
    had
}

/// Marks the bytes of an entry's field, and says whether one of them had the section's mark already.
fn mark_field(
    tables: &Tables,
    section: u64,
    relocs: &RelocTable,
    entry: u64,
    marks: &mut [u32],
) -> bool
    requires section { IsSection tables.now.bytes.now section }
    requires relocs { AreRelocs tables.now.bytes.now section relocs.now }
    requires entry { entry < relocs.now.count }
    requires room { (entry_of tables.now.bytes.now section entry).offset
        + width_at tables.now.bytes.now section entry ≤ length marks.old }
    ensures had { IsTrue result
        ↔ ((k : ℕ) × Covers tables.now.bytes.now section entry k × (slice_index marks.old k ≡ section)) }
    ensures within { (k : ℕ) → Covers tables.now.bytes.now section entry k → slice_index marks.new k ≡ section }
    ensures outside { (k : ℕ) → (Covers tables.now.bytes.now section entry k → ⊥)
        → slice_index marks.new k ≡ slice_index marks.old k }
{
    let rela = rela_in(tables, section, relocs, entry);
    let end = rela.offset + width_of(rela.kind());
    mark(marks, rela.offset as usize, end as usize, section as u32)
}

/// The first entry of a section whose field shares a byte with that of an earlier one. No byte has the
/// section's mark before the call.
fn overlap_in(tables: &Tables, section: u64, marks: &mut [u32]) -> Option<u64>
    requires section { IsSection tables.now.bytes.now section }
    requires room { HasRoom tables.now.bytes.now section (length marks.old) }
    requires unmarked { (k : ℕ) → slice_index marks.old k < section }
    ensures first { IsFirstAt (Stands RelocOverlap tables.now.bytes.now section) result }
    ensures marked { (k : ℕ) → slice_index marks.new k < section + 1 }
{
    let relocs = reloc_table(tables, section)?;
    for entry in 0..relocs.count {
        if mark_field(tables, section, &relocs, entry, marks) {
            return Some(entry);
        }
    }
    None
}

/// The first entry of a section whose field shares a byte with that of an earlier one. It sets marks only if
/// the fields do not rise.
fn first_overlap(tables: &Tables, section: u64, marks: &mut [u32]) -> Option<u64>
    requires section { IsSection tables.now.bytes.now section }
    requires earlier { NoneBelow 16 tables.now.bytes.now }
    requires room { HasRoomToMark tables.now.bytes.now section (length marks.old) }
    requires unmarked { (k : ℕ) → slice_index marks.old k < section }
    ensures first { IsFirstAt (Stands RelocOverlap tables.now.bytes.now section) result }
    ensures marked { (k : ℕ) → slice_index marks.new k < section + 1 }
{
    match walk_over(tables, section) {
        Walk::Rising => None,
        Walk::Scattered => overlap_in(tables, section, marks),
        // Refused earlier.
        Walk::Faulty => unreachable!(),
    }
}

/// Checks whether fields share a byte. `marks` has as many entries as the largest target whose fields do not rise.
fn ask_marked(tables: &Tables, marks: &mut [u32]) -> Result<(), ObjectFault>
    requires earlier { NoneBelow 16 tables.now.bytes.now }
    requires room { (r : ℕ) → HasRoomToMark tables.now.bytes.now r (length marks.old) }
    requires unmarked { (k : ℕ) → slice_index marks.old k ≡ 0 }
    ensures { Answers 16 tables.now.bytes.now result }
{
    for section in 1..tables.count {
        if let Some(entry) = first_overlap(tables, section, marks) {
            return Err(fault_at(section, entry, FaultKind::RelocOverlap));
        }
    }
    Ok(())
}

/// Checks whether fields of relocations share a byte. `most` marks are enough for every target
/// whose fields do not rise.
pub fn ask_overlaps(alloc: Global, tables: &Tables, most: u64) -> Result<(), ObjectFault>
    requires earlier { NoneBelow 16 tables.now.bytes.now }
    requires room { (r : ℕ) → HasRoomToMark tables.now.bytes.now r most }
    ensures { Answers 16 tables.now.bytes.now result }
{
    if most == 0 {
        return Ok(());
    }
    let mut marks = vec![in alloc; 0; most as usize]?;
    ask_marked(tables, &mut marks)
}
