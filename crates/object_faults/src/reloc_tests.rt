//! What may be wrong with the relocations of one section: one test for each kind of fault.

ghost use Rattle.std.specs.Prelude.{◌≡◌, ◌≢◌, ◌+◌, ◌*◌, ◌<◌, ◌≤◌, ◌↔◌, ℕ, IsTrue, MatchOption, length};
ghost use Rattle.object_rules.specs.Kinds.{of_reloc};
ghost use Rattle.elf_records.specs.Records.{rela_kind, rela_symbol};
ghost use Rattle.object_faults.specs.Parts.{IsSection, rela as entry_of, section as section_header, symbol_count};
ghost use Rattle.object_faults.specs.Classes.{kept_class};
ghost use Rattle.object_faults.specs.Relocations.{IsReloc, width_of, relocation_kind};
ghost use Rattle.object_faults.specs.Tables.{AreRelocs};
ghost use Rattle.object_faults.specs.Faults.{Stands, IsUnplaced, IsMiskinded};
ghost use Rattle.object_faults.specs.Walks.{IsFaulty, end_at};

use crate::class::{SectionClass, kept_class};
use crate::symbol_tests::is_dropped;
use crate::tables::Tables;
use elf_records::relocation::{R_X86_64_NONE, width_of};
use elf_records::section_header::SHT_RELA;
use elf_records::symbol::SHN_ABS;
use elf_records::{Rela, RelocationKind, rela_numbered};
use object_rules::RelocFault;

/// A section of relocations whose target linking keeps.
#[derive(Clone, Copy)]
pub struct RelocTable {
    /// Where the entries begin in the file.
    pub at: u64,
    /// How many there are.
    pub count: u64,
    /// How many bytes the target has.
    pub target_size: u64,
    /// Whether the target is executable.
    pub is_code: bool,
}

/// The relocations that a section holds, if it holds any of a section that linking keeps.
pub fn reloc_table(tables: &Tables, section: u64) -> Option<RelocTable>
    requires { IsSection tables.now.bytes.now section }
    ensures { MatchOption result ((e : ℕ) → IsReloc tables.now.bytes.now section e → ⊥)
        (AreRelocs tables.now.bytes.now section) }
{
    let header = tables.section(section);
    if header.kind != SHT_RELA {
        return None;
    }
    let target = tables.section_at(u64::from(header.info))?;
    let class = kept_class(&target)?;
    Some(RelocTable {
        at: header.offset,
        count: header.size / Rela::SIZE,
        target_size: target.size,
        is_code: class == SectionClass::Executable,
    })
}

/// An entry of the section.
#[inline]
#[tactic(auto, unfolding(crate::specs::Parts::rela))]
pub fn rela_in(tables: &Tables, section: u64, relocs: &RelocTable, entry: u64) -> Rela
    requires relocs { AreRelocs tables.now.bytes.now section relocs.now }
    requires entry { entry < relocs.now.count }
    ensures { result ≡ entry_of tables.now.bytes.now section entry }
{
    rela_numbered(tables.bytes, relocs.at, entry)
}

/// Whether this is not a symbol, or a symbol that has no place in the image.
#[inline]
fn is_unplaced(tables: &Tables, symbol: u64) -> bool
    ensures { IsTrue result ↔ IsUnplaced tables.now.bytes.now symbol }
{
    if symbol == 0 || tables.symbols.count <= symbol {
        return true;
    }
    match tables.symbol(symbol).shndx {
        SHN_ABS => true,
        section => is_dropped(tables, u64::from(section)),
    }
}

/// Whether an entry names no symbol, or a symbol that has no place in the image.
#[inline]
fn names_no_place(tables: &Tables, rela: Rela) -> bool
    ensures { IsTrue result ↔ ((rela_kind rela ≢ R_X86_64_NONE) × IsUnplaced tables.now.bytes.now (rela_symbol rela)) }
{
    rela.kind() != R_X86_64_NONE && is_unplaced(tables, u64::from(rela.symbol()))
}

/// Whether an entry's type is unknown to linking, or not allowed in the target.
#[inline]
fn is_miskinded(tables: &Tables, section: u64, relocs: &RelocTable, rela: Rela) -> bool
    requires { AreRelocs tables.now.bytes.now section relocs.now }
    ensures { IsTrue result ↔ IsMiskinded (relocation_kind (rela_kind rela))
        (kept_class (section_header tables.now.bytes.now (section_header tables.now.bytes.now section).info)) }
{
    match RelocationKind::numbered(rela.kind()) {
        Some(kind) => kind.is_of_code() && !relocs.is_code,
        None => true,
    }
}

/// Where an entry's field ends, unless it passes the end of the target.
#[inline]
fn field_end(tables: &Tables, section: u64, relocs: &RelocTable, rela: Rela) -> Option<u64>
    requires { AreRelocs tables.now.bytes.now section relocs.now }
    ensures { MatchOption result
        ((section_header tables.now.bytes.now (section_header tables.now.bytes.now section).info).size
        < rela.offset + width_of (relocation_kind (rela_kind rela)))
        (λ end. (end ≡ rela.offset + width_of (relocation_kind (rela_kind rela)))
        × (end ≤ (section_header tables.now.bytes.now (section_header tables.now.bytes.now section).info).size)) }
{
    let width = width_of(rela.kind());
    if relocs.target_size < width || relocs.target_size - width < rela.offset {
        return None;
    }
    Some(rela.offset + width)
}

/// Whether a kind of fault of relocations stands at an entry of a section.
#[tactic(auto, unfolding(crate::specs::Faults::Stands))]
pub fn reloc_stands(
    fault: RelocFault,
    tables: &Tables,
    section: u64,
    relocs: &RelocTable,
    entry: u64,
) -> bool
    requires relocs { AreRelocs tables.now.bytes.now section relocs.now }
    requires entry { entry < relocs.now.count }
    ensures { IsTrue result ↔ Stands (of_reloc fault) tables.now.bytes.now section entry }
{
    let rela = rela_in(tables, section, relocs, entry);
    match fault {
        RelocFault::Symbol => names_no_place(tables, rela),
        RelocFault::Kind => is_miskinded(tables, section, relocs, rela),
        RelocFault::Range => field_end(tables, section, relocs, rela).is_none(),
    }
}

/// The bytes of a target that a relocation fills: offsets from `start` up to `end`, without `end`.
#[derive(Clone, Copy)]
pub struct Field {
    pub start: u64,
    pub end: u64,
}

/// The field of an entry, unless the entry is at fault by itself: for its symbol, its type or the range of its field.
#[inline]
#[tactic(auto, unfolding(crate::specs::Faults::Stands))]
pub fn faultless_field(
    tables: &Tables,
    section: u64,
    relocs: &RelocTable,
    entry: u64,
) -> Option<Field>
    requires relocs { AreRelocs tables.now.bytes.now section relocs.now }
    requires entry { entry < relocs.now.count }
    ensures { MatchOption result (IsFaulty tables.now.bytes.now section entry)
        (λ field. (field.start ≡ (entry_of tables.now.bytes.now section entry).offset)
        × (field.end ≡ end_at tables.now.bytes.now section entry)
        × (IsFaulty tables.now.bytes.now section entry → ⊥)) }
{
    let rela = rela_in(tables, section, relocs, entry);
    let Some(end) = field_end(tables, section, relocs, rela) else {
        return None;
    };
    if names_no_place(tables, rela) || is_miskinded(tables, section, relocs, rela) {
        return None;
    }
    Some(Field {
        start: rela.offset,
        end,
    })
}
