//! The relocations of one section, as an iterator, and by number.

ghost use Rattle.std.specs.Prelude.{◌≡◌, ◌+◌, ◌*◌, ◌-◌, ◌^◌, ◌<◌, ◌≤◌, Some, length, slice_get};
ghost use Rattle.std.specs.Iterator.{YieldsFirst, item_count};
ghost use Rattle.elf_object.specs.Parts.{IsRela};
ghost use Rattle.elf_object.specs.Tables.{AreTargets};
ghost use Rattle.elf_object.specs.Lent.{relocation_at, relocations_in, relocations_from, relocation_target};
ghost use Rattle.elf_object.specs.Lent.{kept_relocation_table};

use crate::part::class_in;
use crate::relocation::Relocation;
use elf_records::section_header::SHT_RELA;
use elf_records::{Rela, read_rela};
use object_faults::{RelocationKind, Tables};
use std::marker::Model;

/// The relocations of a section, in the order of the file. Contracts see the list of those that remain.
#[derive(Drop)]
pub struct Relocs<'a> {
    bytes: &'a [u8],
    at: u64,
    next: u64,
    end: u64,
}

impl<'a> Model for Relocs<'a> {
    ghost use Rattle.std.specs.Prelude.{List, ◌+◌, ◌*◌, ◌-◌, ◌≤◌, length};
    ghost use Rattle.elf_object.specs.declared.relocation.Relocation.{Relocation};
    ghost use Rattle.elf_object.specs.Lent.{relocations_from};

    ghost Value = { List Relocation };

    ghost view = { λ r. relocations_from r.bytes.now r.at r.next (r.end - r.next) };

    ghost invariant = { λ r. r.at + 24 * r.end ≤ length r.bytes.now };
}

/// The relocation at an offset of the file.
#[inline(always)]
#[tactic(auto, unfolding(crate::specs::Lent::relocation_at))]
fn relocation_at(bytes: &[u8], at: u64) -> Relocation
    requires { at + 24 ≤ length bytes.now }
    ensures { result ≡ relocation_at at bytes.now }
{
    match read_rela(bytes, at) {
        Some(entry) => Relocation {
            offset: entry.offset,
            kind: RelocationKind::numbered(entry.kind()).unwrap_or(RelocationKind::Nothing),
            symbol: entry.symbol(),
            addend: entry.addend,
        },
        None => unreachable!(),
    }
}

impl<'a> Relocs<'a> {
    /// The entries of the table that begins at `at`.
    pub fn of(bytes: &'a [u8], at: u64, count: u64) -> Relocs<'a>
        requires { at + 24 * count ≤ length bytes.now }
        ensures { result ≡ relocations_from bytes.now at 0 count }
    {
        Relocs {
            bytes,
            at,
            next: 0,
            end: count,
        }
    }

    /// How many relocations remain.
    #[inline(always)]
    pub fn len(&self) -> u64
        ensures { result ≡ length self.now }
    {
        self.end.saturating_sub(self.next)
    }

    /// The relocation after so many others that remain. Reads it from the file.
    #[inline(always)]
    pub fn at(&self, index: u64) -> Relocation
        requires { index < length self.now }
        ensures { slice_get self.now index ≡ Some result }
    {
        relocation_at(self.bytes, self.at + Rela::SIZE * (self.next + index))
    }
}

impl Iterator for Relocs<'_> {
    type Item = Relocation;

    ghost next_gives = { YieldsFirst (λ s. s) };

    ghost remaining = { item_count (λ s. s) };

    #[inline(always)]
    fn next(&mut self) -> Option<Relocation> {
        if self.end <= self.next {
            return None;
        }
        let relocation = relocation_at(self.bytes, self.at + Rela::SIZE * self.next);
        self.next += 1;
        Some(relocation)
    }
}

/// The section that holds the relocations of a section that linking keeps, or 0. `targets` has that number for each
/// section.
#[tactic(auto, using(crate::specs::Laws::holds_relocations), unfolding(crate::specs::Lent::kept_relocation_table))]
pub fn table_of(tables: &Tables, targets: &[u32], section: u64) -> u64
    requires len { length targets.now ≡ tables.now.count }
    requires found { AreTargets tables.now.bytes.now targets.now }
    ensures table { result ≡ kept_relocation_table tables.now.bytes.now section }
    ensures rela { 0 < result → IsRela tables.now.bytes.now result }
{
    let Some(_class) = class_in(tables, section) else {
        return 0;
    };
    u64::from(targets[section as usize])
}

/// The relocations that a section holds.
#[tactic(auto, unfolding(crate::specs::Lent::relocations_in, crate::specs::Lent::relocations_from))]
pub fn relocs_in<'a>(tables: &Tables<'a>, table: u64) -> Relocs<'a>
    requires { 0 < table → IsRela tables.now.bytes.now table }
    ensures { result ≡ relocations_in tables.now.bytes.now table }
{
    if table == 0 {
        return Relocs::of(tables.bytes, 0, 0);
    }
    let header = tables.section(table);
    Relocs::of(tables.bytes, header.offset, header.size / Rela::SIZE)
}

/// The section whose relocations this one holds, if linking keeps it; else 0.
#[tactic(auto, unfolding(crate::specs::Lent::relocation_target))]
pub fn target_of(tables: &Tables, table: u64) -> u64
    ensures target { result ≡ relocation_target tables.now.bytes.now table }
    ensures few { result < 2 ^ 32 }
{
    let Some(header) = tables.section_at(table) else {
        return 0;
    };
    let target = u64::from(header.info);
    if header.kind != SHT_RELA || class_in(tables, target).is_none() {
        return 0;
    }
    target
}
