//! An object: a file that was read and has no fault.

ghost use Rattle.std.specs.Prelude.{◌≡◌, ◌≢◌, ◌<◌, ◌≤◌, ◌↔◌, ◌^◌, ℕ, length, All, IsNone, IfOk, IfErr, IfSome};
ghost use Rattle.std.specs.Prelude.{OnSome, MatchOption};
ghost use Rattle.elf_object.specs.Parts.{symbol_count as count_of_symbols, symbol_table as table_of_symbols};
ghost use Rattle.elf_object.specs.Lent.{relocations as relocations_of};
ghost use Rattle.elf_object.specs.LentLaws.{IsSectionPart, IsSymbolPart};
ghost use Rattle.elf_object.specs.Lent.{kept_relocation_table, relocation_target as target_of_relocations};
ghost use Rattle.elf_object.specs.Lent.{symbol_name as name_of_symbol};
ghost use Rattle.elf_object.specs.LentLaws.{section_name as name_of_section};
ghost use Rattle.elf_object.specs.Firsts.{nonzero};
ghost use Rattle.elf_object.specs.Lawful.{IsKeptAs, IsLawful, IsPlaced, IsShared};
ghost use Rattle.elf_object.specs.Object.{section_count as count_of_sections, IsWritable};
ghost use Rattle.elf_object.specs.Faults.{IsObject, IsFault, IsFirstAt};
ghost use Rattle.elf_object.specs.Counts.{own_count};
ghost use Rattle.elf_object.specs.Noted.{all_relocations, roles_of, traits_of};

use crate::count::own_count;
use crate::noted::{Notes, Roles, Traits, noted};
use crate::part::{SectionPart, SymbolPart, class_in, section_part, symbol_part};
use crate::part_names::{section_name, short_symbol_name, symbol_name};
use crate::relocs::{Relocs, relocs_in, table_of, target_of};
use elf_records::SymbolBinding;
use object_faults::{FaultFree, ObjectFault, SectionClass, Tables, fault_free};
use std::alloc::Global;
use std::marker::Model;

/// An object that was read. It keeps offsets into the bytes that it was read from. Contracts see it as those bytes.
#[derive(Drop)]
pub struct Object<'a> {
    tables: Tables<'a>,
    targets: Vec<u32>,
    count: u64,
    notes: Notes,
}

impl<'a> Model for Object<'a> {
    ghost use Rattle.std.specs.Prelude.{◌≡◌, ℕ, List};
    ghost use Rattle.elf_object.specs.Lawful.{IsKeptAs, IsLawful, IsPlaced, IsShared};
    ghost use Rattle.elf_object.specs.Checked.{IsRead};
    ghost use Rattle.elf_object.specs.Counts.{own_count};
    ghost use Rattle.elf_object.specs.Noted.{all_relocations, AreNoted};
    ghost use Rattle.elf_object.specs.Parts.{symbol_count};

    ghost Value = { List ℕ };

    ghost view = { λ o. o.tables.bytes.now };

    ghost invariant = { λ o. IsRead o.tables.bytes.now o.targets.items
        × (o.count ≡ own_count o.tables.bytes.now)
        × AreNoted (symbol_count o.tables.bytes.now) (all_relocations o.tables.bytes.now)
        o.notes.roles.items o.notes.traits };
}

impl<'a> Object<'a> {
    /// Reads an object. The error is the first fault that holds.
    pub fn read(alloc: Global, bytes: &'a [u8]) -> Result<Object<'a>, ObjectFault>
        ensures object { IfOk result (λ object. (object ≡ bytes.now) × IsObject bytes.now) }
        ensures fault { IfErr result (IsFault bytes.now) }
    {
        let FaultFree { tables, targets } = fault_free(alloc, bytes)?;
        let count = own_count(&tables, &targets);
        let notes = noted(alloc, &tables, &targets)?;
        Ok(Object {
            tables,
            targets,
            count,
            notes,
        })
    }
}

/// The lowest section of the writable class that has bytes.
fn first_writable(tables: &Tables) -> Option<u32>
    ensures { IsFirstAt (IsWritable tables.now.bytes.now) result }
{
    for section in 1..tables.count {
        if matches!(
            class_in(tables, section),
            Some(SectionClass::Writable { .. })
        ) {
            return Some(section as u32);
        }
    }
    None
}

impl<'a> Object<'a> {
    /// The number of sections, including number 0.
    pub fn section_count(&self) -> u32
        ensures count { result ≡ count_of_sections self.now }
        ensures few { result < 2 ^ 16 }
        ensures object { IsObject self.now }
    {
        self.tables.count as u32
    }

    /// The number of symbols, including number 0; 0 if there is no symbol table.
    #[tactic(auto, using(crate::specs::Laws::symbols_few))]
    pub fn symbol_count(&self) -> u32
        ensures count { result ≡ count_of_symbols self.now }
        ensures few { result ≤ 2 ^ 20 }
        ensures object { IsObject self.now }
    {
        self.tables.symbols.count as u32
    }

    /// The section with this number; `None` exactly if there is none. Number 0 is reserved, and its part is empty.
    #[tactic(auto, using(crate::specs::LawsOfSections::kept_as))]
    pub fn section(&self, number: u32) -> Option<SectionPart<'a>>
        ensures past { IsNone result ↔ (count_of_sections self.now ≤ number) }
        ensures part { IfSome result (IsSectionPart self.now number) }
        ensures kept { IfSome result (λ part. IfSome part.class (IsKeptAs self.now number)) }
        ensures object { IsObject self.now }
    {
        let number = u64::from(number);
        if self.tables.count <= number {
            return None;
        }
        Some(section_part(&self.tables, number))
    }

    /// The symbol with this number; `None` exactly if there is none. Number 0 is reserved, and its part is empty.
    #[tactic(auto, using(crate::specs::LawsOfParts::placed, crate::specs::LawsOfParts::shared))]
    pub fn symbol(&self, number: u32) -> Option<SymbolPart>
        ensures past { IsNone result ↔ (count_of_symbols self.now ≤ number) }
        ensures part { IfSome result (IsSymbolPart self.now number) }
        ensures placed { OnSome result (IsPlaced self.now number) }
        ensures shared { IfSome result (λ part. part.binding ≢ SymbolBinding.Local → IsShared self.now number) }
        ensures object { IsObject self.now }
    {
        let number = u64::from(number);
        if self.tables.symbols.count <= number {
            return None;
        }
        Some(symbol_part(&self.tables, number))
    }

    /// The name of a section. Each call searches for its end: [`section`](Object::section) lends no name.
    pub fn section_name(&self, number: u32) -> &'a [u8]
        requires { number < count_of_sections self.now }
        ensures name { result.now ≡ name_of_section self.now number }
        ensures object { IsObject self.now }
    {
        section_name(&self.tables, u64::from(number))
    }

    /// The name of a symbol. Each call searches for its end.
    pub fn symbol_name(&self, number: u32) -> &'a [u8]
        requires { number < count_of_symbols self.now }
        ensures name { result.now ≡ name_of_symbol self.now number }
        ensures object { IsObject self.now }
    {
        symbol_name(&self.tables, u64::from(number))
    }

    /// The name of a symbol, if it has at most `limit` bytes. Reads at most `limit + 1` bytes of it.
    pub fn short_symbol_name(&self, number: u32, limit: usize) -> Option<&'a [u8]>
        requires { number < count_of_symbols self.now }
        ensures name { MatchOption result (limit < length (name_of_symbol self.now number))
            (λ name. (name.now ≡ name_of_symbol self.now number) × (length name.now ≤ limit)) }
        ensures object { IsObject self.now }
    {
        short_symbol_name(&self.tables, u64::from(number), limit)
    }

    /// The relocations of a section that linking keeps, in the order of the file. There are none if no section holds
    /// any.
    #[tactic(auto, using(crate::specs::Laws::relocations_few, crate::specs::LawsOfRelocations::lawful))]
    pub fn relocs(&self, section: u32) -> Relocs<'a>
        ensures relocations { result ≡ relocations_of self.now section }
        ensures few { length result ≤ 2 ^ 20 }
        ensures lawful { All (IsLawful self.now section) result }
        ensures object { IsObject self.now }
    {
        let table = table_of(&self.tables, &self.targets, u64::from(section));
        relocs_in(&self.tables, table)
    }

    /// How many relocations the sections have that linking keeps.
    pub fn relocation_count(&self) -> u64
        ensures count { result ≡ own_count self.now }
        ensures object { IsObject self.now }
    {
        self.count
    }

    /// In which roles relocations of those sections name a symbol.
    #[inline]
    pub fn roles(&self, symbol: u32) -> Roles
        requires { symbol < count_of_symbols self.now }
        ensures { result ≡ roles_of (all_relocations self.now) symbol }
    {
        self.notes.roles[symbol as usize]
    }

    /// What relocations of those sections have among them.
    pub fn traits(&self) -> Traits
        ensures { result ≡ traits_of (all_relocations self.now) }
    {
        self.notes.traits
    }

    /// The section that holds the symbols, if there is one.
    pub fn symbol_table(&self) -> Option<u32>
        ensures table { result ≡ nonzero (table_of_symbols self.now) }
        ensures few { IfSome result (λ table. table < 2 ^ 16) }
        ensures object { IsObject self.now }
    {
        match self.tables.symbols.table {
            0 => None,
            table => Some(table as u32),
        }
    }

    /// The section that holds the relocations of a section that linking keeps, if there is one.
    pub fn relocation_table(&self, section: u32) -> Option<u32>
        ensures table { result ≡ nonzero (kept_relocation_table self.now section) }
        ensures few { IfSome result (λ table. table < 2 ^ 16) }
        ensures object { IsObject self.now }
    {
        match table_of(&self.tables, &self.targets, u64::from(section)) {
            0 => None,
            table => Some(table as u32),
        }
    }

    /// The section whose relocations this one holds, if linking keeps it.
    pub fn relocation_target(&self, table: u32) -> Option<u32>
        ensures target { result ≡ nonzero (target_of_relocations self.now table) }
        ensures object { IsObject self.now }
    {
        match target_of(&self.tables, u64::from(table)) {
            0 => None,
            target => Some(target as u32),
        }
    }

    /// The lowest section of the writable class that has bytes, in memory or in the file.
    pub fn writable(&self) -> Option<u32>
        ensures first { IsFirstAt (IsWritable self.now) result }
        ensures object { IsObject self.now }
    {
        first_writable(&self.tables)
    }
}
