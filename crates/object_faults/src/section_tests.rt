//! What may be wrong with one section: one test for each kind of fault.

ghost use Rattle.std.specs.Prelude.{◌<◌, ◌↔◌, IsTrue};
ghost use Rattle.object_rules.specs.declared.fault.FaultKind.TheVariants.{SectionName, SectionKind, SectionAlign};
ghost use Rattle.object_rules.specs.declared.fault.FaultKind.TheVariants.{TooLarge};
ghost use Rattle.object_faults.specs.Parts.{IsSection, IsStrings};
ghost use Rattle.object_faults.specs.Names.{Ends};
ghost use Rattle.object_faults.specs.Faults.{Stands, IsRefused};

use crate::class::{class_of, kept_class};
use crate::tables::Tables;
use elf_records::alignment::is_alignment;
use elf_records::section_header::{
    SHF_ALLOC, SHF_TLS, SHT_GROUP, SHT_REL, SHT_RELA, SHT_STRTAB, SHT_SYMTAB, SHT_SYMTAB_SHNDX,
};
use elf_records::{Rela, SectionHeader, SymbolEntry};

/// The most bytes of a section that linking keeps.
const SIZE_LIMIT: u64 = 1 << 20;

/// The most entries of a table.
const ENTRY_LIMIT: u64 = 1 << 20;

/// Whether a name that begins at this offset of the section names ends.
#[tactic(auto, using(crate::proofs::EndsOfNames::ends_before, crate::proofs::EndsOfNames::no_end_after))]
fn name_ends(tables: &Tables, at: u64) -> bool
    requires { IsStrings tables.now.bytes.now tables.now.names }
    ensures { IsTrue result ↔ Ends tables.now.bytes.now tables.now.names at }
{
    at < tables.names_end
}

/// The section of names is not a string table, or the section's name does not end.
#[tactic(auto, unfolding(crate::specs::Faults::Stands))]
pub fn section_name(tables: &Tables, section: u64) -> bool
    requires { IsSection tables.now.bytes.now section }
    ensures { IsTrue result ↔ Stands SectionName tables.now.bytes.now section 0 }
{
    if tables.section(tables.names).kind != SHT_STRTAB {
        return section == tables.names;
    }
    !name_ends(tables, u64::from(tables.section(section).name))
}

/// Whether the section's flags and type fit no class, or linking refuses its type.
fn is_refused(header: &SectionHeader) -> bool
    ensures { IsTrue result ↔ IsRefused header.now }
{
    if header.kind == SHT_REL || header.kind == SHT_GROUP || header.kind == SHT_SYMTAB_SHNDX {
        return true;
    }
    if header.flags & SHF_ALLOC == 0 {
        header.flags & SHF_TLS != 0
    } else {
        class_of(header).is_none()
    }
}

/// Linking does not know the section's flags and type.
#[tactic(auto, unfolding(crate::specs::Faults::Stands))]
pub fn section_kind(tables: &Tables, section: u64) -> bool
    requires { IsSection tables.now.bytes.now section }
    ensures { IsTrue result ↔ Stands SectionKind tables.now.bytes.now section 0 }
{
    is_refused(&tables.section(section))
}

/// A kept section has an alignment that is not allowed.
#[tactic(auto, unfolding(crate::specs::Faults::Stands))]
pub fn section_align(tables: &Tables, section: u64) -> bool
    requires { IsSection tables.now.bytes.now section }
    ensures { IsTrue result ↔ Stands SectionAlign tables.now.bytes.now section 0 }
{
    let header = tables.section(section);
    kept_class(&header).is_some() && header.addralign != 0 && !is_alignment(header.addralign)
}

/// A kept section or a table is larger than linking accepts.
#[tactic(auto, unfolding(crate::specs::Faults::Stands))]
pub fn too_large(tables: &Tables, section: u64) -> bool
    requires { IsSection tables.now.bytes.now section }
    ensures { IsTrue result ↔ Stands TooLarge tables.now.bytes.now section 0 }
{
    let header = tables.section(section);
    if kept_class(&header).is_some() && SIZE_LIMIT < header.size {
        return true;
    }
    match header.kind {
        SHT_SYMTAB => ENTRY_LIMIT * SymbolEntry::SIZE < header.size,
        SHT_RELA => {
            ENTRY_LIMIT * Rela::SIZE < header.size && tables.is_kept(u64::from(header.info))
        }
        _ => false,
    }
}
