//! The parts that an object lends: sections and symbols.

ghost use Rattle.std.specs.Prelude.{◌≡◌, ◌<◌, OnSome};
ghost use Rattle.elf_object.specs.Parts.{symbol_count, IsSection};
ghost use Rattle.elf_object.specs.Lent.{section_bytes, section_class, section_alignment};
ghost use Rattle.elf_object.specs.LentLaws.{IsSectionPart, IsSymbolPart};

use crate::symbol::{SymbolPlace, place_numbered};
use elf_records::symbol::{binding_numbered, type_numbered, visibility_numbered};
use elf_records::{SymbolBinding, SymbolType, Visibility};
use object_faults::{SectionClass, Tables, has_bytes, kept_class};

/// A section of an object. Its bytes are in the file.
#[derive(Clone, Copy, Debug)]
pub struct SectionPart<'a> {
    /// The class that the section is linked in; `None` if linking drops it.
    pub class: Option<SectionClass>,
    /// Its bytes in the file; none if its type says that it has no bytes there.
    pub bytes: &'a [u8],
    /// Its size in memory, in bytes.
    pub size: u64,
    /// Its alignment: a power of two.
    pub alignment: u64,
}

/// A symbol of an object.
#[derive(Clone, Copy, PartialEq, Eq, Debug)]
pub struct SymbolPart {
    pub binding: SymbolBinding,
    pub kind: SymbolType,
    pub visibility: Visibility,
    /// Where the symbol is defined.
    pub place: SymbolPlace,
    /// Its value: for a symbol in a section, its offset there.
    pub value: u64,
    /// Its size in bytes.
    pub size: u64,
}

/// The class that linking keeps a section in; `None` if it drops it.
#[tactic(auto, unfolding(crate::specs::Lent::section_class))]
pub fn class_in(tables: &Tables, number: u64) -> Option<SectionClass>
    ensures class { result ≡ section_class tables.now.bytes.now number }
    ensures section { OnSome result (IsSection tables.now.bytes.now number) }
{
    if !tables.has_section(number) {
        return None;
    }
    kept_class(&tables.section(number))
}

/// The bytes of a section in the file.
#[tactic(auto, unfolding(crate::specs::Lent::section_bytes))]
pub fn bytes_of<'a>(tables: &Tables<'a>, number: u64) -> &'a [u8]
    ensures { result.now ≡ section_bytes tables.now.bytes.now number }
{
    if !tables.has_section(number) {
        return &[];
    }
    let header = tables.section(number);
    if !has_bytes(&header) {
        return &[];
    }
    &tables.bytes[header.offset as usize..(header.offset + header.size) as usize]
}

/// The alignment of a section; 0 in the file counts as 1.
#[tactic(auto, unfolding(crate::specs::Lent::section_alignment))]
fn alignment_in(tables: &Tables, number: u64) -> u64
    requires { number < tables.now.count }
    ensures { result ≡ section_alignment tables.now.bytes.now number }
{
    match tables.section(number).addralign {
        alignment if number != 0 && alignment != 0 => alignment,
        _ => 1,
    }
}

/// A section, as it is lent.
#[tactic(auto, unfolding(crate::specs::Lent::section_size))]
pub fn section_part<'a>(tables: &Tables<'a>, number: u64) -> SectionPart<'a>
    requires { number < tables.now.count }
    ensures { IsSectionPart tables.now.bytes.now number result }
{
    let size = if number == 0 {
        0
    } else {
        tables.section(number).size
    };
    SectionPart {
        class: class_in(tables, number),
        bytes: bytes_of(tables, number),
        size,
        alignment: alignment_in(tables, number),
    }
}

/// A symbol, as it is lent.
#[tactic(auto, unfolding(crate::specs::Lent::symbol_binding, crate::specs::Lent::symbol_type, crate::specs::Lent::symbol_visibility, crate::specs::Lent::symbol_place, crate::specs::Lent::symbol_value, crate::specs::Lent::symbol_size))]
pub fn symbol_part(tables: &Tables, number: u64) -> SymbolPart
    requires { number < symbol_count tables.now.bytes.now }
    ensures { IsSymbolPart tables.now.bytes.now number result }
{
    if number == 0 {
        return SymbolPart {
            binding: SymbolBinding::Local,
            kind: SymbolType::NoType,
            visibility: Visibility::Default,
            place: SymbolPlace::Undefined,
            value: 0,
            size: 0,
        };
    }
    let symbol = tables.symbol(number);
    SymbolPart {
        binding: binding_numbered(symbol.binding()),
        kind: type_numbered(symbol.kind()),
        visibility: visibility_numbered(symbol.visibility()),
        place: place_numbered(symbol.shndx),
        value: symbol.value,
        size: symbol.size,
    }
}
