//! Symbols and relocations as entries of an image's tables.

ghost use Rattle.std.specs.Prelude.{◌≡◌, ◌^◌, ◌<◌, FitsSigned};
ghost use Rattle.std.specs.Int.{w64};
ghost use Rattle.image_writer.specs.Contents.{null_symbol};
ghost use Rattle.image_writer.specs.Tables.{relocation_entry, symbol_entry};

use elf_records::symbol::SHN_UNDEF;
use elf_records::{Rela, SymbolEntry};
use image_file::{ImageRelocation, ImageSymbol, SymbolBinding, SymbolType, Visibility};

/// The section number of defined symbols. It stands for the whole image, which has no table of sections.
const WHOLE_IMAGE: u16 = 1;

/// The reserved symbol, number 0.
pub fn null_symbol() -> ImageSymbol
    ensures { result ≡ null_symbol }
{
    ImageSymbol {
        binding: SymbolBinding::Local,
        kind: SymbolType::NoType,
        visibility: Visibility::Default,
        is_defined: false,
        value: 0,
        size: 0,
    }
}

/// The entry of a symbol whose name begins at an offset of the names.
#[tactic(auto, unfolding(crate::specs::Tables::symbol_entry))]
pub fn symbol_entry(symbol: ImageSymbol, name: u32) -> SymbolEntry
    ensures entry { result ≡ symbol_entry symbol name }
    ensures value { symbol.value < 2 ^ 64 }
    ensures size { symbol.size < 2 ^ 64 }
{
    SymbolEntry {
        name,
        info: SymbolEntry::info_of(symbol.binding.number(), symbol.kind.number()),
        other: symbol.visibility.number(),
        shndx: if symbol.is_defined {
            WHOLE_IMAGE
        } else {
            SHN_UNDEF
        },
        value: symbol.value,
        size: symbol.size,
    }
}

/// The entry of a relocation.
#[tactic(auto, unfolding(crate::specs::Tables::relocation_entry))]
pub fn relocation_entry(relocation: ImageRelocation) -> Rela
    ensures entry { result ≡ relocation_entry relocation }
    ensures place { relocation.place < 2 ^ 64 }
    ensures addend { FitsSigned w64 relocation.addend }
{
    Rela {
        offset: relocation.place,
        info: Rela::info_of(relocation.symbol, relocation.kind.number()),
        addend: relocation.addend,
    }
}
