//! A symbol of an image (gABI, "Symbol Table").

ghost use Rattle.std.specs.Prelude.{◌≡◌};
ghost use Rattle.image_file.specs.Spelled.{symbol_of};

use elf_records::symbol::{SHN_UNDEF, binding_numbered, type_numbered, visibility_numbered};
use elf_records::{SymbolBinding, SymbolEntry, SymbolType, Visibility};

/// A symbol of an image, without its name.
#[derive(Clone, Copy, PartialEq, Eq, Debug)]
pub struct ImageSymbol {
    pub binding: SymbolBinding,
    pub kind: SymbolType,
    pub visibility: Visibility,
    /// Whether this image defines it.
    pub is_defined: bool,
    /// Its address, or for a thread-local symbol its offset in the TLS segment.
    pub value: u64,
    /// Its size in bytes.
    pub size: u64,
}

/// The symbol of an entry of the symbol table.
#[tactic(auto, unfolding(crate::specs::Spelled::symbol_of))]
pub fn symbol_of(entry: SymbolEntry) -> ImageSymbol
    ensures { result ≡ symbol_of entry }
{
    ImageSymbol {
        binding: binding_numbered(entry.binding()),
        kind: type_numbered(entry.kind()),
        visibility: visibility_numbered(entry.visibility()),
        is_defined: entry.shndx != SHN_UNDEF,
        value: entry.value,
        size: entry.size,
    }
}
