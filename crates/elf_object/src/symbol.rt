//! Where an object defines a symbol (gABI, "Symbol Table").

ghost use Rattle.std.specs.Prelude.{◌≡◌};
ghost use Rattle.elf_object.specs.Lent.{place_numbered};

use elf_records::symbol::{SHN_ABS, SHN_UNDEF};

/// Where a symbol is defined.
#[derive(Clone, Copy, PartialEq, Eq, Debug)]
pub enum SymbolPlace {
    /// In another object.
    Undefined,
    /// At an absolute value, which linking does not change.
    Absolute,
    /// In the section with this number.
    InSection(u32),
}

/// The place that a section number in the file stands for.
pub fn place_numbered(number: u16) -> SymbolPlace
    ensures { result ≡ place_numbered number }
{
    match number {
        SHN_UNDEF => SymbolPlace::Undefined,
        SHN_ABS => SymbolPlace::Absolute,
        section => SymbolPlace::InSection(u32::from(section)),
    }
}
