//! The kinds of fault of one section, of one symbol and of one relocation.

ghost use Rattle.std.specs.Prelude.{◌≡◌};
ghost use Rattle.object_rules.specs.Kinds.{of_section, of_symbol, of_reloc};

use crate::fault::FaultKind;

/// What may be wrong with one section.
#[derive(Clone, Copy)]
pub enum SectionFault {
    Name,
    Kind,
    Align,
    Large,
}

/// What may be wrong with one symbol, apart from its position in the table.
#[derive(Clone, Copy)]
pub enum SymbolFault {
    Name,
    Section,
    Range,
    Kind,
}

/// What may be wrong with one relocation, apart from an overlap with another.
#[derive(Clone, Copy)]
pub enum RelocFault {
    Symbol,
    Kind,
    Range,
}

impl SectionFault {
    /// The kind among all kinds of fault.
    pub fn kind(self) -> FaultKind
        ensures { result ≡ of_section self }
    {
        match self {
            SectionFault::Name => FaultKind::SectionName,
            SectionFault::Kind => FaultKind::SectionKind,
            SectionFault::Align => FaultKind::SectionAlign,
            SectionFault::Large => FaultKind::TooLarge,
        }
    }
}

impl SymbolFault {
    /// The kind among all kinds of fault.
    pub fn kind(self) -> FaultKind
        ensures { result ≡ of_symbol self }
    {
        match self {
            SymbolFault::Name => FaultKind::SymbolName,
            SymbolFault::Section => FaultKind::SymbolSection,
            SymbolFault::Range => FaultKind::SymbolRange,
            SymbolFault::Kind => FaultKind::SymbolKind,
        }
    }
}

impl RelocFault {
    /// The kind among all kinds of fault.
    pub fn kind(self) -> FaultKind
        ensures { result ≡ of_reloc self }
    {
        match self {
            RelocFault::Symbol => FaultKind::RelocSymbol,
            RelocFault::Kind => FaultKind::RelocKind,
            RelocFault::Range => FaultKind::RelocRange,
        }
    }
}
