//! The faults of an object: their kinds, and where one stands.

ghost use Rattle.std.specs.Prelude.{◌≡◌, Some, codes};
ghost use Rattle.object_rules.specs.declared.fault.ObjectFault.TheVariants.{OutOfMemory, At};
ghost use Rattle.object_rules.specs.FaultNames.{kind_name};

use std::alloc::AllocError;
use std::fmt;
use thiserror::Error;

/// What is wrong with an object, in the order of the checks. "Section" names the section of the fault; "entry" is the
/// symbol or relocation of the fault, else 0.
#[derive(Clone, Copy, PartialEq, Eq, Debug)]
pub enum FaultKind {
    /// The file is shorter than its header, or the table of section headers or a section's bytes pass its end.
    Truncated,
    /// The file is not ELF with 64 bits and little-endian data.
    NotElf,
    /// The file is not an object for x86-64, its section headers do not have 64 bytes each, or it has no sections,
    /// 0xff00 or more, or no section of their names.
    NotRelocatable,
    /// The section of names is not a string table, or a section's name does not end in it.
    SectionName,
    /// Linking refuses the section's type, or the section's flags and type fit no class.
    SectionKind,
    /// A section that linking keeps has an alignment that is not a power of two up to 4,096.
    SectionAlign,
    /// A section that linking keeps has more than 2^20 bytes, or a table more than 2^20 entries.
    TooLarge,
    /// There is a second symbol table, or the symbol table's entry size, size, string table, first symbol that is not
    /// LOCAL, or order is wrong.
    SymbolTable,
    /// A symbol's name does not end, or it is empty and the symbol is not LOCAL.
    SymbolName,
    /// A symbol is defined in no section, or in one that does not fit its binding.
    SymbolSection,
    /// A symbol passes the end of its section.
    SymbolRange,
    /// A symbol's binding or type is unknown, or its type does not fit its section.
    SymbolKind,
    /// A section of relocations has no target, or does not fit its target.
    RelocTarget,
    /// A relocation names no symbol, or a symbol that has no place in the image.
    RelocSymbol,
    /// A relocation's type is unknown, or its section may not have it.
    RelocKind,
    /// A relocation's field passes the end of its section.
    RelocRange,
    /// A relocation's field shares a byte with that of an earlier one.
    RelocOverlap,
    /// A TLS relocation stands in no code sequence of the psABI. Reading an object does not check this.
    Sequence,
    /// A call of `__tls_get_addr` stands in no such sequence. Reading an object does not check this.
    StrayCall,
    /// The object has data that programs write. Reading does not check this: `elf_object` lends an
    /// object with such data.
    WritableData,
}

impl FaultKind {
    /// The kind's name, as it is printed.
    pub fn name(self) -> &'static str
        ensures { result.now ≡ kind_name self }
    {
        match self {
            FaultKind::Truncated => "Truncated",
            FaultKind::NotElf => "NotElf",
            FaultKind::NotRelocatable => "NotRelocatable",
            FaultKind::SectionName => "SectionName",
            FaultKind::SectionKind => "SectionKind",
            FaultKind::SectionAlign => "SectionAlign",
            FaultKind::TooLarge => "TooLarge",
            FaultKind::SymbolTable => "SymbolTable",
            FaultKind::SymbolName => "SymbolName",
            FaultKind::SymbolSection => "SymbolSection",
            FaultKind::SymbolRange => "SymbolRange",
            FaultKind::SymbolKind => "SymbolKind",
            FaultKind::RelocTarget => "RelocTarget",
            FaultKind::RelocSymbol => "RelocSymbol",
            FaultKind::RelocKind => "RelocKind",
            FaultKind::RelocRange => "RelocRange",
            FaultKind::RelocOverlap => "RelocOverlap",
            FaultKind::Sequence => "Sequence",
            FaultKind::StrayCall => "StrayCall",
            FaultKind::WritableData => "WritableData",
        }
    }
}

impl fmt::Display for FaultKind {
    ghost output = { λ kind. Some (kind_name kind) };

    fn fmt<W: fmt::Write>(&self, f: &mut fmt::Formatter<W>) -> fmt::Result {
        f.write_str(self.name())
    }
}

/// Why an object is refused: memory ran out, or the first fault.
#[derive(Debug, Drop, Error)]
pub enum ObjectFault {
    #[error("out of memory")]
    OutOfMemory,
    #[error("section {section} entry {entry} {kind}")]
    At {
        section: u64,
        entry: u64,
        kind: FaultKind,
    },
}

/// The fault of this kind at this place.
pub fn fault_at(section: u64, entry: u64, kind: FaultKind) -> ObjectFault
    ensures { result ≡ At section entry kind }
{
    ObjectFault::At {
        section,
        entry,
        kind,
    }
}

impl From<AllocError> for ObjectFault {
    ghost from_gives = { λ _ fault. fault ≡ OutOfMemory };

    fn from(_error: AllocError) -> ObjectFault {
        ObjectFault::OutOfMemory
    }
}
