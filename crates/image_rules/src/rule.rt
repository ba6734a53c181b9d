//! The rules that an image keeps, in the order of the checks.

ghost use Rattle.std.specs.Prelude.{◌≡◌};
ghost use Rattle.image_rules.specs.Rules.{kind_of};

use crate::fault::FaultKind;

/// A rule for one place of a file, or for each entry of a table. The first rule that is broken decides, at the first
/// entry that breaks it.
#[derive(Clone, Copy, PartialEq, Eq, Debug)]
pub enum Rule {
    /// The file holds a header.
    Length,
    /// The first seven bytes are those of ELF with 64 bits, little-endian data and version 1.
    Ident,
    /// A field of the header.
    Field(FieldRule),
    /// The program headers and the bytes of all segments lie in the file.
    Extent,
    /// The program headers: LOADs, DYNAMIC, TLS, GNU_RELRO.
    Segment,
    /// An entry of the dynamic array.
    Entry(EntryRule),
    /// The entries of a table.
    Table(TableRule),
}

/// A field of the header, in the order of the file.
#[derive(Clone, Copy, PartialEq, Eq, Debug)]
pub enum FieldRule {
    /// A program at fixed addresses, or a shared object.
    FileType,
    /// The processor is x86-64.
    Machine,
    /// The version of the format.
    Version,
    /// The program headers follow the header.
    TableOffset,
    /// The size of a program header.
    EntrySize,
    /// There are 1 to 10 program headers.
    Count,
}

/// An entry of the dynamic array, in the order of the array.
#[derive(Clone, Copy, PartialEq, Eq, Debug)]
pub enum EntryRule {
    /// HASH: a hash table of one bucket.
    Hash,
    /// STRTAB: where the names lie.
    Strings,
    /// SYMTAB: where the symbols lie.
    Symbols,
    /// STRSZ: how many bytes the names take.
    StringsSize,
    /// SYMENT: how many bytes a symbol takes.
    SymbolSize,
    /// RELA: where the relocations lie.
    Relocations,
    /// RELASZ: how many bytes they take.
    RelocationsSize,
    /// RELAENT: how many bytes each of them takes.
    RelocationSize,
    /// FLAGS, FLAGS_1 or NULL.
    Flags,
    /// NULL after FLAGS or FLAGS_1.
    End,
}

/// A table whose entries are checked one after another.
#[derive(Clone, Copy, PartialEq, Eq, Debug)]
pub enum TableRule {
    /// A symbol's name, type and binding.
    Symbol,
    /// A relocation's type, symbol and place.
    Relocation,
    /// A symbol's offset in the TLS segment.
    TlsSymbol,
    /// A relocation that refers to the image's own TLS segment.
    TlsRelocation,
}

impl Rule {
    /// The kind of fault where the rule is broken.
    pub fn kind(self) -> FaultKind
        ensures { result ≡ kind_of self }
    {
        match self {
            Rule::Length | Rule::Extent => FaultKind::Truncated,
            Rule::Ident | Rule::Field(_) => FaultKind::Header,
            Rule::Segment => FaultKind::Segment,
            Rule::Entry(_) => FaultKind::Dynamic,
            Rule::Table(table) => match table {
                TableRule::Symbol => FaultKind::Dynamic,
                TableRule::Relocation => FaultKind::Relocation,
                TableRule::TlsSymbol | TableRule::TlsRelocation => FaultKind::TlsPlace,
            },
        }
    }
}
