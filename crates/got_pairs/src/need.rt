//! What code needs from the table.
ghost use Rattle.std.specs.Prelude.{◌≡◌};
ghost use Rattle.got_pairs.specs.Needs.{group_of, size_of};

use crate::name::Name;
use link_faults::SymbolRef;

/// A thread-local variable.
#[derive(PartialEq, Eq, Hash, Debug, Drop)]
pub enum Target<'a> {
    /// A variable of the image itself, and its offset in the image's TLS segment.
    Here { symbol: SymbolRef, offset: u64 },
    /// A variable that a startup image exports by this name.
    Import(Name<'a>),
}

/// What an instruction, or the stub, reads from the table. Equal needs share an entry; a symbol has one offset and one
/// place, so needs for the same symbol are equal.
#[derive(PartialEq, Eq, Hash, Debug, Drop)]
pub enum Need<'a> {
    /// The pair for the image itself: its module id, and 0 (TLSLD).
    ModulePair,
    /// The pair for a variable: its module's id, and its offset there (TLSGD).
    SymbolPair(Target<'a>),
    /// The descriptor for a variable (GOTPC32_TLSDESC).
    Descriptor(Target<'a>),
    /// The word with a variable's offset from the thread pointer (GOTTPOFF).
    SymbolWord(Target<'a>),
    /// The word with the address of a symbol of the image, and its address before the image is moved (GOTPCREL).
    AddressWord { symbol: SymbolRef, place: u64 },
    /// The word with the address of `__tls_get_addr`.
    RuntimeWord,
}

/// The kinds of entry, in the order of the table; entries of one kind stand together.
#[derive(Clone, Copy, PartialEq, Eq, Debug)]
pub enum Group {
    ModulePair,
    SymbolPairs,
    Descriptors,
    SymbolWords,
    AddressWords,
    RuntimeWord,
}

impl<'a> Target<'a> {
    /// The same target, with its name borrowed again.
    pub fn again(&self) -> Target<'a>
        ensures { result ≡ self.now }
    {
        match self {
            Target::Here { symbol, offset } => Target::Here {
                symbol: *symbol,
                offset: *offset,
            },
            Target::Import(name) => Target::Import(name.again()),
        }
    }
}

impl<'a> Need<'a> {
    pub fn group(&self) -> Group
        ensures { result ≡ group_of self.now }
    {
        match self {
            Need::ModulePair => Group::ModulePair,
            Need::SymbolPair(_) => Group::SymbolPairs,
            Need::Descriptor(_) => Group::Descriptors,
            Need::SymbolWord(_) => Group::SymbolWords,
            Need::AddressWord { .. } => Group::AddressWords,
            Need::RuntimeWord => Group::RuntimeWord,
        }
    }

    /// How many bytes its entry has.
    pub fn size(&self) -> u64
        ensures { result ≡ size_of self.now }
    {
        match self {
            Need::ModulePair | Need::SymbolPair(_) | Need::Descriptor(_) => 16,
            Need::SymbolWord(_) | Need::AddressWord { .. } | Need::RuntimeWord => 8,
        }
    }

    /// The same need, with its name borrowed again.
    pub fn again(&self) -> Need<'a>
        ensures { result ≡ self.now }
    {
        match self {
            Need::ModulePair => Need::ModulePair,
            Need::SymbolPair(target) => Need::SymbolPair(target.again()),
            Need::Descriptor(target) => Need::Descriptor(target.again()),
            Need::SymbolWord(target) => Need::SymbolWord(target.again()),
            Need::AddressWord { symbol, place } => Need::AddressWord {
                symbol: *symbol,
                place: *place,
            },
            Need::RuntimeWord => Need::RuntimeWord,
        }
    }
}
