//! A symbol of one of several objects.

/// A symbol of one of several objects.
#[derive(Clone, Copy, PartialEq, Eq, Hash, Debug)]
pub struct SymbolRef {
    /// The object's place in the list, counted from 0.
    pub object: u64,
    /// Its number in the object's symbol table; 0 is reserved.
    pub symbol: u32,
}
