//! One relocation of an object (gABI, "Relocation").

use object_faults::RelocationKind;

/// A relocation: how to fill one field of a section.
#[derive(Clone, Copy, PartialEq, Eq, Debug)]
pub struct Relocation {
    /// The offset of the field in its section.
    pub offset: u64,
    /// Its type: how the field's value is computed.
    pub kind: RelocationKind,
    /// The number of its symbol.
    pub symbol: u32,
    /// The addend: it is added to the symbol's value.
    pub addend: i64,
}
