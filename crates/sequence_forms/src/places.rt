//! The place of a sequence in an object.

use crate::forms::Form;

/// A sequence of an object's code.
#[derive(Clone, Copy, PartialEq, Eq, Debug)]
pub struct Site {
    /// The section that it lies in.
    pub section: u32,
    /// The symbol that its first relocation names: the variable, or for local dynamic forms the symbol that
    /// the assembler put there.
    pub symbol: u32,
    /// The offset of its first byte in that section.
    pub start: u64,
    /// How many bytes it has.
    pub len: u64,
    /// Its row in the table.
    pub form: Form,
    /// The register that it writes, from 0 to 15, for the two forms that name one; else 0.
    pub reg: u8,
}
