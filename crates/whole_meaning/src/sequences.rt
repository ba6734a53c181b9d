//! A sequence in an instance's code.

use amd64_words::Register;
use sequence_forms::Form;

/// A sequence in an instance's code.
#[derive(Clone, Copy, Debug)]
pub struct Sequence {
    pub form: Form,
    /// The address after its last byte.
    pub next: u64,
    /// The register that it names, for the forms that name one.
    pub register: Register,
    /// The number of the instance whose code it is in.
    pub instance: u64,
    /// The number of the symbol that it names. No other symbol has it.
    pub symbol: u64,
    /// The number of the instance whose blocks hold the variable.
    pub target: u64,
    /// The variable's offset in a block.
    pub offset: u64,
}
