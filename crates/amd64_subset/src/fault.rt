//! Why bytes are not an instruction.

/// Why no instruction was decoded.
#[derive(Clone, Copy)]
pub(crate) enum Fault {
    /// The bytes are too few. At least this many more complete an instruction.
    Short(u8),
    /// No instruction begins with these bytes.
    Wrong,
}
