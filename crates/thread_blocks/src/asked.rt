//! A thread's question to the run time.

/// A thread's question to the run time at a look: where is this byte of my block of a module?
#[derive(Clone, Copy, PartialEq, Eq, Debug)]
pub struct Asked {
    /// The instance whose words hold the module id and the offset.
    pub asking: u32,
    /// The module id.
    pub id: u64,
    /// The offset from the block's first byte.
    pub offset: u64,
    /// Whether a descriptor's function was called. It returns the distance from the thread pointer, not an address.
    pub is_descriptor: bool,
}
