//! A part of an image.

/// A part of an image: bytes at an address.
#[derive(Debug, Drop)]
pub struct Part {
    /// The address of the first byte.
    pub address: u64,
    pub bytes: Vec<u8>,
}
