//! What a linker knows of an image before its dynamic tables are laid.

use crate::outline::PartPlace;
use image_file::{FileKind, ImageRelocation, ImageSymbol, TlsPart};

/// A symbol and its name, which has no zero byte.
#[derive(Clone, Copy)]
pub struct NamedSymbol<'a> {
    pub symbol: ImageSymbol,
    pub name: &'a [u8],
}

/// An image without the bytes of its parts and without its dynamic tables.
#[derive(Clone, Copy)]
pub struct Draft<'a> {
    pub kind: FileKind,
    /// The parts, in the order of their addresses.
    pub parts: &'a [PartPlace],
    /// The number of the part that only the loader writes, if there is one.
    pub got: Option<u64>,
    pub tls: Option<TlsPart>,
    /// The symbols from number 1 on.
    pub symbols: &'a [NamedSymbol<'a>],
    /// The relocations, in the order of their places.
    pub relocations: &'a [ImageRelocation],
    /// Whether the image uses static TLS.
    pub is_flagged: bool,
}
