//! What the page of headers says of an image.

use image_file::{FileKind, PartClass, TlsPart};

/// Where a part of an image lies.
#[derive(Clone, Copy, PartialEq, Eq, Debug)]
pub struct PartPlace {
    /// What may be done with it.
    pub class: PartClass,
    /// The address of its first byte, a multiple of 4,096.
    pub address: u64,
    /// How many bytes it has.
    pub size: u64,
}

/// An image as its headers describe it.
#[derive(Clone, Copy)]
pub struct Outline<'a> {
    pub kind: FileKind,
    /// The parts, in the order of their addresses; the last holds the dynamic tables.
    pub parts: &'a [PartPlace],
    /// How many bytes the dynamic array has.
    pub array_size: u64,
    /// The number of the part that only the loader writes, if there is one.
    pub got: Option<u64>,
    pub tls: Option<TlsPart>,
}
