//! Where the tables of an image lie in its bytes.

/// What kind of image a file is.
#[derive(Clone, Copy, PartialEq, Eq, Debug)]
pub enum FileKind {
    /// A program at fixed addresses.
    Exe,
    /// A program that may be loaded anywhere.
    Pie,
    /// A module that a program loads.
    Module,
}

/// Numbers of an image that are computed once.
#[derive(Clone, Copy)]
pub struct Places {
    /// What the image is.
    pub kind: FileKind,
    /// Whether the image uses static TLS: its code needs its TLS block at a fixed distance from the thread pointer.
    pub is_flagged: bool,
    /// The LOAD that only the loader writes, if there is one.
    pub got: Option<u64>,
    /// How many LOADs there are.
    pub loads: u64,
    /// Whether the image has a TLS segment.
    pub has_tls: bool,
    /// How many bytes the TLS segment has in memory; 0 if there is none.
    pub tls_size: u64,
    /// Where the names begin.
    pub strings: u64,
    /// How many bytes they take.
    pub strings_size: u64,
    /// The offset after the last zero byte of the names, or 0.
    pub names_end: u64,
    /// Where the symbols begin.
    pub symbols: u64,
    /// How many there are, number 0 included.
    pub symbol_count: u64,
    /// Where the relocations begin.
    pub relocations: u64,
    /// How many there are.
    pub relocation_count: u64,
}
