//! One load of an image.

/// One load of an image.
#[derive(Clone, Copy, PartialEq, Eq, Debug)]
pub struct Instance {
    /// The number of the image, counted from 1.
    pub image: u32,
    /// The number of the load: for an image that starts with the program, that of the image; no
    /// two loads have the same.
    pub number: u32,
    /// The module id by which code names its blocks.
    pub id: u64,
    /// How far below the thread pointer each thread's block begins, if that is fixed: for an image that starts with
    /// the program, and for a late one whose blocks are in the static surplus.
    pub offset: Option<u64>,
}
