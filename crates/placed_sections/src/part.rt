//! Sections at their places in an image's file.

/// A section of an object.
#[derive(Clone, Copy)]
pub struct SectionRef {
    /// The object's index in the list.
    pub object: usize,
    /// The section's number in the object.
    pub section: u32,
}

/// A place in the file: that of a section with bytes, or the end of a class that programs do not write.
#[derive(Clone, Copy)]
pub struct PlacedPart {
    /// The offset in the file, in bytes, at most 2^26.
    pub place: u64,
    /// The section that begins there; `None` where a class ends: up to there the file has zeros.
    pub section: Option<SectionRef>,
}
