//! The parts of an image that are loaded, and its TLS segment.

ghost use Rattle.std.specs.Prelude.{◌≡◌};
ghost use Rattle.image_file.specs.Spelled.{class_numbered, is_writable};

use elf_records::program_header::{PF_R, PF_X};

/// What may be done with a part.
#[derive(Clone, Copy, PartialEq, Eq, Debug)]
pub enum PartClass {
    /// It is executed.
    Executable,
    /// It is read.
    ReadOnly,
    /// It is read and written.
    Writable,
}

impl PartClass {
    /// Whether programs may write the part.
    pub fn is_writable(self) -> bool
        ensures { result ≡ is_writable self }
    {
        matches!(self, PartClass::Writable)
    }
}

/// A part of an image, as it is loaded.
#[derive(Clone, Copy, Debug)]
pub struct ImagePart<'a> {
    pub class: PartClass,
    /// Its address, before a loader moves the image.
    pub address: u64,
    pub bytes: &'a [u8],
}

/// The TLS segment, from which each thread's block of the image is made.
#[derive(Clone, Copy, PartialEq, Eq, Debug)]
pub struct TlsPart {
    /// The address of the initial image.
    pub address: u64,
    /// How many bytes the initial image has; the rest of the block begins as zeros.
    pub initial: u64,
    /// How many bytes the block has.
    pub size: u64,
    /// What the block's address is a multiple of.
    pub alignment: u64,
}

/// What the flags of a LOAD allow.
pub fn class_numbered(flags: u32) -> PartClass
    ensures { result ≡ class_numbered flags }
{
    match flags {
        PF_X => PartClass::Executable,
        PF_R => PartClass::ReadOnly,
        _ => PartClass::Writable,
    }
}
