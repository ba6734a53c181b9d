//! The faults of an image: their kinds, and where in the file one stands.

ghost use Rattle.std.specs.Prelude.{◌≡◌, Some, codes};
ghost use Rattle.image_rules.specs.declared.fault.ImageFault.TheVariants.{OutOfMemory};
ghost use Rattle.image_rules.specs.FaultNames.{kind_name};

use std::alloc::AllocError;
use std::fmt;
use thiserror::Error;

/// What is wrong with an image. [`crate::Rule`] lists the checks in their order.
#[derive(Clone, Copy, PartialEq, Eq, Debug)]
pub enum FaultKind {
    /// The file is too short for its header, its program headers or a segment; at the file's length.
    Truncated,
    /// A field of the file's header is not that of an image for x86-64; at the field.
    Header,
    /// A program header is not as a linker of static TLS writes it; at the header, or where a missing one would begin.
    Segment,
    /// An entry of the dynamic array, or a symbol, breaks its rule; at the entry, or at the symbol.
    Dynamic,
    /// A relocation is not one that a loader of such images knows; at the relocation.
    Relocation,
    /// A symbol or a relocation names a place outside the TLS segment; at the symbol, or at the relocation.
    TlsPlace,
}

impl FaultKind {
    /// The kind's name, as it is printed.
    pub fn name(self) -> &'static str
        ensures { result.now ≡ kind_name self }
    {
        match self {
            FaultKind::Truncated => "Truncated",
            FaultKind::Header => "Header",
            FaultKind::Segment => "Segment",
            FaultKind::Dynamic => "Dynamic",
            FaultKind::Relocation => "Relocation",
            FaultKind::TlsPlace => "TlsPlace",
        }
    }
}

impl fmt::Display for FaultKind {
    ghost output = { λ kind. Some (kind_name kind) };

    fn fmt<W: fmt::Write>(&self, f: &mut fmt::Formatter<W>) -> fmt::Result {
        f.write_str(self.name())
    }
}

/// Why an image is refused: memory ran out, or the first fault.
#[derive(Debug, Drop, Error)]
pub enum ImageFault {
    #[error("out of memory")]
    OutOfMemory,
    /// The fault, at an offset in the file.
    #[error("image {offset} {kind}")]
    At { offset: u64, kind: FaultKind },
}

impl From<AllocError> for ImageFault {
    ghost from_gives = { λ _ fault. fault ≡ OutOfMemory };

    fn from(_error: AllocError) -> ImageFault {
        ImageFault::OutOfMemory
    }
}
