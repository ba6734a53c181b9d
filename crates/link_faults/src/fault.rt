//! The faults of a link: their kinds, and where one stands.

ghost use Rattle.std.specs.Prelude.{◌≡◌, Some, codes};
ghost use Rattle.link_faults.specs.declared.fault.LinkFault.TheVariants.{OutOfMemory};
ghost use Rattle.link_faults.specs.FaultNames.{kind_name};

use std::alloc::AllocError;
use std::fmt;
use thiserror::Error;

/// What is wrong with a link. `Overflow` is checked last, the others in their order here. Section and entry are those
/// of the relocation; for `Duplicate`, those of the symbol.
#[derive(Clone, Copy, PartialEq, Eq, Debug)]
pub enum LinkFaultKind {
    /// A name that a relocation uses has no binding.
    Undefined,
    /// A name has a second GLOBAL definition, used or not, or an object defines `__tls_get_addr`, GLOBAL or WEAK.
    Duplicate,
    /// A TLS relocation names a symbol that is not thread-local, or another relocation names one that is. The
    /// definition that the name is bound to decides.
    NotTls,
    /// A value does not fit in its field.
    Overflow,
    /// A module has a TPOFF32: it cannot know its offset from the thread pointer.
    LocalExecInModule,
    /// A module, or a program that may be loaded anywhere, has an address in 32 bits (R_X86_64_32, R_X86_64_32S).
    NarrowInModule,
    /// The TLS segment has more than 2^20 bytes. The fault is at no object, with section and entry 0.
    TlsTooLarge,
    /// The input sections, data that programs write included, span more than 2^24 bytes; or there are more than 2^19
    /// relocations of sections that linking keeps; or the sum over the defined or imported names of 25 and the name's
    /// length exceeds 2^22. The fault is at no object, with section and entry 0.
    ImageTooLarge,
    /// An image with no thread-local storage of its own has a TLSLD, or a descriptor bound to itself; or such a
    /// module has a TLSGD or a GOTTPOFF bound to itself.
    NoTls,
}

impl LinkFaultKind {
    /// The kind's name, as it is printed.
    pub fn name(self) -> &'static str
        ensures { result.now ≡ kind_name self }
    {
        match self {
            LinkFaultKind::Undefined => "Undefined",
            LinkFaultKind::Duplicate => "Duplicate",
            LinkFaultKind::NotTls => "NotTls",
            LinkFaultKind::Overflow => "Overflow",
            LinkFaultKind::LocalExecInModule => "LocalExecInModule",
            LinkFaultKind::NarrowInModule => "NarrowInModule",
            LinkFaultKind::TlsTooLarge => "TlsTooLarge",
            LinkFaultKind::ImageTooLarge => "ImageTooLarge",
            LinkFaultKind::NoTls => "NoTls",
        }
    }
}

impl fmt::Display for LinkFaultKind {
    ghost output = { λ kind. Some (kind_name kind) };

    fn fmt<W: fmt::Write>(&self, f: &mut fmt::Formatter<W>) -> fmt::Result {
        f.write_str(self.name())
    }
}

/// Why objects do not link: memory ran out, or the first fault.
#[derive(Debug, Drop, Error)]
pub enum LinkFault {
    #[error("out of memory")]
    OutOfMemory,
    /// The object is its place in the list of objects, counted from 0; `None` for a fault of the image as a whole.
    #[error("{kind} at object {object:?} section {section} entry {entry}")]
    At {
        kind: LinkFaultKind,
        object: Option<u64>,
        section: u64,
        entry: u64,
    },
}

impl From<AllocError> for LinkFault {
    ghost from_gives = { λ _ fault. fault ≡ OutOfMemory };

    fn from(_error: AllocError) -> LinkFault {
        LinkFault::OutOfMemory
    }
}
