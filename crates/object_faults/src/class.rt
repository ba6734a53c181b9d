//! Which sections linking keeps, and what becomes of them.

ghost use Rattle.std.specs.Prelude.{◌≡◌};
ghost use Rattle.object_faults.specs.Classes.{class_row, class_of, kept_class};

use elf_records::SectionHeader;
use elf_records::section_header::{
    SHF_ALLOC, SHF_EXECINSTR, SHF_MERGE, SHF_STRINGS, SHF_TLS, SHF_WRITE, SHT_NOBITS, SHT_NOTE,
    SHT_PROGBITS, SHT_X86_64_UNWIND,
};

/// What a section that linking keeps becomes in an image.
#[derive(Clone, Copy, PartialEq, Eq, Debug)]
pub enum SectionClass {
    /// Code.
    Executable,
    /// Constants.
    ReadOnly,
    /// Thread-local storage: the initial image, or zeros that take no bytes of the file.
    Tls { initial: bool },
    /// Data that programs write: bytes of the file, or zeros that take none.
    Writable { initial: bool },
}

/// The flags that decide a class. SHF_ALLOC, which each class has, and SHF_MERGE and SHF_STRINGS, which each
/// may have, decide nothing.
pub const CLASS_FLAGS: u64 = !(SHF_ALLOC | SHF_MERGE | SHF_STRINGS);

/// The flags of thread-local storage, which programs write.
pub const SHF_TLS_WRITE: u64 = SHF_TLS | SHF_WRITE;

/// The class of these flags and this type.
#[inline]
fn class_row(flags: u64, kind: u32) -> Option<SectionClass>
    ensures { result ≡ class_row flags kind }
{
    match (flags, kind) {
        (SHF_EXECINSTR, SHT_PROGBITS) => Some(SectionClass::Executable),
        (0, SHT_PROGBITS | SHT_NOTE | SHT_X86_64_UNWIND) => Some(SectionClass::ReadOnly),
        (SHF_TLS | SHF_TLS_WRITE, SHT_PROGBITS) => Some(SectionClass::Tls { initial: true }),
        (SHF_TLS | SHF_TLS_WRITE, SHT_NOBITS) => Some(SectionClass::Tls { initial: false }),
        (SHF_WRITE, SHT_PROGBITS) => Some(SectionClass::Writable { initial: true }),
        (SHF_WRITE, SHT_NOBITS) => Some(SectionClass::Writable { initial: false }),
        _ => None,
    }
}

/// The class that the section's flags and type give it.
#[inline]
#[tactic(auto, unfolding(crate::specs::Classes::class_of))]
pub fn class_of(header: &SectionHeader) -> Option<SectionClass>
    ensures { result ≡ class_of header.now }
{
    if header.flags & SHF_ALLOC == 0 {
        return None;
    }
    class_row(header.flags & CLASS_FLAGS, header.kind)
}

/// The class that linking keeps the section in: a writable section of no bytes is dropped.
#[inline]
#[tactic(auto, unfolding(crate::specs::Classes::kept_class))]
pub fn kept_class(header: &SectionHeader) -> Option<SectionClass>
    ensures { result ≡ kept_class header.now }
{
    match class_of(header) {
        Some(SectionClass::Writable { .. }) if header.size == 0 => None,
        class => class,
    }
}
