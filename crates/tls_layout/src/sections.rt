//! A section, as a layout uses it.

ghost use Rattle.std.specs.Prelude.{◌≡◌};
ghost use Rattle.tls_layout.specs.Sections.{seen_as, is_class, is_in};
ghost use Rattle.elf_object.specs.Lent.{is_tls_class};

use elf_object::{SectionClass, SectionPart};

/// Thread-local sections with bytes in the file, and those without.
pub const INITIAL_TLS: SectionClass = SectionClass::Tls { initial: true };

pub const ZERO_TLS: SectionClass = SectionClass::Tls { initial: false };

/// Data with bytes in the file, and data without.
pub const INITIAL_DATA: SectionClass = SectionClass::Writable { initial: true };

pub const ZERO_DATA: SectionClass = SectionClass::Writable { initial: false };

/// A section as a layout uses it. A section that linking drops has no class, and takes no room.
#[derive(Clone, Copy)]
pub struct Section {
    pub class: Option<SectionClass>,
    /// How many bytes it has in memory.
    pub size: u64,
    /// Its place is a multiple of this.
    pub alignment: u64,
}

/// Whether a section that linking keeps in `kept` has this class.
pub fn is_class(class: SectionClass, kept: Option<SectionClass>) -> bool
    ensures { result ≡ is_class class kept }
{
    match (class, kept) {
        (SectionClass::Executable, Some(SectionClass::Executable)) => true,
        (SectionClass::ReadOnly, Some(SectionClass::ReadOnly)) => true,
        (SectionClass::Tls { initial }, Some(SectionClass::Tls { initial: other })) => initial
            == other,
        (SectionClass::Writable { initial }, Some(SectionClass::Writable { initial: other })) =>
            initial == other,
        _ => false,
    }
}

impl Section {
    const DROPPED: Section = Section {
        class: None,
        size: 0,
        alignment: 1,
    };

    /// The section for one that an object lends.
    pub fn seen(part: &SectionPart) -> Section
        ensures { result ≡ seen_as part.now.class part.now.size part.now.alignment }
    {
        match part.class {
            Some(class) => Section {
                class: Some(class),
                size: part.size,
                alignment: part.alignment,
            },
            None => Section::DROPPED,
        }
    }

    /// Whether the section has this class.
    pub fn is_in(&self, class: SectionClass) -> bool
        ensures { result ≡ is_in class self.now }
    {
        is_class(class, self.class)
    }

    /// Whether the section is thread-local.
    pub fn is_tls(&self) -> bool
        ensures { result ≡ is_tls_class self.now.class }
    {
        matches!(self.class, Some(SectionClass::Tls { .. }))
    }
}
