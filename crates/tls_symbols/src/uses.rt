//! A relocation, and where it stands.

use elf_object::Relocation;
use link_faults::Place;

/// A relocation of a section that linking keeps.
#[derive(Clone, Copy)]
pub struct Use {
    /// Its object, the section that holds it, and its number there.
    pub place: Place,
    /// The section that it applies to.
    pub section: u32,
    pub relocation: Relocation,
}
