//! One walk over the relocations, each read once. Most objects have no relocation at fault, and fields that rise, as
//! compilers write them: then this walk is the only check of relocations.

ghost use Rattle.std.specs.Prelude.{◌≤◌, ℕ};
ghost use Rattle.object_faults.specs.Parts.{IsSection, section as section_header};
ghost use Rattle.object_faults.specs.Relocations.{IsReloc};
ghost use Rattle.object_faults.specs.Walks.{Tells, IsMarkedBy, AreMarkedBy};

use crate::reloc_tests::{faultless_field, reloc_table};
use crate::tables::Tables;

/// The result of one walk over the relocations of a section.
#[derive(Clone, Copy)]
pub enum Walk {
    /// A relocation is at fault by itself: its symbol, its type or the range of its field.
    Faulty,
    /// None is at fault, and a field begins before the end of the one before it.
    Scattered,
    /// None is at fault, and each field begins no earlier than the end of the one before it, so no two share a byte.
    Rising,
}

/// Walks over the relocations that a section holds. If it holds none of a kept section, the result is `Rising`.
pub fn walk_over(tables: &Tables, section: u64) -> Walk
    requires { IsSection tables.now.bytes.now section }
    ensures { Tells tables.now.bytes.now section result }
{
    let Some(relocs) = reloc_table(tables, section) else {
        return Walk::Rising;
    };
    let mut end = 0;
    let mut rises = true;
    for entry in 0..relocs.count {
        let Some(field) = faultless_field(tables, section, &relocs, entry) else {
            return Walk::Faulty;
        };
        rises &= end <= field.start;
        end = field.end;
    }
    if rises { Walk::Rising } else { Walk::Scattered }
}

/// How many bytes the target of a section of relocations has; 0 if linking does not keep it.
fn target_size(tables: &Tables, section: u64) -> u64
    requires { IsSection tables.now.bytes.now section }
    ensures { (e : ℕ) → IsReloc tables.now.bytes.now section e
        → (section_header tables.now.bytes.now (section_header tables.now.bytes.now section).info).size ≤ result }
{
    match reloc_table(tables, section) {
        Some(relocs) => relocs.target_size,
        None => 0,
    }
}

/// How many marks it takes to find overlapping fields in a section's target; 0 if the fields rise. `None` if a
/// relocation is at fault by itself.
fn bytes_to_mark(tables: &Tables, section: u64) -> Option<u64>
    requires { IsSection tables.now.bytes.now section }
    ensures { IsMarkedBy tables.now.bytes.now section result }
{
    match walk_over(tables, section) {
        Walk::Faulty => None,
        Walk::Scattered => Some(target_size(tables, section)),
        Walk::Rising => Some(0),
    }
}

/// How many marks it takes to find overlapping fields in any target; 0 if the fields rise in each. `None` if a
/// relocation is at fault by itself.
pub fn most_to_mark(tables: &Tables) -> Option<u64>
    ensures { AreMarkedBy tables.now.bytes.now result }
{
    let mut most = 0;
    for section in 1..tables.count {
        most = bytes_to_mark(tables, section)?.max(most);
    }
    Some(most)
}
