//! Finds where sections stand in the file, class by class.

ghost use Rattle.std.specs.Prelude.{◌≡◌, ◌+◌, ◌-◌, ◌<◌, ◌≤◌, ◌^◌, ◌++◌, OnOk, IfOk, length, unwrap_or};
ghost use Rattle.std.specs.List.{All};
ghost use Rattle.elf_object.specs.Object.{section_count};
ghost use Rattle.link_faults.specs.ImageKinds.{base_of};
ghost use Rattle.placed_sections.specs.Files.{end_mark, offset_of as file_offset, placed, placed_class, placed_from};
ghost use Rattle.placed_sections.specs.Files.{placed_object, placed_section};
ghost use Rattle.placed_sections.specs.Laws.{IsNear};
ghost use Rattle.tls_layout.specs.Places.{address_of, IsLawful};

use crate::part::{PlacedPart, SectionRef};
use elf_object::{Object, SectionClass};
use link_faults::ImageKind;
use std::alloc::{AllocError, Global};
use tls_layout::{PAGE, Placement, is_class};

/// The classes that have addresses, in address order.
const CODE: SectionClass = SectionClass::Executable;

const CONSTANTS: SectionClass = SectionClass::ReadOnly;

const INITIAL_TLS: SectionClass = SectionClass::Tls { initial: true };

const INITIAL_DATA: SectionClass = SectionClass::Writable { initial: true };

const ZERO_DATA: SectionClass = SectionClass::Writable { initial: false };

/// The offset in the file of an address; the first page is that of the headers.
pub fn offset_of(kind: ImageKind, address: u64) -> u64
    requires from_base { base_of kind ≤ address + 4096 }
    requires fits { address + 4096 < 2 ^ 64 }
    ensures { result ≡ address + 4096 - base_of kind }
{
    address + PAGE - kind.base()
}

/// The offset of a section in the file. Callers ask only for sections with an address; for others
/// it is that of address 0.
#[tactic(auto, using(tls_layout::proofs::Bounds::address_bounds))]
fn section_offset(placement: &Placement, number: usize, section: u32) -> u64
    ensures { result ≡ file_offset placement.now (unwrap_or (address_of placement.now number section) 0) }
{
    match placement.address(number, section) {
        Some(address) => offset_of(placement.kind(), address),
        None => PAGE.saturating_sub(placement.kind().base()),
    }
}

/// Appends a section of an object, if it is of the class and has bytes.
fn push_section(
    placement: &Placement,
    class: SectionClass,
    number: usize,
    object: &Object,
    section: u32,
    parts: &mut Vec<PlacedPart>,
) -> Result<(), AllocError>
    requires there { section < section_count object.now }
    ensures { OnOk result (parts.new.items
        ≡ parts.old.items ++ placed_section (λ part. part) placement.now class number object.now section) }
{
    let Some(part) = object.section(section) else {
        return Ok(());
    };
    if !is_class(class, part.class) || part.size == 0 {
        return Ok(());
    }
    parts.push(PlacedPart {
        place: section_offset(placement, number, section),
        section: Some(SectionRef {
            object: number,
            section,
        }),
    })?;
    Ok(())
}

/// Appends the sections of one object that are of the class.
#[tactic(auto, using(crate::proofs::Laid::sections_end), unfolding(crate::specs::Files::placed_object))]
fn push_object(
    placement: &Placement,
    class: SectionClass,
    number: usize,
    object: &Object,
    parts: &mut Vec<PlacedPart>,
) -> Result<(), AllocError>
    ensures { OnOk result (parts.new.items
        ≡ parts.old.items ++ placed_object (λ part. part) placement.now class number object.now) }
{
    for section in 0..object.section_count() {
        push_section(placement, class, number, object, section, parts)?;
    }
    Ok(())
}

/// Appends the sections of objects that are of the class.
fn push_objects(
    placement: &Placement,
    class: SectionClass,
    objects: &[Object],
    parts: &mut Vec<PlacedPart>,
) -> Result<(), AllocError>
    ensures { OnOk result (parts.new.items
        ≡ parts.old.items ++ placed_from (λ part. part) placement.now class 0 objects.now) }
{
    for (number, object) in objects.iter().enumerate() {
        push_object(placement, class, number, object, parts)?;
    }
    Ok(())
}

/// Appends the place where a class ends. Its last section may have no bytes, and its alignment moves the end; only a
/// section that programs write always has bytes.
fn push_end(
    placement: &Placement,
    class: SectionClass,
    parts: &mut Vec<PlacedPart>,
) -> Result<(), AllocError>
    ensures end { OnOk result (parts.new.items
        ≡ parts.old.items ++ end_mark (λ part. part) placement.now class) }
    ensures lawful { IsLawful placement.now }
{
    let extent = placement.extent(class);
    match class {
        SectionClass::Writable { .. } => Ok(()),
        _ if extent.start < extent.end => {
            parts.push(PlacedPart {
                place: offset_of(placement.kind(), extent.end),
                section: None,
            })?;
            Ok(())
        }
        _ => Ok(()),
    }
}

/// Appends a class.
fn push_class(
    placement: &Placement,
    class: SectionClass,
    objects: &[Object],
    parts: &mut Vec<PlacedPart>,
) -> Result<(), AllocError>
    ensures class { OnOk result (parts.new.items
        ≡ parts.old.items ++ placed_class (λ part. part) placement.now objects.now class) }
    ensures lawful { OnOk result (IsLawful placement.now) }
{
    push_objects(placement, class, objects, parts)?;
    push_end(placement, class, parts)
}

/// The sections that have an address and bytes, in the order of the file, each with its offset; and where classes end.
/// Fails only when memory runs out.
pub fn place_sections(
    alloc: Global,
    placement: &Placement,
    objects: &[Object],
) -> Result<Vec<PlacedPart>, AllocError>
    ensures parts { IfOk result (λ parts. parts.items ≡ placed (λ part. part) placement.now objects.now) }
    ensures near { IfOk result (λ parts. All (IsNear objects.now) parts.items) }
{
    let mut parts = Vec::new(alloc);
    push_class(placement, CODE, objects, &mut parts)?;
    push_class(placement, CONSTANTS, objects, &mut parts)?;
    push_class(placement, INITIAL_TLS, objects, &mut parts)?;
    push_class(placement, INITIAL_DATA, objects, &mut parts)?;
    push_class(placement, ZERO_DATA, objects, &mut parts)?;
    Ok(parts)
}
