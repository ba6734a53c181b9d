//! One section, linked: the fields of its relocations, and the sequences in the place of rewritten ones.

ghost use Rattle.std.specs.Prelude.{◌≡◌, ◌<◌, ◌≤◌, ℕ, fold, length, slice_index_or, slice_range, unwrap_or};
ghost use Rattle.std.specs.List.{AllPairs, Contains};
ghost use Rattle.elf_object.specs.Lent.{relocations, section_size};
ghost use Rattle.relax_sites.specs.Rows.{new_field as new_field_of};
ghost use Rattle.sequence_forms.specs.declared.places.Site.{Site};
ghost use Rattle.sequence_match.specs.Faults.{Before};
ghost use Rattle.tls_layout.specs.Places.{address_of};
ghost use Rattle.tls_symbols.specs.Bindings.{object_at};
ghost use Rattle.link_needs.specs.Linking.{choice, layout, sites_at};
ghost use Rattle.link_core.specs.Bytes.{linked, sites_in, with_field, with_new_field, with_site};

use elf_object::{Relocation, RelocationKind};
use elf_records::relocation_row::FieldValue;
use link_needs::{Plan, new_relocation};
use placed_sections::SectionRef;
use relax_sites::{NewField, new_field, rewrite};
use sequence_match::Site;
use tls_relocs::apply;

/// A section of an object, and the address where it begins; 0 if it has none.
#[derive(Clone, Copy)]
struct PlacedSection {
    object: usize,
    section: u32,
    address: u64,
}

/// Fills the field of a relocation, if it has one that holds its value.
#[inline(always)]
fn fill_field(plan: &Plan, own: PlacedSection, relocation: &Relocation, bytes: &mut [u8])
    requires object { own.object < length plan.now.objects }
    requires own { Contains (relocations (object_at plan.now.objects own.object) own.section) relocation.now }
    requires address { own.address ≡ unwrap_or (address_of (layout plan.now) own.object own.section) 0 }
    requires whole { length bytes.old ≡ section_size (object_at plan.now.objects own.object) own.section }
    ensures written { bytes.new ≡ with_field plan.now own.object own.section bytes.old relocation.now }
    ensures filled { length bytes.new ≡ length bytes.old }
{
    if let RelocationKind::Nothing = relocation.kind {
        return;
    }
    plan.is_given();
    let symbol = plan.symbol_value(own.object, relocation.symbol);
    if plan.is_replaced(symbol, relocation.kind) {
        return;
    }
    let place = own.address + relocation.offset;
    if let Ok(field) = plan.field(own.object, place, relocation, symbol) {
        apply(field, bytes, relocation.offset as usize);
    }
}

/// Fills the field of a relocation. What depends on its type is decided here, once for each of the numbers that most
/// fields hold: `fill_field` is compiled for each of them.
#[inline(always)]
fn write_field(plan: &Plan, own: PlacedSection, relocation: &Relocation, bytes: &mut [u8])
    requires object { own.object < length plan.now.objects }
    requires own { Contains (relocations (object_at plan.now.objects own.object) own.section) relocation.now }
    requires address { own.address ≡ unwrap_or (address_of (layout plan.now) own.object own.section) 0 }
    requires whole { length bytes.old ≡ section_size (object_at plan.now.objects own.object) own.section }
    ensures written { bytes.new ≡ with_field plan.now own.object own.section bytes.old relocation.now }
    ensures filled { length bytes.new ≡ length bytes.old }
{
    match relocation.kind.row().value {
        FieldValue::Distance => fill_field(plan, own, relocation, bytes),
        FieldValue::ThreadOffset => fill_field(plan, own, relocation, bytes),
        FieldValue::Address => fill_field(plan, own, relocation, bytes),
        _ => fill_field(plan, own, relocation, bytes),
    }
}

/// Writes the fields of a section's relocations.
fn write_fields(plan: &Plan, own: PlacedSection, bytes: &mut [u8])
    requires object { own.object < length plan.now.objects }
    requires address { own.address ≡ unwrap_or (address_of (layout plan.now) own.object own.section) 0 }
    requires whole { length bytes.old ≡ section_size (object_at plan.now.objects own.object) own.section }
    ensures written { bytes.new ≡ fold (with_field plan.now own.object own.section) bytes.old
        (relocations (object_at plan.now.objects own.object) own.section) }
    ensures filled { length bytes.new ≡ length bytes.old }
{
    for relocation in plan.inputs.object(own.object).relocs(own.section) {
        write_field(plan, own, &relocation, bytes);
    }
}

/// Writes the field of a sequence in a site's place.
fn write_new_field(plan: &Plan, own: PlacedSection, site: &Site, field: &NewField, bytes: &mut [u8])
    requires object { own.object < length plan.now.objects }
    requires own { Contains (sites_at plan.now own.object) site.now }
    requires section { site.now.section ≡ own.section }
    requires field { new_field_of site.now.form (choice plan.now own.object site.now) ≡ Some field.now }
    requires address { own.address ≡ unwrap_or (address_of (layout plan.now) own.object own.section) 0 }
    requires whole { length bytes.old ≡ section_size (object_at plan.now.objects own.object) own.section }
    ensures written { bytes.new ≡ with_new_field plan.now own.object site.now (Some field.now) bytes.old }
    ensures filled { length bytes.new ≡ length bytes.old }
{
    plan.is_given();
    let relocation = new_relocation(site, field);
    let place = own.address + relocation.offset;
    let symbol = plan.symbol_value(own.object, relocation.symbol);
    // Distances inside an image fit.
    if let Ok(value) = plan.field(own.object, place, &relocation, symbol) {
        apply(value, bytes, relocation.offset as usize);
    }
}

/// Writes the sequence in the place of a site, which has this number.
fn write_sequence(plan: &Plan, own: PlacedSection, number: usize, site: &Site, bytes: &mut [u8])
    requires object { own.object < length plan.now.objects }
    requires number { number < length (sites_at plan.now own.object) }
    requires at { site.now ≡ slice_index_or (sites_at plan.now own.object) number site.now }
    requires section { site.now.section ≡ own.section }
    requires address { own.address ≡ unwrap_or (address_of (layout plan.now) own.object own.section) 0 }
    requires whole { length bytes.old ≡ section_size (object_at plan.now.objects own.object) own.section }
    ensures written { bytes.new ≡ with_site plan.now own.object bytes.old site.now }
    ensures filled { length bytes.new ≡ length bytes.old }
{
    plan.is_given();
    let choice = plan.choice(own.object, number);
    rewrite(bytes, site, choice);
    if let Some(field) = new_field(site.form, choice) {
        write_new_field(plan, own, site, &field, bytes);
    }
}

/// The sites of an object.
fn own_sites<'p>(plan: &'p Plan, object: usize) -> &'p [Site]
    ensures { result.now ≡ sites_at plan.now object }
{
    match plan.inputs.sites.get(object) {
        Some(own) => own.as_slice(),
        None => &[],
    }
}

/// Which sites of an object stand in a section: from the first number on and before the second. Sites are sorted by
/// section.
fn sites_of(sites: &[Site], section: u32) -> (usize, usize)
    requires { AllPairs Before sites.now }
    ensures range { (result.0 ≤ result.1) × (result.1 ≤ length sites.now) }
    ensures own { (k : ℕ) (d : Site) → result.0 ≤ k → k < result.1
        → (slice_index_or sites.now k d).section ≡ section }
    ensures sites { slice_range sites.now result.0 result.1 ≡ sites_in sites.now section }
{
    let first = sites.partition_point(|site| site.section < section);
    let end = sites.partition_point(|site| site.section <= section);
    (first, end)
}

/// Writes the sequences in the place of a section's sites.
fn write_sites(plan: &Plan, own: PlacedSection, bytes: &mut [u8])
    requires object { own.object < length plan.now.objects }
    requires address { own.address ≡ unwrap_or (address_of (layout plan.now) own.object own.section) 0 }
    requires whole { length bytes.old ≡ section_size (object_at plan.now.objects own.object) own.section }
    ensures written { bytes.new ≡ fold (with_site plan.now own.object) bytes.old
        (sites_in (sites_at plan.now own.object) own.section) }
    ensures filled { length bytes.new ≡ length bytes.old }
{
    plan.is_given();
    let sites = own_sites(plan, own.object);
    let (first, end) = sites_of(sites, own.section);
    for number in first..end {
        let site = &sites[number];
        write_sequence(plan, own, number, site, bytes);
    }
}

/// Links a section, which has these bytes: writes its fields, and then its sequences.
pub fn link_section(plan: &Plan, own: SectionRef, bytes: &mut [u8])
    requires object { own.object < length plan.now.objects }
    requires whole { length bytes.old ≡ section_size (object_at plan.now.objects own.object) own.section }
    ensures written { bytes.new ≡ linked plan.now own.object own.section bytes.old }
    ensures filled { length bytes.new ≡ length bytes.old }
{
    let inputs = &plan.inputs;
    let own = PlacedSection {
        object: own.object,
        section: own.section,
        address: inputs.section_address(own.object, own.section),
    };
    write_fields(plan, own, bytes);
    write_sites(plan, own, bytes);
}
