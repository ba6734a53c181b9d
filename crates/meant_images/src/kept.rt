//! Lists an entry for each relocation and each sequence of an image's code, before the code is laid out.

ghost use Rattle.std.specs.Prelude.{◌≡◌, ◌<◌, ◌≤◌, ◌^◌, Some, IfOk, OnOk, length};
ghost use Rattle.std.specs.List.{All};
ghost use Rattle.elf_object.specs.Lawful.{IsLawful};
ghost use Rattle.elf_object.specs.Lent.{relocations as relocations_in_file, section_class};
ghost use Rattle.elf_object.specs.Object.{section_count};
ghost use Rattle.link_needs.specs.Linking.{object, sites_at};
ghost use Rattle.link_needs.specs.Plans.{IsUsable};
ghost use Rattle.meant_images.specs.Kept.{AreEntries, AreFields, AreSequences, Grows, KeepAll, Keeps, KeepsFields};
ghost use Rattle.object_faults.specs.declared.class.SectionClass.TheVariants.{Executable};
ghost use Rattle.sequence_match.specs.Faults.{AreSites};
ghost use Rattle.meant_images.specs.Targets.{HasFewObjects};

use crate::entries::{Entry, field_entry, site_entry};
use crate::names::is_code;
use elf_object::{Object, Relocation};
use link_needs::Inputs;
use sequence_match::Site;
use std::alloc::{AllocError, Global};

/// Where the entries of an object are in the list.
#[derive(Drop)]
pub struct KeptObject {
    /// For each section of code, the number of its first relocation's entry.
    pub fields: Vec<usize>,
    /// The number of its first sequence's entry.
    pub sites: usize,
}

/// The entries of an image's code.
#[derive(Drop)]
pub struct Kept {
    pub entries: Vec<Entry>,
    /// For each object, where its entries are.
    pub objects: Vec<KeptObject>,
}

/// The relocations of a section, in the order of the file.
pub fn relocations_of(
    alloc: Global,
    object: &Object,
    section: u32,
) -> Result<Vec<Relocation>, AllocError>
    ensures relocations { IfOk result (λ found. found.items ≡ relocations_in_file object.now section) }
    ensures lawful { All (IsLawful object.now section) (relocations_in_file object.now section) }
{
    object.relocs(section).collect(alloc)
}

/// Adds the entries of a section's relocations. Returns the number of the first.
fn push_fields(
    alloc: Global,
    inputs: &Inputs,
    number: usize,
    section: u32,
    entries: &mut Vec<Entry>,
) -> Result<usize, AllocError>
    requires object { number < length inputs.now.objects }
    requires entries { AreEntries entries.old.items }
    ensures fields { IfOk result (λ first. AreFields inputs.now number entries.new.items
        (relocations_in_file (object inputs.now number) section) first) }
    ensures grows { OnOk result (Grows entries.old.items entries.new.items) }
    ensures entries { OnOk result (AreEntries entries.new.items) }
{
    let first = entries.len();
    let relocations = relocations_of(alloc, inputs.object(number), section)?;
    for relocation in &relocations {
        entries.push(field_entry(inputs, number, relocation))?;
    }
    Ok(first)
}

/// Adds the entries of a section's relocations, if it is a section of code. Returns the number of the first, or 0.
fn push_section(
    alloc: Global,
    inputs: &Inputs,
    number: usize,
    section: u32,
    entries: &mut Vec<Entry>,
) -> Result<usize, AllocError>
    requires object { number < length inputs.now.objects }
    requires entries { AreEntries entries.old.items }
    ensures fields { IfOk result (λ first. section_class (object inputs.now number) section ≡ Some Executable
        → AreFields inputs.now number entries.new.items
        (relocations_in_file (object inputs.now number) section) first) }
    ensures grows { OnOk result (Grows entries.old.items entries.new.items) }
    ensures entries { OnOk result (AreEntries entries.new.items) }
{
    if !is_code(inputs.object(number), section) {
        return Ok(0);
    }
    let first = push_fields(alloc, inputs, number, section, entries)?;
    Ok(first)
}

/// Adds the entries of the relocations of an object's code. Returns, for each section, the number of the first.
fn push_sections(
    alloc: Global,
    inputs: &Inputs,
    number: usize,
    entries: &mut Vec<Entry>,
) -> Result<Vec<usize>, AllocError>
    requires object { number < length inputs.now.objects }
    requires entries { AreEntries entries.old.items }
    ensures all { IfOk result (λ firsts. length firsts.items ≡ section_count (object inputs.now number)) }
    ensures fields { IfOk result (λ firsts. KeepsFields inputs.now number entries.new.items firsts.items
        (section_count (object inputs.now number))) }
    ensures grows { OnOk result (Grows entries.old.items entries.new.items) }
    ensures entries { OnOk result (AreEntries entries.new.items) }
{
    let mut firsts = Vec::new(alloc);
    for section in 0..inputs.object(number).section_count() {
        let first = push_section(alloc, inputs, number, section, entries)?;
        firsts.push(first)?;
    }
    Ok(firsts)
}

/// Adds the entries of an object's sequences. Returns the number of the first.
fn push_sites(
    images: &[Inputs],
    inputs: &Inputs,
    number: usize,
    own: &[Site],
    entries: &mut Vec<Entry>,
) -> Result<usize, AllocError>
    requires few { length images.now ≤ 64 }
    requires small { All HasFewObjects images.now }
    requires own { HasFewObjects inputs.now }
    requires object { number < length inputs.now.objects }
    requires usable { All (IsUsable (object inputs.now number)) own.now }
    requires entries { AreEntries entries.old.items }
    ensures sites { IfOk result (AreSequences images.now inputs.now number entries.new.items own.now) }
    ensures grows { OnOk result (Grows entries.old.items entries.new.items) }
    ensures entries { OnOk result (AreEntries entries.new.items) }
{
    let first = entries.len();
    for site in own {
        entries.push(site_entry(images, inputs, number, site))?;
    }
    Ok(first)
}

/// Adds the entries of an object. Returns where they are.
fn push_object(
    alloc: Global,
    images: &[Inputs],
    inputs: &Inputs,
    number: usize,
    entries: &mut Vec<Entry>,
) -> Result<KeptObject, AllocError>
    requires few { length images.now ≤ 64 }
    requires small { All HasFewObjects images.now }
    requires own { HasFewObjects inputs.now }
    requires object { number < length inputs.now.objects }
    requires entries { AreEntries entries.old.items }
    ensures keeps { IfOk result (Keeps images.now inputs.now number entries.new.items) }
    ensures grows { OnOk result (Grows entries.old.items entries.new.items) }
    ensures entries { OnOk result (AreEntries entries.new.items) }
{
    let fields = push_sections(alloc, inputs, number, entries)?;
    let sites = push_sites(images, inputs, number, own_sites(inputs, number), entries)?;
    Ok(KeptObject { fields, sites })
}

/// The sequences of an object.
pub fn own_sites<'l>(inputs: &Inputs<'l, '_, '_>, number: usize) -> &'l [Site]
    requires { number < length inputs.now.objects }
    ensures sites { result.now ≡ sites_at inputs.now number }
    ensures usable { All (IsUsable (object inputs.now number)) result.now }
    ensures all { AreSites (object inputs.now number) (sites_at inputs.now number) }
{
    let sites = inputs.sites;
    sites[number].as_slice()
}

/// Lists the entries of an image's code. `images` are all images of the job: its sequences may use variables of others.
pub fn keep(alloc: Global, images: &[Inputs], inputs: &Inputs) -> Result<Kept, AllocError>
    requires few { length images.now ≤ 64 }
    requires small { All HasFewObjects images.now }
    requires own { HasFewObjects inputs.now }
    ensures keeps { IfOk result (λ kept. KeepAll images.now inputs.now kept.entries.items kept.objects.items
        (length inputs.now.objects)) }
    ensures entries { IfOk result (λ kept. AreEntries kept.entries.items) }
    ensures few { IfOk result (λ kept. length kept.entries.items ≤ 2 ^ 32) }
{
    let mut entries = Vec::new(alloc);
    entries.push(Entry::Usual)?;
    let mut objects = Vec::new(alloc);
    for number in 0..inputs.objects.len() {
        objects.push(push_object(alloc, images, inputs, number, &mut entries)?)?;
    }
    if entries.len() > u32::MAX as usize {
        return Err(AllocError);
    }
    Ok(Kept { entries, objects })
}
