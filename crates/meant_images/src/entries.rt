//! What a byte of code can belong to: a field that only the linker knows, or a sequence.

ghost use Rattle.std.specs.Prelude.{◌≡◌, ◌≢◌, ◌+◌, ◌+ℤ◌, ◌<◌, ◌≤◌, ◌^◌, IfSome, length, pos};
ghost use Rattle.std.specs.List.{All};
ghost use Rattle.elf_object.specs.Parts.{symbol_count};
ghost use Rattle.elf_records.specs.declared.relocation.RelocationKind.TheVariants.{Nothing};
ghost use Rattle.link_needs.specs.Plans.{IsUsable};
ghost use Rattle.meant_images.specs.Entries.{IsFieldEntry, IsNumberedEntry, IsSiteEntry, address_entry, begun};
ghost use Rattle.meant_images.specs.Entries.{mark_by, sequence_by};
ghost use Rattle.meant_images.specs.Targets.{HasFewObjects, IsNumbered};
ghost use Rattle.tls_relocs.specs.Values.{modulo};
ghost use Rattle.tls_symbols.specs.Bindings.{IsBindingWithin, object_at};
ghost use Rattle.whole_meaning.specs.Code.{offset_number};

use crate::targets::{Target, target_of};
use amd64_words::Register;
use elf_object::Relocation;
use elf_records::relocation_row::{FieldValue, TableEntry};
use link_faults::Binding;
use link_needs::Inputs;
use sequence_match::{Form, Site};
use whole_meaning::{Mark, Sequence};

/// A sequence, as far as it is known before there is an instance.
#[derive(Clone, Copy)]
pub struct SitePart {
    pub form: Form,
    /// Its length in bytes.
    pub len: u64,
    pub register: Register,
    pub target: Target,
}

/// What a byte of code belongs to.
#[derive(Clone, Copy)]
pub enum Entry {
    /// The program alone decides the byte.
    Usual,
    /// An offset field, with its number.
    Offset(u64),
    /// An address field: the address that its word holds in the image before it is moved, its addend, and whether the
    /// address moves with the image.
    Address(u64, i64, bool),
    /// A sequence.
    Sequence(SitePart),
}

impl SitePart {
    /// The sequence in an instance of an image, where it begins at `place`.
    fn sequence(self, image: u32, number: u32, place: u64) -> Sequence
        requires image { image ≤ 64 }
        requires numbered { IsNumbered self.target }
        requires fits { place + self.len < 2 ^ 64 }
        ensures { result ≡ begun image number place self }
    {
        let variable = self.target.variable(image, number);
        Sequence {
            form: self.form,
            next: place + self.len,
            register: self.register,
            instance: u64::from(number),
            symbol: variable.symbol,
            target: variable.target,
            offset: variable.offset,
        }
    }
}

impl Entry {
    /// The mark of byte number `byte` of this entry, in an instance that is moved by `bias`.
    pub fn mark(self, bias: u64, byte: u8) -> Mark
        ensures { result ≡ mark_by bias self byte }
    {
        match self {
            Entry::Usual => Mark::Usual,
            Entry::Offset(number) => Mark::Offset(number, byte),
            Entry::Address(number, addend, false) => Mark::Address(number, addend, byte),
            Entry::Address(number, addend, true) => {
                Mark::Address(number.wrapping_add(bias), addend, byte)
            }
            Entry::Sequence(_) => Mark::Inside,
        }
    }

    /// The sequence that begins at this byte, if `byte` is 0. `place` is the byte's address in the instance.
    pub fn sequence(self, image: u32, number: u32, place: u64, byte: u8) -> Option<Sequence>
        requires image { image ≤ 64 }
        requires numbered { IsNumberedEntry self }
        requires low { place < 2 ^ 63 }
        ensures { result ≡ sequence_by image number place self byte }
    {
        match self {
            Entry::Sequence(part) if byte == 0 => Some(part.sequence(image, number, place)),
            _ => None,
        }
    }
}

/// The sum of an offset and an addend, modulo 2^64.
fn sum(offset: u64, addend: i64) -> u64
    ensures { result ≡ modulo (2 ^ 64) (pos offset +ℤ addend) }
{
    let modulus = 1 << 64;
    (i128::from(offset) + i128::from(addend)).rem_euclid(modulus) as u64
}

/// The entry of an offset field, with the number that it holds.
fn offset_entry(inputs: &Inputs, relocation: &Relocation, bound: Option<Binding>) -> Entry
    requires { IfSome bound (IsBindingWithin inputs.now.objects) }
    ensures { result ≡ Entry.Offset (offset_number inputs.now 0 relocation.now bound) }
{
    match bound {
        Some(Binding::Here(found)) => {
            Entry::Offset(sum(inputs.offset(found), relocation.addend))
        }
        _ => Entry::Offset(0),
    }
}

/// The entry of an address field, with the address that it holds.
fn address_entry(inputs: &Inputs, relocation: &Relocation, bound: Option<Binding>) -> Entry
    requires { IfSome bound (IsBindingWithin inputs.now.objects) }
    ensures { result ≡ address_entry inputs.now relocation.now bound }
{
    match bound {
        Some(Binding::Here(found)) => {
            Entry::Address(inputs.address(found), relocation.addend, true)
        }
        _ => Entry::Address(0, relocation.addend, false),
    }
}

/// The entry of a relocation's field. The relocation's row says what the field holds and which GOT entry it reaches.
pub fn field_entry(inputs: &Inputs, number: usize, relocation: &Relocation) -> Entry
    requires object { number < length inputs.now.objects }
    requires symbol { relocation.now.kind ≢ Nothing
        → relocation.now.symbol < symbol_count (object_at inputs.now.objects number) }
    ensures entry { IsFieldEntry inputs.now number relocation.now result }
    ensures numbered { IsNumberedEntry result }
{
    let row = relocation.kind.row();
    match (row.value, row.entry) {
        (FieldValue::SegmentOffset, _) => {
            let bound = inputs.bindings.binding_of(number, relocation);
            offset_entry(inputs, relocation, bound)
        }
        (_, TableEntry::AddressWord) => {
            let bound = inputs.bindings.binding_of(number, relocation);
            address_entry(inputs, relocation, bound)
        }
        _ => Entry::Usual,
    }
}

/// The entry of a sequence.
pub fn site_entry(images: &[Inputs], inputs: &Inputs, number: usize, site: &Site) -> Entry
    requires few { length images.now ≤ 64 }
    requires small { All HasFewObjects images.now }
    requires own { HasFewObjects inputs.now }
    requires object { number < length inputs.now.objects }
    requires usable { IsUsable (object_at inputs.now.objects number) site.now }
    ensures entry { IsSiteEntry images.now inputs.now number site.now result }
    ensures numbered { IsNumberedEntry result }
{
    Entry::Sequence(SitePart {
        form: site.form,
        len: site.len,
        register: Register::numbered(site.reg),
        target: target_of(images, inputs, number, site),
    })
}
