//! The bytes of sections with their fields filled in, and the marks of the bytes that move.

ghost use Rattle.std.specs.Prelude.{◌≡◌, ◌+◌, ◌<◌, ◌≤◌, ◌^◌, IfOk, IfSome, length};
ghost use Rattle.elf_object.specs.Faults.{IsObject};
ghost use Rattle.elf_object.specs.Lawful.{IsLawful};
ghost use Rattle.elf_object.specs.Lent.{relocations, section_size};
ghost use Rattle.elf_object.specs.LentLaws.{IsSectionPart};
ghost use Rattle.elf_object.specs.Parts.{symbol_count};
ghost use Rattle.link_needs.specs.Linking.{binding as binding_in, object as object_in};
ghost use Rattle.memory_image.specs.Filling.{cell_in, filled_field, marks_of as marks_in};
ghost use Rattle.memory_image.specs.Filling.{moved_place as place_moved, own_bytes, own_field as field_of};
ghost use Rattle.memory_image.specs.Filling.{own_number, raw_bytes as raw_in};
ghost use Rattle.memory_image.specs.Filling.{own_subtracted, with_fields};
ghost use Rattle.memory_image.specs.Laying.{section_cells};
ghost use Rattle.tls_symbols.specs.Bindings.{IsBindingWithin};
ghost use Rattle.whole_meaning.specs.Spots.{bias_of};

use crate::laying::Cells;
use address_map::moved_bias;
use elf_object::{Relocation, RelocationKind, SectionClass, SectionPart};
use elf_records::relocation_row::{FieldForm, FieldValue};
use link_faults::{Binding, ImageKind};
use link_needs::Inputs;
use std::alloc::{AllocError, Global};
use tls_relocs::{Field, apply, value};

/// What a table holds for each byte.
#[derive(Clone, Copy, Drop)]
pub enum Table {
    /// The byte, before the image is moved.
    Bytes,
    /// The mark: 0 for a byte that stays, and k + 1 for byte k of an address that moves with the image.
    Marks,
}

/// The least distance that an image of this kind is moved.
pub fn least_bias(kind: ImageKind) -> u64
    ensures least { result ≡ bias_of kind 0 }
    ensures small { result ≤ 2 ^ 32 }
{
    match kind {
        ImageKind::Exe => 0,
        ImageKind::Pie | ImageKind::Start | ImageKind::Late => moved_bias(0),
    }
}

/// What a relocation's symbol is bound to.
fn binding(inputs: &Inputs, object: usize, relocation: &Relocation) -> Option<Binding>
    requires object { object < length inputs.now.objects }
    requires symbol { relocation.now.symbol < symbol_count (object_in inputs.now object) }
    ensures binding { result ≡ binding_in inputs.now object relocation.now }
    ensures within { IfSome result (IsBindingWithin inputs.now.objects) }
{
    inputs.bindings.binding_of(object, relocation)
}

/// S or O, before the image is moved.
fn symbol_number(inputs: &Inputs, kind: RelocationKind, bound: Option<Binding>) -> u64
    requires { IfSome bound (IsBindingWithin inputs.now.objects) }
    ensures { result ≡ own_number inputs.now kind bound }
{
    match bound {
        Some(Binding::Here(found)) if kind.is_offset() => inputs.offset(found),
        Some(Binding::Here(found)) => inputs.address(found),
        _ => 0,
    }
}

/// How far the place of a field is taken as moved (`specs/Filling`).
fn moved_place(kind: ImageKind, bound: Option<Binding>) -> u64
    ensures moved { result ≡ place_moved kind bound }
    ensures small { result ≤ 2 ^ 32 }
{
    match bound {
        Some(Binding::Here(_)) => 0,
        _ => least_bias(kind),
    }
}

/// What is subtracted from an offset.
fn subtracted(inputs: &Inputs, kind: RelocationKind) -> u64
    ensures { result ≡ own_subtracted inputs.now kind }
{
    match kind.row().value {
        FieldValue::ThreadOffset => inputs.block_offset,
        _ => 0,
    }
}

/// What the field of a relocation holds; zeros if it can't hold its value.
#[tactic(auto, unfolding(crate::specs::Filling::own_field))]
fn own_field(inputs: &Inputs, object: usize, section: u32, relocation: &Relocation) -> Field
    requires object { object < length inputs.now.objects }
    requires symbol { relocation.now.symbol < symbol_count (object_in inputs.now object) }
    requires near { relocation.now.offset ≤ 2 ^ 20 }
    ensures { result ≡ field_of inputs.now object section relocation.now }
{
    let kind = relocation.kind;
    let bound = binding(inputs, object, relocation);
    let symbol = symbol_number(inputs, kind, bound);
    let place = inputs.section_address(object, section) + relocation.offset;
    let moved = place + moved_place(inputs.kind, bound);
    match value(
        kind,
        symbol,
        relocation.addend,
        moved,
        subtracted(inputs, kind),
    ) {
        Ok(field) => field,
        Err(_) => Field::Word32(0),
    }
}

/// The marks of the bytes of a field.
fn marks_of(kind: RelocationKind, bound: Option<Binding>) -> Field
    ensures { result ≡ marks_in kind bound }
{
    match (kind.row().form, bound) {
        (FieldForm::Wrapped64, Some(Binding::Here(_))) => Field::Word64(0x0807060504030201),
        (FieldForm::Wrapped64, _) => Field::Word64(0),
        _ => Field::Word32(0),
    }
}

/// The bytes of a section in the file. Its marks have none there.
fn raw_bytes<'b>(table: Table, part: &SectionPart<'b>) -> &'b [u8]
    ensures { result.now ≡ raw_in table part.now.bytes.now }
{
    match table {
        Table::Bytes => part.bytes,
        Table::Marks => &[],
    }
}

/// The bytes or the marks of the sections of a class.
#[derive(Drop)]
pub struct Fields<'i, 'l, 's, 'a> {
    pub alloc: Global,
    pub inputs: &'i Inputs<'l, 's, 'a>,
    pub class: SectionClass,
    pub table: Table,
}

impl<'i, 'l, 's, 'a> Fields<'i, 'l, 's, 'a> {
    /// What a relocation writes in its field.
    fn field(&self, object: usize, section: u32, relocation: &Relocation) -> Field
        requires object { object < length self.now.inputs.now.objects }
        requires lawful { IsLawful (object_in self.now.inputs.now object) section relocation.now }
        requires near { relocation.now.offset ≤ 2 ^ 20 }
        ensures { result ≡ filled_field self.now.table self.now.inputs.now object section relocation.now }
    {
        if !relocation.kind.has_value() {
            return Field::Empty;
        }
        match self.table {
            Table::Bytes => own_field(self.inputs, object, section, relocation),
            Table::Marks => marks_of(relocation.kind, binding(self.inputs, object, relocation)),
        }
    }

    /// A section before its fields are filled in.
    fn own_bytes(
        &self,
        object: usize,
        section: u32,
        part: &SectionPart,
    ) -> Result<Vec<u8>, AllocError>
        requires part { IsSectionPart (object_in self.now.inputs.now object) section part.now }
        requires size { part.now.size ≤ 2 ^ 20 }
        requires filled { length part.now.bytes.now ≤ part.now.size }
        ensures { IfOk result (λ own. own.items
            ≡ own_bytes self.now.table (object_in self.now.inputs.now object) section) }
    {
        let mut own = Vec::from_slice(self.alloc, raw_bytes(self.table, part))?;
        own.resize(part.size as usize, 0)?;
        Ok(own)
    }

    /// Fills in the fields of a section.
    fn fill(&self, object: usize, section: u32, bytes: &mut [u8])
        requires object { object < length self.now.inputs.now.objects }
        requires len { length bytes.old ≡ section_size (object_in self.now.inputs.now object) section }
        requires small { length bytes.old ≤ 2 ^ 20 }
        ensures { bytes.new ≡ with_fields self.now.table self.now.inputs.now object section bytes.old
            (relocations (object_in self.now.inputs.now object) section) }
    {
        // Sections are laid one by one, those without relocations too.
        for relocation in self.inputs.object(object).relocs(section) {
            let field = self.field(object, section, &relocation);
            apply(field, bytes, relocation.offset as usize);
        }
    }

    /// A section with its fields filled in.
    fn filled(&self, object: usize, section: u32, part: &SectionPart) -> Result<Vec<u8>, AllocError>
        requires object { object < length self.now.inputs.now.objects }
        requires part { IsSectionPart (object_in self.now.inputs.now object) section part.now }
        requires size { part.now.size ≤ 2 ^ 20 }
        requires filled { length part.now.bytes.now ≤ part.now.size }
        requires is_object { IsObject (object_in self.now.inputs.now object) }
        ensures { IfOk result (λ own. own.items ≡ section_cells
            (cell_in self.now.table self.now.inputs.now) self.now.inputs.now object section) }
    {
        let mut own = self.own_bytes(object, section, part)?;
        self.fill(object, section, own.as_mut_slice());
        Ok(own)
    }
}

impl<'i, 'l, 's, 'a> Cells for Fields<'i, 'l, 's, 'a> {
    type Cell = u8;

    ghost linking = { λ f. f.inputs.now };

    ghost of_class = { λ f. f.class };

    ghost cell = { λ f. cell_in f.table f.inputs.now };

    ghost gap_cell = { λ f. 0 };

    fn gap(&self) -> u8 {
        0
    }

    fn push_section(
        &self,
        object: usize,
        section: u32,
        table: &mut Vec<u8>,
    ) -> Result<(), AllocError> {
        let Some(part) = self.inputs.object(object).section(section) else {
            return Ok(());
        };
        let own = self.filled(object, section, &part)?;
        table.extend_from_slice(own.as_slice())?;
        Ok(())
    }
}
