//! The value of each type of relocation.

ghost use Rattle.std.specs.Prelude.{◌≡◌, Some, IfOk};
ghost use Rattle.std.specs.Result.{result_ok};
ghost use Rattle.elf_object.specs.Relocations.{field_width};
ghost use Rattle.elf_records.specs.RelocationRows.{form_width};
ghost use Rattle.tls_relocs.specs.FieldLaws.{width_of};
ghost use Rattle.tls_relocs.specs.Values.{formed, held, signed_field, unsigned_field, wrapped_field, stored_field};

use crate::fields::Field;
use elf_object::RelocationKind;
use elf_records::relocation_row::{FieldForm, FieldValue};
use thiserror::Error;

/// The value of a relocation does not fit in its field.
#[derive(Clone, Copy, PartialEq, Eq, Debug, Error)]
#[error("the value does not fit its field")]
pub struct Overflow;

/// What a relocation stores: a field as wide as its type says, or `Overflow` exactly where the value does not fit.
///
/// In the psABI's letters `s` is S, the symbol's address; `a` is A, the addend; `p` is P, the address of the field;
/// and `g` is G, the address of the GOT entry that the type uses. For the two offsets in a TLS segment, `DtpOff32`
/// and `TpOff32`, `s` is the symbol's offset in its segment, and `g` the number that is subtracted: 0, or how far the
/// segment's block begins below the thread pointer. A letter that a type does not use changes nothing.
#[inline(always)]
pub fn value(kind: RelocationKind, s: u64, a: i64, p: u64, g: u64) -> Result<Field, Overflow>
    ensures stored { result_ok result ≡ stored_field kind s a p g }
    ensures width { IfOk result (λ field. width_of field ≡ field_width kind) }
{
    let row = kind.row();
    formed(row.form, held(row.value, s, a, p, g))
}

/// The number that a field holds.
#[inline(always)]
fn held(value: FieldValue, s: u64, a: i64, p: u64, g: u64) -> i128
    ensures { result ≡ held value s a p g }
{
    let (s, a, p, g) = (i128::from(s), i128::from(a), i128::from(p), i128::from(g));
    match value {
        FieldValue::NoValue => 0,
        FieldValue::Address => s + a,
        FieldValue::Distance => s + a - p,
        // G: a pair, module and offset; an offset from the thread pointer; or a symbol's address
        FieldValue::EntryDistance => g + a - p,
        // G: a descriptor
        FieldValue::DescriptorDistance => g + a - p,
        FieldValue::SegmentOffset | FieldValue::ThreadOffset => s + a - g,
    }
}

/// The number in a field of this form, if it fits.
#[inline(always)]
fn formed(form: FieldForm, value: i128) -> Result<Field, Overflow>
    ensures stored { result_ok result ≡ formed form value }
    ensures width { IfOk result (λ field. width_of field ≡ form_width form) }
{
    match form {
        FieldForm::NoField => Ok(Field::Empty),
        FieldForm::Signed32 => signed_field(value),
        FieldForm::Unsigned32 => unsigned_field(value),
        FieldForm::Wrapped64 => Ok(wrapped_field(value)),
    }
}

/// From -2^31 to 2^31 - 1.
#[inline(always)]
fn signed_field(value: i128) -> Result<Field, Overflow>
    ensures { result_ok result ≡ signed_field value }
{
    match i32::try_from(value) {
        Ok(fitting) => Ok(Field::Word32(fitting.cast_unsigned())),
        Err(_) => Err(Overflow),
    }
}

/// From 0 to 2^32 - 1.
#[inline(always)]
fn unsigned_field(value: i128) -> Result<Field, Overflow>
    ensures { result_ok result ≡ unsigned_field value }
{
    match u32::try_from(value) {
        Ok(fitting) => Ok(Field::Word32(fitting)),
        Err(_) => Err(Overflow),
    }
}

/// Any number, modulo 2^64.
#[inline(always)]
fn wrapped_field(value: i128) -> Field
    ensures { Some result ≡ wrapped_field value }
{
    let modulus = 1 << 64;
    Field::Word64(value.rem_euclid(modulus) as u64)
}
