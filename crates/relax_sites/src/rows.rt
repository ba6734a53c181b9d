//! The table of new bytes: which bytes replace a site, and which field they have.

ghost use Rattle.std.specs.Prelude.{◌≡◌, ◌+◌, ◌≤◌, if◌then◌else◌, nat_lt};
ghost use Rattle.relax_sites.specs.Rows.{new_field, tpoff, gottpoff, mov_bytes, add_bytes, rex_rm};

use crate::choices::Choice;
use elf_records::RelocationKind;
use sequence_forms::Form;

/// The field of new bytes, zero until it is written. It has four bytes and refers to the site's symbol.
#[derive(Clone, Copy, PartialEq, Eq, Debug)]
pub struct NewField {
    /// Its offset in the site.
    pub at: u64,
    /// The type of its value: `TpOff32` or `GotTpOff`.
    pub kind: RelocationKind,
    /// The addend.
    pub addend: i64,
}

/// The field of the bytes that replace a site of this form; `None` if they have none.
pub fn new_field(form: Form, choice: Choice) -> Option<NewField>
    ensures { result ≡ new_field form choice }
{
    match (form, choice) {
        (Form::Gd | Form::GdInd, Choice::GdLe) => Some(tpoff(12)),
        (Form::Gd | Form::GdInd, Choice::GdIe) => Some(gottpoff(12)),
        (Form::IeMov | Form::IeAdd, Choice::IeLe) => Some(tpoff(3)),
        (Form::DescLea, Choice::DescLe) => Some(tpoff(3)),
        (Form::DescLea, Choice::DescIe) => Some(gottpoff(3)),
        _ => None,
    }
}

/// A field with the symbol's offset from the thread pointer.
fn tpoff(at: u64) -> NewField
    ensures { Some result ≡ tpoff at }
{
    NewField {
        at,
        kind: RelocationKind::TpOff32,
        addend: 0,
    }
}

/// A field with the distance from its end to the GOT's word.
fn gottpoff(at: u64) -> NewField
    ensures { Some result ≡ gottpoff at }
{
    NewField {
        at,
        kind: RelocationKind::GotTpOff,
        addend: -4,
    }
}

/// mov $x@tpoff, %r
pub(crate) fn mov_bytes(reg: u8) -> [u8; 7]
    requires { reg ≤ 15 }
    ensures { result ≡ mov_bytes reg }
{
    [rex_rm(reg), 0xc7, 0xc0 + reg % 8, 0, 0, 0, 0]
}

/// lea x@tpoff(%r), %r; with %rsp or %r12 as its base lea would need one byte more, so for these add $x@tpoff, %r
pub(crate) fn add_bytes(reg: u8) -> [u8; 7]
    requires { reg ≤ 15 }
    ensures { result ≡ add_bytes reg }
{
    if reg % 8 == 4 {
        [rex_rm(reg), 0x81, 0xc4, 0, 0, 0, 0]
    } else {
        [rex_both(reg), 0x8d, 0x80 + 9 * (reg % 8), 0, 0, 0, 0]
    }
}

/// REX for a register in ModRM's rm.
fn rex_rm(reg: u8) -> u8
    ensures { result ≡ rex_rm reg }
{
    if reg < 8 { 0x48 } else { 0x49 }
}

/// REX for a register in both of ModRM's fields.
fn rex_both(reg: u8) -> u8
    ensures { result ≡ (if nat_lt reg 8 then 0x48 else 0x4d) }
{
    if reg < 8 { 0x48 } else { 0x4d }
}
