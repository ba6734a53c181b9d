//! What may be wrong with a relocation of an image.

ghost use Rattle.std.specs.Prelude.{◌≡◌, ◌<◌, ◌≤◌, ◌↔◌, ℕ, IsTrue};
ghost use Rattle.elf_records.specs.Records.{rela_symbol, rela_kind};
ghost use Rattle.image_faults.specs.Relocations.{rela as rela_entry, MayName, NamesRight, HoldsField, IsBehindLast};
ghost use Rattle.image_faults.specs.Relocations.{IsRightRelocation, IsOutsideTls, LacksOwnTls, IsOwnOutside};

use crate::loader_kind::{LoaderKind, field_width};
use crate::symbol_tests::{is_import, is_runtime};
use crate::tables::Tables;
use elf_records::Rela;

/// Whether a relocation of a type may name a symbol.
fn may_name(tables: &Tables, kind: Option<LoaderKind>, symbol: u64) -> bool
    requires { symbol < tables.now.places.symbol_count }
    ensures { IsTrue result ↔ MayName tables.now.bytes.now kind symbol }
{
    match kind {
        None => false,
        Some(kind) => match kind {
            LoaderKind::JumpSlot => is_runtime(tables, symbol),
            LoaderKind::Relative => symbol == 0,
            LoaderKind::ModuleOffset => is_import(tables, symbol),
            LoaderKind::Module | LoaderKind::ThreadOffset | LoaderKind::Descriptor => {
                symbol == 0 || is_import(tables, symbol)
            }
        },
    }
}

/// Whether a loader knows the type of a relocation, and the relocation may name its symbol.
fn names_right(tables: &Tables, rela: &Rela) -> bool
    ensures { IsTrue result ↔ NamesRight tables.now.bytes.now rela.now }
{
    let symbol = u64::from(rela.symbol());
    symbol < tables.places.symbol_count
        && may_name(tables, LoaderKind::numbered(rela.kind()), symbol)
}

/// Whether a LOAD, which is not the last, holds the bytes that a relocation writes.
fn holds_field(tables: &Tables, rela: &Rela, number: u64) -> bool
    requires { number < tables.now.places.loads }
    ensures { IsTrue result ↔ HoldsField tables.now.bytes.now rela.now number }
{
    let load = tables.load(number);
    let width = field_width(rela.kind());
    number + 1 < tables.places.loads
        && load.vaddr <= rela.offset
        && u128::from(rela.offset) + u128::from(width)
            <= u128::from(load.vaddr) + u128::from(load.memsz)
}

/// Whether some LOAD, which is not the last, holds them. There are at most ten.
fn is_in_load(tables: &Tables, rela: &Rela) -> bool
    ensures { IsTrue result ↔ ((i : ℕ) × HoldsField tables.now.bytes.now rela.now i) }
{
    for number in 0..tables.places.loads {
        if holds_field(tables, rela, number) {
            return true;
        }
    }
    false
}

/// Whether a relocation's place is after the field of the one before it.
fn is_behind_last(tables: &Tables, number: u64) -> bool
    requires { number < tables.now.places.relocation_count }
    ensures { IsTrue result ↔ IsBehindLast tables.now.bytes.now number }
{
    if number == 0 {
        return true;
    }
    let last = tables.relocation(number - 1);
    let end = u128::from(last.offset) + u128::from(field_width(last.kind()));
    end <= u128::from(tables.relocation(number).offset)
}

/// Whether a relocation's type is known to a loader, its symbol is allowed, and it comes after the one before it.
pub fn is_right_relocation(tables: &Tables, number: u64) -> bool
    requires { number < tables.now.places.relocation_count }
    ensures { IsTrue result ↔ IsRightRelocation tables.now.bytes.now number }
{
    let rela = tables.relocation(number);
    names_right(tables, &rela) && is_in_load(tables, &rela) && is_behind_last(tables, number)
}

/// Whether an addend is an offset outside the image's own TLS segment.
fn is_outside_tls(tables: &Tables, addend: i64) -> bool
    ensures { IsTrue result ↔ IsOutsideTls tables.now.bytes.now addend }
{
    addend < 0 || (tables.places.tls_size as i64) < addend
}

/// Whether a type needs a TLS segment and this image has none, or needs an addend inside the segment and has another.
fn lacks_own_tls(tables: &Tables, kind: Option<LoaderKind>, addend: i64) -> bool
    ensures { IsTrue result ↔ LacksOwnTls tables.now.bytes.now kind addend }
{
    match kind {
        Some(LoaderKind::Module) => !tables.places.has_tls,
        Some(LoaderKind::ThreadOffset | LoaderKind::Descriptor) => {
            !tables.places.has_tls || is_outside_tls(tables, addend)
        }
        _ => false,
    }
}

/// Whether a relocation refers to a place of the image's own TLS segment that does not exist.
pub fn is_own_outside(tables: &Tables, number: u64) -> bool
    requires { number < tables.now.places.relocation_count }
    ensures { IsTrue result ↔ IsOwnOutside tables.now.bytes.now number }
{
    let rela = tables.relocation(number);
    rela.symbol() == 0 && lacks_own_tls(tables, LoaderKind::numbered(rela.kind()), rela.addend)
}
