//! Relocations that rise by offset, as compilers write them: the one whose field covers a byte is next
//! to those near the byte.

ghost use Rattle.std.specs.Prelude.{◌↔◌, ◌+◌, ◌<◌, ◌≤◌, ◌^◌, IsTrue, length};
ghost use Rattle.std.specs.List.{AllWithin};
ghost use Rattle.elf_object.specs.Faults.{IsFirstAt};
ghost use Rattle.sequence_match.specs.Code.{AreApart, AreBare, CoversIn, IsLastField, ReachesAt, Rise};
ghost use Rattle.sequence_match.specs.Sites.{Covers};
ghost use Rattle.sequence_match.specs.declared.index.Reach.TheVariants.{OfField};

use elf_object::{Relocation, Relocs};

/// The width of the widest field, in bytes.
const WIDEST: u64 = 8;

/// Whether each relocation stands above the one before it.
pub fn rise(relocations: &Relocs) -> bool
    ensures { IsTrue result ↔ Rise relocations.now }
{
    for index in 1..relocations.len() {
        if relocations.at(index).offset <= relocations.at(index - 1).offset {
            return false;
        }
    }
    true
}

/// A number from which on all relocations stand above a place: the first such number from `near` on.
#[inline(always)]
fn first_above(relocations: &Relocs, place: u64, near: u32) -> u32
    requires rise { Rise relocations.now }
    requires few { length relocations.now ≤ 2 ^ 20 }
    ensures end { result ≤ length relocations.now }
    ensures above { AllWithin (λ x. place < x.offset) relocations.now result (length relocations.now) }
{
    let count = relocations.len() as u32;
    for entry in near..count {
        if place < relocations.at(entry as u64).offset {
            return entry;
        }
    }
    count
}

/// Whether the field of a relocation covers a place.
#[inline(always)]
fn covers(relocation: &Relocation, place: u64) -> bool
    ensures { IsTrue result ↔ Covers relocation.now place }
{
    relocation.offset <= place && place - relocation.offset < relocation.kind.width()
}

/// Whether no field of a lower relocation reaches a place: this one stands below the place and has a field itself, or
/// stands far below.
#[inline(always)]
fn is_last_below(relocation: &Relocation, place: u64) -> bool
    ensures { IsTrue result ↔ IsLastField relocation.now place }
{
    relocation.offset < place
        && (relocation.kind.width() > 0 || WIDEST <= place - relocation.offset)
}

/// The relocation whose field covers a place. All from number `end` on stand above it. It reads only relocations from
/// `end` down to the first below the place that has a field, or that is at least [`WIDEST`] bytes below.
#[inline(always)]
fn field_below(relocations: &Relocs, place: u64, end: u32) -> Option<u32>
    requires rise { Rise relocations.now }
    requires apart { AreApart relocations.now }
    requires end { end ≤ length relocations.now }
    requires above { AllWithin (λ x. place < x.offset) relocations.now end (length relocations.now) }
    ensures { IsFirstAt (ReachesAt OfField relocations.now place) result }
{
    for step in 0..end {
        let entry = end - 1 - step;
        let relocation = relocations.at(entry as u64);
        if covers(&relocation, place) {
            return Some(entry);
        }
        if is_last_below(&relocation, place) {
            return None;
        }
    }
    None
}

/// The relocation whose field covers a place. The search begins near number `near`.
#[inline(always)]
pub fn field_near(relocations: &Relocs, place: u64, near: u32) -> Option<u32>
    requires rise { Rise relocations.now }
    requires apart { AreApart relocations.now }
    requires few { length relocations.now ≤ 2 ^ 20 }
    ensures { IsFirstAt (ReachesAt OfField relocations.now place) result }
{
    field_below(relocations, place, first_above(relocations, place, near))
}

/// Whether the field of a relocation covers a byte from `from` up to `to`.
#[inline(always)]
fn covers_any(relocation: &Relocation, from: u64, to: u64) -> bool
    requires { from < to }
    ensures { IsTrue result ↔ CoversIn relocation.now from to }
{
    if relocation.offset < from {
        return covers(relocation, from);
    }
    relocation.offset < to && covers(relocation, relocation.offset)
}

/// Whether no field covers a byte from `from` up to `to`. All relocations from number `end` on are at `to` or above.
#[inline(always)]
fn is_bare_below(relocations: &Relocs, from: u64, to: u64, end: u32) -> bool
    requires rise { Rise relocations.now }
    requires apart { AreApart relocations.now }
    requires some { from < to }
    requires end { end ≤ length relocations.now }
    requires above { AllWithin (λ x. to ≤ x.offset) relocations.now end (length relocations.now) }
    ensures { IsTrue result ↔ AreBare relocations.now from to }
{
    for step in 0..end {
        let relocation = relocations.at((end - 1 - step) as u64);
        if covers_any(&relocation, from, to) {
            return false;
        }
        if is_last_below(&relocation, from) {
            return true;
        }
    }
    true
}

/// Whether no field covers a byte from `from` up to `to`. The search begins near number `near`.
#[inline(always)]
pub fn is_bare_near(relocations: &Relocs, from: u64, to: u64, near: u32) -> bool
    requires rise { Rise relocations.now }
    requires apart { AreApart relocations.now }
    requires few { length relocations.now ≤ 2 ^ 20 }
    requires some { from < to }
    ensures { IsTrue result ↔ AreBare relocations.now from to }
{
    is_bare_below(
        relocations,
        from,
        to,
        first_above(relocations, to - 1, near),
    )
}
