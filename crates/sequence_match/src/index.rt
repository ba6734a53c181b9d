//! The relocations of a section by their places, to find the one whose field covers a byte, or the first call through
//! a descriptor at a byte.

ghost use Rattle.std.specs.Prelude.{◌≡◌, ◌↔◌, ◌+◌, ◌<◌, ◌≤◌, ◌^◌, IfOk, IsTrue, length};
ghost use Rattle.std.specs.List.{AllWithin};
ghost use Rattle.std.specs.List.Sorted.{IsNonDecreasingBy, IsPermutation};
ghost use Rattle.sequence_match.specs.Code.{AreSpans, IsFirstFrom, IsIndex, IsLastBelow, IsRising, IsSplit, order_of, reach_width};

use elf_object::{RelocationKind, Relocs};
use elf_records::relocation_row::{FieldForm, SequencePart};
use std::alloc::{AllocError, Global};

/// One more than the greatest number of a relocation.
const ENTRY_LIMIT: u128 = 1 << 20;

/// The bytes that a relocation reaches, at least one.
#[derive(Clone, Copy)]
pub struct Span {
    /// The first of them.
    pub offset: u64,
    /// How many bytes it reaches.
    pub width: u32,
    /// The relocation's number.
    pub entry: u32,
}

/// Which bytes a relocation reaches.
#[derive(Clone, Copy)]
pub enum Reach {
    /// The bytes of its field.
    OfField,
    /// For a call through a descriptor, which has no field, the byte at which it stands.
    OfCall,
}

impl Reach {
    /// How many bytes a relocation of this type reaches.
    fn width(self, kind: RelocationKind) -> u64
        ensures width { result ≡ reach_width self kind }
        ensures small { result ≤ 8 }
    {
        match self {
            Reach::OfField => kind.width(),
            Reach::OfCall => {
                let row = kind.row();
                match (row.part, row.form) {
                    (SequencePart::First, FieldForm::NoField) => 1,
                    _ => 0,
                }
            }
        }
    }
}

impl Span {
    /// A number that orders spans by offset, and those at one offset by entry.
    fn order(&self) -> u128
        ensures { result ≡ order_of self.now }
    {
        u128::from(self.offset) * ENTRY_LIMIT + u128::from(self.entry)
    }
}

/// The spans of the relocations that reach a byte, in the order of the file.
fn spans_of(alloc: Global, reach: Reach, relocations: &Relocs) -> Result<Vec<Span>, AllocError>
    requires few { length relocations.now ≤ 2 ^ 20 }
    ensures { IfOk result (λ spans. AreSpans reach relocations.now (length relocations.now) spans.items) }
{
    let mut spans = Vec::new(alloc);
    for entry in 0..relocations.len() {
        let relocation = relocations.at(entry);
        let width = reach.width(relocation.kind) as u32;
        if width > 0 {
            spans.push(Span {
                offset: relocation.offset,
                width,
                entry: entry as u32,
            })?;
        }
    }
    Ok(spans)
}

/// Whether spans rise.
fn are_rising(spans: &[Span]) -> bool
    ensures { IsTrue result ↔ IsNonDecreasingBy order_of spans.now }
{
    for index in 1..spans.len() {
        if spans[index].order() < spans[index - 1].order() {
            return false;
        }
    }
    true
}

/// Spans, sorted. Those of a compiler's relocations are sorted already.
fn rising(mut spans: Vec<Span>) -> Result<Vec<Span>, AllocError>
    ensures permutation { IfOk result (λ sorted. IsPermutation spans.items sorted.items) }
    ensures rising { IfOk result (λ sorted. IsNonDecreasingBy order_of sorted.items) }
{
    if are_rising(&spans) {
        return Ok(spans);
    }
    spans.sort_by_key(|span| span.order())?;
    Ok(spans)
}

/// The spans of the relocations that reach a byte, sorted.
pub fn index(alloc: Global, reach: Reach, relocations: &Relocs) -> Result<Vec<Span>, AllocError>
    requires few { length relocations.now ≤ 2 ^ 20 }
    ensures { IfOk result (λ spans. IsIndex reach relocations.now spans.items) }
{
    let spans = spans_of(alloc, reach, relocations)?;
    let sorted = rising(spans)?;
    Ok(sorted)
}

/// Whether the first `count` spans begin below a limit.
fn are_below(spans: &[Span], limit: u64, count: usize) -> bool
    requires rising { IsRising spans.now }
    requires count { count ≤ length spans.now }
    ensures { IsTrue result ↔ AllWithin (λ span. span.offset < limit) spans.now 0 count }
{
    count == 0 || spans[count - 1].offset < limit
}

/// Whether the others begin at the limit or above.
fn are_above(spans: &[Span], limit: u64, count: usize) -> bool
    requires rising { IsRising spans.now }
    requires count { count ≤ length spans.now }
    ensures { IsTrue result ↔ AllWithin (λ span. limit ≤ span.offset) spans.now count (length spans.now) }
{
    count == spans.len() || limit <= spans[count].offset
}

/// Whether exactly the first `count` spans begin below a limit.
fn is_split(spans: &[Span], limit: u64, count: usize) -> bool
    requires rising { IsRising spans.now }
    ensures { IsTrue result ↔ IsSplit spans.now limit count }
{
    count <= spans.len() && are_below(spans, limit, count) && are_above(spans, limit, count)
}

/// How many spans begin below a limit. It tries `guess` and the next number before it searches.
pub fn count_below(spans: &[Span], limit: u64, guess: usize) -> usize
    requires rising { IsRising spans.now }
    ensures { IsSplit spans.now limit result }
{
    if is_split(spans, limit, guess) {
        return guess;
    }
    let next = guess.saturating_add(1);
    if is_split(spans, limit, next) {
        return next;
    }
    spans.partition_point(|span| span.offset < limit)
}

/// The last span that begins below a limit. `guess` is a guess of how many spans do.
pub fn last_below(spans: &[Span], limit: u64, guess: usize) -> Option<Span>
    requires rising { IsRising spans.now }
    ensures { IsLastBelow spans.now limit result }
{
    let count = count_below(spans, limit, guess);
    if count == 0 {
        return None;
    }
    Some(spans[count - 1])
}

/// The first span that begins at or above a limit.
pub fn first_from(spans: &[Span], limit: u64) -> Option<Span>
    requires rising { IsRising spans.now }
    ensures { IsFirstFrom spans.now limit result }
{
    let count = count_below(spans, limit, 0);
    if count == spans.len() {
        return None;
    }
    Some(spans[count])
}
