//! The sections of the file, linked by several threads, each in its own piece of the file. A piece has whole sections.

ghost use Rattle.std.specs.Prelude.{◌≡◌, ◌+◌, ◌<◌, ◌≤◌, ◌^◌, [], ◌∷◌, ◌++◌, All, OnOk, drop, length, take};
ghost use Rattle.elf_object.specs.Lent.{section_size};
ghost use Rattle.placed_sections.specs.Files.{bytes_in};
ghost use Rattle.placed_sections.specs.Laws.{IsNear, IsOwn};
ghost use Rattle.tls_relocs.specs.Laid.{zeros};
ghost use Rattle.tls_symbols.specs.Bindings.{object_at};
ghost use Rattle.link_core.specs.Bytes.{linked_section};
ghost use Rattle.link_core.specs.Laying.{laid_parts, AreParts, Rise};

use crate::sections::link_section;
use link_needs::Plan;
use placed_sections::{PlacedPart, SectionRef};
use std::thread::{Threads, join_mut};
use tls_layout::PAGE;

/// Parts that span this many bytes are worth a thread of their own.
const WORTH_A_THREAD: u64 = 1 << 17;

/// How many threads fill a file at most.
pub const THREADS: u64 = 8;

/// Fills a section, whose bytes are still zero, with those of its object, and links it.
fn fill_section(plan: &Plan, own: SectionRef, bytes: &mut [u8])
    requires own { IsOwn plan.now.objects own }
    requires zero { bytes.old ≡ zeros (section_size (object_at plan.now.objects own.object) own.section) }
    ensures { bytes.new ≡ linked_section plan.now own.object own.section }
{
    plan.is_given();
    let Some(part) = plan.inputs.object(own.object).section(own.section) else {
        return;
    };
    let (front, _) = bytes.split_at_mut(part.bytes.len());
    front.copy_from_slice(part.bytes);
    link_section(plan, own, bytes);
}

/// How many bytes a section has.
fn size_of(plan: &Plan, own: SectionRef) -> usize
    requires { IsOwn plan.now.objects own }
    ensures size { result ≡ length (linked_section plan.now own.object own.section) }
    ensures small { result ≤ 2 ^ 20 }
{
    plan.is_given();
    match plan.inputs.object(own.object).section(own.section) {
        Some(section) => section.size as usize,
        None => 0,
    }
}

/// The offset in the file where a part ends.
fn end_of(plan: &Plan, part: &PlacedPart) -> usize
    requires { IsNear plan.now.objects part.now }
    ensures end { result ≡ part.now.place + length (bytes_in (linked_section plan.now) part.now.section) }
    ensures near { result ≤ 2 ^ 27 }
{
    match part.section {
        Some(own) => part.place as usize + size_of(plan, own),
        None => part.place as usize,
    }
}

/// Where the zeros before the part of this number begin in the file: where the part before it ends.
pub fn start_of(plan: &Plan, parts: &[PlacedPart], number: usize) -> usize
    requires parts { AreParts plan.now parts.now }
    requires inside { number ≤ length parts.now }
    ensures start { result ≡ 4096 + length (laid_parts plan.now 4096 (take number parts.now)) }
    ensures near { (4096 ≤ result) × (result ≤ 2 ^ 27) }
{
    if number == 0 {
        return PAGE as usize;
    }
    end_of(plan, &parts[number - 1])
}

/// Fills one part. `bytes` are those of the file from offset `from` up to the part's end, still zero; the gap before
/// the part stays so.
fn fill_part(plan: &Plan, part: &PlacedPart, from: usize, bytes: &mut [u8])
    requires near { IsNear plan.now.objects part.now }
    requires rise { Rise plan.now from (part.now ∷ []) }
    requires zero { bytes.old ≡ zeros (length (laid_parts plan.now from (part.now ∷ []))) }
    ensures { bytes.new ≡ laid_parts plan.now from (part.now ∷ []) }
{
    plan.is_given();
    let (_, own) = bytes.split_at_mut(part.place as usize - from);
    if let Some(section) = part.section {
        fill_section(plan, section, own);
    }
}

/// How many bytes lie from the start of the first part to the start of the last: the last can't be cut, so its own don't
/// count.
fn span(parts: &[PlacedPart]) -> u64
    ensures { 0 < result → 2 ≤ length parts.now }
{
    if parts.len() < 2 {
        return 0;
    }
    parts[parts.len() - 1].place.saturating_sub(parts[0].place)
}

/// How many parts begin in the first of so many shares of the bytes; at least one, and not all.
fn count_of_front(parts: &[PlacedPart], shares: u64) -> usize
    requires some { 2 ≤ length parts.now }
    requires shares { 2 ≤ shares }
    ensures { (0 < result) × (result < length parts.now) }
{
    let middle = parts[0].place.saturating_add(span(parts) / shares);
    let count = parts.partition_point(|part| part.place <= middle);
    count.max(1).min(parts.len() - 1)
}

/// Parts that are cut in two, and where the second half begins in the file.
#[derive(Clone, Copy)]
struct Halves<'p> {
    front: &'p [PlacedPart],
    back: &'p [PlacedPart],
    middle: usize,
}

/// Cuts parts in two, by their bytes: the front is one of so many shares.
fn halves_of<'p>(plan: &Plan, parts: &'p [PlacedPart], from: usize, shares: u64) -> Halves<'p>
    requires near { All (IsNear plan.now.objects) parts.now }
    requires rise { Rise plan.now from parts.now }
    requires some { 2 ≤ length parts.now }
    requires shares { 2 ≤ shares }
    ensures near { All (IsNear plan.now.objects) result.front.now × All (IsNear plan.now.objects) result.back.now }
    ensures rise { Rise plan.now from result.front.now × Rise plan.now result.middle result.back.now }
    ensures ends { from + length (laid_parts plan.now from result.front.now) ≡ result.middle }
    ensures laid { laid_parts plan.now from parts.now
        ≡ laid_parts plan.now from result.front.now ++ laid_parts plan.now result.middle result.back.now }
    ensures fewer { (length result.front.now < length parts.now) × (length result.back.now < length parts.now) }
{
    let count = count_of_front(parts, shares);
    let (front, back) = parts.split_at(count);
    Halves {
        front,
        back,
        middle: end_of(plan, &front[count - 1]),
    }
}

/// Fills the bytes of some parts in one thread. Since parts are halved, calls are some thirty deep at most, however many
/// parts there are.
fn fill_each(plan: &Plan, parts: &[PlacedPart], from: usize, bytes: &mut [u8])
    requires near { All (IsNear plan.now.objects) parts.now }
    requires rise { Rise plan.now from parts.now }
    requires zero { bytes.old ≡ zeros (length (laid_parts plan.now from parts.now)) }
    ensures { bytes.new ≡ laid_parts plan.now from parts.now }
{
    let Some((part, more)) = parts.split_first() else {
        return;
    };
    if more.is_empty() {
        return fill_part(plan, part, from, bytes);
    }
    let halves = halves_of(plan, parts, from, 2);
    let (first, second) = bytes.split_at_mut(halves.middle - from);
    fill_each(plan, halves.front, from, first);
    fill_each(plan, halves.back, halves.middle, second);
}

/// Likewise, by as many threads as the parts are worth, at most `threads`. Only this thread starts others, so the host
/// need not be shared with them.
#[cycle(shares)]
pub fn fill<R: Threads>(
    rt: &R,
    plan: &Plan,
    parts: &[PlacedPart],
    from: usize,
    threads: u64,
    bytes: &mut [u8],
)
    requires near { All (IsNear plan.now.objects) parts.now }
    requires rise { Rise plan.now from parts.now }
    requires zero { bytes.old ≡ zeros (length (laid_parts plan.now from parts.now)) }
    ensures { bytes.new ≡ laid_parts plan.now from parts.now }
{
    let threads = threads.min(span(parts) / WORTH_A_THREAD);
    if threads < 2 {
        return fill_each(plan, parts, from, bytes);
    }
    let Halves {
        front,
        back,
        middle,
    } = halves_of(plan, parts, from, threads);
    let fewer = threads - 1;
    let (first, second) = bytes.split_at_mut(middle - from);
    let mut fill_front = || -> ()
        requires { All (IsNear plan.now.objects) front.now × Rise plan.now from front.now
            × (first.now ≡ zeros (length (laid_parts plan.now from front.now))) }
        ensures { first.exit.now ≡ laid_parts plan.entry.now from front.entry.now }
    { fill_each(plan, front, from, first) };
    let mut fill_back = || -> ()
        requires { All (IsNear plan.now.objects) back.now × Rise plan.now middle back.now
            × (second.now ≡ zeros (length (laid_parts plan.now middle back.now))) }
        ensures { second.exit.now ≡ laid_parts plan.entry.now middle back.entry.now }
    { fill(rt, plan, back, middle, fewer, second) };
    join_mut(rt, &mut fill_front, &mut fill_back);
}
