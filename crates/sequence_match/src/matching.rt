//! Matches one relocation, and the bytes around it, with the table.

ghost use Rattle.std.specs.Prelude.{◌≡◌, ◌↔◌, ◌+◌, ◌<◌, ◌≤◌, ◌^◌, ℕ, IsTrue, IfSome, MatchOption, length, Some};
ghost use Rattle.sequence_match.specs.Code.{AreBare, AreBytes, HasNoSiteOf, HasSite, IsAt, IsEarliest, IsFound, IsIndex};
ghost use Rattle.sequence_match.specs.Code.{IsNoFirst, IsOpened, IsReady, IsSecondIn, Names, ReachesAt, behind_at, behind_end};
ghost use Rattle.elf_object.specs.Faults.{IsFirstAt};
ghost use Rattle.sequence_match.specs.declared.index.Reach.TheVariants.{OfField, OfCall};
ghost use Rattle.sequence_forms.specs.declared.forms.Form.{Form};
ghost use Rattle.sequence_forms.specs.Forms.{IsCallKind, IsRow, register, row};
ghost use Rattle.sequence_match.specs.Sites.{Calls, HasSecond, IsBare, IsEntry, IsSecond, IsSpelled};
ghost use Rattle.sequence_match.specs.Faults.{IsLoose, IsOfSequence, IsStray};

use crate::index::{Span, first_from, last_below};
use crate::near::{field_near, is_bare_near};
use elf_object::{Relocation, RelocationKind, Relocs};
use elf_records::relocation_row::{FieldValue, SequencePart, TableEntry};
use sequence_forms::{Call, Cell, Form, Row, Second, Site, TO_END};

/// The relocations of a section by their places, for a section whose file has them in another order.
#[derive(Clone, Copy)]
pub struct Indexes<'a> {
    /// Their fields, sorted.
    pub fields: &'a [Span],
    /// The calls through descriptors, sorted.
    pub calls: &'a [Span],
}

/// The code of one section, and its relocations.
#[derive(Clone, Copy)]
pub struct Code<'a, 'o> {
    pub section: u32,
    /// The bytes; empty for a section that is not code.
    pub bytes: &'a [u8],
    pub relocations: &'a Relocs<'o>,
    /// For each symbol, whether it is the undefined `__tls_get_addr`.
    pub getters: &'a [bool],
    /// `None` if the relocations rise by offset as they stand, so that neighbours serve as an index.
    pub indexes: Option<Indexes<'a>>,
}

impl Code<'_, '_> {
    /// The code's length fits in 64 bits. The call does nothing; it gives a proof this fact.
    fn length_fits(&self)
        ensures { length self.now.bytes.now < 2 ^ 64 }
    {
        let _length = self.bytes.len();
    }

    /// The relocation whose field covers a byte, from the index of fields. `guess` is a guess of how many fields
    /// begin at or before the byte.
    fn field_indexed(&self, fields: &[Span], place: u64, guess: u32) -> Option<u32>
        requires ready { IsReady self.now }
        requires index { IsIndex OfField self.now.relocations.now fields.now }
        requires inside { place < length self.now.bytes.now }
        ensures { IsFirstAt (ReachesAt OfField self.now.relocations.now place) result }
    {
        self.length_fits();
        let Some(last) = last_below(fields, place + 1, guess as usize) else {
            return None;
        };
        if place - last.offset < u64::from(last.width) {
            Some(last.entry)
        } else {
            None
        }
    }

    /// The relocation whose field covers a byte. The search begins near relocation number `near`.
    fn field_over(&self, place: u64, near: u32) -> Option<u32>
        requires ready { IsReady self.now }
        requires inside { place < length self.now.bytes.now }
        ensures { IsFirstAt (ReachesAt OfField self.now.relocations.now place) result }
    {
        match self.indexes {
            Some(indexes) => self.field_indexed(indexes.fields, place, near),
            None => field_near(self.relocations, place, near),
        }
    }

    /// The first call through a descriptor at a place, from the index of calls.
    fn call_at(&self, calls: &[Span], place: u64) -> Option<u32>
        requires ready { IsReady self.now }
        requires index { IsIndex OfCall self.now.relocations.now calls.now }
        ensures { IsFirstAt (ReachesAt OfCall self.now.relocations.now place) result }
    {
        match first_from(calls, place) {
            Some(first) if first.offset == place => Some(first.entry),
            _ => None,
        }
    }
}

/// Whether no field covers a byte. `near` is as for `field_over`.
fn is_byte_bare(code: &Code, place: u64, near: u32) -> bool
    requires ready { IsReady code.now }
    requires inside { place < length code.now.bytes.now }
    ensures { IsTrue result ↔ IsBare code.now.relocations.now place }
{
    match code.field_over(place, near) {
        Some(_) => false,
        None => true,
    }
}

/// Whether no field covers a byte from `from` up to `to`, a few bytes on, by an index. A field has at least four
/// bytes, so it is enough to check the first and the last byte.
fn are_ends_bare(code: &Code, from: u64, to: u64, near: u32) -> bool
    requires ready { IsReady code.now }
    requires inside { to ≤ length code.now.bytes.now }
    requires few { to ≤ from + 5 }
    requires some { from < to }
    ensures { IsTrue result ↔ AreBare code.now.relocations.now from to }
{
    is_byte_bare(code, to - 1, near) && is_byte_bare(code, from, near)
}

/// Whether no field covers a byte from `from` up to `to`, a few bytes on. `near` is as for `field_over`.
#[inline(always)]
fn is_bare(code: &Code, from: u64, to: u64, near: u32) -> bool
    requires ready { IsReady code.now }
    requires inside { to ≤ length code.now.bytes.now }
    requires few { to ≤ from + 5 }
    ensures { IsTrue result ↔ AreBare code.now.relocations.now from to }
{
    if to <= from {
        return true;
    }
    match code.indexes {
        Some(_) => are_ends_bare(code, from, to, near),
        None => is_bare_near(code.relocations, from, to, near),
    }
}

/// Whether the bytes from `start` on fit the cells.
#[inline(always)]
fn are_bytes(bytes: &[u8], cells: &[Cell], start: usize) -> bool
    requires inside { start + length cells.now ≤ length bytes.now }
    ensures { IsTrue result ↔ AreBytes bytes.now cells.now start }
{
    for (index, cell) in cells.iter().enumerate() {
        if !cell.fits(bytes[start + index]) {
            return false;
        }
    }
    true
}

/// Where the bytes after the first field of a row end: at its second field, if it has one.
fn end_behind(form: Form, spelling: &Row) -> u64
    requires { IsRow (row form) spelling.now }
    ensures { result ≡ behind_end (row form) }
{
    match spelling.second {
        Some(second) => second.at,
        None => spelling.cells.len() as u64,
    }
}

/// Whether no field covers a byte that a row spells before or after its first field.
#[tactic(auto, using(crate::proofs::Literals::ranges_short))]
fn is_uncovered(code: &Code, form: Form, spelling: &Row, start: u64, near: u32) -> bool
    requires ready { IsReady code.now }
    requires spelling { IsRow (row form) spelling.now }
    requires inside { start + length (row form).cells ≤ length code.now.bytes.now }
    ensures { IsTrue result ↔ (AreBare code.now.relocations.now start (start + (row form).first_at)
        × AreBare code.now.relocations.now (start + behind_at (row form)) (start + behind_end (row form))) }
{
    let first = start + spelling.first_at;
    let end = start + end_behind(form, spelling);
    is_bare(code, start, first, near) && is_bare(code, first + spelling.first.width(), end, near)
}

/// Whether the cells of a form's row stand in the code from `start` on. Its relocations are near number `near`.
#[inline(always)]
fn is_spelled(code: &Code, form: Form, spelling: &Row, start: u64, near: u32) -> bool
    requires ready { IsReady code.now }
    requires spelling { IsRow (row form) spelling.now }
    ensures { IsTrue result ↔ IsSpelled code.now.bytes.now code.now.relocations.now (row form).cells start }
{
    let len = code.bytes.len() as u64;
    if len < start || len - start < spelling.cells.len() as u64 {
        return false;
    }
    are_bytes(code.bytes, spelling.cells, start as usize)
        && is_uncovered(code, form, spelling, start, near)
}

/// Whether a symbol is the undefined `__tls_get_addr`.
pub fn names_getter(getters: &[bool], symbol: u32) -> bool
    ensures { IsTrue result ↔ Names getters.now symbol }
{
    let symbol = symbol as usize;
    symbol < getters.len() && getters[symbol]
}

/// Whether a type is allowed for a call.
fn is_call_kind(call: Call, kind: RelocationKind) -> bool
    ensures { IsTrue result ↔ IsCallKind call kind }
{
    let row = kind.row();
    match call {
        Call::Direct => matches!(row.value, FieldValue::Distance),
        Call::Indirect => matches!(row.entry, TableEntry::AddressWord),
    }
}

/// Whether a relocation fits as the second one of a sequence.
fn calls(second: Second, getters: &[bool], start: u64, relocation: &Relocation) -> bool
    requires { start + second.at < 2 ^ 64 }
    ensures { IsTrue result ↔ Calls second (Names getters.now) start relocation.now }
{
    is_call_kind(second.call, relocation.kind)
        && relocation.offset == start + second.at
        && relocation.addend == TO_END
        && names_getter(getters, relocation.symbol)
}

/// Whether a relocation at the place of a second one fits as such. `near` is as for `field_over`.
fn has_call(code: &Code, second: Second, start: u64, near: u32) -> bool
    requires ready { IsReady code.now }
    requires inside { start + second.at < length code.now.bytes.now }
    ensures { IsTrue result
        ↔ ((f : ℕ) × IsSecond (Some second) (Names code.now.getters.now) code.now.relocations.now start f) }
{
    match code.field_over(start + second.at, near) {
        Some(entry) => calls(second, code.getters, start, &relocation_at(code, entry)),
        None => false,
    }
}

/// Whether the second relocation of a sequence is at its place, if the sequence has two. `near` is as for `field_over`.
fn has_second(code: &Code, second: Option<Second>, start: u64, near: u32) -> bool
    requires ready { IsReady code.now }
    requires inside { IfSome second (λ second. start + second.at < length code.now.bytes.now) }
    ensures { IsTrue result ↔ HasSecond second (Names code.now.getters.now) code.now.relocations.now start }
{
    match second {
        Some(second) => has_call(code, second, start, near),
        None => true,
    }
}

/// Whether no earlier relocation of its type is at its place, where the code has a byte.
fn is_earliest(code: &Code, entry: u32, relocation: &Relocation) -> bool
    requires ready { IsReady code.now }
    requires entry { IsEntry code.now.relocations.now entry relocation.now }
    requires inside { relocation.now.offset < length code.now.bytes.now }
    requires kind { IsOfSequence relocation.now.kind }
    ensures { IsTrue result ↔ IsEarliest code.now.relocations.now entry relocation.now }
{
    let Some(indexes) = code.indexes else {
        return true;
    };
    match relocation.kind {
        RelocationKind::TlsDescCall => {
            match code.call_at(indexes.calls, relocation.offset) {
                Some(first) => first == entry,
                None => false,
            }
        }
        _ => true,
    }
}

/// The register number of a sequence: bits 3 to 5 of ModRM, plus 8 if REX has bit R.
#[tactic(auto, unfolding(sequence_forms::specs::Forms::row, sequence_forms::specs::Forms::register))]
fn register(form: Form, bytes: &[u8], start: usize) -> u8
    requires { start + length (row form).cells ≤ length bytes.now }
    ensures { result ≡ register form bytes.now start }
{
    match form {
        Form::IeMov | Form::IeAdd => {
            let high = if bytes[start] == 0x4c { 8 } else { 0 };
            bytes[start + 2] / 8 + high
        }
        _ => 0,
    }
}

/// Whether an addend is allowed.
fn takes(wanted: Option<i64>, addend: i64) -> bool
    ensures { IsTrue result ↔ IfSome wanted (λ wanted. addend ≡ wanted) }
{
    match wanted {
        Some(wanted) => addend == wanted,
        None => true,
    }
}

/// Whether a sequence of this form starts here. Relocation number `entry`, which has the place and the type of its
/// first relocation, is its first.
#[inline(always)]
fn is_site_at(code: &Code, form: Form, entry: u32, first: &Relocation, start: u64) -> bool
    requires ready { IsReady code.now }
    requires entry { IsEntry code.now.relocations.now entry first.now }
    requires kind { first.now.kind ≡ (row form).first }
    requires offset { first.now.offset ≡ start + (row form).first_at }
    ensures { IsTrue result ↔ IsAt code.now form entry first.now start }
{
    let row = form.row();
    if !is_spelled(code, form, &row, start, entry) {
        return false;
    }
    takes(row.addend, first.addend)
        && has_second(code, row.second, start, entry)
        && is_earliest(code, entry, first)
}

/// The form, if relocation number `entry`, which has the form's type, opens a sequence of it. It is compiled for each
/// form by itself, with the row as a constant.
#[inline(always)]
fn form_if(code: &Code, form: Form, entry: u32, first: &Relocation) -> Option<Form>
    requires ready { IsReady code.now }
    requires entry { IsEntry code.now.relocations.now entry first.now }
    requires kind { first.now.kind ≡ (row form).first }
    ensures opened { MatchOption result (HasNoSiteOf code.now form entry) (λ found. IsOpened code.now found entry) }
    ensures own { IfSome result (λ found. found ≡ form) }
{
    let row = form.row();
    if first.offset < row.first_at {
        return None;
    }
    if !is_site_at(code, form, entry, first, first.offset - row.first_at) {
        return None;
    }
    Some(form)
}

/// The one of two forms.
#[inline(always)]
fn form_of_two(code: &Code, form: Form, other: Form, entry: u32, first: &Relocation) -> Option<Form>
    requires ready { IsReady code.now }
    requires entry { IsEntry code.now.relocations.now entry first.now }
    requires kind { first.now.kind ≡ (row form).first }
    requires other_kind { first.now.kind ≡ (row other).first }
    ensures { MatchOption result (HasNoSiteOf code.now form entry × HasNoSiteOf code.now other entry)
        (λ found. IsOpened code.now found entry) }
{
    match form_if(code, form, entry, first) {
        Some(found) => Some(found),
        None => form_if(code, other, entry, first),
    }
}

/// A relocation of the code, by its number.
#[inline(always)]
fn relocation_at(code: &Code, entry: u32) -> Relocation
    requires { entry < length code.now.relocations.now }
    ensures { IsEntry code.now.relocations.now entry result }
{
    code.relocations.at(entry as u64)
}

/// The form of the sequence that relocation number `entry` opens.
#[tactic(auto, unfolding(sequence_forms::specs::Forms::row))]
#[inline(always)]
fn form_opened_by(code: &Code, entry: u32, first: &Relocation) -> Option<Form>
    requires ready { IsReady code.now }
    requires entry { IsEntry code.now.relocations.now entry first.now }
    ensures { MatchOption result (IsNoFirst code.now entry) (λ form. IsOpened code.now form entry) }
{
    match first.kind {
        RelocationKind::TlsGd => form_of_two(code, Form::Gd, Form::GdInd, entry, first),
        RelocationKind::TlsLd => form_of_two(code, Form::Ld, Form::LdInd, entry, first),
        RelocationKind::GotTpOff => form_of_two(code, Form::IeMov, Form::IeAdd, entry, first),
        RelocationKind::GotPc32TlsDesc => form_if(code, Form::DescLea, entry, first),
        RelocationKind::TlsDescCall => form_if(code, Form::DescCall, entry, first),
        _ => None,
    }
}

/// The form of the sequence that relocation number `entry` opens.
#[inline(always)]
pub fn form_of(code: &Code, entry: u32) -> Option<Form>
    requires ready { IsReady code.now }
    requires entry { entry < length code.now.relocations.now }
    ensures { MatchOption result (IsNoFirst code.now entry) (λ form. IsOpened code.now form entry) }
{
    form_opened_by(code, entry, &relocation_at(code, entry))
}

/// The sequence of this form that relocation number `entry` opens.
pub fn site_at(code: &Code, form: Form, entry: u32) -> Site
    requires entry { entry < length code.now.relocations.now }
    requires opened { IsOpened code.now form entry }
    ensures found { IsFound code.now result.form entry result }
    ensures form { result.form ≡ form }
{
    let first = relocation_at(code, entry);
    let row = form.row();
    let start = first.offset - row.first_at;
    Site {
        section: code.section,
        start,
        len: row.cells.len() as u64,
        form,
        symbol: first.symbol,
        reg: register(form, code.bytes, start as usize),
    }
}

/// Whether a type stands only in sequences, as the first relocation.
pub fn is_of_sequence(kind: RelocationKind) -> bool
    ensures { IsTrue result ↔ IsOfSequence kind }
{
    matches!(kind.row().part, SequencePart::First)
}

/// Whether a relocation that opens no sequence is of such a type.
pub fn is_loose(code: &Code, entry: u32) -> bool
    requires entry { entry < length code.now.relocations.now }
    requires none { IsNoFirst code.now entry }
    ensures { IsTrue result
        ↔ IsLoose code.now.bytes.now code.now.relocations.now (Names code.now.getters.now) entry }
{
    is_of_sequence(relocation_at(code, entry).kind)
}

/// Whether relocation number `entry` is the second one of this form's sequence at `start`, as which it fits: the
/// first one is at `place`.
fn is_second_at(code: &Code, form: Form, entry: u32, start: u64, place: u64) -> bool
    requires ready { IsReady code.now }
    requires second { IsSecond (row form).second (Names code.now.getters.now) code.now.relocations.now start entry }
    requires place { place ≡ start + (row form).first_at }
    requires inside { place < length code.now.bytes.now }
    ensures { IsTrue result ↔ IsSecondIn code.now form entry }
{
    let Some(first) = code.field_over(place, entry) else {
        return false;
    };
    match form_of(code, first) {
        Some(found) => is_at(&site_at(code, found, first), form, start),
        None => false,
    }
}

/// Whether a site has this form and starts here.
fn is_at(site: &Site, form: Form, start: u64) -> bool
    ensures { IsTrue result ↔ (site.now.form ≡ form) × (site.now.start ≡ start) }
{
    site.form == form && site.start == start
}

/// Whether relocation number `entry` is the second one of a sequence of this form.
fn is_second_of_form(code: &Code, form: Form, entry: u32) -> bool
    requires ready { IsReady code.now }
    requires entry { entry < length code.now.relocations.now }
    ensures { IsTrue result ↔ IsSecondIn code.now form entry }
{
    let row = form.row();
    let Some(second) = row.second else {
        return false;
    };
    let relocation = relocation_at(code, entry);
    if relocation.offset < second.at {
        return false;
    }
    let start = relocation.offset - second.at;
    if !calls(second, code.getters, start, &relocation) {
        return false;
    }
    let left = (code.bytes.len() as u64).saturating_sub(start);
    if left <= row.first_at {
        return false;
    }
    is_second_at(code, form, entry, start, start + row.first_at)
}

/// Whether a relocation is the second one of a sequence.
fn is_second(code: &Code, entry: u32) -> bool
    requires ready { IsReady code.now }
    requires entry { entry < length code.now.relocations.now }
    ensures { IsTrue result ↔ ((form : Form) × IsSecondIn code.now form entry) }
{
    if is_second_of_form(code, Form::Gd, entry) {
        return true;
    }
    if is_second_of_form(code, Form::Ld, entry) {
        return true;
    }
    if is_second_of_form(code, Form::GdInd, entry) {
        return true;
    }
    is_second_of_form(code, Form::LdInd, entry)
}

/// Whether a relocation is the second one of a given sequence.
fn is_second_of(code: &Code, entry: u32, site: &Site) -> bool
    requires entry { entry < length code.now.relocations.now }
    requires site { HasSite code.now site.now }
    ensures { IsTrue result
        ↔ IsSecond (row site.now.form).second (Names code.now.getters.now) code.now.relocations.now
        site.now.start entry }
{
    code.length_fits();
    let Some(second) = site.form.row().second else {
        return false;
    };
    calls(
        second,
        code.getters,
        site.start,
        &relocation_at(code, entry),
    )
}

/// Whether a relocation is the second one of a sequence. `known` is a sequence to try first.
fn is_second_by(code: &Code, entry: u32, known: Option<&Site>) -> bool
    requires ready { IsReady code.now }
    requires entry { entry < length code.now.relocations.now }
    requires known { IfSome known (λ site. HasSite code.now site.now) }
    ensures { IsTrue result ↔ ((form : Form) × IsSecondIn code.now form entry) }
{
    match known {
        Some(site) if is_second_of(code, entry, site) => true,
        _ => is_second(code, entry),
    }
}

/// Whether a relocation names the undefined `__tls_get_addr` and is not the second one of a sequence. `known` is a
/// sequence that was found already, best the one that opens before it.
pub fn is_stray(code: &Code, entry: u32, known: Option<&Site>) -> bool
    requires ready { IsReady code.now }
    requires known { IfSome known (λ site. HasSite code.now site.now) }
    requires entry { entry < length code.now.relocations.now }
    ensures { IsTrue result
        ↔ IsStray code.now.bytes.now code.now.relocations.now (Names code.now.getters.now) entry }
{
    let relocation = relocation_at(code, entry);
    match relocation.kind {
        RelocationKind::Nothing => false,
        _ => {
            if !names_getter(code.getters, relocation.symbol) {
                return false;
            }
            !is_second_by(code, entry, known)
        }
    }
}
