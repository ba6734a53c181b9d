//! Where the global offset table and the stub of an image are, and what the field of each relocation holds.

ghost use Rattle.std.specs.Prelude.{◌≡◌, ◌<◌, ◌&&◌, ℕ, IfOk, length, map, slice_index_or};
ghost use Rattle.std.specs.List.{list_any};
ghost use Rattle.std.specs.Result.{result_ok};
ghost use Rattle.elf_object.specs.Parts.{symbol_count};
ghost use Rattle.elf_object.specs.Relocations.{field_width};
ghost use Rattle.relax_sites.specs.ChoiceLaws.{IsChoiceOf};
ghost use Rattle.sequence_forms.specs.declared.places.Site.{Site};
ghost use Rattle.tls_relocs.specs.FieldLaws.{width_of};
ghost use Rattle.tls_symbols.specs.Bindings.{object_at};
ghost use Rattle.link_needs.specs.Given.{FitsTable, IsGiven};
ghost use Rattle.link_needs.specs.Plans.{goes_by, number_by, value_of};
ghost use Rattle.link_needs.specs.Linking.{choice, choices_from, place as place_of, sites_at};
ghost use Rattle.link_needs.specs.Needs.{calls_stub, has_stub, is_kept, is_stub_call, need_address, relocation_need};
ghost use Rattle.link_needs.specs.Values.{other_number, counts_from_thread_pointer, field, is_local, is_rewriting};

use crate::inputs::Inputs;
use crate::needs::{AbsoluteField, calls_stub, is_kept};
use crate::symbol_values::SymbolValue;
use elf_object::{Relocation, RelocationKind};
use elf_records::relocation_row::{FieldValue, Replaced};
use got_pairs::{GotPlan, Need, plan};
use relax_sites::Choice;
use sequence_match::{Form, Site};
use std::alloc::{AllocError, Global};
use std::marker::Model;
use std::thread::Threads;
use tls_layout::page_up;
use tls_relocs::{Field, Overflow, value};

/// A link whose offset table is laid out. Contracts see the link.
#[derive(Drop)]
pub struct Plan<'l, 's, 'a> {
    pub inputs: Inputs<'l, 's, 'a>,
    /// What each symbol of each object is bound to.
    pub values: Vec<Vec<SymbolValue>>,
    /// Which sequence takes the place of each site's.
    pub choices: Vec<Vec<Choice>>,
    /// The fields with addresses that a loader fills in, in the order of objects, sections and the file.
    pub absolutes: Vec<AbsoluteField>,
    pub got: GotPlan<'a>,
    /// The address of the global offset table.
    pub got_start: u64,
    /// The address of the stub, if there is one.
    pub stub_start: u64,
    pub has_stub: bool,
    /// Whether sequences are rewritten at all.
    pub is_rewriting: bool,
    /// Whether offsets of variables count from the thread pointer, because local dynamic code is rewritten.
    pub counts_from_thread_pointer: bool,
}

impl<'l, 's, 'a> Model for Plan<'l, 's, 'a> {
    ghost use Rattle.std.specs.Prelude.{map};
    ghost use Rattle.link_needs.specs.Linking.{Linking};
    ghost use Rattle.link_needs.specs.Plans.{IsPlan};

    ghost Value = { Linking };

    ghost view = { λ plan. plan.inputs };

    ghost invariant = { λ plan. IsPlan
        plan.inputs (map (λ own. own.items) plan.values.items) (map (λ own. own.items) plan.choices.items)
        plan.absolutes.items plan.got plan.got_start plan.stub_start plan.has_stub plan.is_rewriting plan.counts_from_thread_pointer };
}

/// Whether a site calls the stub, by the sequence that takes its place.
fn is_stub_call(site: &Site, choice: Choice) -> bool
    ensures { result ≡ (is_kept choice && calls_stub site.now.form) }
{
    is_kept(choice) && calls_stub(site.form)
}

/// Whether a form is local dynamic code.
fn is_local(form: Form) -> bool
    ensures { result ≡ is_local form }
{
    matches!(form, Form::Ld | Form::LdInd)
}

/// Whether an object has local dynamic code.
fn has_local(own: &[Site]) -> bool
    ensures { result ≡ list_any (λ (site : Site). is_local site.form) own.now }
{
    own.iter().any(|site| is_local(site.form))
}

/// Whether any object has local dynamic code.
fn any_local(sites: &[Vec<Site>]) -> bool
    ensures { result ≡ list_any (λ own. list_any (λ (site : Site). is_local site.form) own.items) sites.now }
{
    sites.iter().any(|own| has_local(own.as_slice()))
}

impl<'l, 's, 'a> Inputs<'l, 's, 'a> {
    /// Whether sequences are rewritten: in a program, if it was asked for.
    pub(crate) fn is_rewriting(&self) -> bool
        ensures { result ≡ is_rewriting self.now }
    {
        !self.kind.is_module() && self.relax
    }

    /// Whether local dynamic code is rewritten, so that offsets count from the thread pointer.
    #[tactic(auto, unfolding(crate::specs::Values::counts_from_thread_pointer))]
    fn counts_from_thread_pointer(&self) -> bool
        ensures { result ≡ counts_from_thread_pointer self.now }
    {
        self.is_rewriting() && any_local(self.sites)
    }

    /// Whether an object calls the stub, by the sequences that take the places of its sites.
    fn calls_stub_in(&self, object: usize, own: &[Site], choices: &[Choice]) -> bool
        requires { choices.now ≡ map (choice self.now object) own.now }
        ensures { result ≡ list_any (is_stub_call self.now object) own.now }
    {
        for (number, site) in own.iter().enumerate() {
            if is_stub_call(site, choices[number]) {
                return true;
            }
        }
        false
    }

    /// Whether there is a stub, by the sequences that take the places of all sites.
    fn has_stub(&self, choices: &[Vec<Choice>]) -> bool
        requires { map (λ own. own.items) choices.now ≡ choices_from self.now 0 self.now.sites }
        ensures { result ≡ has_stub self.now }
    {
        for (object, own) in self.sites.iter().enumerate() {
            let choices = choices[object].as_slice();
            if self.calls_stub_in(object, own.as_slice(), choices) {
                return true;
            }
        }
        false
    }
}

/// Lays out the offset table of a link after its sections.
pub fn plan_of<'l, 's, 'a, R: Threads + Sync>(
    rt: &R,
    alloc: Global,
    inputs: Inputs<'l, 's, 'a>,
) -> Result<Plan<'l, 's, 'a>, AllocError>
    requires { FitsTable inputs }
    ensures { IfOk result (λ plan. plan ≡ inputs.entry) }
{
    let wanted = inputs.wanted(rt, alloc)?;
    let got = plan(
        alloc,
        wanted.needs.as_slice(),
        inputs.kind,
        inputs.block_offset,
    )?;
    let got_start = inputs.placement.room();
    let stub_start = page_up(got_start + got.size());
    let has_stub = inputs.has_stub(wanted.choices.as_slice());
    let values = inputs.symbol_values(alloc)?;
    let is_rewriting = inputs.is_rewriting();
    let counts_from_thread_pointer = inputs.counts_from_thread_pointer();
    Ok(Plan {
        inputs,
        values,
        choices: wanted.choices,
        absolutes: wanted.absolutes,
        got,
        got_start,
        stub_start,
        has_stub,
        is_rewriting,
        counts_from_thread_pointer,
    })
}

/// Whether a relocation has no field once its sequence is rewritten, by its type and what its symbol is bound to.
#[inline(always)]
fn goes(symbol: SymbolValue, kind: RelocationKind) -> bool
    ensures { result ≡ goes_by symbol kind }
{
    match kind.row().replaced {
        Replaced::Never => false,
        Replaced::Always => true,
        Replaced::WhereOwn => matches!(symbol, SymbolValue::Here { .. }),
        Replaced::WhereRuntime => matches!(symbol, SymbolValue::Runtime),
    }
}

impl<'l, 's, 'a> Plan<'l, 's, 'a> {
    /// A plan is of objects that were read and of sites that were found in them, and its table fits. The call does
    /// nothing; it gives a proof these facts.
    pub fn is_given(&self)
        ensures given { IsGiven self.now }
        ensures limits { FitsTable self.now }
    {
        let _inputs = &self.inputs;
    }

    /// The address of the entry for a need; 0 if there is none.
    pub fn need_address(&self, need: Option<Need<'a>>) -> u64
        ensures { result ≡ need_address self.now need.entry }
    {
        let Some(need) = need else {
            return 0;
        };
        match self.got.start(&need) {
            Some(at) => self.got_start + at,
            None => 0,
        }
    }

    /// What a symbol of an object is bound to.
    #[inline(always)]
    pub fn symbol_value(&self, object: usize, symbol: u32) -> SymbolValue
        requires object { object < length self.now.objects }
        requires symbol { symbol < symbol_count (object_at self.now.objects object) }
        ensures { result ≡ value_of self.now object symbol }
    {
        let own = &self.values[object];
        own[symbol as usize]
    }

    /// Which sequence takes the place of the site with this number in an object.
    #[inline(always)]
    pub fn choice(&self, object: usize, number: usize) -> Choice
        requires object { object < length self.now.sites }
        requires number { number < length (sites_at self.now object) }
        ensures choice { (site : Site) → site ≡ slice_index_or (sites_at self.now object) number site
            → result ≡ choice self.now object site }
        ensures own { (site : Site) → site ≡ slice_index_or (sites_at self.now object) number site
            → IsChoiceOf site.form result }
    {
        let own = &self.choices[object];
        own[number]
    }

    /// The inputs of the link; the table is dropped.
    pub fn into_inputs(self) -> Inputs<'l, 's, 'a>
        ensures { result ≡ self.entry }
    {
        self.inputs
    }

    /// Which sequence takes the place of each site's.
    pub fn into_choices(self) -> Vec<Vec<Choice>>
        ensures { map (λ own. own.items) result.items ≡ choices_from self.entry 0 self.entry.sites }
    {
        self.choices
    }

    /// Whether a relocation has no field because its sequence is rewritten. `symbol` is what its symbol is bound to.
    #[inline(always)]
    pub fn is_replaced(&self, symbol: SymbolValue, kind: RelocationKind) -> bool
        ensures { result ≡ (is_rewriting self.now && goes_by symbol kind) }
    {
        self.is_rewriting && goes(symbol, kind)
    }

    /// The symbol's address, or its offset in the TLS segment.
    #[inline(always)]
    pub fn own_number(&self, kind: RelocationKind, symbol: SymbolValue) -> u64
        ensures { result ≡ number_by self.now kind symbol }
    {
        match symbol {
            SymbolValue::Here { offset, .. } if kind.is_offset() => offset,
            SymbolValue::Here { address, .. } => address,
            SymbolValue::Runtime => self.stub_start,
            SymbolValue::Elsewhere => 0,
        }
    }

    /// The address of the entry that the field of a relocation reaches; 0 if it reaches none.
    fn entry_place(&self, object: usize, relocation: &Relocation) -> u64
        requires object { object < length self.now.objects }
        requires symbol { relocation.now.symbol < symbol_count (object_at self.now.objects object) }
        ensures { result ≡ need_address self.now (relocation_need self.now object relocation.now) }
    {
        let inputs = &self.inputs;
        let bound = inputs.bound(object, relocation.symbol, relocation.kind);
        self.need_address(inputs.need(object, relocation.symbol, bound, relocation.kind))
    }

    /// The address of the entry in the table, or what is subtracted from an offset.
    #[inline(always)]
    fn other_number(&self, object: usize, relocation: &Relocation) -> u64
        requires object { object < length self.now.objects }
        requires symbol { relocation.now.symbol < symbol_count (object_at self.now.objects object) }
        ensures { result ≡ other_number self.now object relocation.now relocation.now.kind }
    {
        let inputs = &self.inputs;
        let kind = relocation.kind;
        match kind.row().value {
            FieldValue::SegmentOffset if !self.counts_from_thread_pointer => 0,
            FieldValue::SegmentOffset | FieldValue::ThreadOffset => inputs.block_offset,
            _ if kind.reaches_entry() => self.entry_place(object, relocation),
            _ => 0,
        }
    }

    /// What the field of a relocation at address `place` holds. `symbol` is what its symbol is bound to.
    #[inline(always)]
    pub fn field(
        &self,
        object: usize,
        place: u64,
        relocation: &Relocation,
        symbol: SymbolValue,
    ) -> Result<Field, Overflow>
        requires object { object < length self.now.objects }
        requires number { relocation.now.symbol < symbol_count (object_at self.now.objects object) }
        requires symbol { symbol ≡ value_of self.now object relocation.now.symbol }
        ensures field { (section : ℕ) → place ≡ place_of self.now object section relocation.now.offset
            → result_ok result ≡ field self.now object section relocation.now }
        ensures width { IfOk result (λ field. width_of field ≡ field_width relocation.now.kind) }
    {
        value(
            relocation.kind,
            self.own_number(relocation.kind, symbol),
            relocation.addend,
            place,
            self.other_number(object, relocation),
        )
    }
}
