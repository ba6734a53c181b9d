//! What code needs of the global offset table.

ghost use Rattle.std.specs.Prelude.{◌≡◌, ◌+◌, ◌<◌, ◌≤◌, ◌^◌, ◌++◌, ◌&&◌, [], ◌∷◌, IfOk, IfSome, OnOk, length, map};
ghost use Rattle.std.specs.Prelude.{option_and_then, option_map, if◌then◌else◌};
ghost use Rattle.std.specs.List.{All, AllZip, flat_map, range_with_len};
ghost use Rattle.elf_object.specs.Parts.{symbol_count};
ghost use Rattle.tls_symbols.specs.Bindings.{IsBindingWithin, object_at};
ghost use Rattle.link_needs.specs.Linking.{choice, choices_from};
ghost use Rattle.link_needs.specs.Needs.{address_fields, address_need, calls, calls_stub, is_kept};
ghost use Rattle.link_needs.specs.NeedLaws.{absolutes};
ghost use Rattle.link_needs.specs.Needs.{need_by, needs, new_relocation, object_needs};
ghost use Rattle.link_needs.specs.NeedLaws.{object_absolutes};
ghost use Rattle.link_needs.specs.Needs.{reaching, relocation_need, section_needs, site_needs};
ghost use Rattle.link_needs.specs.NeedLaws.{section_absolutes};
ghost use Rattle.link_needs.specs.Needs.{target_by};
ghost use Rattle.link_needs.specs.Plans.{AreOwn, IsUsable};
ghost use Rattle.std.specs.Prelude.{option_to_list};

use crate::inputs::Inputs;
use elf_object::{Relocation, RelocationKind, relocation_count};
use elf_records::relocation_row::TableEntry;
use got_pairs::{Name, Need, Target};
use link_faults::Binding;
use rayon::prelude::*;
use relax_sites::{Choice, NewField, new_field};
use sequence_match::{Form, Site};
use std::alloc::{AllocError, Global};
use std::thread::Threads;

/// A field of 8 bytes that holds an address, in a section of an object.
#[derive(Clone, Copy)]
pub struct AbsoluteField {
    pub object: usize,
    pub section: u32,
    pub relocation: Relocation,
}

/// What all code needs of the table, the absolute fields, and which sequence takes the place of each site's. Each site
/// is decided once; a site that reaches an entry is bound a second time, for its entry.
#[derive(Drop)]
pub(crate) struct Wanted<'a> {
    pub needs: Vec<Need<'a>>,
    pub absolutes: Vec<AbsoluteField>,
    pub choices: Vec<Vec<Choice>>,
}

/// Likewise of one object: what its sites need, and its address fields.
#[derive(Drop)]
pub struct OwnWanted<'a> {
    pub sites: Vec<Need<'a>>,
    pub fields: Vec<Need<'a>>,
    pub absolutes: Vec<AbsoluteField>,
    pub choices: Vec<Choice>,
}

/// A thread of its own pays for this many relocations of objects.
const WORTH_A_THREAD: u128 = 1 << 13;

/// Whether a sequence of this form calls the run time, directly or through its word.
fn calls(form: Form) -> bool
    ensures { result ≡ calls form }
{
    matches!(form, Form::Gd | Form::Ld | Form::GdInd | Form::LdInd)
}

/// Whether it does so directly, through the stub.
pub fn calls_stub(form: Form) -> bool
    ensures { result ≡ calls_stub form }
{
    matches!(form, Form::Gd | Form::Ld)
}

/// Whether a sequence stays as it is.
pub fn is_kept(choice: Choice) -> bool
    ensures { result ≡ is_kept choice }
{
    matches!(choice, Choice::Keep)
}

/// The run time's word, if a sequence that calls through it is kept.
fn word_of_call<'a>(form: Form, choice: Choice) -> Option<Need<'a>>
    ensures { option_to_list result ≡ (if is_kept choice && calls form then Need.RuntimeWord ∷ [] else []) }
{
    if is_kept(choice) && calls(form) {
        Some(Need::RuntimeWord)
    } else {
        None
    }
}

/// Adds a need, if there is one.
fn push_some<'a>(need: Option<Need<'a>>, needs: &mut Vec<Need<'a>>) -> Result<(), AllocError>
    ensures { OnOk result (needs.new.items ≡ needs.old.items ++ option_to_list need.entry) }
{
    if let Some(need) = need {
        needs.push(need)?;
    }
    Ok(())
}

/// The relocation of a field in the sequence that takes a site's place; its symbol is the site's.
pub fn new_relocation(site: &Site, field: &NewField) -> Relocation
    requires { site.now.start + field.now.at < 2 ^ 64 }
    ensures { result ≡ new_relocation site.now field.now }
{
    Relocation {
        offset: site.start + field.at,
        kind: field.kind,
        symbol: site.symbol,
        addend: field.addend,
    }
}

/// The type of the relocation with which a site reaches its entry, if it reaches one.
fn reaching(site: &Site, choice: Choice) -> Option<RelocationKind>
    ensures { result ≡ option_map (λ r. r.kind) (reaching site.now choice) }
{
    match choice {
        Choice::Keep => Some(site.form.row().first),
        _ => match new_field(site.form, choice) {
            Some(field) => Some(field.kind),
            None => None,
        },
    }
}

impl<'l, 's, 'a> Inputs<'l, 's, 'a> {
    /// The variable that symbol number `symbol` of an object is, by its binding.
    fn target(&self, object: usize, symbol: u32, bound: Option<Binding>) -> Option<Target<'a>>
        requires object { object < length self.now.objects }
        requires symbol { symbol < symbol_count (object_at self.now.objects object) }
        requires within { IfSome bound (IsBindingWithin self.now.objects) }
        ensures { result ≡ target_by self.now object symbol bound }
    {
        match bound {
            Some(Binding::Here(found)) => Some(Target::Here {
                symbol: found,
                offset: self.offset(found),
            }),
            Some(Binding::Startup(_)) => Some(Target::Import(Name::new(
                self.object(object).symbol_name(symbol),
            ))),
            Some(Binding::Runtime) | None => None,
        }
    }

    /// The word with the address of a binding.
    fn address_need(&self, bound: Option<Binding>) -> Option<Need<'a>>
        requires { IfSome bound (IsBindingWithin self.now.objects) }
        ensures { result ≡ address_need self.now bound }
    {
        match bound {
            Some(Binding::Here(found)) => Some(Need::AddressWord {
                symbol: found,
                place: self.address(found),
            }),
            Some(Binding::Runtime) => Some(Need::RuntimeWord),
            Some(Binding::Startup(_)) | None => None,
        }
    }

    /// The entry that the field of a relocation reaches, by its type and its binding.
    pub(crate) fn need(
        &self,
        object: usize,
        symbol: u32,
        bound: Option<Binding>,
        kind: RelocationKind,
    ) -> Option<Need<'a>>
        requires object { object < length self.now.objects }
        requires symbol { symbol < symbol_count (object_at self.now.objects object) }
        requires within { IfSome bound (IsBindingWithin self.now.objects) }
        ensures { result ≡ need_by self.now object symbol bound kind }
    {
        match kind.row().entry {
            TableEntry::NoEntry => None,
            TableEntry::ModulePair => Some(Need::ModulePair),
            TableEntry::SymbolPair => match self.target(object, symbol, bound) {
                Some(target) => Some(Need::SymbolPair(target)),
                None => None,
            },
            TableEntry::SymbolWord => match self.target(object, symbol, bound) {
                Some(target) => Some(Need::SymbolWord(target)),
                None => None,
            },
            TableEntry::Descriptor => match self.target(object, symbol, bound) {
                Some(target) => Some(Need::Descriptor(target)),
                None => None,
            },
            TableEntry::AddressWord => self.address_need(bound),
        }
    }

    /// The entry that a site reaches, by the sequence that takes its place.
    #[tactic(auto, unfolding(crate::specs::Needs::relocation_need))]
    fn reached(&self, object: usize, site: &Site, choice: Choice) -> Option<Need<'a>>
        requires object { object < length self.now.objects }
        requires site { IsUsable (object_at self.now.objects object) site.now }
        ensures { result ≡ option_and_then (relocation_need self.now object) (reaching site.now choice) }
    {
        match reaching(site, choice) {
            Some(kind) => match kind.row().entry {
                TableEntry::NoEntry => None,
                _ => {
                    let bound = self.bound(object, site.symbol, kind);
                    self.need(object, site.symbol, bound, kind)
                }
            },
            None => None,
        }
    }

    /// Adds what a site needs. Returns which sequence takes its place.
    #[tactic(auto, unfolding(crate::specs::Needs::site_needs))]
    fn push_site(
        &self,
        object: usize,
        site: &Site,
        needs: &mut Vec<Need<'a>>,
    ) -> Result<Choice, AllocError>
        requires object { object < length self.now.objects }
        requires site { IsUsable (object_at self.now.objects object) site.now }
        ensures needs { OnOk result (needs.new.items ≡ needs.old.items ++ site_needs self.now object site.now) }
        ensures choice { IfOk result (λ chosen. chosen ≡ choice self.now object site.now) }
    {
        let choice = self.choice(object, site);
        push_some(self.reached(object, site, choice), needs)?;
        push_some(word_of_call(site.form, choice), needs)?;
        Ok(choice)
    }

    /// The address fields of a section, in the order of their places. Adds its absolute fields.
    fn address_fields(
        &self,
        alloc: Global,
        object: usize,
        section: u32,
        absolutes: &mut Vec<AbsoluteField>,
    ) -> Result<Vec<Relocation>, AllocError>
        requires object { object < length self.now.objects }
        ensures fields { IfOk result (λ fields.
            fields.items ≡ address_fields (object_at self.now.objects object) section) }
        ensures symbols { IfOk result (λ fields.
            All (λ r. r.symbol < symbol_count (object_at self.now.objects object)) fields.items) }
        ensures absolutes { OnOk result (absolutes.new.items
            ≡ absolutes.old.items ++ section_absolutes self.now object (object_at self.now.objects object) section) }
    {
        let is_moved = self.kind.is_moved();
        let mut fields = Vec::new(alloc);
        for relocation in self.object(object).relocs(section) {
            if relocation.kind.reaches_address() {
                fields.push(relocation)?;
            }
            if is_moved && relocation.kind.is_absolute() {
                absolutes.push(AbsoluteField {
                    object,
                    section,
                    relocation,
                })?;
            }
        }
        fields.sort_by_key(|relocation| relocation.offset)?;
        Ok(fields)
    }

    /// Adds what the address fields of a section need, and its absolute fields.
    fn push_section(
        &self,
        alloc: Global,
        object: usize,
        section: u32,
        needs: &mut Vec<Need<'a>>,
        absolutes: &mut Vec<AbsoluteField>,
    ) -> Result<(), AllocError>
        requires object { object < length self.now.objects }
        ensures needs { OnOk result (needs.new.items
            ≡ needs.old.items ++ section_needs self.now object (object_at self.now.objects object) section) }
        ensures absolutes { OnOk result (absolutes.new.items
            ≡ absolutes.old.items ++ section_absolutes self.now object (object_at self.now.objects object) section) }
    {
        let fields = self.address_fields(alloc, object, section, absolutes)?;
        for relocation in &fields {
            let bound = self.bound(object, relocation.symbol, relocation.kind);
            if let Some(Binding::Here(found)) = bound {
                let place = self.address(found);
                needs.push(Need::AddressWord {
                    symbol: found,
                    place,
                })?;
            }
        }
        Ok(())
    }

    /// Adds what the address fields of an object need, and its absolute fields.
    fn push_object(
        &self,
        alloc: Global,
        object: usize,
        needs: &mut Vec<Need<'a>>,
        absolutes: &mut Vec<AbsoluteField>,
    ) -> Result<(), AllocError>
        requires { object < length self.now.objects }
        ensures needs { OnOk result (needs.new.items
            ≡ needs.old.items ++ object_needs self.now object (object_at self.now.objects object)) }
        ensures absolutes { OnOk result (absolutes.new.items
            ≡ absolutes.old.items ++ object_absolutes self.now object (object_at self.now.objects object)) }
    {
        for section in 0..self.object(object).section_count() {
            self.push_section(alloc, object, section, needs, absolutes)?;
        }
        Ok(())
    }

    /// What the code of an object needs, and which sequences take the places of its sites'.
    fn own_wanted(&self, alloc: Global, object: usize) -> Result<OwnWanted<'a>, AllocError>
        requires { object < length self.now.objects }
        ensures { IfOk result (AreOwn self.now object) }
    {
        let all = self.sites;
        let own = all[object].as_slice();
        let mut sites = Vec::new(alloc);
        let mut choices = Vec::with_capacity(alloc, own.len())?;
        for site in own {
            let choice = self.push_site(object, site, &mut sites)?;
            choices.push(choice)?;
        }
        let mut fields = Vec::new(alloc);
        let mut absolutes = Vec::new(alloc);
        self.push_object(alloc, object, &mut fields, &mut absolutes)?;
        Ok(OwnWanted {
            sites,
            fields,
            absolutes,
            choices,
        })
    }

    /// How many objects are worth a thread of their own, by the mean of their relocations; at least one.
    fn share(&self) -> usize {
        let mean = relocation_count(self.objects) / (self.objects.len() as u128).max(1);
        WORTH_A_THREAD.div_ceil(mean.max(1)) as usize
    }

    /// What the code of each object needs, in order. Threads share the objects.
    fn each_wanted<R: Threads + Sync>(
        &self,
        rt: &R,
        alloc: Global,
    ) -> Result<Vec<OwnWanted<'a>>, AllocError>
        ensures { IfOk result (λ all.
            AllZip (AreOwn self.now) (range_with_len 0 (length self.now.objects)) all.items) }
    {
        (0..self.objects.len())
            .into_par_iter()
            .with_min_len(self.share())
            .map(
                |object: usize| -> Result<OwnWanted, AllocError>
                    requires { object < length self.now.objects }
                    ensures { IfOk result (AreOwn self.entry.now object) }
                { self.own_wanted(alloc, object) },
            )
            .collect::<Result<Vec<OwnWanted>, AllocError>>(rt, alloc)?
    }

    /// What all code needs: first sequences, in the order of their sites, and then address fields, in the order of
    /// their places. And the absolute fields, and which sequence takes the place of each site's.
    #[tactic(auto, unfolding(crate::specs::Needs::needs))]
    pub(crate) fn wanted<R: Threads + Sync>(
        &self,
        rt: &R,
        alloc: Global,
    ) -> Result<Wanted<'a>, AllocError>
        ensures needs { IfOk result (λ wanted. wanted.needs.items ≡ needs self.now) }
        ensures absolutes { IfOk result (λ wanted. wanted.absolutes.items ≡ absolutes self.now) }
        ensures choices { IfOk result (λ wanted. map (λ own. own.items) wanted.choices.items
            ≡ choices_from self.now 0 self.now.sites) }
    {
        let all = self.each_wanted(rt, alloc)?;
        self.is_given();
        joined(alloc, all)
    }
}

/// What objects need, in their order: first all their sites, and then all their address fields.
fn joined<'a>(alloc: Global, all: Vec<OwnWanted<'a>>) -> Result<Wanted<'a>, AllocError>
    ensures needs { IfOk result (λ wanted. wanted.needs.items
        ≡ flat_map (λ own. own.sites.items) all.entry.items ++ flat_map (λ own. own.fields.items) all.entry.items) }
    ensures absolutes { IfOk result (λ wanted. wanted.absolutes.items
        ≡ flat_map (λ own. own.absolutes.items) all.entry.items) }
    ensures choices { IfOk result (λ wanted. map (λ own. own.items) wanted.choices.items
        ≡ map (λ own. own.choices.items) all.entry.items) }
{
    let mut needs = Vec::new(alloc);
    let mut fields = Vec::new(alloc);
    let mut absolutes = Vec::new(alloc);
    let mut choices = Vec::with_capacity(alloc, all.len())?;
    for mut own in all {
        needs.append(&mut own.sites)?;
        fields.append(&mut own.fields)?;
        absolutes.append(&mut own.absolutes)?;
        choices.push(own.choices)?;
    }
    needs.append(&mut fields)?;
    Ok(Wanted {
        needs,
        absolutes,
        choices,
    })
}
