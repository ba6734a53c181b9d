//! What a link is given, and what its symbols are bound to and where they are.

ghost use Rattle.std.specs.Prelude.{◌≡◌, ◌<◌, ◌≤◌, ◌^◌, ℕ, IfSome, IsSome, length, unwrap_or};
ghost use Rattle.std.specs.List.{list_any};
ghost use Rattle.elf_object.specs.Lent.{symbol_place, symbol_value};
ghost use Rattle.elf_object.specs.Parts.{symbol_count};
ghost use Rattle.sequence_forms.specs.declared.places.Site.{Site};
ghost use Rattle.sequence_forms.specs.Forms.{is_initial};
ghost use Rattle.tls_layout.specs.Places.{address_of, class_of, tls_offset_of};
ghost use Rattle.tls_symbols.specs.Bindings.{IsBindingWithin, bound_to, may_import, object_at};
ghost use Rattle.tls_symbols.specs.Definitions.{IsWithin};
ghost use Rattle.link_needs.specs.Given.{IsGiven};
ghost use Rattle.link_needs.specs.Linking.{address, choice, layout, offset};

use elf_object::{Object, RelocationKind, SymbolPlace};
use link_faults::{Binding, ImageKind, SymbolRef};
use relax_sites::{Choice, choice};
use sequence_match::Site;
use std::marker::Model;
use tls_layout::Placement;
use tls_symbols::{Bindings, imports_of};

/// Objects, what their names are bound to, and where their sections go. Contracts see the link that these are for.
#[derive(Drop)]
pub struct Inputs<'l, 's, 'a> {
    pub kind: ImageKind,
    /// Whether sequences may be rewritten.
    pub relax: bool,
    pub objects: &'l [Object<'a>],
    /// The sequences of each object.
    pub sites: &'l [Vec<Site>],
    pub bindings: Bindings<'l, 's, 'a>,
    pub placement: Placement,
    /// How far below the thread pointer the block of a program begins.
    pub block_offset: u64,
}

impl<'l, 's, 'a> Model for Inputs<'l, 's, 'a> {
    ghost use Rattle.std.specs.Prelude.{map};
    ghost use Rattle.link_needs.specs.Linking.{Linking};
    ghost use Rattle.link_needs.specs.Given.{AreInputs};

    ghost Value = { Linking };

    ghost view = { λ inputs. record {
      kind = inputs.kind;
      objects = inputs.objects.now;
      startup = inputs.bindings.startup;
      sites = map (λ own. own.items) inputs.sites.now;
      relax = inputs.relax;
    } };

    ghost invariant = { λ inputs. AreInputs
        (record {
          kind = inputs.kind;
          objects = inputs.objects.now;
          startup = inputs.bindings.startup;
          sites = map (λ own. own.items) inputs.sites.now;
          relax = inputs.relax;
        })
        inputs.bindings.objects inputs.placement inputs.block_offset };
}

/// Whether an object has code that finds a variable at a fixed distance from the thread pointer.
fn has_initial(own: &[Site]) -> bool
    ensures { result ≡ list_any (λ (site : Site). is_initial site.form) own.now }
{
    own.iter().any(|site| site.form.is_initial())
}

/// Whether one of these objects has such code.
fn any_initial(sites: &[Vec<Site>]) -> bool
    ensures { result ≡ list_any (λ own. list_any (λ (site : Site). is_initial site.form) own.items) sites.now }
{
    sites.iter().any(|own| has_initial(own.as_slice()))
}

impl<'l, 's, 'a> Inputs<'l, 's, 'a> {
    /// Whether code of an object finds a variable at a fixed distance from the thread pointer.
    #[tactic(auto, using(crate::proofs::InputsLemmas::any_seen))]
    pub fn has_initial(&self) -> bool
        ensures { result ≡ list_any (λ own. list_any (λ (site : Site). is_initial site.form) own) self.now.sites }
    {
        any_initial(self.sites)
    }

    /// The objects were read, and the sites were found in them. The call does nothing; it gives a proof these facts.
    pub fn is_given(&self)
        ensures { IsGiven self.now }
    {
        let _objects = self.objects;
    }

    /// The object at this index in the list.
    pub fn object(&self, number: usize) -> &'l Object<'a>
        requires { number < length self.now.objects }
        ensures { result.now ≡ object_at self.now.objects number }
    {
        let objects = self.objects;
        &objects[number]
    }

    /// What a symbol of an object is bound to, in a relocation of this type.
    #[inline]
    pub fn bound(&self, object: usize, symbol: u32, kind: RelocationKind) -> Option<Binding>
        requires object { object < length self.now.objects }
        requires symbol { symbol < symbol_count (object_at self.now.objects object) }
        ensures binding { result ≡ bound_to self.now.objects self.now.startup object symbol (may_import kind) }
        ensures within { IfSome result (IsBindingWithin self.now.objects) }
    {
        self.bindings.binding(object, symbol, imports_of(kind))
    }

    /// Which sequence takes the place of a site's.
    #[tactic(auto, unfolding(crate::specs::Linking::choice))]
    pub(crate) fn choice(&self, object: usize, site: &Site) -> Choice
        requires object { object < length self.now.objects }
        requires symbol { site.now.symbol < symbol_count (object_at self.now.objects object) }
        ensures { result ≡ choice self.now object site.now }
    {
        match self.bound(object, site.symbol, site.form.row().first) {
            Some(bound) => choice(site.form, bound, self.kind, self.relax),
            None => Choice::Keep,
        }
    }

    /// The address of a section of an object; 0 if it has none.
    #[tactic(auto, using(crate::proofs::InputsLemmas::address_small))]
    pub fn section_address(&self, object: usize, section: u32) -> u64
        ensures address { result ≡ unwrap_or (address_of (layout self.now) object section) 0 }
        ensures small { result ≤ 2 ^ 25 }
    {
        self.placement.address(object, section).unwrap_or(0)
    }

    /// Its offset in the TLS segment; 0 if it is not thread-local.
    #[tactic(auto, using(crate::proofs::InputsLemmas::offset_small))]
    fn section_offset(&self, object: usize, section: u32) -> u64
        ensures offset { result ≡ unwrap_or (tls_offset_of (layout self.now) object section) 0 }
        ensures small { result ≤ 2 ^ 20 }
    {
        self.placement.tls_offset(object, section).unwrap_or(0)
    }

    /// Where a symbol of the image is defined, and its value, which is small if linking keeps the section.
    #[inline]
    fn part(&self, symbol: SymbolRef) -> (SymbolPlace, u64)
        requires { IsWithin self.now.objects symbol }
        ensures place { result.0 ≡ symbol_place (object_at self.now.objects symbol.object) symbol.symbol }
        ensures value { result.1 ≡ symbol_value (object_at self.now.objects symbol.object) symbol.symbol }
        ensures small { (section : ℕ) → result.0 ≡ SymbolPlace.InSection section
            → IsSome (class_of (layout self.now) symbol.object section) → result.1 ≤ 2 ^ 20 }
    {
        match self.object(symbol.object as usize).symbol(symbol.symbol) {
            Some(part) => (part.place, part.value),
            None => (SymbolPlace::Undefined, 0),
        }
    }

    /// The address of a symbol of the image.
    #[tactic(auto, unfolding(crate::specs::Linking::address))]
    pub fn address(&self, symbol: SymbolRef) -> u64
        requires { IsWithin self.now.objects symbol }
        ensures { result ≡ address self.now symbol }
    {
        let object = symbol.object as usize;
        let (place, value) = self.part(symbol);
        match place {
            SymbolPlace::InSection(section) => self.section_address(object, section) + value,
            _ => value,
        }
    }

    /// The offset of a thread-local symbol of the image in its TLS segment.
    #[tactic(auto, unfolding(crate::specs::Linking::offset))]
    pub fn offset(&self, symbol: SymbolRef) -> u64
        requires { IsWithin self.now.objects symbol }
        ensures { result ≡ offset self.now symbol }
    {
        let object = symbol.object as usize;
        let (place, value) = self.part(symbol);
        match place {
            SymbolPlace::InSection(section) => self.section_offset(object, section) + value,
            _ => value,
        }
    }
}
