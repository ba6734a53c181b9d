//! What the symbols of an image's relocations are bound to.

ghost use Rattle.std.specs.Prelude.{◌≡◌, ◌<◌, ◌-◌, ◌^◌, IfErr, IfOk, IfSome, MatchOption, OnOk, false, length};
ghost use Rattle.elf_object.specs.Lent.{symbol_binding, symbol_name};
ghost use Rattle.elf_records.specs.declared.symbol.SymbolBinding.TheVariants.{Local};
ghost use Rattle.elf_object.specs.Parts.{symbol_count};
ghost use Rattle.tls_symbols.specs.Bindings.{binding_of, bound_to, may, object_at, IsBindingWithin};
ghost use Rattle.tls_symbols.specs.Definitions.{definition_of, same_binding, IsWithin};
ghost use Rattle.tls_symbols.specs.Faults.{is_faulty, AreResolved, IsFault, IsFirstCharged, NoneCharged};
ghost use Rattle.tls_symbols.specs.Known.{IsKnown};

use crate::charges::NameQuestion;
use crate::duplicates::first_duplicate;
use crate::export_list::Exports;
use crate::image_names::{ImageNames, binding, definition_named, know_names, symbol_definition};
use crate::imports::{Imports, imports_of};
use crate::searching::first_use;
use elf_object::{Object, Relocation};
use link_faults::{Binding, LinkFault, LinkFaultKind, Place, SymbolRef};
use std::alloc::Global;
use std::marker::Model;

/// What the names of an image are bound to. Contracts see its objects and what the startup images export.
#[derive(Drop)]
pub struct Bindings<'l, 's, 'a> {
    names: ImageNames<'l, 's, 'a>,
}

impl<'l, 's, 'a> Model for Bindings<'l, 's, 'a> {
    ghost use Rattle.tls_symbols.specs.Known.{Resolved, IsKnown};
    ghost use Rattle.tls_symbols.specs.Faults.{AreResolved};

    ghost Value = { Resolved };

    ghost view = { λ b. record { objects = b.names.objects.now; startup = b.names.startup.now } };

    ghost invariant = { λ b. IsKnown b.names × AreResolved b.names.objects.now b.names.startup.now };
}

/// The first relocation with this fault.
fn first_charged(names: &ImageNames, kind: LinkFaultKind) -> Option<Place>
    requires { IsKnown names.now }
    ensures { MatchOption result
        (NoneCharged (is_faulty kind names.now.objects.now names.now.startup.now) names.now.objects.now)
        (λ place. IsFirstCharged (is_faulty kind names.now.objects.now names.now.startup.now) names.now.objects.now
        place.object place.section place.entry) }
{
    first_use(&NameQuestion { names, kind }, names.objects)
}

/// The first fault of names, if some relocation or symbol has one: each kind is searched for in turn.
fn first_fault(names: &ImageNames) -> Option<LinkFault>
    requires { IsKnown names.now }
    ensures { MatchOption result (AreResolved names.now.objects.now names.now.startup.now)
        (IsFault names.now.objects.now names.now.startup.now) }
{
    if let Some(place) = first_charged(names, LinkFaultKind::Undefined) {
        return Some(place.fault(LinkFaultKind::Undefined));
    }
    if let Some(place) = first_duplicate(names) {
        return Some(place.fault(LinkFaultKind::Duplicate));
    }
    match first_charged(names, LinkFaultKind::NotTls) {
        Some(place) => Some(place.fault(LinkFaultKind::NotTls)),
        None => None,
    }
}

/// Binds the names of an image of these objects. `startup` has what each startup image exports, in image order; an
/// image that is one itself is among them. The error is the first fault: `Undefined`, else `Duplicate`, else `NotTls`,
/// at the first object, section and entry.
pub fn resolve<'l, 's, 'a>(
    alloc: Global,
    objects: &'l [Object<'a>],
    startup: &'s [Exports<'a>],
) -> Result<Bindings<'l, 's, 'a>, LinkFault>
    requires few { length startup.now < 2 ^ 32 - 1 }
    ensures objects { IfOk result (λ bindings. bindings.objects ≡ objects.now) }
    ensures startup { IfOk result (λ bindings. bindings.startup ≡ startup.now) }
    ensures resolved { OnOk result (AreResolved objects.now startup.now) }
    ensures fault { IfErr result (IsFault objects.now startup.now) }
{
    let names = know_names(alloc, objects, startup)?;
    match first_fault(&names) {
        Some(fault) => Err(fault),
        None => Ok(Bindings { names }),
    }
}

impl Bindings<'_, '_, '_> {
    /// What a symbol of an object is bound to. `imports` says whether it may be another image's variable. The symbol of
    /// a relocation always has a binding, with the `imports` of the relocation's type; another symbol may have none.
    /// `object` is the object's index in the list. The time does not depend on the names.
    pub fn binding(&self, object: usize, symbol: u32, imports: Imports) -> Option<Binding>
        requires object { object < length self.now.objects }
        requires symbol { symbol < symbol_count (object_at self.now.objects object) }
        ensures binding { result ≡ bound_to self.now.objects self.now.startup object symbol (may imports) }
        ensures within { IfSome result (IsBindingWithin self.now.objects) }
        ensures resolved { AreResolved self.now.objects self.now.startup }
    {
        binding(&self.names, object, symbol, imports)
    }

    /// What the symbol of a relocation is bound to.
    pub fn binding_of(&self, object: usize, relocation: &Relocation) -> Option<Binding>
        requires object { object < length self.now.objects }
        requires symbol { relocation.now.symbol < symbol_count (object_at self.now.objects object) }
        ensures binding { result ≡ binding_of self.now.objects self.now.startup object relocation.now }
        ensures within { IfSome result (IsBindingWithin self.now.objects) }
        ensures resolved { AreResolved self.now.objects self.now.startup }
    {
        self.binding(object, relocation.symbol, imports_of(relocation.kind))
    }

    /// The definition that a name binds to in the image. The time depends only on the name's length.
    pub fn definition(&self, name: &[u8]) -> Option<SymbolRef>
        ensures definition { result ≡ definition_of self.now.objects name.now }
        ensures within { IfSome result (IsWithin self.now.objects) }
        ensures resolved { AreResolved self.now.objects self.now.startup }
    {
        definition_named(&self.names, name)
    }

    /// The definition that the name of a symbol binds to, if the symbol is not LOCAL. `object` is the object's index in
    /// the list. The time does not depend on the names.
    pub fn symbol_definition(&self, object: usize, symbol: u32) -> Option<SymbolRef>
        requires object { object < length self.now.objects }
        requires symbol { symbol < symbol_count (object_at self.now.objects object) }
        requires shared { same_binding Local (symbol_binding (object_at self.now.objects object) symbol) ≡ false }
        ensures definition { result ≡ definition_of self.now.objects
            (symbol_name (object_at self.now.objects object) symbol) }
        ensures within { IfSome result (IsWithin self.now.objects) }
        ensures resolved { AreResolved self.now.objects self.now.startup }
    {
        symbol_definition(&self.names, object, symbol)
    }
}
