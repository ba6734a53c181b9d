//! The faults that a relocation can have because of what its symbol is bound to. They depend on its symbol and on the
//! role in which its type names the symbol.

ghost use Rattle.std.specs.Prelude.{◌≡◌, ◌<◌, IfSome, false, length, true};
ghost use Rattle.elf_object.specs.Parts.{symbol_count};
ghost use Rattle.elf_records.specs.RelocationRows.{is_named, is_variable};
ghost use Rattle.tls_symbols.specs.Bindings.{is_tls_binding, object_at, IsBindingWithin};
ghost use Rattle.tls_symbols.specs.Charges.{is_charged_as, is_unsuited, IsAbout, IsAsked, IsAskedIn, IsClear};
ghost use Rattle.tls_symbols.specs.Known.{IsKnown};

use crate::image_names::{ImageNames, binding, is_tls};
use crate::imports::imports_as;
use crate::searching::Question;
use crate::uses::Use;
use elf_object::{Object, Roles};
use elf_records::relocation_row::SymbolRole;
use link_faults::{Binding, LinkFaultKind};

/// Asks which relocations have this fault: `Undefined` or `NotTls`.
#[derive(Clone, Copy)]
pub struct NameQuestion<'n, 'l, 's, 'a> {
    pub names: &'n ImageNames<'l, 's, 'a>,
    pub kind: LinkFaultKind,
}

/// Whether what a symbol is bound to is thread-local.
fn is_tls_binding(names: &ImageNames, binding: Binding) -> bool
    requires known { IsKnown names.now }
    requires within { IsBindingWithin names.now.objects.now binding }
    ensures { result ≡ is_tls_binding names.now.objects.now binding }
{
    match binding {
        Binding::Here(found) => is_tls(names, found),
        Binding::Startup(_) => true,
        Binding::Runtime => false,
    }
}

/// Whether a symbol that is named in this role is thread-local.
fn is_variable(role: SymbolRole) -> bool
    ensures { result ≡ is_variable role }
{
    matches!(role, SymbolRole::OwnVariable | SymbolRole::AnyVariable)
}

/// Whether this does not suit the role: one of the two is thread-local, and the other isn't.
fn is_unsuited(names: &ImageNames, role: SymbolRole, bound: Option<Binding>) -> bool
    requires known { IsKnown names.now }
    requires within { IfSome bound (IsBindingWithin names.now.objects.now) }
    ensures { result ≡ is_unsuited names.now.objects.now role bound }
{
    match bound {
        Some(found) => is_variable(role) != is_tls_binding(names, found),
        None => false,
    }
}

impl NameQuestion<'_, '_, '_, '_> {
    /// Whether a symbol of an object has the fault in this role.
    fn is_charged_as(&self, object: usize, symbol: u32, role: SymbolRole) -> bool
        requires known { IsKnown self.now.names.now }
        requires object { object < length self.now.names.now.objects.now }
        requires symbol { is_named role ≡ true
            → symbol < symbol_count (object_at self.now.names.now.objects.now object) }
        ensures { result ≡ is_charged_as self.now.kind self.now.names.now.objects.now self.now.names.now.startup.now
            object symbol role }
    {
        if matches!(role, SymbolRole::NoSymbol) {
            return false;
        }
        let bound = binding(self.names, object, symbol, imports_as(role));
        match self.kind {
            LinkFaultKind::Undefined => bound.is_none(),
            LinkFaultKind::NotTls => is_unsuited(self.names, role, bound),
            _ => false,
        }
    }

    /// Whether it has the fault in one of these roles.
    fn is_charged(&self, object: usize, symbol: u32, roles: Roles) -> bool
        requires known { IsKnown self.now.names.now }
        requires object { object < length self.now.names.now.objects.now }
        requires symbol { symbol < symbol_count (object_at self.now.names.now.objects.now object) }
        ensures { result ≡ false → IsClear self.now object symbol roles }
    {
        roles.ordinary && self.is_charged_as(object, symbol, SymbolRole::Ordinary)
            || roles.own_variable && self.is_charged_as(object, symbol, SymbolRole::OwnVariable)
            || roles.any_variable && self.is_charged_as(object, symbol, SymbolRole::AnyVariable)
    }
}

impl Question for NameQuestion<'_, '_, '_, '_> {
    ghost about = { IsAbout };

    ghost may_ask = { IsAsked };

    ghost may_ask_in = { IsAskedIn };

    fn may_be_in(&self, number: usize, object: &Object) -> bool {
        for symbol in 0..object.symbol_count() {
            if self.is_charged(number, symbol, object.roles(symbol)) {
                return true;
            }
        }
        false
    }

    fn is_about(&self, found: &Use) -> bool {
        let role = found.relocation.kind.row().symbol;
        self.is_charged_as(found.place.object as usize, found.relocation.symbol, role)
    }
}
