//! The names of an image, and what each stands for.

ghost use Rattle.std.specs.Prelude.{◌≡◌, ◌<◌, ◌^◌, ◌-◌, IfOk, IfSome, false, length};
ghost use Rattle.std.specs.Str.{bytes_eq};
ghost use Rattle.elf_object.specs.Lent.{symbol_binding, symbol_name};
ghost use Rattle.elf_records.specs.declared.symbol.SymbolBinding.TheVariants.{Local};
ghost use Rattle.elf_object.specs.Parts.{symbol_count};
ghost use Rattle.tls_symbols.specs.Bindings.{bound_to, is_tls_symbol, may, object_at, IsBindingWithin};
ghost use Rattle.elf_records.specs.Symbols.{get_address};
ghost use Rattle.tls_symbols.specs.Definitions.{definition_of, same_binding, IsWithin};
ghost use Rattle.tls_symbols.specs.Known.{IsKnown, binding_at, definition_at, imported_at};
ghost use Rattle.tls_symbols.specs.Numbers.{IsNumbered};

use crate::export_list::Exports;
use crate::firsts::{first_definitions, first_exports};
use crate::imports::Imports;
use crate::numbers::{KnownSymbol, Numbers, number_names};
use elf_object::{Object, SymbolBinding};
use link_faults::{Binding, SymbolRef};
use std::alloc::{AllocError, Global};

/// An image's names: their numbers, and for each number what it stands for.
#[derive(Drop)]
pub struct ImageNames<'l, 's, 'a> {
    pub objects: &'l [Object<'a>],
    pub startup: &'s [Exports<'a>],
    pub numbers: Numbers<'a>,
    pub strong: Vec<Option<SymbolRef>>,
    pub weak: Vec<Option<SymbolRef>>,
    pub imported: Vec<Option<u32>>,
}

/// Numbers the names of an image of these objects, and finds what each stands for beside these startup images.
pub fn know_names<'l, 's, 'a>(
    alloc: Global,
    objects: &'l [Object<'a>],
    startup: &'s [Exports<'a>],
) -> Result<ImageNames<'l, 's, 'a>, AllocError>
    requires few { length startup.now < 2 ^ 32 - 1 }
    ensures known { IfOk result IsKnown }
    ensures objects { IfOk result (λ names. names.objects.now ≡ objects.now) }
    ensures startup { IfOk result (λ names. names.startup.now ≡ startup.now) }
{
    let numbers = number_names(alloc, objects, startup)?;
    let strong = first_definitions(alloc, &numbers, objects, SymbolBinding::Global)?;
    let weak = first_definitions(alloc, &numbers, objects, SymbolBinding::Weak)?;
    let imported = first_exports(alloc, &numbers, startup)?;
    Ok(ImageNames {
        objects,
        startup,
        numbers,
        strong,
        weak,
        imported,
    })
}

/// The definition of the name with this number: the first GLOBAL one, else the first WEAK one.
fn definition_at(names: &ImageNames, number: usize) -> Option<SymbolRef>
    ensures { result ≡ definition_at names.now number }
{
    match names.strong.get(number) {
        Some(Some(strong)) => Some(*strong),
        _ => match names.weak.get(number) {
            Some(weak) => *weak,
            None => None,
        },
    }
}

/// The definition that a name binds to.
pub fn definition_named(names: &ImageNames, name: &[u8]) -> Option<SymbolRef>
    requires { IsKnown names.now }
    ensures definition { result ≡ definition_of names.now.objects.now name.now }
    ensures within { IfSome result (IsWithin names.now.objects.now) }
{
    match names.numbers.names.get_index_of(name) {
        Some(number) => definition_at(names, number),
        None => None,
    }
}

/// The number of a symbol's name, and whether the symbol is thread-local.
fn symbol_at(names: &ImageNames, object: usize, symbol: u32) -> KnownSymbol
    requires known { IsKnown names.now }
    requires object { object < length names.now.objects.now }
    requires symbol { symbol < symbol_count (object_at names.now.objects.now object) }
    ensures { IsNumbered names.now.numbers.names.keys (object_at names.now.objects.now object) symbol result }
{
    let own = &names.numbers.symbols[object];
    own[symbol as usize]
}

/// Whether a symbol of the image is thread-local.
pub fn is_tls(names: &ImageNames, found: SymbolRef) -> bool
    requires known { IsKnown names.now }
    requires within { IsWithin names.now.objects.now found }
    ensures { result ≡ is_tls_symbol (object_at names.now.objects.now found.object) found.symbol }
{
    symbol_at(names, found.object as usize, found.symbol).is_tls
}

/// The definition that the name of a symbol binds to, if the symbol is not LOCAL.
pub fn symbol_definition(names: &ImageNames, object: usize, symbol: u32) -> Option<SymbolRef>
    requires known { IsKnown names.now }
    requires object { object < length names.now.objects.now }
    requires symbol { symbol < symbol_count (object_at names.now.objects.now object) }
    requires shared { same_binding Local (symbol_binding (object_at names.now.objects.now object) symbol) ≡ false }
    ensures definition { result ≡ definition_of names.now.objects.now
        (symbol_name (object_at names.now.objects.now object) symbol) }
    ensures within { IfSome result (IsWithin names.now.objects.now) }
{
    match symbol_at(names, object, symbol).name {
        Some(number) => definition_at(names, number),
        None => None,
    }
}

/// Whether a symbol is not LOCAL and has the name of the run time's function.
pub fn is_run_time(names: &ImageNames, object: usize, symbol: u32) -> bool
    requires known { IsKnown names.now }
    requires object { object < length names.now.objects.now }
    requires symbol { symbol < symbol_count (object_at names.now.objects.now object) }
    requires shared { same_binding Local (symbol_binding (object_at names.now.objects.now object) symbol) ≡ false }
    ensures { result ≡ bytes_eq (symbol_name (object_at names.now.objects.now object) symbol) get_address }
{
    match symbol_at(names, object, symbol).name {
        Some(number) => number == 0,
        None => false,
    }
}

/// The first startup image that exports the name with this number.
fn imported_at(names: &ImageNames, number: usize) -> Option<Binding>
    ensures { result ≡ imported_at names.now number }
{
    match names.imported.get(number) {
        Some(Some(image)) => Some(Binding::Startup(*image)),
        _ => None,
    }
}

/// What the name with this number is bound to, by whether it may be another image's variable.
fn binding_at(names: &ImageNames, number: usize, imports: Imports) -> Option<Binding>
    ensures { result ≡ binding_at names.now number (may imports) }
{
    if number == 0 {
        return Some(Binding::Runtime);
    }
    match (definition_at(names, number), imports) {
        (Some(found), _) => Some(Binding::Here(found)),
        (None, Imports::Yes) => imported_at(names, number),
        (None, Imports::No) => None,
    }
}

/// What a symbol of an object is bound to, by whether it may be another image's variable. A LOCAL one is bound to
/// itself.
#[tactic(auto, unfolding(crate::specs::Bindings::bound_to))]
pub fn binding(names: &ImageNames, object: usize, symbol: u32, imports: Imports) -> Option<Binding>
    requires known { IsKnown names.now }
    requires object { object < length names.now.objects.now }
    requires symbol { symbol < symbol_count (object_at names.now.objects.now object) }
    ensures binding { result ≡ bound_to names.now.objects.now names.now.startup.now object symbol (may imports) }
    ensures within { IfSome result (IsBindingWithin names.now.objects.now) }
{
    match symbol_at(names, object, symbol).name {
        Some(number) => binding_at(names, number, imports),
        None => Some(Binding::Here(SymbolRef {
            object: object as u64,
            symbol,
        })),
    }
}
