//! The symbols that an image defines for others.

ghost use Rattle.std.specs.Prelude.{◌≡◌, ◌<◌, false, IfOk, OnOk, length};
ghost use Rattle.std.specs.List.{All};
ghost use Rattle.elf_object.specs.Lent.{symbol_binding, symbol_name};
ghost use Rattle.elf_records.specs.declared.symbol.SymbolBinding.TheVariants.{Local};
ghost use Rattle.elf_object.specs.Parts.{symbol_count};
ghost use Rattle.tls_symbols.specs.Bindings.{object_at};
ghost use Rattle.tls_symbols.specs.Definitions.{same_binding, IsWithin};
ghost use Rattle.dynamic_symbols.specs.Found.{names_of, IsBound, with_name, with_names};
ghost use Rattle.dynamic_symbols.specs.Names.{defined_in, defined_symbols, is_definition};

use elf_object::{Object, SymbolBinding, SymbolPlace};
use indexmap::IndexSet;
use link_faults::SymbolRef;
use std::alloc::{AllocError, Global};
use tls_symbols::{Bindings, symbol_total};

/// What the walk has found so far.
#[derive(Drop)]
struct Found<'a> {
    /// The defined names, each once.
    names: IndexSet<&'a [u8]>,
    /// The definition that each name binds to.
    symbols: Vec<SymbolRef>,
}

/// Whether a symbol is GLOBAL or WEAK and defines its name.
fn is_definition(object: &Object, number: u32) -> bool
    requires { number < symbol_count object.now }
    ensures { result ≡ is_definition object.now number }
{
    match object.symbol(number) {
        Some(part) => {
            part.binding != SymbolBinding::Local && part.place != SymbolPlace::Undefined
        }
        None => false,
    }
}

/// Adds the name of a symbol that defines it and, if the name is new, the definition that it binds to.
fn add_name<'a>(
    bindings: &Bindings,
    index: usize,
    object: &Object<'a>,
    symbol: u32,
    found: &mut Found<'a>,
) -> Result<(), AllocError>
    requires object { index < length bindings.now.objects }
    requires here { object.now ≡ object_at bindings.now.objects index }
    requires symbol { symbol < symbol_count object.now }
    requires shared { same_binding Local (symbol_binding object.now symbol) ≡ false }
    requires bound { IsBound bindings.now.objects found.old }
    ensures names { OnOk result (names_of found.new ≡ with_name (names_of found.old) (symbol_name object.now symbol)) }
    ensures bound { OnOk result (IsBound bindings.now.objects found.new) }
{
    if found.names.insert(object.symbol_name(symbol))? {
        if let Some(definition) = bindings.symbol_definition(index, symbol) {
            found.symbols.push(definition)?;
        }
    }
    Ok(())
}

/// Adds the names that an object defines, and the definitions that they bind to.
fn add_defined<'a>(
    bindings: &Bindings,
    index: usize,
    object: &Object<'a>,
    found: &mut Found<'a>,
) -> Result<(), AllocError>
    requires object { index < length bindings.now.objects }
    requires here { object.now ≡ object_at bindings.now.objects index }
    requires bound { IsBound bindings.now.objects found.old }
    ensures names { OnOk result (names_of found.new ≡ with_names (names_of found.old) (defined_in object.now)) }
    ensures bound { OnOk result (IsBound bindings.now.objects found.new) }
{
    for symbol in 1..object.symbol_count() {
        if is_definition(object, symbol) {
            add_name(bindings, index, object, symbol, found)?;
        }
    }
    Ok(())
}

/// The symbols that an image of these objects defines for others. For each name that some GLOBAL or WEAK symbol
/// defines, this is the definition that the name binds to. They are in the order of the first symbols that define their
/// names. Fails only when memory runs out.
pub fn defined_symbols(
    alloc: Global,
    objects: &[Object],
    bindings: &Bindings,
) -> Result<Vec<SymbolRef>, AllocError>
    requires { objects.now ≡ bindings.now.objects }
    ensures symbols { IfOk result (λ symbols. symbols.items ≡ defined_symbols objects.now) }
    ensures within { IfOk result (λ symbols. All (IsWithin objects.now) symbols.items) }
{
    let total = symbol_total(objects);
    let mut found = Found {
        names: IndexSet::with_capacity(alloc, total)?,
        symbols: Vec::with_capacity(alloc, total)?,
    };
    for (index, object) in objects.iter().enumerate() {
        add_defined(bindings, index, object, &mut found)?;
    }
    Ok(found.symbols)
}
