//! The first symbol that defines a name again.

ghost use Rattle.std.specs.Prelude.{◌≡◌, ◌-◌, ◌<◌, MatchOption, false, length};
ghost use Rattle.std.specs.List.{find, range_with_len};
ghost use Rattle.elf_object.specs.Lent.{symbol_binding, symbol_name};
ghost use Rattle.elf_object.specs.Parts.{symbol_count, symbol_table};
ghost use Rattle.elf_records.specs.declared.symbol.SymbolBinding.TheVariants.{Local};
ghost use Rattle.tls_symbols.specs.Bindings.{is_symbol, object_at};
ghost use Rattle.tls_symbols.specs.Definitions.{same_binding};
ghost use Rattle.tls_symbols.specs.Faults.{is_duplicate, IsFirstDuplicate, NoDuplicate};
ghost use Rattle.tls_symbols.specs.Known.{IsKnown};

use crate::image_names::{ImageNames, is_run_time, symbol_definition};
use elf_object::{Object, SymbolBinding, SymbolPlace};
use link_faults::{Place, SymbolRef};

/// Whether the definition is this symbol of this object.
pub fn is_symbol(definition: Option<SymbolRef>, object: usize, symbol: u32) -> bool
    ensures { result ≡ is_symbol definition object symbol }
{
    match definition {
        Some(found) => found.object == object as u64 && found.symbol == symbol,
        None => false,
    }
}

/// Whether a symbol is a second GLOBAL definition of its name, or defines the function of the run time for other
/// objects.
fn is_duplicate(names: &ImageNames, index: usize, object: &Object, symbol: u32) -> bool
    requires known { IsKnown names.now }
    requires object { index < length names.now.objects.now }
    requires here { object.now ≡ object_at names.now.objects.now index }
    requires symbol { symbol < symbol_count object.now }
    ensures { result ≡ is_duplicate names.now.objects.now index object.now symbol }
{
    match object.symbol(symbol) {
        Some(part) if part.place != SymbolPlace::Undefined => match part.binding {
            SymbolBinding::Global => {
                !is_symbol(symbol_definition(names, index, symbol), index, symbol)
                    || is_run_time(names, index, symbol)
            }
            SymbolBinding::Weak => is_run_time(names, index, symbol),
            SymbolBinding::Local => false,
        },
        _ => false,
    }
}

/// The first such symbol of an object.
#[tactic(auto, using(crate::proofs::Search::find_here, crate::proofs::Search::find_later, crate::proofs::Search::find_none))]
fn first_duplicate_in(names: &ImageNames, index: usize, object: &Object) -> Option<u64>
    requires known { IsKnown names.now }
    requires object { index < length names.now.objects.now }
    requires here { object.now ≡ object_at names.now.objects.now index }
    ensures { result ≡ find (is_duplicate names.now.objects.now index object.now)
        (range_with_len 1 (symbol_count object.now - 1)) }
{
    for symbol in 1..object.symbol_count() {
        if is_duplicate(names, index, object, symbol) {
            return Some(u64::from(symbol));
        }
    }
    None
}

/// The section that holds an object's symbols; 0 if there is none.
fn symbol_table(object: &Object) -> u64
    ensures { result ≡ symbol_table object.now }
{
    match object.symbol_table() {
        Some(table) => u64::from(table),
        None => 0,
    }
}

/// The first such symbol of all objects.
pub fn first_duplicate(names: &ImageNames) -> Option<Place>
    requires { IsKnown names.now }
    ensures { MatchOption result (NoDuplicate names.now.objects.now)
        (λ place. IsFirstDuplicate names.now.objects.now place.object place.section place.entry) }
{
    for (index, object) in names.objects.iter().enumerate() {
        if let Some(entry) = first_duplicate_in(names, index, object) {
            return Some(Place {
                object: index as u64,
                section: symbol_table(object),
                entry,
            });
        }
    }
    None
}
