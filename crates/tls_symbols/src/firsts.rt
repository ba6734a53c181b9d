//! Tables by name number: the first definition of each name, and the first startup image that exports it.

ghost use Rattle.std.specs.Prelude.{◌≡◌, ◌<◌, ◌-◌, ◌^◌, ◌&&◌, false, IfOk, IfSome, MatchOption, length, map};
ghost use Rattle.elf_object.specs.Lent.{symbol_binding, symbol_place};
ghost use Rattle.elf_object.specs.Parts.{symbol_count};
ghost use Rattle.elf_records.specs.declared.symbol.SymbolBinding.TheVariants.{Local};
ghost use Rattle.tls_symbols.specs.Definitions.{is_defined, same_binding};
ghost use Rattle.tls_symbols.specs.Offers.{NotesAmong, TellsAmong};
ghost use Rattle.tls_symbols.specs.Numbers.{NotesDefinitions, NotesExports, TellsExports, own_numbers, with_first};
ghost use Rattle.tls_symbols.specs.Numbers.{AllListed, AllNumbered, AreListed, AreNumbered, TellsDefinitions};

use crate::export_list::Exports;
use crate::numbers::Numbers;
use elf_object::{Object, SymbolBinding, SymbolPlace};
use indexmap::IndexSet;
use link_faults::SymbolRef;
use std::alloc::{AllocError, Global};

/// Enters a definition of a name, unless the table has one. The name of a LOCAL symbol has no number.
fn note_definition(table: &mut [Option<SymbolRef>], name: Option<usize>, found: SymbolRef)
    requires { IfSome name (λ number. number < length table.old) }
    ensures { MatchOption name (table.new ≡ table.old) (λ number. table.new ≡ with_first table.old number found) }
{
    if let Some(number) = name {
        table[number] = table[number].or(Some(found));
    }
}

/// Enters a startup image for a name, unless the table has one.
fn note_image(table: &mut [Option<u32>], number: usize, image: u32)
    requires { number < length table.old }
    ensures { table.new ≡ with_first table.old number image }
{
    table[number] = table[number].or(Some(image));
}

/// Whether a symbol defines its name, with this binding.
fn is_definition(object: &Object, number: u32, binding: SymbolBinding) -> bool
    requires { number < symbol_count object.now }
    ensures { result ≡ (same_binding binding (symbol_binding object.now number)
        && is_defined (symbol_place object.now number)) }
{
    match object.symbol(number) {
        Some(part) => part.binding == binding && part.place != SymbolPlace::Undefined,
        None => false,
    }
}

/// Enters the definitions of an object with this binding.
fn note_object(
    numbers: &Numbers,
    index: usize,
    object: &Object,
    binding: SymbolBinding,
    table: &mut [Option<SymbolRef>],
)
    requires numbered { AreNumbered numbers.now.names.keys object.now (own_numbers numbers.now.symbols.items index) }
    requires there { index < length numbers.now.symbols.items }
    requires shared { same_binding Local binding ≡ false }
    requires len { length table.old ≡ length numbers.now.names.keys }
    ensures { NotesDefinitions numbers.now.names.keys binding index object.now table.old table.new }
{
    let own = &numbers.symbols[index];
    for symbol in 1..object.symbol_count() {
        if is_definition(object, symbol, binding) {
            let found = SymbolRef {
                object: index as u64,
                symbol,
            };
            note_definition(table, own[symbol as usize].name, found);
        }
    }
}

/// The first definition of each name, with this binding.
pub fn first_definitions(
    alloc: Global,
    numbers: &Numbers,
    objects: &[Object],
    binding: SymbolBinding,
) -> Result<Vec<Option<SymbolRef>>, AllocError>
    requires numbered { AllNumbered numbers.now.names.keys objects.now
        (map (λ own. own.items) numbers.now.symbols.items) }
    requires shared { same_binding Local binding ≡ false }
    ensures { IfOk result (λ table. TellsDefinitions numbers.now.names.keys binding objects.now table.items) }
{
    let mut table = vec![in alloc; None; numbers.names.len()]?;
    for (index, object) in objects.iter().enumerate() {
        note_object(numbers, index, object, binding, &mut table);
    }
    Ok(table)
}

/// Enters the definitions of an object with this binding, of names that have a number.
fn note_among(
    names: &IndexSet<&[u8]>,
    index: usize,
    object: &Object,
    binding: SymbolBinding,
    table: &mut [Option<SymbolRef>],
)
    requires { length table.old ≡ length names.now.keys }
    ensures { NotesAmong names.now.keys binding index object.now table.old table.new }
{
    for symbol in 1..object.symbol_count() {
        if is_definition(object, symbol, binding) {
            let found = SymbolRef {
                object: index as u64,
                symbol,
            };
            let number = names.get_index_of(object.symbol_name(symbol));
            note_definition(table, number, found);
        }
    }
}

/// The first definition of each of these names, with this binding.
pub fn first_among(
    alloc: Global,
    names: &IndexSet<&[u8]>,
    objects: &[Object],
    binding: SymbolBinding,
) -> Result<Vec<Option<SymbolRef>>, AllocError>
    ensures { IfOk result (λ table. TellsAmong names.now.keys binding objects.now table.items) }
{
    let mut table = vec![in alloc; None; names.len()]?;
    for (index, object) in objects.iter().enumerate() {
        note_among(names, index, object, binding, &mut table);
    }
    Ok(table)
}

/// Enters what a startup image exports.
fn note_exports(
    numbers: &Numbers,
    index: usize,
    exports: &Exports,
    image: u32,
    table: &mut [Option<u32>],
)
    requires listed { AreListed numbers.now.names.keys exports.now (own_numbers numbers.now.exported.items index) }
    requires there { index < length numbers.now.exported.items }
    requires len { length table.old ≡ length numbers.now.names.keys }
    ensures { NotesExports numbers.now.names.keys image exports.now table.old table.new }
{
    for number in &numbers.exported[index] {
        note_image(table, *number, image);
    }
}

/// The first startup image that exports each name; image 1 is the program.
pub fn first_exports(
    alloc: Global,
    numbers: &Numbers,
    startup: &[Exports],
) -> Result<Vec<Option<u32>>, AllocError>
    requires few { length startup.now < 2 ^ 32 - 1 }
    requires listed { AllListed numbers.now.names.keys startup.now (map (λ own. own.items) numbers.now.exported.items) }
    ensures { IfOk result (λ table. TellsExports numbers.now.names.keys startup.now table.items) }
{
    let mut table = vec![in alloc; None; numbers.names.len()]?;
    for (index, exports) in startup.iter().enumerate() {
        note_exports(numbers, index, exports, index as u32 + 1, &mut table);
    }
    Ok(table)
}
