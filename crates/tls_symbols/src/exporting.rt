//! The names that an image exports. Names of thread-local symbols alone are numbered for it.

ghost use Rattle.std.specs.Prelude.{◌≡◌, ◌++◌, ◌<◌, ℕ, List, IfOk, OnOk, length, map};
ghost use Rattle.std.specs.List.{All};
ghost use Rattle.elf_object.specs.Parts.{symbol_count};
ghost use Rattle.tls_symbols.specs.Bindings.{exported_names, object_at};
ghost use Rattle.tls_symbols.specs.Numbers.{Grows};
ghost use Rattle.tls_symbols.specs.Offers.{is_offered, offered_from, offered_in, IsOffer};

use crate::duplicates::is_symbol;
use crate::export_list::Exports;
use crate::firsts::first_among;
use crate::numbers::number_name;
use elf_object::{Object, SymbolBinding, is_tls_place};
use indexmap::IndexSet;
use link_faults::SymbolRef;
use std::alloc::{AllocError, Global};

/// A symbol that an image exports if its name binds to it, and the number of that name.
#[derive(Clone, Copy)]
pub struct Offer {
    pub found: SymbolRef,
    pub number: usize,
}

/// Whether an image exports the name of this symbol if it binds to it: the symbol is thread-local and visible.
fn is_offered(object: &Object, symbol: u32) -> bool
    requires { symbol < symbol_count object.now }
    ensures { result ≡ is_offered object.now symbol }
{
    match object.symbol(symbol) {
        Some(part) if part.binding != SymbolBinding::Local => {
            is_tls_place(object, part.place) && part.visibility.is_visible()
        }
        _ => false,
    }
}

/// Adds such symbols of an object, and numbers their names.
fn push_offers<'a>(
    index: usize,
    object: &Object<'a>,
    names: &mut IndexSet<&'a [u8]>,
    offers: &mut Vec<Offer>,
) -> Result<(), AllocError>
    ensures grows { OnOk result (Grows names.old.keys names.new.keys) }
    ensures found { OnOk result (map (λ offer. offer.found) offers.new.items
        ≡ map (λ offer. offer.found) offers.old.items ++ offered_in index object.now) }
    ensures numbered { OnOk result ((objects : List (List ℕ)) → index < length objects
        → object.now ≡ object_at objects index → All (IsOffer names.old.keys objects) offers.old.items
        → All (IsOffer names.new.keys objects) offers.new.items) }
{
    for symbol in 1..object.symbol_count() {
        if is_offered(object, symbol) {
            let number = number_name(names, object.symbol_name(symbol))?;
            let found = SymbolRef {
                object: index as u64,
                symbol,
            };
            offers.push(Offer { found, number })?;
        }
    }
    Ok(())
}

/// Such symbols of all objects; their names are numbered.
fn offers_of<'a>(
    alloc: Global,
    objects: &[Object<'a>],
    names: &mut IndexSet<&'a [u8]>,
) -> Result<Vec<Offer>, AllocError>
    ensures found { IfOk result (λ offers. map (λ offer. offer.found) offers.items ≡ offered_from 0 objects.now) }
    ensures numbered { IfOk result (λ offers. All (IsOffer names.new.keys objects.now) offers.items) }
{
    let mut offers = Vec::new(alloc);
    for (index, object) in objects.iter().enumerate() {
        push_offers(index, object, names, &mut offers)?;
    }
    Ok(offers)
}

/// The names that an image of these objects exports: those whose definition in the image is thread-local, GLOBAL or
/// WEAK, and of default or protected visibility. Fails only when memory runs out.
pub fn exports<'a>(alloc: Global, objects: &[Object<'a>]) -> Result<Exports<'a>, AllocError>
    ensures { IfOk result (λ exports. exports ≡ exported_names objects.now) }
{
    let mut names = IndexSet::new(alloc);
    let offers = offers_of(alloc, objects, &mut names)?;
    if offers.is_empty() {
        return Ok(Exports::of(Vec::new(alloc)));
    }
    let strong = first_among(alloc, &names, objects, SymbolBinding::Global)?;
    let weak = first_among(alloc, &names, objects, SymbolBinding::Weak)?;
    let mut exported = Vec::new(alloc);
    for offer in &offers {
        let SymbolRef { object, symbol } = offer.found;
        let definition = strong[offer.number].or(weak[offer.number]);
        if is_symbol(definition, object as usize, symbol) {
            exported.push(objects[object as usize].symbol_name(symbol))?;
        }
    }
    Ok(Exports::of(exported))
}
