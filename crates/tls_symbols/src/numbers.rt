//! The numbers of names: each name is hashed once, and is a number from then on.

ghost use Rattle.std.specs.Prelude.{◌≡◌, ◌<◌, length, map, min, slice_index_or, sum_by, IfOk, OnOk};
ghost use Rattle.elf_object.specs.Lent.{symbol_binding};
ghost use Rattle.elf_object.specs.Parts.{symbol_count};
ghost use Rattle.elf_records.specs.Symbols.{get_address};
ghost use Rattle.tls_symbols.specs.Numbers.{AllListed, AllNumbered, AreListed, AreNumbered, Grows, IsNumberOf};
ghost use Rattle.tls_symbols.specs.Numbers.{IsNamed, IsNumbered};

use crate::export_list::Exports;
use elf_object::{Object, SymbolBinding, SymbolPart, is_tls_place};
use elf_records::symbol::GET_ADDRESS_NAME;
use indexmap::IndexSet;
use std::alloc::{AllocError, Global};

/// What is kept of a symbol.
#[derive(Clone, Copy)]
pub struct KnownSymbol {
    /// The number of its name; `None` for a LOCAL one, whose name is not read.
    pub name: Option<usize>,
    /// Whether it is thread-local.
    pub is_tls: bool,
}

/// The names of an image, each with a number, and the numbers that its symbols and its startup images use.
#[derive(Drop)]
pub struct Numbers<'a> {
    /// All names, each once. The first is the run time's function.
    pub names: IndexSet<&'a [u8]>,
    /// For each symbol of each object, what is kept of it.
    pub symbols: Vec<Vec<KnownSymbol>>,
    /// For each startup image, the numbers of the names that it exports.
    pub exported: Vec<Vec<usize>>,
}

/// The number of symbols in all objects together, or `usize::MAX` if there are more. A table of names with this
/// capacity need not grow.
pub fn symbol_total(objects: &[Object]) -> usize
    ensures { result ≡ min (sum_by symbol_count objects.now) usize.MAX }
{
    let mut total: usize = 0;
    for object in objects {
        total = total.saturating_add(object.symbol_count() as usize);
    }
    total
}

/// The names of an image before any is added: only the run time's function. There is room for `room` more.
fn first_names<'a>(alloc: Global, room: usize) -> Result<IndexSet<&'a [u8]>, AllocError>
    ensures { IfOk result (λ names. IsNumberOf names.keys get_address 0) }
{
    let mut names = IndexSet::with_capacity(alloc, room.saturating_add(1))?;
    names.insert(GET_ADDRESS_NAME)?;
    Ok(names)
}

/// The number of a name.
pub fn number_name<'a>(names: &mut IndexSet<&'a [u8]>, name: &'a [u8]) -> Result<usize, AllocError>
    ensures number { IfOk result (IsNumberOf names.new.keys name.now) }
    ensures grows { OnOk result (Grows names.old.keys names.new.keys) }
{
    let (number, _) = names.insert_full(name)?;
    Ok(number)
}

/// The number of a symbol's name; `None` for a LOCAL symbol, whose name is not read.
fn number_symbol<'a>(
    object: &Object<'a>,
    symbol: u32,
    part: &SymbolPart,
    names: &mut IndexSet<&'a [u8]>,
) -> Result<Option<usize>, AllocError>
    requires symbol { symbol < symbol_count object.now }
    requires binding { part.now.binding ≡ symbol_binding object.now symbol }
    ensures number { IfOk result (IsNamed names.new.keys object.now symbol) }
    ensures grows { OnOk result (Grows names.old.keys names.new.keys) }
{
    if part.binding == SymbolBinding::Local {
        return Ok(None);
    }
    let number = number_name(names, object.symbol_name(symbol))?;
    Ok(Some(number))
}

/// Numbers a symbol's name, and says whether the symbol is thread-local.
fn know_symbol<'a>(
    object: &Object<'a>,
    symbol: u32,
    names: &mut IndexSet<&'a [u8]>,
) -> Result<KnownSymbol, AllocError>
    requires { symbol < symbol_count object.now }
    ensures known { IfOk result (IsNumbered names.new.keys object.now symbol) }
    ensures grows { OnOk result (Grows names.old.keys names.new.keys) }
{
    match object.symbol(symbol) {
        Some(part) => {
            let name = number_symbol(object, symbol, &part, names)?;
            let is_tls = is_tls_place(object, part.place);
            Ok(KnownSymbol { name, is_tls })
        }
        None => Ok(KnownSymbol {
            name: None,
            is_tls: false,
        }),
    }
}

/// Numbers the names of an object's symbols.
fn number_symbols<'a>(
    alloc: Global,
    object: &Object<'a>,
    names: &mut IndexSet<&'a [u8]>,
) -> Result<Vec<KnownSymbol>, AllocError>
    ensures numbers { IfOk result (λ numbers. AreNumbered names.new.keys object.now numbers.items) }
    ensures grows { OnOk result (Grows names.old.keys names.new.keys) }
{
    let mut numbers = Vec::with_capacity(alloc, object.symbol_count() as usize)?;
    for symbol in 0..object.symbol_count() {
        let known = know_symbol(object, symbol, names)?;
        numbers.push(known)?;
    }
    Ok(numbers)
}

/// Numbers the names of all objects' symbols.
fn number_objects<'a>(
    alloc: Global,
    objects: &[Object<'a>],
    names: &mut IndexSet<&'a [u8]>,
) -> Result<Vec<Vec<KnownSymbol>>, AllocError>
    ensures numbers { IfOk result (λ numbers.
        AllNumbered names.new.keys objects.now (map (λ own. own.items) numbers.items)) }
    ensures grows { OnOk result (Grows names.old.keys names.new.keys) }
{
    let mut numbers = Vec::with_capacity(alloc, objects.len())?;
    for object in objects {
        let own = number_symbols(alloc, object, names)?;
        numbers.push(own)?;
    }
    Ok(numbers)
}

/// The numbers of these names.
fn number_list<'a>(
    alloc: Global,
    listed: &[&'a [u8]],
    names: &mut IndexSet<&'a [u8]>,
) -> Result<Vec<usize>, AllocError>
    ensures numbers { IfOk result (λ numbers.
        AreListed names.new.keys (map (λ name. name.now) listed.now) numbers.items) }
    ensures grows { OnOk result (Grows names.old.keys names.new.keys) }
{
    let mut numbers = Vec::new(alloc);
    for name in listed {
        let number = number_name(names, name)?;
        numbers.push(number)?;
    }
    Ok(numbers)
}

/// Numbers the names of an image: first the run time's function, then what startup images export, then its symbols'
/// names.
pub fn number_names<'a>(
    alloc: Global,
    objects: &[Object<'a>],
    startup: &[Exports<'a>],
) -> Result<Numbers<'a>, AllocError>
    ensures run_time { IfOk result (λ n. IsNumberOf n.names.keys get_address 0) }
    ensures symbols { IfOk result (λ n. AllNumbered n.names.keys objects.now (map (λ own. own.items) n.symbols.items)) }
    ensures exported { IfOk result (λ n. AllListed n.names.keys startup.now (map (λ own. own.items) n.exported.items)) }
{
    let mut names = first_names(alloc, symbol_total(objects))?;
    let mut exported = Vec::new(alloc);
    for exports in startup {
        let own = number_list(alloc, exports.names(), &mut names)?;
        exported.push(own)?;
    }
    let symbols = number_objects(alloc, objects, &mut names)?;
    Ok(Numbers {
        names,
        symbols,
        exported,
    })
}
