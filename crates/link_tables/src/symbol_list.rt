//! The symbols of an image: those that it defines, those that it imports, and the function of the run time.

ghost use Rattle.std.specs.Prelude.{◌≡◌, ◌++◌, ℕ, List, IfOk, OnOk, map, if◌then◌else◌};
ghost use Rattle.std.specs.List.{All};
ghost use Rattle.tls_symbols.specs.Definitions.{IsWithin};
ghost use Rattle.dynamic_symbols.specs.Names.{name_of};
ghost use Rattle.elf_records.specs.declared.symbol.SymbolType.TheVariants.{Tls};
ghost use Rattle.link_tables.specs.Dynamic.{defined, foreign, names, runtime_names, runtime_symbols, symbols};
ghost use Rattle.link_tables.specs.FaultLaws.{names_in, symbols_in};
ghost use Rattle.link_needs.specs.Linking.{address, offset};

use crate::tables::Tables;
use elf_object::is_tls_place;
use elf_records::symbol::GET_ADDRESS_NAME;
use elf_records::{SymbolBinding, SymbolType, Visibility};
use got_pairs::Need;
use image_file::ImageSymbol;
use image_writer::NamedSymbol;
use link_faults::SymbolRef;
use link_needs::Inputs;
use std::alloc::{AllocError, Global};

/// A symbol of another image.
fn foreign(kind: SymbolType) -> ImageSymbol
    ensures { result ≡ foreign kind }
{
    ImageSymbol {
        binding: SymbolBinding::Global,
        kind,
        visibility: Visibility::Default,
        is_defined: false,
        value: 0,
        size: 0,
    }
}

/// A symbol's type in the image. It is TLS for a thread-local symbol, whatever type its object says.
fn kind_of(is_thread_local: bool, kind: SymbolType) -> SymbolType
    ensures { result ≡ (if is_thread_local then Tls else kind) }
{
    if is_thread_local {
        SymbolType::Tls
    } else {
        kind
    }
}

/// A symbol's value in the image: its address, or for a thread-local symbol its offset in the TLS segment.
fn value_of(inputs: &Inputs, is_thread_local: bool, found: SymbolRef) -> u64
    requires { IsWithin inputs.now.objects found }
    ensures { result ≡ (if is_thread_local then offset inputs.now found else address inputs.now found) }
{
    if is_thread_local {
        inputs.offset(found)
    } else {
        inputs.address(found)
    }
}

/// A symbol that the image defines.
#[tactic(auto, unfolding(crate::specs::Dynamic::defined))]
fn defined(inputs: &Inputs, found: SymbolRef) -> ImageSymbol
    requires { IsWithin inputs.now.objects found }
    ensures { result ≡ defined inputs.now found }
{
    let object = inputs.object(found.object as usize);
    let Some(part) = object.symbol(found.symbol) else {
        return foreign(SymbolType::NoType);
    };
    let is_thread_local = is_tls_place(object, part.place);
    ImageSymbol {
        binding: part.binding,
        kind: kind_of(is_thread_local, part.kind),
        visibility: part.visibility,
        is_defined: true,
        value: value_of(inputs, is_thread_local, found),
        size: part.size,
    }
}

/// All symbols from number 1 on, with their names: those that the image defines, the imports, and the function of the
/// run time if it is called through its word.
#[tactic(auto, unfolding(crate::specs::Dynamic::symbols, crate::specs::Dynamic::names))]
pub fn symbols<'a>(
    alloc: Global,
    tables: &Tables<'_, '_, 'a>,
) -> Result<Vec<NamedSymbol<'a>>, AllocError>
    ensures symbols { IfOk result (λ all. symbols_in all.items ≡ symbols tables.now) }
    ensures names { IfOk result (λ all. names_in all.items ≡ names tables.now) }
{
    let plan = &tables.plan;
    let mut all = Vec::new(alloc);
    push_own(&plan.inputs, tables.own.as_slice(), &mut all)?;
    push_imports(tables.imports.as_slice(), &mut all)?;
    push_runtime(plan.got.start(&Need::RuntimeWord).is_some(), &mut all)?;
    Ok(all)
}

/// Adds the symbols that the image defines.
fn push_own<'a>(
    inputs: &Inputs<'_, '_, 'a>,
    own: &[SymbolRef],
    all: &mut Vec<NamedSymbol<'a>>,
) -> Result<(), AllocError>
    requires { All (IsWithin inputs.now.objects) own.now }
    ensures symbols { OnOk result
        (symbols_in all.new.items ≡ symbols_in all.old.items ++ map (defined inputs.now) own.now) }
    ensures names { OnOk result
        (names_in all.new.items ≡ names_in all.old.items ++ map (name_of inputs.now.objects) own.now) }
{
    for found in own {
        all.push(NamedSymbol {
            symbol: defined(inputs, *found),
            name: inputs
                .object(found.object as usize)
                .symbol_name(found.symbol),
        })?;
    }
    Ok(())
}

/// Adds a symbol for each of these imports.
fn push_imports<'a>(names: &[&'a [u8]], all: &mut Vec<NamedSymbol<'a>>) -> Result<(), AllocError>
    ensures symbols { OnOk result (symbols_in all.new.items
        ≡ symbols_in all.old.items
        ++ map (λ (name : List ℕ). foreign Tls) (map (λ name. name.now) names.now)) }
    ensures names { OnOk result (names_in all.new.items ≡ names_in all.old.items ++ map (λ name. name.now) names.now) }
{
    for name in names {
        all.push(NamedSymbol {
            symbol: foreign(SymbolType::Tls),
            name: *name,
        })?;
    }
    Ok(())
}

/// Adds the function of the run time, if it is called through its word.
fn push_runtime(is_used: bool, all: &mut Vec<NamedSymbol>) -> Result<(), AllocError>
    ensures symbols { OnOk result (symbols_in all.new.items ≡ symbols_in all.old.items ++ runtime_symbols is_used) }
    ensures names { OnOk result (names_in all.new.items ≡ names_in all.old.items ++ runtime_names is_used) }
{
    if is_used {
        all.push(NamedSymbol {
            symbol: foreign(SymbolType::NoType),
            name: GET_ADDRESS_NAME,
        })?;
    }
    Ok(())
}
