//! Makes images from drafted objects, and writes their dynamic symbols as text.

ghost use Rattle.std.specs.Prelude.{◌≡◌, ◌<◌, ℕ, [], All, IfOk, length, map, slice_index_or};
ghost use Rattle.elf_object.specs.Faults.{IsObject};
ghost use Rattle.tls_symbols.specs.Bindings.{object_at};
ghost use Rattle.tls_symbols.specs.Definitions.{IsWithin};
ghost use Rattle.sequence_match.specs.Sites.{HaveSymbols};

use crate::images::{exports_of, read};
use dynamic_symbols::{defined_symbols, imports, name_size};
use elf_object::Object;
use elf_records::symbol::{STB_WEAK, STT_NOTYPE, STT_TLS};
use elf_records::{Rela, SymbolEntry};
use link_faults::SymbolRef;
use object_builder::{Section, Symbol, object_of};
use sequence_match::{Site, sites};
use std::alloc::{AllocError, Global};
use std::test::Fail;
use tls_symbols::{Bindings, resolve};

/// The section of each object's variables; the second one has its code.
const VARIABLES: u16 = 1;

/// A GLOBAL variable.
pub(crate) fn variable(name: &'static [u8]) -> Symbol<'static> {
    Symbol::global(name, STT_TLS, VARIABLES, 0, 4)
}

/// A GLOBAL name that the object does not define.
pub(crate) fn undefined(name: &'static [u8]) -> Symbol<'static> {
    Symbol::global(name, STT_NOTYPE, 0, 0, 0)
}

/// A LOCAL variable.
pub(crate) fn local(name: &'static [u8]) -> Symbol<'static> {
    Symbol::local(name, STT_TLS, VARIABLES, 4, 4)
}

/// The symbol as a WEAK one.
pub(crate) fn weak(symbol: Symbol<'static>) -> Symbol<'static> {
    let mut symbol = symbol;
    symbol.entry.info = SymbolEntry::info_of(STB_WEAK, symbol.entry.info % 16);
    symbol
}

/// An object with these symbols, this code and its relocations.
pub(crate) fn object(
    alloc: Global,
    symbols: &[Symbol],
    code: &[u8],
    relocations: &[Rela],
) -> Result<Vec<u8>, AllocError> {
    let code = Section::code(code).with(relocations);
    let variables = Section::variables(&[1; 8]);
    object_of(alloc, &[variables, code], symbols)
}

/// An object was read. The call does nothing; it gives a proof this fact.
fn was_read(object: &Object)
    ensures { IsObject object.now }
{
    object.symbol_count();
}

/// The sites of each object.
fn all_sites(alloc: Global, objects: &[Object]) -> Result<Vec<Vec<Site>>, Fail>
    ensures len { IfOk result (λ all. length all.items ≡ length objects.now) }
    ensures symbols { IfOk result (λ all. (o : ℕ) → o < length objects.now
        → HaveSymbols (object_at objects.now o) (slice_index_or (map (λ own. own.items) all.items) o [])) }
{
    let mut all = Vec::new(alloc);
    for object in objects {
        was_read(object);
        let own = sites(alloc, object)?;
        all.push(own)?;
    }
    Ok(all)
}

/// The dynamic symbols of an image: each defined one as OBJECT.SYMBOL, then the names of imports, and how many bytes
/// all names take.
pub(crate) fn said(
    alloc: Global,
    files: &[Vec<u8>],
    images: &[Vec<Vec<u8>>],
) -> Result<String, Fail> {
    let objects = read(alloc, files)?;
    let startup = exports_of(alloc, images)?;
    let bindings = resolve(alloc, objects.as_slice(), startup.as_slice())?;
    all_said(alloc, &bindings, objects.as_slice())
}

/// Adds each symbol as OBJECT.SYMBOL.
fn push_symbols(alloc: Global, text: &mut String, symbols: &[SymbolRef]) -> Result<(), AllocError> {
    for found in symbols {
        text.push_str(format!(in alloc; "{}.{} ", found.object, found.symbol)?.as_str())?;
    }
    Ok(())
}

/// Appends names, each followed by a space.
fn push_names(text: &mut String, names: &[&[u8]]) -> Result<(), AllocError> {
    for name in names {
        for byte in *name {
            text.push(char::from(*byte))?;
        }
        text.push(' ')?;
    }
    Ok(())
}

/// The symbols and the names of imports as text, and how many bytes all names take.
fn told(
    alloc: Global,
    objects: &[Object],
    symbols: &[SymbolRef],
    names: &[&[u8]],
) -> Result<String, Fail>
    requires { All (IsWithin objects.now) symbols.now }
{
    let mut text = String::new(alloc);
    push_symbols(alloc, &mut text, symbols)?;
    text.push_str("/ ")?;
    push_names(&mut text, names)?;
    let size = name_size(objects, symbols, names);
    text.push_str(format!(in alloc; "{size}")?.as_str())?;
    Ok(text)
}

/// The dynamic symbols for some bindings, as text.
fn all_said(alloc: Global, bindings: &Bindings, objects: &[Object]) -> Result<String, Fail>
    requires { objects.now ≡ bindings.now.objects }
{
    let sites = all_sites(alloc, objects)?;
    let symbols = defined_symbols(alloc, objects, bindings)?;
    let names = imports(alloc, objects, bindings, sites.as_slice())?;
    told(alloc, objects, symbols.as_slice(), names.as_slice())
}
