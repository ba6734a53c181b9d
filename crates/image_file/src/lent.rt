//! What an image lends, taken from the tables of its file.

ghost use Rattle.std.specs.Prelude.{◌≡◌, ◌+◌, ◌<◌, ◌≤◌, length, slice_get, slice_range};
ghost use Rattle.image_faults.specs.Array.{symbol_count};
ghost use Rattle.image_file.specs.Spelled.{name, part_seen, spelled, strings, text_seen};

use crate::part::{ImagePart, TlsPart, class_numbered};
use crate::relocation::{ImageRelocation, relocation_of};
use crate::symbol::{ImageSymbol, symbol_of};
use elf_records::strings::text_at;
use image_faults::Tables;

/// A part that is loaded.
#[tactic(auto, unfolding(crate::specs::Spelled::part))]
pub fn part_in<'a>(tables: &Tables<'a>, number: u64) -> Option<ImagePart<'a>>
    ensures { part_seen result ≡ slice_get (spelled tables.now.bytes.now).parts number }
{
    if tables.places.loads <= number {
        return None;
    }
    let load = tables.load(number);
    let end = load.offset + load.filesz;
    Some(ImagePart {
        class: class_numbered(load.flags),
        address: load.vaddr,
        bytes: &tables.bytes[load.offset as usize..end as usize],
    })
}

/// The TLS segment.
pub fn tls_in(tables: &Tables) -> Option<TlsPart>
    ensures { result ≡ (spelled tables.now.bytes.now).tls }
{
    let segment = tables.tls()?;
    Some(TlsPart {
        address: segment.vaddr,
        initial: segment.filesz,
        size: segment.memsz,
        alignment: segment.align,
    })
}

/// A symbol, without its name.
pub fn symbol_in(tables: &Tables, number: u64) -> Option<ImageSymbol>
    ensures { result ≡ slice_get (spelled tables.now.bytes.now).symbols number }
{
    if tables.places.symbol_count <= number {
        return None;
    }
    Some(symbol_of(tables.symbol(number)))
}

/// The bytes of the names.
fn strings_in<'a>(tables: &Tables<'a>) -> &'a [u8]
    ensures { result.now ≡ strings tables.now.bytes.now }
{
    let end = tables.places.strings + tables.places.strings_size;
    &tables.bytes[tables.places.strings as usize..end as usize]
}

/// The name of a symbol.
fn text_of<'a>(tables: &Tables<'a>, number: u64) -> &'a [u8]
    requires { number < symbol_count tables.now.bytes.now }
    ensures { result.now ≡ name tables.now.bytes.now number }
{
    text_at(strings_in(tables), tables.symbol(number).name as usize)
}

/// The name of a symbol, if there is one of this number.
pub fn name_in<'a>(tables: &Tables<'a>, number: u64) -> Option<&'a [u8]>
    ensures { text_seen result ≡ slice_get (spelled tables.now.bytes.now).names number }
{
    if tables.places.symbol_count <= number {
        return None;
    }
    Some(text_of(tables, number))
}

/// A relocation.
pub fn relocation_in(tables: &Tables, number: u64) -> Option<ImageRelocation>
    ensures { result ≡ slice_get (spelled tables.now.bytes.now).relocations number }
{
    if tables.places.relocation_count <= number {
        return None;
    }
    Some(relocation_of(tables.relocation(number)))
}
