//! The names of sections and symbols. Each is found on request, in as many steps as it has bytes.

ghost use Rattle.std.specs.Prelude.{◌≡◌, ◌<◌, ◌≤◌, MatchOption, length};
ghost use Rattle.elf_object.specs.Parts.{section as section_header, symbol_count, symbol_table};
ghost use Rattle.elf_object.specs.Lent.{section_bytes, symbol_name};
ghost use Rattle.elf_object.specs.LentLaws.{section_name};

use crate::part::bytes_of;
use elf_records::strings::{short_text_at, text_at};
use object_faults::Tables;

/// The name of a section.
#[tactic(auto, unfolding(crate::specs::LentLaws::section_name))]
pub fn section_name<'a>(tables: &Tables<'a>, number: u64) -> &'a [u8]
    requires { number < tables.now.count }
    ensures { result.now ≡ section_name tables.now.bytes.now number }
{
    if number == 0 {
        return &[];
    }
    let names = bytes_of(tables, tables.names);
    text_at(names, tables.section(number).name as usize)
}

/// The bytes of the string table that holds the names of symbols.
fn symbol_strings<'a>(tables: &Tables<'a>) -> &'a [u8]
    requires { 0 < tables.now.symbols.table }
    ensures { result.now ≡ section_bytes tables.now.bytes.now
        (section_header tables.now.bytes.now (symbol_table tables.now.bytes.now)).link }
{
    bytes_of(tables, u64::from(tables.section(tables.symbols.table).link))
}

/// The name of a symbol.
#[tactic(auto, unfolding(crate::specs::Lent::symbol_name))]
pub fn symbol_name<'a>(tables: &Tables<'a>, number: u64) -> &'a [u8]
    requires { number < symbol_count tables.now.bytes.now }
    ensures { result.now ≡ symbol_name tables.now.bytes.now number }
{
    if number == 0 {
        return &[];
    }
    text_at(symbol_strings(tables), tables.symbol(number).name as usize)
}

/// The name of a symbol, if it has at most `limit` bytes. No byte after the limit is read.
#[tactic(auto, unfolding(crate::specs::Lent::symbol_name))]
pub fn short_symbol_name<'a>(tables: &Tables<'a>, number: u64, limit: usize) -> Option<&'a [u8]>
    requires { number < symbol_count tables.now.bytes.now }
    ensures { MatchOption result (limit < length (symbol_name tables.now.bytes.now number))
        (λ name. (name.now ≡ symbol_name tables.now.bytes.now number) × (length name.now ≤ limit)) }
{
    if number == 0 {
        return Some(&[]);
    }
    short_text_at(
        symbol_strings(tables),
        tables.symbol(number).name as usize,
        limit,
    )
}
