//! What may be wrong with a symbol of an image.

ghost use Rattle.std.specs.Prelude.{◌≡◌, ◌+◌, ◌<◌, ◌≤◌, ◌↔◌, IsTrue};
ghost use Rattle.image_faults.specs.Array.{strings_place, strings_size};
ghost use Rattle.elf_records.specs.Strings.{Ends};
ghost use Rattle.image_faults.specs.Symbols.{IsRightSymbol, IsImport, IsRuntime, IsPastTls};

use crate::tables::Tables;
use elf_records::symbol::{SHN_UNDEF, STB_GLOBAL, STB_WEAK, STT_COMMON, STT_TLS};

/// The name of the run time's function, with the zero byte after it.
pub const GET_ADDRESS_STRING: [u8; 15] = *b"__tls_get_addr\0";

/// Whether a name that begins at this offset of the names ends.
#[tactic(auto, using(elf_records::specs::StringLaws::ends_before, elf_records::specs::StringLaws::no_end_after))]
fn name_ends(tables: &Tables, at: u64) -> bool
    ensures { IsTrue result ↔ Ends tables.now.bytes.now (strings_place tables.now.bytes.now)
        (strings_size tables.now.bytes.now) at }
{
    at < tables.places.names_end
}

/// Whether a symbol's name ends, its type is known, and it is GLOBAL or WEAK, or the reserved one.
pub fn is_right_symbol(tables: &Tables, number: u64) -> bool
    requires { number < tables.now.places.symbol_count }
    ensures { IsTrue result ↔ IsRightSymbol tables.now.bytes.now number }
{
    let symbol = tables.symbol(number);
    name_ends(tables, u64::from(symbol.name))
        && symbol.kind() <= STT_TLS
        && symbol.kind() != STT_COMMON
        && (number == 0 || symbol.binding() == STB_GLOBAL || symbol.binding() == STB_WEAK)
}

/// Whether a symbol is a thread-local one of another image.
pub fn is_import(tables: &Tables, number: u64) -> bool
    requires { number < tables.now.places.symbol_count }
    ensures { IsTrue result ↔ IsImport tables.now.bytes.now number }
{
    let symbol = tables.symbol(number);
    number != 0 && symbol.shndx == SHN_UNDEF && symbol.kind() == STT_TLS
}

/// Whether a symbol is the run time's function.
#[tactic(auto, unfolding(elf_records::specs::Fields::part_at))]
pub fn is_runtime(tables: &Tables, number: u64) -> bool
    requires { number < tables.now.places.symbol_count }
    ensures { IsTrue result ↔ IsRuntime tables.now.bytes.now number }
{
    let symbol = tables.symbol(number);
    let name = u64::from(symbol.name);
    let size = GET_ADDRESS_STRING.len() as u64;
    if symbol.shndx != SHN_UNDEF || tables.places.strings_size < name + size {
        return false;
    }
    let at = (tables.places.strings + name) as usize;
    tables.bytes[at..at + GET_ADDRESS_STRING.len()] == GET_ADDRESS_STRING[..]
}

/// Whether a thread-local symbol of this image lies past the end of its TLS segment.
pub fn is_past_tls(tables: &Tables, number: u64) -> bool
    requires { number < tables.now.places.symbol_count }
    ensures { IsTrue result ↔ IsPastTls tables.now.bytes.now number }
{
    let symbol = tables.symbol(number);
    symbol.kind() == STT_TLS && symbol.shndx != SHN_UNDEF && tables.places.tls_size < symbol.value
}
