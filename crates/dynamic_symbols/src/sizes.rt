//! The room that the names of a dynamic symbol table take.

ghost use Rattle.std.specs.Prelude.{◌≡◌, ◌≤◌, ◌+◌, ◌↔◌, IsTrue, map, min};
ghost use Rattle.std.specs.List.{All};
ghost use Rattle.tls_symbols.specs.Definitions.{IsWithin};
ghost use Rattle.dynamic_symbols.specs.Names.{name_size, size_of};

use elf_object::Object;
use link_faults::SymbolRef;

/// The bytes that a name takes besides its own: a symbol table entry, and a zero in the string table.
const BESIDE: u64 = 25;

/// The most bytes that the names of an image may take: 4 MiB.
pub const NAME_LIMIT: u64 = 1 << 22;

/// Adds a name's size to a sum, which stays at `u64::MAX` once it is there.
fn with_name(size: u64, name: &[u8]) -> u64
    ensures { result ≡ min (size + size_of name.now) u64.MAX }
{
    size.saturating_add(BESIDE)
        .saturating_add(name.len() as u64)
}

/// The bytes that the names of these symbols and imports take in the dynamic symbol table and its string table, or
/// `u64::MAX` if they take more.
pub fn name_size(objects: &[Object], symbols: &[SymbolRef], imports: &[&[u8]]) -> u64
    requires { All (IsWithin objects.now) symbols.now }
    ensures { result ≡ min (name_size objects.now symbols.now (map (λ name. name.now) imports.now)) u64.MAX }
{
    let mut size = 0;
    for found in symbols {
        let name = objects[found.object as usize].symbol_name(found.symbol);
        size = with_name(size, name);
    }
    for name in imports {
        size = with_name(size, name);
    }
    size
}

/// Whether these names take at most [`NAME_LIMIT`] bytes.
pub fn names_fit(objects: &[Object], symbols: &[SymbolRef], imports: &[&[u8]]) -> bool
    requires { All (IsWithin objects.now) symbols.now }
    ensures { IsTrue result
        ↔ (name_size objects.now symbols.now (map (λ name. name.now) imports.now) ≤ NAME_LIMIT) }
{
    name_size(objects, symbols, imports) <= NAME_LIMIT
}
