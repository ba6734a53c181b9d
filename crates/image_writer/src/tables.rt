//! The dynamic tables of an image (gABI, "Dynamic Section", "Hash Table", "Symbol Table", "Relocation", "String
//! Table").

ghost use Rattle.std.specs.Prelude.{◌≡◌, ◌+◌, ◌*◌, ◌^◌, ◌<◌, ◌≤◌, All, length, nat_lt, option_to_list};
ghost use Rattle.std.specs.List.{flat_map};
ghost use Rattle.elf_records.specs.Fields.{bytes_of, splice};
ghost use Rattle.elf_records.specs.Records.{dynamic_bytes, symbol_bytes, rela_bytes};
ghost use Rattle.image_writer.specs.Tables.{hash_words, chain, symbol_rows, relocation_entry, strings};
ghost use Rattle.image_writer.specs.Told.{told, layout_of, leading_entries, place_entries};
ghost use Rattle.image_writer.specs.Told.{array_at, tables_at, bucket, IsSymbolFitting, IsRelocationFitting};

use crate::draft::{Draft, NamedSymbol};
use crate::entries::{null_symbol, relocation_entry, symbol_entry};
use crate::layout::{HASH_HEAD, Layout, RELOCATION_ENTRIES, WORD_SIZE, flags_entry};
use crate::put::{put_bytes, put_word, put_zeros};
use elf_records::dynamic::{
    DT_HASH, DT_NULL, DT_RELA, DT_RELAENT, DT_RELASZ, DT_STRSZ, DT_STRTAB, DT_SYMENT, DT_SYMTAB,
};
use elf_records::{DynamicEntry, Rela, SymbolEntry, write_dynamic, write_rela, write_symbol};
use image_file::ImageRelocation;

/// How many entries of the array lead to the tables that every image has.
const PLACE_ENTRIES: usize = 5;

const ENTRY_SIZE: usize = DynamicEntry::SIZE as usize;

const SYMBOL_SIZE: usize = SymbolEntry::SIZE as usize;

const RELA_SIZE: usize = Rela::SIZE as usize;

/// An entry of the dynamic array.
fn entry(tag: u64, value: u64) -> DynamicEntry
    ensures { result ≡ record { tag = tag; value = value } }
{
    DynamicEntry { tag, value }
}

/// Puts entries of the dynamic array.
fn put_entries(entries: &[DynamicEntry], out: &mut [u8], at: usize)
    requires { at + 16 * length entries.now ≤ length out.old }
    ensures { out.new ≡ splice at (flat_map dynamic_bytes entries.now) out.old }
{
    for (number, entry) in entries.iter().enumerate() {
        write_dynamic(entry, out, (at + ENTRY_SIZE * number) as u64);
    }
}

/// Puts the entries that lead to relocations, if there are any, and returns where the next entry begins.
fn put_relocation_entries(place: u64, count: u64, out: &mut [u8], at: usize) -> usize
    requires few { 24 * count < 2 ^ 64 }
    requires room { at + 16 * length (leading_entries (nat_lt 0 count) place count) ≤ length out.old }
    ensures bytes { out.new ≡ splice at
        (flat_map dynamic_bytes (leading_entries (nat_lt 0 count) place count)) out.old }
    ensures next { result ≡ at + 16 * length (leading_entries (nat_lt 0 count) place count) }
{
    if count == 0 {
        return at;
    }
    let entries = [
        entry(DT_RELA, place),
        entry(DT_RELASZ, Rela::SIZE * count),
        entry(DT_RELAENT, Rela::SIZE),
    ];
    put_entries(&entries, out, at);
    at + ENTRY_SIZE * RELOCATION_ENTRIES as usize
}

/// Puts an entry, if there is one, and returns where the next begins.
fn put_if(entry: Option<DynamicEntry>, out: &mut [u8], at: usize) -> usize
    requires { at + 16 ≤ length out.old }
    ensures bytes { out.new ≡ splice at (flat_map dynamic_bytes (option_to_list entry)) out.old }
    ensures next { result ≡ at + 16 * length (option_to_list entry) }
{
    match entry {
        Some(entry) => {
            write_dynamic(&entry, out, at as u64);
            at + ENTRY_SIZE
        }
        None => at,
    }
}

/// Puts the entries that every image has, without the last.
fn put_places(layout: &Layout, address: u64, out: &mut [u8], at: usize)
    requires below { address + layout.now.strings_start < 2 ^ 64 }
    requires hash { layout.now.array_size ≤ layout.now.strings_start }
    requires symbols { layout.now.symbols_start ≤ layout.now.strings_start }
    requires room { at + 80 ≤ length out.old }
    ensures { out.new ≡ splice at (flat_map dynamic_bytes (place_entries layout.now address)) out.old }
{
    let entries = [
        entry(DT_HASH, address + layout.array_size),
        entry(DT_STRTAB, address + layout.strings_start),
        entry(DT_SYMTAB, address + layout.symbols_start),
        entry(DT_STRSZ, layout.strings_size),
        entry(DT_SYMENT, SymbolEntry::SIZE),
    ];
    put_entries(&entries, out, at);
}

/// Puts the dynamic array.
fn put_array(draft: &Draft<'_>, layout: &Layout, address: u64, out: &mut [u8], at: usize)
    requires layout { layout.now ≡ layout_of (told draft.now) }
    requires below { address + layout.now.strings_start < 2 ^ 64 }
    requires room { at + layout.now.array_size ≤ length out.old }
    ensures { out.new ≡ splice at (flat_map dynamic_bytes (array_at address (told draft.now))) out.old }
{
    put_places(layout, address, out, at);
    let next = at + ENTRY_SIZE * PLACE_ENTRIES;
    let count = draft.relocations.len() as u64;
    let next = put_relocation_entries(address + layout.relocations_start, count, out, next);
    let next = put_if(flags_entry(draft.is_flagged, draft.kind), out, next);
    write_dynamic(&entry(DT_NULL, 0), out, next as u64);
}

/// The word of the one bucket: the number of the first symbol, or 0 where there is none.
fn bucket(total: u32) -> u32
    ensures { result ≡ bucket total }
{
    if total == 1 { 0 } else { 1 }
}

/// A symbol's word in the hash table's chains: the number of the next symbol, or 0 after the last.
fn chain(total: u32, number: u32) -> u32
    requires { number < total }
    ensures { result ≡ chain total number }
{
    if number == 0 || number + 1 == total {
        0
    } else {
        number + 1
    }
}

/// Puts the hash table of `total` symbols: one bucket, and all symbols but number 0 in its chain.
fn put_hash(total: u32, out: &mut [u8], at: usize)
    requires some { 0 < total }
    requires room { at + (12 + 4 * total) ≤ length out.old }
    ensures { out.new ≡ splice at (flat_map (bytes_of 4) (hash_words total)) out.old }
{
    put_word(out, at, 1);
    put_word(out, at + 4, total);
    put_word(out, at + 8, bucket(total));
    for number in 0..total {
        put_word(out, at + 12 + 4 * number as usize, chain(total, number));
    }
}

/// Puts the symbols.
fn put_symbols(draft: &Draft<'_>, out: &mut [u8], at: usize)
    requires names { length (strings (told draft.now)) < 2 ^ 32 }
    requires room { at + 24 * (length draft.now.symbols.now + 1) ≤ length out.old }
    ensures bytes { out.new ≡ splice at (flat_map symbol_bytes (symbol_rows (told draft.now))) out.old }
    ensures fitting { All IsSymbolFitting draft.now.symbols.now }
{
    write_symbol(&symbol_entry(null_symbol(), 0), out, at as u64);
    let mut name: u32 = 1;
    for (number, symbol) in draft.symbols.iter().enumerate() {
        let entry = symbol_entry(symbol.symbol, name);
        write_symbol(&entry, out, (at + SYMBOL_SIZE * (number + 1)) as u64);
        name += symbol.name.len() as u32 + 1;
    }
}

/// Puts the relocations.
fn put_relocations(relocations: &[ImageRelocation], out: &mut [u8], at: usize)
    requires { at + 24 * length relocations.now ≤ length out.old }
    ensures bytes { out.new ≡ splice at (flat_map (λ r. rela_bytes (relocation_entry r)) relocations.now) out.old }
    ensures fitting { All IsRelocationFitting relocations.now }
{
    for (number, relocation) in relocations.iter().enumerate() {
        let entry = relocation_entry(*relocation);
        write_rela(&entry, out, (at + RELA_SIZE * number) as u64);
    }
}

/// Puts the names, each with a zero byte after it; the name of symbol 0 is empty.
fn put_strings(draft: &Draft<'_>, out: &mut [u8], at: usize)
    requires { at + length (strings (told draft.now)) ≤ length out.old }
    ensures { out.new ≡ splice at (strings (told draft.now)) out.old }
{
    put_zeros(out, at, 1);
    let mut next = at + 1;
    for symbol in draft.symbols {
        put_bytes(out, next, symbol.name);
        put_zeros(out, next + symbol.name.len(), 1);
        next += symbol.name.len() + 1;
    }
}

/// Puts the tables of the part that begins at `address`.
pub fn put_tables(draft: &Draft<'_>, layout: &Layout, address: u64, out: &mut [u8], at: usize)
    requires layout { layout.now ≡ layout_of (told draft.now) }
    requires small { layout.now.strings_start + layout.now.strings_size < 2 ^ 32 }
    requires below { address + layout.now.strings_start < 2 ^ 64 }
    requires room { at + (layout.now.strings_start + layout.now.strings_size) ≤ length out.old }
    ensures bytes { out.new ≡ splice at (tables_at address (told draft.now)) out.old }
    ensures symbols { All IsSymbolFitting draft.now.symbols.now }
    ensures relocations { All IsRelocationFitting draft.now.relocations.now }
{
    let total = draft.symbols.len() + 1;
    put_array(draft, layout, address, out, at);
    let hash = at + layout.array_size as usize;
    put_hash(total as u32, out, hash);
    let hash_end = hash + WORD_SIZE as usize * (HASH_HEAD as usize + total);
    let symbols = at + layout.symbols_start as usize;
    put_zeros(out, hash_end, symbols - hash_end);
    put_symbols(draft, out, symbols);
    put_relocations(
        draft.relocations,
        out,
        at + layout.relocations_start as usize,
    );
    put_strings(draft, out, at + layout.strings_start as usize);
}
