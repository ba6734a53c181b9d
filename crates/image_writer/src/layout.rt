//! Where the dynamic tables of an image lie in their part.

ghost use Rattle.std.specs.Prelude.{◌≡◌, ◌+◌, ◌*◌, ◌^◌, ◌<◌, ◌≤◌, length, option_to_list};
ghost use Rattle.image_writer.specs.Tables.{array_size, strings, flags_entries};
ghost use Rattle.image_writer.specs.Told.{told, next_page, places_end, layout_of, tables_size};

use crate::draft::{Draft, NamedSymbol};
use crate::page::base_of;
use elf_records::alignment::PAGE;
use elf_records::dynamic::{DF_1_PIE, DF_STATIC_TLS, DT_FLAGS, DT_FLAGS_1};
use elf_records::{DynamicEntry, Rela, SymbolEntry};
use image_file::FileKind;

/// The address of each table is a multiple of this.
const TABLE_ALIGNMENT: u64 = 8;

/// How many entries of the array every image has.
const ALWAYS_ENTRIES: u64 = 6;

/// How many entries lead to relocations.
pub const RELOCATION_ENTRIES: u64 = 3;

/// How many bytes a word of the hash table has.
pub const WORD_SIZE: u64 = 4;

/// How many words stand before the chains of the hash table.
pub const HASH_HEAD: u64 = 3;

/// Where the tables begin, in bytes from the start of their part, at which the array stands.
#[derive(Clone, Copy)]
pub struct Layout {
    pub array_size: u64,
    pub symbols_start: u64,
    pub relocations_start: u64,
    pub strings_start: u64,
    pub strings_size: u64,
}

impl Layout {
    /// How many bytes the tables have.
    pub fn size(&self) -> u64
        requires { self.now.strings_start + self.now.strings_size < 2 ^ 64 }
        ensures { result ≡ self.now.strings_start + self.now.strings_size }
    {
        self.strings_start + self.strings_size
    }
}

/// The entry of the array for a flag, if there is one.
pub fn flags_entry(is_flagged: bool, kind: FileKind) -> Option<DynamicEntry>
    ensures { option_to_list result ≡ flags_entries is_flagged kind }
{
    if is_flagged {
        return Some(DynamicEntry {
            tag: DT_FLAGS,
            value: DF_STATIC_TLS,
        });
    }
    match kind {
        FileKind::Pie => Some(DynamicEntry {
            tag: DT_FLAGS_1,
            value: DF_1_PIE,
        }),
        FileKind::Exe | FileKind::Module => None,
    }
}

/// How many bytes the names have, each with the zero byte after it; the name of symbol 0 is empty.
fn strings_size(draft: &Draft<'_>) -> u64
    requires { length (strings (told draft.now)) < 2 ^ 32 }
    ensures { result ≡ length (strings (told draft.now)) }
{
    let mut size = 1;
    for symbol in draft.symbols {
        size += symbol.name.len() as u64 + 1;
    }
    size
}

/// How many bytes the array has.
fn array_size(draft: &Draft<'_>) -> u64
    ensures size { result ≡ array_size (told draft.now) }
    ensures few { result ≤ 160 }
{
    let relocations = if draft.relocations.is_empty() {
        0
    } else {
        RELOCATION_ENTRIES
    };
    let flags = u64::from(flags_entry(draft.is_flagged, draft.kind).is_some());
    DynamicEntry::SIZE * (ALWAYS_ENTRIES + relocations + flags)
}

/// The layout of the tables of a draft.
#[tactic(auto, unfolding(crate::specs::Told::layout_of))]
pub fn layout_of(draft: &Draft<'_>) -> Layout
    requires { tables_size (told draft.now) < 2 ^ 32 }
    ensures { result ≡ layout_of (told draft.now) }
{
    let symbols = draft.symbols.len() as u64 + 1;
    let array_size = array_size(draft);
    let hash_end = array_size + WORD_SIZE * (HASH_HEAD + symbols);
    let symbols_start = hash_end.next_multiple_of(TABLE_ALIGNMENT);
    let relocations_start = symbols_start + SymbolEntry::SIZE * symbols;
    let strings_start = relocations_start + Rela::SIZE * draft.relocations.len() as u64;
    Layout {
        array_size,
        symbols_start,
        relocations_start,
        strings_start,
        strings_size: strings_size(draft),
    }
}

/// Where the last part ends.
pub fn places_end(draft: &Draft<'_>) -> u64
    requires { places_end draft.now.kind draft.now.parts.now < 2 ^ 64 }
    ensures { result ≡ places_end draft.now.kind draft.now.parts.now }
{
    match draft.parts.last() {
        Some(part) => part.address + part.size,
        None => base_of(draft.kind),
    }
}

/// The address at which the tables begin: the next page after the parts.
pub fn next_page(draft: &Draft<'_>) -> u64
    requires { next_page draft.now < 2 ^ 64 }
    ensures { result ≡ next_page draft.now }
{
    places_end(draft).next_multiple_of(PAGE)
}
