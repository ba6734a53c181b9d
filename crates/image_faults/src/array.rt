//! The dynamic array: where an image's tables lie.

ghost use Rattle.std.specs.Prelude.{◌≡◌, ◌+◌, ◌-◌, ◌*◌, ◌^◌, ◌<◌, ◌≤◌, ◌↔◌, IsTrue, length};
ghost use Rattle.image_rules.specs.declared.rule.EntryRule.TheVariants.{Hash, Strings, Symbols, Relocations};
ghost use Rattle.image_rules.specs.declared.rule.EntryRule.TheVariants.{RelocationsSize};
ghost use Rattle.image_faults.specs.Array.{entry as entry_of, place as place_of, HasTag, HoldsTable};
ghost use Rattle.image_faults.specs.Array.{has_tag, IsRightEntry};
ghost use Rattle.image_faults.specs.Array.{symbol_count as count_of_symbols, strings_size as size_of_strings};
ghost use Rattle.image_faults.specs.Array.{relocations_size as size_of_relocations, flags_entry as entry_of_flags};
ghost use Rattle.image_faults.specs.Array.{entry_place as place_of_entry, IsFlagged, IsProgram};
ghost use Rattle.image_faults.specs.Parts.{last as last_of};
ghost use Rattle.image_rules.specs.Rules.{entry_number};

use crate::segments::Segments;
use crate::words::word_at;
use elf_records::dynamic::{
    DF_1_PIE, DF_STATIC_TLS, DT_FLAGS, DT_FLAGS_1, DT_HASH, DT_NULL, DT_RELA, DT_RELAENT,
    DT_RELASZ, DT_STRSZ, DT_STRTAB, DT_SYMENT, DT_SYMTAB,
};
use elf_records::{DynamicEntry, Rela, SymbolEntry, read_dynamic};
use image_rules::EntryRule;

/// The address of each table is a multiple of this, counted from the start of its LOAD.
const TABLE_ALIGNMENT: u64 = 8;

/// Bytes of a hash table of one bucket and no chains.
const HASH_SIZE: u64 = 12;

/// Bytes of a word of a hash table.
const WORD_SIZE: u64 = 4;

/// More than the number of entries that lead to tables.
const ENTRY_LIMIT: u64 = 16;

impl Segments<'_> {
    /// A file is shorter than 2^63 bytes. The call does nothing; it gives a proof this fact.
    fn length_fits(&self)
        ensures { length self.now.headers.bytes.now < 2 ^ 63 }
    {
        let _length = self.headers.bytes.len();
    }

    /// An entry of the array.
    #[tactic(auto, unfolding(crate::specs::Array::entry))]
    pub fn entry(&self, number: u64) -> DynamicEntry
        requires { DynamicEntry.SIZE * (number + 1) ≤ self.now.array_size }
        ensures { result ≡ entry_of self.now.headers.bytes.now number }
    {
        match read_dynamic(
            self.headers.bytes,
            self.last.offset + DynamicEntry::SIZE * number,
        ) {
            Some(entry) => entry,
            None => unreachable!(),
        }
    }

    /// Whether the array has an entry of this number, with this tag.
    pub fn has_tag(&self, number: u64, tag: u64) -> bool
        requires { number < ENTRY_LIMIT }
        ensures tag { IsTrue result ↔ HasTag self.now.headers.bytes.now number tag }
        ensures test { result ≡ has_tag self.now.headers.bytes.now number tag }
    {
        DynamicEntry::SIZE * (number + 1) <= self.array_size && self.entry(number).tag == tag
    }

    /// The offset in the file of an address in the last LOAD.
    pub fn place(&self, address: u64) -> u64
        requires above { self.now.last.vaddr ≤ address }
        requires below { address ≤ self.now.last.vaddr + self.now.last.filesz }
        ensures { result ≡ place_of self.now.headers.bytes.now address }
    {
        self.length_fits();
        self.last.offset + (address - self.last.vaddr)
    }

    /// The offset in the file of an entry of the array, even if there is no such entry.
    pub fn entry_offset(&self, number: u64) -> u64
        requires { number < ENTRY_LIMIT }
        ensures { result ≡ (last_of self.now.headers.bytes.now).offset + 16 * number }
    {
        self.length_fits();
        self.last.offset + DynamicEntry::SIZE * number
    }

    /// Whether the last LOAD holds a table of this size at an address.
    pub fn holds_table(&self, address: u64, size: u64) -> bool
        ensures { IsTrue result ↔ HoldsTable self.now.headers.bytes.now address size }
    {
        if address < self.last.vaddr {
            return false;
        }
        let from = address - self.last.vaddr;
        from % TABLE_ALIGNMENT == 0 && from <= self.last.filesz && size <= self.last.filesz - from
    }

    /// Whether HASH leads to a hash table of one bucket.
    #[tactic(auto, unfolding(crate::specs::Array::symbol_count, crate::specs::Array::bucket_count))]
    fn is_right_hash(&self) -> bool
        ensures { IsTrue result ↔ IsRightEntry Hash self.now.headers.bytes.now }
    {
        if !self.has_tag(0, DT_HASH) {
            return false;
        }
        let address = self.entry(0).value;
        if !self.holds_table(address, HASH_SIZE) {
            return false;
        }
        let at = self.place(address);
        let chains = u64::from(word_at(self.headers.bytes, at + WORD_SIZE));
        word_at(self.headers.bytes, at) == 1
            && self.holds_table(address, HASH_SIZE + WORD_SIZE * chains)
    }

    /// How many symbols there are.
    #[tactic(auto, unfolding(crate::specs::Array::symbol_count))]
    pub fn symbol_count(&self) -> u64
        requires { IsRightEntry Hash self.now.headers.bytes.now }
        ensures count { result ≡ count_of_symbols self.now.headers.bytes.now }
        ensures few { result < 2 ^ 32 }
    {
        let at = self.place(self.entry(0).value);
        u64::from(word_at(self.headers.bytes, at + WORD_SIZE))
    }

    /// How many bytes the names take.
    pub fn strings_size(&self) -> u64
        ensures { result ≡ size_of_strings self.now.headers.bytes.now }
    {
        if self.has_tag(3, DT_STRSZ) {
            self.entry(3).value
        } else {
            0
        }
    }

    /// Whether the array names relocations.
    pub fn has_relocations(&self) -> bool
        ensures { IsTrue result ↔ HasTag self.now.headers.bytes.now 5 DT_RELA }
    {
        self.has_tag(5, DT_RELA)
    }

    /// How many bytes the relocations take.
    pub fn relocations_size(&self) -> u64
        ensures { result ≡ size_of_relocations self.now.headers.bytes.now }
    {
        if self.has_relocations() && self.has_tag(6, DT_RELASZ) {
            self.entry(6).value
        } else {
            0
        }
    }

    /// The number of the entry after those of the tables.
    pub fn flags_entry(&self) -> u64
        ensures entry { result ≡ entry_of_flags self.now.headers.bytes.now }
        ensures few { result ≤ 8 }
    {
        if self.has_relocations() { 8 } else { 5 }
    }

    /// Whether STRTAB leads to the names.
    fn is_right_strings(&self) -> bool
        ensures { IsTrue result ↔ IsRightEntry Strings self.now.headers.bytes.now }
    {
        self.has_tag(1, DT_STRTAB) && self.holds_table(self.entry(1).value, self.strings_size())
    }

    /// Whether SYMTAB leads to the symbols.
    fn is_right_symbols(&self) -> bool
        requires { IsRightEntry Hash self.now.headers.bytes.now }
        ensures { IsTrue result ↔ IsRightEntry Symbols self.now.headers.bytes.now }
    {
        let size = SymbolEntry::SIZE * self.symbol_count();
        self.has_tag(2, DT_SYMTAB) && self.holds_table(self.entry(2).value, size)
    }

    /// Whether RELA, if there is one, leads to the relocations.
    fn is_right_relocations(&self) -> bool
        ensures { IsTrue result ↔ IsRightEntry Relocations self.now.headers.bytes.now }
    {
        !self.has_tag(5, DT_RELA) || self.holds_table(self.entry(5).value, self.relocations_size())
    }

    /// Whether RELASZ says how many bytes they take.
    fn is_right_relocations_size(&self) -> bool
        ensures { IsTrue result ↔ IsRightEntry RelocationsSize self.now.headers.bytes.now }
    {
        !self.has_relocations()
            || self.has_tag(6, DT_RELASZ) && self.entry(6).value % Rela::SIZE == 0
    }

    /// Whether the image uses static TLS.
    pub fn is_flagged(&self) -> bool
        ensures { IsTrue result ↔ IsFlagged self.now.headers.bytes.now }
    {
        let entry = self.flags_entry();
        self.has_tag(entry, DT_FLAGS) && self.entry(entry).value == DF_STATIC_TLS
    }

    /// Whether the image is a program that may be loaded anywhere.
    pub fn is_program(&self) -> bool
        ensures { IsTrue result ↔ IsProgram self.now.headers.bytes.now }
    {
        let entry = self.flags_entry();
        self.has_tag(entry, DT_FLAGS_1)
            && self.entry(entry).value == DF_1_PIE
            && self.headers.is_shared
    }

    /// Whether an entry of the array keeps its rule.
    pub fn is_right_entry(&self, rule: EntryRule) -> bool
        requires { 0 < entry_number rule → IsRightEntry Hash self.now.headers.bytes.now }
        ensures { IsTrue result ↔ IsRightEntry rule self.now.headers.bytes.now }
    {
        match rule {
            EntryRule::Hash => self.is_right_hash(),
            EntryRule::Strings => self.is_right_strings(),
            EntryRule::Symbols => self.is_right_symbols(),
            EntryRule::StringsSize => self.has_tag(3, DT_STRSZ),
            EntryRule::SymbolSize => {
                self.has_tag(4, DT_SYMENT) && self.entry(4).value == SymbolEntry::SIZE
            }
            EntryRule::Relocations => self.is_right_relocations(),
            EntryRule::RelocationsSize => self.is_right_relocations_size(),
            EntryRule::RelocationSize => {
                !self.has_relocations()
                    || self.has_tag(7, DT_RELAENT) && self.entry(7).value == Rela::SIZE
            }
            EntryRule::Flags => {
                self.has_tag(self.flags_entry(), DT_NULL) || self.is_flagged() || self.is_program()
            }
            EntryRule::End => {
                self.has_tag(self.flags_entry(), DT_NULL)
                    || self.has_tag(self.flags_entry() + 1, DT_NULL)
            }
        }
    }

    /// Where an entry stands in the array.
    pub fn entry_place(&self, rule: EntryRule) -> u64
        ensures place { result ≡ place_of_entry rule self.now.headers.bytes.now }
        ensures few { result < ENTRY_LIMIT }
    {
        match rule {
            EntryRule::Hash => 0,
            EntryRule::Strings => 1,
            EntryRule::Symbols => 2,
            EntryRule::StringsSize => 3,
            EntryRule::SymbolSize => 4,
            EntryRule::Relocations => 5,
            EntryRule::RelocationsSize => 6,
            EntryRule::RelocationSize => 7,
            EntryRule::Flags => self.flags_entry(),
            EntryRule::End => self.flags_entry() + 1,
        }
    }
}
