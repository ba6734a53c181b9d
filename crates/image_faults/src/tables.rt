//! The tables that the dynamic array leads to.

ghost use Rattle.std.specs.Prelude.{◌≡◌, ◌+◌, ◌*◌, ◌<◌, ◌≤◌, ◌↔◌, ℕ, Some, IsTrue, IfOk, length};
ghost use Rattle.image_rules.specs.declared.rule.EntryRule.TheVariants.{Hash};
ghost use Rattle.image_faults.specs.Array.{IsRightEntry};
ghost use Rattle.image_rules.specs.Rules.{entry_number};
ghost use Rattle.image_faults.specs.Places.{file_kind, got};
ghost use Rattle.image_faults.specs.PlaceLaws.{ArePlaces, AreRightTables, AreRelocationsAt};
ghost use Rattle.image_faults.specs.Parts.{count as count_of, loads as loads_of, segment as segment_header};
ghost use Rattle.image_faults.specs.Parts.{tls as tls_of};
ghost use Rattle.image_faults.specs.Symbols.{symbol as symbol_entry};
ghost use Rattle.image_faults.specs.Relocations.{rela as rela_entry};
ghost use Rattle.image_faults.specs.Faults.{KeepsBelow, Answers};

use crate::found::fault_at;
use crate::searches::{behind_last_writable, has_relro};
use crate::segments::Segments;
use elf_records::dynamic::{DT_FLAGS, DT_FLAGS_1};
use elf_records::strings::names_end;
use elf_records::{Header, Rela, Segment, SymbolEntry, read_rela, read_segment, read_symbol};
use image_rules::{EntryRule, FileKind, ImageFault, Places, Rule};

/// The bytes of an image, and where its tables lie in them.
#[derive(Clone, Copy)]
pub struct Tables<'a> {
    pub bytes: &'a [u8],
    pub places: Places,
    pub ghost are: { ArePlaces bytes.now places },
}

/// Checks an entry of the dynamic array.
fn ask_entry(rule: EntryRule, segments: &Segments) -> Result<(), ImageFault>
    requires earlier { KeepsBelow (10 + entry_number rule) segments.now.headers.bytes.now }
    requires hash { 0 < entry_number rule → IsRightEntry Hash segments.now.headers.bytes.now }
    ensures answers { Answers (10 + entry_number rule) segments.now.headers.bytes.now result }
    ensures right { IfOk result (λ _. IsRightEntry rule segments.now.headers.bytes.now) }
{
    if segments.is_right_entry(rule) {
        return Ok(());
    }
    let entry = segments.entry_place(rule);
    let offset = segments.entry_offset(entry);
    Err(fault_at(Rule::Entry(rule), segments.headers.bytes, entry, offset))
}

/// Checks the entries of the dynamic array.
fn ask_array(segments: &Segments) -> Result<(), ImageFault>
    requires { KeepsBelow 10 segments.now.headers.bytes.now }
    ensures answers { Answers 19 segments.now.headers.bytes.now result }
    ensures right { IfOk result (λ _. AreRightTables segments.now.headers.bytes.now) }
{
    ask_entry(EntryRule::Hash, segments)?;
    ask_entry(EntryRule::Strings, segments)?;
    ask_entry(EntryRule::Symbols, segments)?;
    ask_entry(EntryRule::StringsSize, segments)?;
    ask_entry(EntryRule::SymbolSize, segments)?;
    ask_entry(EntryRule::Relocations, segments)?;
    ask_entry(EntryRule::RelocationsSize, segments)?;
    ask_entry(EntryRule::RelocationSize, segments)?;
    ask_entry(EntryRule::Flags, segments)?;
    ask_entry(EntryRule::End, segments)?;
    Ok(())
}

/// Where the relocations begin, or 0.
fn relocations_place(segments: &Segments) -> u64
    requires { IsRightEntry EntryRule.Relocations segments.now.headers.bytes.now }
    ensures { AreRelocationsAt segments.now.headers.bytes.now result }
{
    if segments.has_relocations() {
        segments.place(segments.entry(5).value)
    } else {
        0
    }
}

/// What kind of image it is.
fn file_kind(segments: &Segments) -> FileKind
    ensures { result ≡ file_kind segments.now.headers.bytes.now }
{
    if !segments.headers.is_shared {
        FileKind::Exe
    } else if segments.has_tag(segments.flags_entry(), DT_FLAGS_1) {
        FileKind::Pie
    } else {
        FileKind::Module
    }
}

/// The LOAD that only the loader writes, if there is one.
fn got_of(segments: &Segments) -> Option<u64>
    ensures got { result ≡ got segments.now.headers.bytes.now }
    ensures within { (n : ℕ) → result ≡ Some n → n < loads_of segments.now.headers.bytes.now }
{
    let behind = behind_last_writable(&segments.headers, segments.loads);
    if has_relro(&segments.headers) && 0 < behind {
        Some(behind - 1)
    } else {
        None
    }
}

/// Where the tables lie.
#[tactic(auto, unfolding(crate::specs::Array::relocation_count))]
fn places_of(segments: &Segments) -> Places
    requires { AreRightTables segments.now.headers.bytes.now }
    ensures { ArePlaces segments.now.headers.bytes.now result }
{
    let strings = segments.place(segments.entry(1).value);
    let strings_size = segments.strings_size();
    Places {
        kind: file_kind(segments),
        is_flagged: segments.has_tag(segments.flags_entry(), DT_FLAGS),
        got: got_of(segments),
        loads: segments.loads,
        has_tls: segments.has_tls,
        tls_size: segments.tls_size,
        strings,
        strings_size,
        names_end: names_end(segments.headers.bytes, strings, strings_size),
        symbols: segments.place(segments.entry(2).value),
        symbol_count: segments.symbol_count(),
        relocations: relocations_place(segments),
        relocation_count: segments.relocations_size() / Rela::SIZE,
    }
}

/// Checks the dynamic array.
pub fn tables_of<'a>(segments: Segments<'a>) -> Result<Tables<'a>, ImageFault>
    requires { KeepsBelow 10 segments.headers.bytes.now }
    ensures tables { IfOk result (λ tables. tables.bytes.now ≡ segments.entry.headers.bytes.now) }
    ensures answers { Answers 19 segments.entry.headers.bytes.now result }
{
    ask_array(&segments)?;
    Ok(Tables {
        bytes: segments.headers.bytes,
        places: places_of(&segments),
    })
}

impl Tables<'_> {
    /// A program header.
    #[tactic(auto, unfolding(crate::specs::Parts::segment))]
    fn segment(&self, number: u64) -> Segment
        requires { number < count_of self.now.bytes.now }
        ensures { result ≡ segment_header self.now.bytes.now number }
    {
        match read_segment(self.bytes, Header::SIZE + Segment::SIZE * number) {
            Some(segment) => segment,
            None => unreachable!(),
        }
    }

    /// The header of a LOAD.
    pub fn load(&self, number: u64) -> Segment
        requires { number < self.now.places.loads }
        ensures segment { result ≡ segment_header self.now.bytes.now number }
        ensures inside { result.offset + result.filesz ≤ length self.now.bytes.now }
    {
        self.segment(number)
    }

    /// The header of the dynamic array.
    pub fn dynamic(&self) -> Segment
        ensures { result ≡ segment_header self.now.bytes.now (loads_of self.now.bytes.now) }
    {
        self.segment(self.places.loads)
    }

    /// The header of the TLS segment, if there is one.
    pub fn tls(&self) -> Option<Segment>
        ensures { result ≡ tls_of self.now.bytes.now }
    {
        if self.places.has_tls {
            Some(self.segment(self.places.loads + 1))
        } else {
            None
        }
    }

    /// A symbol.
    #[tactic(auto, unfolding(crate::specs::Symbols::symbol))]
    pub fn symbol(&self, number: u64) -> SymbolEntry
        requires { number < self.now.places.symbol_count }
        ensures { result ≡ symbol_entry self.now.bytes.now number }
    {
        match read_symbol(self.bytes, self.places.symbols + SymbolEntry::SIZE * number) {
            Some(symbol) => symbol,
            None => unreachable!(),
        }
    }

    /// A relocation.
    #[tactic(auto, unfolding(crate::specs::Relocations::rela))]
    pub fn relocation(&self, number: u64) -> Rela
        requires { number < self.now.places.relocation_count }
        ensures { result ≡ rela_entry self.now.bytes.now number }
    {
        match read_rela(self.bytes, self.places.relocations + Rela::SIZE * number) {
            Some(rela) => rela,
            None => unreachable!(),
        }
    }
}
