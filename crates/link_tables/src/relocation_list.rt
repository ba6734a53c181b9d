//! The relocations of an image. With them a loader fills in what linking can't know.

ghost use Rattle.std.specs.Prelude.{◌≡◌, ◌+◌, ◌*◌, ◌<◌, ◌≤◌, ◌^◌, ◌++◌, IfOk, OnOk, length, option_map, slice_get};
ghost use Rattle.std.specs.Prelude.{unwrap_or};
ghost use Rattle.std.specs.List.{Contains, position_from};
ghost use Rattle.std.specs.Str.{bytes_eq};
ghost use Rattle.got_pairs.specs.Entries.{entry_of, words};
ghost use Rattle.link_tables.specs.Dynamic.{entry_relocations, got_relocations, image_relocations, imports, loader_kind};
ghost use Rattle.link_tables.specs.Dynamic.{number_of, own_symbols, relative_of, relatives, relocation_of};
ghost use Rattle.link_tables.specs.Dynamic.{word_relocations};
ghost use Rattle.link_needs.specs.Linking.{block_offset};
ghost use Rattle.link_needs.specs.Needs.{entries, got_size, got_start};
ghost use Rattle.link_needs.specs.NeedLaws.{absolutes};

use crate::tables::Tables;
use got_pairs::{DynamicKind, DynamicRelocation, DynamicSymbol, Entry, Word};
use image_file::{ImageRelocation, LoaderKind};
use link_needs::{AbsoluteField, Plan};
use std::alloc::{AllocError, Global};

/// The type of the relocation of a GOT word.
fn loader_kind(kind: DynamicKind) -> LoaderKind
    ensures { result ≡ loader_kind kind }
{
    match kind {
        DynamicKind::JumpSlot => LoaderKind::JumpSlot,
        DynamicKind::Relative => LoaderKind::Relative,
        DynamicKind::DtpMod64 => LoaderKind::Module,
        DynamicKind::DtpOff64 => LoaderKind::ModuleOffset,
        DynamicKind::TpOff64 => LoaderKind::ThreadOffset,
        DynamicKind::TlsDesc => LoaderKind::Descriptor,
    }
}

/// The number of symbols that the image defines.
#[tactic(auto, using(crate::proofs::RelocationListLemmas::few_symbols))]
fn own_count(tables: &Tables) -> usize
    ensures count { result ≡ length (own_symbols tables.now) }
    ensures few { length (own_symbols tables.now) + length (imports tables.now) ≤ 2 ^ 22 }
{
    tables.own.len()
}

/// The number of names that it imports.
fn import_count(tables: &Tables) -> usize
    ensures { result ≡ length (imports tables.now) }
{
    tables.imports.len()
}

/// The index of a name among the imports; 0 if it is not imported.
fn import_number(tables: &Tables, name: &[u8]) -> usize
    ensures number { result ≡ unwrap_or (position_from (bytes_eq name.now) 0 (imports tables.now)) 0 }
    ensures small { result ≤ length (imports tables.now) }
{
    tables.imports.get_index_of(name).unwrap_or(0)
}

impl Tables<'_, '_, '_> {
    /// The number of the symbol that a GOT word names.
    fn number_of(&self, symbol: &DynamicSymbol) -> u32
        ensures { result ≡ number_of self.now symbol.now }
    {
        let own = own_count(self);
        match symbol {
            DynamicSymbol::Image => 0,
            DynamicSymbol::Imported(name) => {
                (1 + own + import_number(self, name.as_bytes())) as u32
            }
            DynamicSymbol::Runtime => (1 + own + import_count(self)) as u32,
        }
    }

    /// The relocation of a GOT word at an address.
    fn relocation_of(&self, place: u64, relocation: &DynamicRelocation) -> ImageRelocation
        ensures { result ≡ relocation_of self.now place relocation.now }
    {
        ImageRelocation {
            place,
            kind: loader_kind(relocation.kind),
            symbol: self.number_of(&relocation.symbol),
            addend: relocation.addend.cast_signed(),
        }
    }

    /// Adds the relocation of a GOT word at an address, if it has one.
    fn push_word(
        &self,
        place: u64,
        word: &Word,
        all: &mut Vec<ImageRelocation>,
    ) -> Result<(), AllocError>
        ensures { OnOk result
            (all.new.items ≡ all.old.items ++ word_relocations self.now place word.now.relocation) }
    {
        if let Some(relocation) = &word.relocation {
            all.push(self.relocation_of(place, relocation))?;
        }
        Ok(())
    }

    /// Adds the relocations of a GOT entry at an address.
    fn push_entry(
        &self,
        place: u64,
        entry: &Entry,
        all: &mut Vec<ImageRelocation>,
    ) -> Result<(), AllocError>
        requires { place < 2 ^ 32 }
        ensures { OnOk result (all.new.items ≡ all.old.items ++ entry_relocations self.now place entry.now) }
    {
        match entry {
            Entry::One(word) => self.push_word(place, word, all),
            Entry::Two(first, second) => {
                self.push_word(place, first, all)?;
                self.push_word(place + 8, second, all)
            }
        }
    }
}

/// The address of the global offset table.
#[tactic(auto, using(crate::proofs::RelocationListLemmas::table_low))]
fn table_start(plan: &Plan) -> u64
    ensures start { result ≡ got_start plan.now }
    ensures low { got_start plan.now + got_size plan.now ≤ 2 ^ 26 }
{
    plan.got_start
}

/// The number of its entries.
fn entry_count(plan: &Plan) -> usize
    ensures { result ≡ length (entries plan.now) }
{
    plan.got.entry_count()
}

/// The entry with this number.
fn entry<'a>(plan: &Plan<'_, '_, 'a>, number: usize) -> Option<Entry<'a>>
    ensures { result
        ≡ option_map (entry_of plan.now.kind (block_offset plan.now)) (slice_get (entries plan.now) number) }
{
    plan.got.entry(number)
}

/// The size of an entry, in bytes.
fn size_of(entry: &Entry) -> u64
    ensures { result ≡ 8 * length (words entry.now) }
{
    match entry {
        Entry::One(_) => 8,
        Entry::Two(_, _) => 16,
    }
}

/// Adds the relocations of the global offset table.
fn push_got(tables: &Tables, all: &mut Vec<ImageRelocation>) -> Result<(), AllocError>
    ensures { OnOk result (all.new.items ≡ all.old.items ++ got_relocations tables.now) }
{
    let plan = &tables.plan;
    let mut place = table_start(plan);
    for number in 0..entry_count(plan) {
        let Some(entry) = entry(plan, number) else {
            return Ok(());
        };
        tables.push_entry(place, &entry, all)?;
        place += size_of(&entry);
    }
    Ok(())
}

/// The relocation of a field that holds an address.
fn relative_of(plan: &Plan, field: &AbsoluteField) -> ImageRelocation
    requires { Contains (absolutes plan.now) field.now }
    ensures { result ≡ relative_of plan.now field.now }
{
    let relocation = field.relocation;
    let inputs = &plan.inputs;
    let address = inputs.section_address(field.object, field.section);
    let symbol = plan.symbol_value(field.object, relocation.symbol);
    let place = plan.own_number(relocation.kind, symbol);
    ImageRelocation {
        place: address + relocation.offset,
        kind: LoaderKind::Relative,
        symbol: 0,
        addend: place.wrapping_add_signed(relocation.addend).cast_signed(),
    }
}

/// The relocations of fields with addresses, in the order of their places. Only an image that may be loaded at any
/// address has them.
fn relatives(alloc: Global, plan: &Plan) -> Result<Vec<ImageRelocation>, AllocError>
    ensures { IfOk result (λ all. all.items ≡ relatives plan.now) }
{
    let mut all = Vec::new(alloc);
    for field in &plan.absolutes {
        all.push(relative_of(plan, field))?;
    }
    all.sort_by_key(|relocation| relocation.place)?;
    Ok(all)
}

/// All relocations of an image, in the order of their places.
#[tactic(auto, unfolding(crate::specs::Dynamic::image_relocations))]
pub fn relocations(alloc: Global, tables: &Tables) -> Result<Vec<ImageRelocation>, AllocError>
    ensures { IfOk result (λ all. all.items ≡ image_relocations tables.now) }
{
    let mut all = relatives(alloc, &tables.plan)?;
    push_got(tables, &mut all)?;
    Ok(all)
}
