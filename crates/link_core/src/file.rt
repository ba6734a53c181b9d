//! Where the sections lie in an image's file, and the bytes behind them, without the dynamic tables.

ghost use Rattle.std.specs.Prelude.{◌≡◌, ◌+◌, ◌<◌, ◌≤◌, ◌-◌, ◌^◌, ◌++◌, IfOk, OnOk, length};
ghost use Rattle.std.specs.List.{flat_map};
ghost use Rattle.elf_records.specs.Fields.{bytes_of};
ghost use Rattle.got_pairs.specs.Entries.{words};
ghost use Rattle.link_faults.specs.ImageKinds.{base_of};
ghost use Rattle.placed_sections.specs.Files.{offset_of as file_offset, placed};
ghost use Rattle.tls_relocs.specs.Fields.{field_bytes};
ghost use Rattle.tls_relocs.specs.Laid.{zeros};
ghost use Rattle.link_needs.specs.Linking.{layout};
ghost use Rattle.link_core.specs.ByteLaws.{table_bytes};
ghost use Rattle.link_core.specs.Laying.{got_behind, made_behind, stub_behind, AreParts};

use elf_object::RelocationKind;
use got_pairs::{Entry, GotPlan, Need, Word};
use link_needs::Plan;
use placed_sections::{PlacedPart, offset_of, place_sections};
use std::alloc::{AllocError, Global};
use tls_relocs::{Field, value};

/// Where the byte of an address stands in the file.
fn place_in_file(plan: &Plan, address: u64) -> u64
    requires from_base { base_of plan.now.kind ≤ address + 4096 }
    requires fits { address + 4096 < 2 ^ 64 }
    ensures { result ≡ file_offset (layout plan.now) address }
{
    let inputs = &plan.inputs;
    offset_of(inputs.kind, address)
}

/// Adds zeros to the file, up to an offset.
fn pad(file: &mut Vec<u8>, offset: u64) -> Result<(), AllocError>
    requires { offset < 2 ^ 32 }
    ensures { OnOk result (file.new.items ≡ file.old.items ++ zeros (offset - length file.old.items)) }
{
    let count = (offset as usize).saturating_sub(file.len());
    file.resize(file.len() + count, 0)
}

/// Adds a word to the file.
#[tactic(auto, unfolding(elf_records::specs::Fields::bytes_of))]
fn push_word(file: &mut Vec<u8>, word: &Word) -> Result<(), AllocError>
    ensures { OnOk result (file.new.items ≡ file.old.items ++ bytes_of 8 word.now.number) }
{
    file.extend_from_slice(&word.number.to_le_bytes())
}

/// Adds an entry to the file.
fn push_entry(file: &mut Vec<u8>, entry: &Entry) -> Result<(), AllocError>
    ensures { OnOk result
        (file.new.items ≡ file.old.items ++ flat_map (λ w. bytes_of 8 w.number) (words entry.now)) }
{
    match entry {
        Entry::One(word) => push_word(file, word),
        Entry::Two(first, second) => {
            push_word(file, first)?;
            push_word(file, second)
        }
    }
}

/// Adds the entries of a table to the file.
fn push_entries(got: &GotPlan, file: &mut Vec<u8>) -> Result<(), AllocError>
    ensures { OnOk result (file.new.items ≡ file.old.items ++ table_bytes got.now) }
{
    for number in 0..got.entry_count() {
        if let Some(entry) = got.entry(number) {
            push_entry(file, &entry)?;
        }
    }
    Ok(())
}

/// Adds the global offset table at its place, if it has entries, to bytes that begin at offset `start` of the file.
fn push_got(plan: &Plan, start: u64, bytes: &mut Vec<u8>) -> Result<(), AllocError>
    ensures { OnOk result (bytes.new.items
        ≡ bytes.old.items ++ got_behind plan.now (start + length bytes.old.items)) }
{
    if plan.got.size() == 0 {
        return Ok(());
    }
    let place = place_in_file(plan, plan.got_start);
    pad(bytes, place.saturating_sub(start))?;
    push_entries(&plan.got, bytes)
}

/// Adds the bytes of a field to the file.
#[tactic(auto, unfolding(elf_records::specs::Fields::bytes_of))]
fn push_field(file: &mut Vec<u8>, field: Field) -> Result<(), AllocError>
    ensures { OnOk result (file.new.items ≡ file.old.items ++ field_bytes field) }
{
    match field {
        Field::Empty => Ok(()),
        Field::Word32(word) => file.extend_from_slice(&word.to_le_bytes()),
        Field::Word64(word) => file.extend_from_slice(&word.to_le_bytes()),
    }
}

/// Adds the stub at its place, if there is one: a jump through the word of `__tls_get_addr`.
fn push_stub(plan: &Plan, start: u64, bytes: &mut Vec<u8>) -> Result<(), AllocError>
    ensures { OnOk result (bytes.new.items
        ≡ bytes.old.items ++ stub_behind plan.now (start + length bytes.old.items)) }
{
    if !plan.has_stub {
        return Ok(());
    }
    let place = place_in_file(plan, plan.stub_start);
    pad(bytes, place.saturating_sub(start))?;
    let word = plan.need_address(Some(Need::RuntimeWord));
    // jmp *word(%rip)
    bytes.extend_from_slice(&[0xff, 0x25])?;
    match value(RelocationKind::GotPcRel, 0, -4, plan.stub_start + 2, word) {
        Ok(field) => push_field(bytes, field),
        // A distance inside an image fits.
        Err(_) => Ok(()),
    }
}

/// Adds what stands behind the sections.
pub fn push_made(plan: &Plan, start: u64, bytes: &mut Vec<u8>) -> Result<(), AllocError>
    ensures { OnOk result (bytes.new.items
        ≡ bytes.old.items ++ made_behind plan.now (start + length bytes.old.items)) }
{
    push_got(plan, start, bytes)?;
    push_stub(plan, start, bytes)
}

/// The parts of the file behind its first page.
pub fn parts_of(alloc: Global, plan: &Plan) -> Result<Vec<PlacedPart>, AllocError>
    ensures parts { IfOk result (λ parts. AreParts plan.now parts.items) }
    ensures placed { IfOk result (λ parts.
        parts.items ≡ placed (λ part. part) (layout plan.now) plan.now.objects) }
{
    plan.is_given();
    let inputs = &plan.inputs;
    let parts = place_sections(alloc, &inputs.placement, inputs.objects)?;
    Ok(parts)
}
