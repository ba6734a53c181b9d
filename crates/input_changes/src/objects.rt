//! Changes of objects: ELF files of 64 bits, little-endian, with sections.

ghost use Rattle.std.specs.Prelude.{◌≡◌, ◌+◌, ◌^◌, ◌≤◌, length};
ghost use Rattle.input_changes.specs.Differing.{differing};

use crate::fields::Field;
use crate::lengths::{change_any_byte, change_byte, change_length};
use crate::tables::{ENTRY_SIZE, PLACE, RELOCATION, SYMBOL, Table, header};
use job_changes::Generator;
use std::alloc::AllocError;

/// The fields of the file's header that say what the file is.
const IDENTITY: [Field; 12] = [
    Field(0, 1),
    Field(4, 1),
    Field(5, 1),
    Field(6, 1),
    Field(7, 1),
    Field(16, 2),
    Field(18, 2),
    Field(20, 4),
    Field(24, 8),
    Field(48, 4),
    Field(52, 2),
    Field(54, 2),
];

/// The fields of the file's header that say where its tables are.
const PLACES: [Field; 6] = [
    Field(32, 8),
    SECTION_TABLE,
    Field(56, 2),
    Field(58, 2),
    SECTION_COUNT,
    Field(62, 2),
];

const SECTION_TABLE: Field = Field(40, 8);

const SECTION_COUNT: Field = Field(60, 2);

/// The fields of a section's header.
const SECTION: [Field; 10] = [
    Field(0, 4),
    TYPE,
    Field(8, 8),
    Field(16, 8),
    OFFSET,
    SIZE,
    Field(40, 4),
    INFO,
    Field(48, 8),
    Field(56, 8),
];

const TYPE: Field = Field(4, 4);

const OFFSET: Field = Field(24, 8);

const SIZE: Field = Field(32, 8);

const INFO: Field = Field(44, 4);

/// Types of sections: of symbols, of names, and of relocations.
const SYMBOLS: u64 = 2;

const NAMES: u64 = 3;

const RELOCATIONS: u64 = 4;

/// How many bytes of a table are copied at most.
const LARGEST_COPY: u64 = 1 << 16;

/// The headers of sections.
fn sections(bytes: &[u8]) -> Table {
    Table {
        at: SECTION_TABLE.value(bytes),
        count: SECTION_COUNT.value(bytes),
        size: 64,
    }
}

/// The table that a section of this type has.
fn table_of(generator: &mut Generator, bytes: &[u8], kind: u64) -> Option<Table> {
    let number = sections(bytes).any_with(generator, bytes, TYPE, kind)?;
    Some(table_in(bytes, number))
}

/// The table that a section has.
fn table_in(bytes: &[u8], section: u64) -> Table {
    Table {
        at: sections(bytes).value(bytes, section, OFFSET),
        count: sections(bytes).value(bytes, section, SIZE) / ENTRY_SIZE,
        size: ENTRY_SIZE,
    }
}

/// Gives a field of a section's header another number, or moves the whole.
fn change_section(generator: &mut Generator, bytes: &mut [u8]) -> Option<()>
    ensures { differing bytes.old bytes.new ≤ 128 }
{
    sections(bytes).change(generator, bytes, &SECTION, 12)
}

/// Gives a field of a symbol another number, or moves the whole.
#[tactic(auto, using(crate::proofs::Differing::differing_self))]
fn change_symbol(generator: &mut Generator, bytes: &mut [u8]) -> Option<()>
    ensures { differing bytes.old bytes.new ≤ 128 }
{
    let table = table_of(generator, bytes, SYMBOLS)?;
    table.change(generator, bytes, &SYMBOL, 8)
}

/// Gives a field of a relocation another number, or moves the whole.
#[tactic(auto, using(crate::proofs::Differing::differing_self))]
fn change_relocation(generator: &mut Generator, bytes: &mut [u8]) -> Option<()>
    ensures { differing bytes.old bytes.new ≤ 128 }
{
    let table = table_of(generator, bytes, RELOCATIONS)?;
    table.change(generator, bytes, &RELOCATION, 4)
}

/// Changes a byte of code next to where a relocation stands.
#[tactic(auto, using(crate::proofs::Differing::differing_self))]
fn change_site(generator: &mut Generator, bytes: &mut [u8]) -> Option<()>
    ensures { differing bytes.old bytes.new ≤ 1 }
{
    let sections = sections(bytes);
    let section = sections.any_with(generator, bytes, TYPE, RELOCATIONS)?;
    let table = table_in(bytes, section);
    let relocation = table.any(generator)?;
    let target = sections.value(bytes, section, INFO);
    let code = sections.value(bytes, target, OFFSET);
    let place = code.saturating_add(table.value(bytes, relocation, PLACE));
    let near = place.saturating_add(generator.below(16)).saturating_sub(4);
    change_byte(generator, bytes, near)
}

/// Changes a byte of a name.
#[tactic(auto, using(crate::proofs::Differing::differing_self))]
fn change_name(generator: &mut Generator, bytes: &mut [u8]) -> Option<()>
    ensures { differing bytes.old bytes.new ≤ 1 }
{
    let sections = sections(bytes);
    let section = sections.any_with(generator, bytes, TYPE, NAMES)?;
    let start = sections.value(bytes, section, OFFSET);
    let length = sections.value(bytes, section, SIZE);
    let place = start.saturating_add(generator.below(length));
    change_byte(generator, bytes, place)
}

/// Copies bytes of a file behind its end.
#[tactic(auto, using(crate::proofs::Differing::differing_self, crate::proofs::Differing::differing_append))]
fn append_copy(bytes: &mut Vec<u8>, from: u64, count: u64) -> Result<(), AllocError>
    ensures kept { differing bytes.old.items bytes.new.items ≡ 0 }
    ensures no_shorter { length bytes.old.items ≤ length bytes.new.items }
    ensures longer { length bytes.new.items ≤ length bytes.old.items + count }
    ensures bounded { length bytes.new.items ≤ length bytes.old.items + 2 ^ 16 }
{
    for step in 0..count.min(LARGEST_COPY) {
        let Some(byte) = bytes.get(from.saturating_add(step) as usize).copied() else {
            return Ok(());
        };
        bytes.push(byte)?;
    }
    Ok(())
}

/// Copies a table behind the file, and one of its entries once more behind that.
#[tactic(auto, using(crate::proofs::Differing::differing_self, crate::proofs::Differing::differing_across))]
fn append_table(bytes: &mut Vec<u8>, table: Table, doubled: u64) -> Result<(), AllocError>
    ensures kept { differing bytes.old.items bytes.new.items ≡ 0 }
    ensures no_shorter { length bytes.old.items ≤ length bytes.new.items }
    ensures longer { length bytes.new.items ≤ length bytes.old.items + 2 ^ 16 + 24 }
{
    append_copy(bytes, table.at, table.count.saturating_mul(ENTRY_SIZE))?;
    append_copy(bytes, table.place(doubled), ENTRY_SIZE)
}

/// Says in a section's header that its table begins there and has this size.
#[tactic(auto, using(crate::proofs::Differing::differing_across))]
fn set_table(bytes: &mut [u8], section: u64, start: u64, size: u64)
    ensures { differing bytes.old bytes.new ≤ 16 }
{
    let sections = sections(bytes);
    sections.field(section, OFFSET).set(bytes, start);
    sections.field(section, SIZE).set(bytes, size);
}

/// Moves a section's table behind the file, with one of its entries doubled at the end.
#[tactic(auto, using(crate::proofs::Differing::differing_self, crate::proofs::Differing::differing_across))]
fn double_entry(
    generator: &mut Generator,
    bytes: &mut Vec<u8>,
    section: u64,
) -> Result<(), AllocError>
    ensures few { differing bytes.old.items bytes.new.items ≤ 16 }
    ensures longer { length bytes.new.items ≤ length bytes.old.items + 2 ^ 16 + 24 }
{
    let table = table_in(bytes, section);
    let Some(doubled) = table.any(generator) else {
        return Ok(());
    };
    let start = bytes.len() as u64;
    append_table(bytes, table, doubled)?;
    let size = table
        .count
        .saturating_mul(ENTRY_SIZE)
        .saturating_add(ENTRY_SIZE);
    set_table(bytes, section, start, size);
    Ok(())
}

/// Drops the last entry of a section's table.
fn drop_entry(bytes: &mut [u8], section: u64)
    ensures { differing bytes.old bytes.new ≤ 8 }
{
    let size = sections(bytes).field(section, SIZE);
    let shorter = size.value(bytes).saturating_sub(ENTRY_SIZE);
    size.set(bytes, shorter);
}

/// Gives a table of relocations or symbols one entry more or one less.
#[tactic(auto, using(crate::proofs::Differing::differing_self))]
fn resize_table(generator: &mut Generator, bytes: &mut Vec<u8>) -> Result<(), AllocError>
    ensures few { differing bytes.old.items bytes.new.items ≤ 16 }
    ensures longer { length bytes.new.items ≤ length bytes.old.items + 2 ^ 16 + 24 }
{
    let kind = if generator.is_one_in(3) {
        SYMBOLS
    } else {
        RELOCATIONS
    };
    let Some(section) = sections(bytes).any_with(generator, bytes, TYPE, kind) else {
        return Ok(());
    };
    if generator.is_one_in(2) {
        drop_entry(bytes, section);
        return Ok(());
    }
    double_entry(generator, bytes, section)
}

/// Changes an object in one way that is drawn by chance. Where it has not what that way changes, it stays.
pub fn change_object(generator: &mut Generator, bytes: &mut Vec<u8>) -> Result<(), AllocError>
    ensures few { differing bytes.old.items bytes.new.items ≤ 128 }
    ensures longer { length bytes.new.items ≤ length bytes.old.items + 2 ^ 16 + 24 }
{
    let _is_changed = match generator.below(24) {
        0 => header().change_field(generator, bytes, &IDENTITY),
        1 => header().change_field(generator, bytes, &PLACES),
        2..=6 => change_section(generator, bytes),
        7..=10 => change_symbol(generator, bytes),
        11..=15 => change_relocation(generator, bytes),
        16..=18 => change_site(generator, bytes),
        19 => change_name(generator, bytes),
        20 => change_any_byte(generator, bytes),
        21 => return change_length(generator, bytes),
        _ => return resize_table(generator, bytes),
    };
    Ok(())
}
