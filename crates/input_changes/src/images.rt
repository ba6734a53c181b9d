//! Changes of images: ELF files with program headers and a dynamic array, as `link` writes them.

ghost use Rattle.std.specs.Prelude.{◌+◌, ◌≤◌, length};
ghost use Rattle.input_changes.specs.Differing.{differing};

use crate::fields::Field;
use crate::lengths::{change_any_byte, change_byte, change_length};
use crate::tables::{ENTRY_SIZE, RELOCATION, SYMBOL, Table, header};
use job_changes::Generator;
use std::alloc::AllocError;

/// The fields of the file's header.
const HEADER: [Field; 18] = [
    Field(0, 1),
    Field(4, 1),
    Field(5, 1),
    Field(6, 1),
    Field(7, 1),
    Field(16, 2),
    Field(18, 2),
    Field(20, 4),
    Field(24, 8),
    Field(32, 8),
    Field(40, 8),
    Field(48, 4),
    Field(52, 2),
    Field(54, 2),
    SEGMENT_COUNT,
    Field(58, 2),
    Field(60, 2),
    Field(62, 2),
];

const SEGMENT_COUNT: Field = Field(56, 2);

/// The fields of a program header.
const SEGMENT: [Field; 8] = [
    TYPE,
    Field(4, 4),
    OFFSET,
    ADDRESS,
    Field(24, 8),
    FILE_SIZE,
    Field(40, 8),
    Field(48, 8),
];

const TYPE: Field = Field(0, 4);

const OFFSET: Field = Field(8, 8);

const ADDRESS: Field = Field(16, 8);

const FILE_SIZE: Field = Field(32, 8);

/// The type of the segment that has the dynamic array.
const DYNAMIC: u64 = 2;

/// The fields of an entry of the dynamic array.
const ENTRY: [Field; 2] = [TAG, VALUE];

const TAG: Field = Field(0, 8);

const VALUE: Field = Field(8, 8);

/// Tags of the dynamic array: where names, symbols and relocations are, and how many bytes these have.
const NAMES: u64 = 5;

const SYMBOLS: u64 = 6;

const RELOCATIONS: u64 = 7;

const RELOCATIONS_SIZE: u64 = 8;

/// The program headers.
fn segments(bytes: &[u8]) -> Table {
    Table {
        at: 64,
        count: SEGMENT_COUNT.value(bytes),
        size: 56,
    }
}

/// The dynamic array.
fn dynamic(generator: &mut Generator, bytes: &[u8]) -> Option<Table> {
    let segments = segments(bytes);
    let number = segments.any_with(generator, bytes, TYPE, DYNAMIC)?;
    Some(Table {
        at: segments.value(bytes, number, OFFSET),
        count: segments.value(bytes, number, FILE_SIZE) / 16,
        size: 16,
    })
}

/// The number that the dynamic array has under a tag.
fn under_tag(generator: &mut Generator, bytes: &[u8], tag: u64) -> Option<u64> {
    let table = dynamic(generator, bytes)?;
    let number = table.any_with(generator, bytes, TAG, tag)?;
    Some(table.value(bytes, number, VALUE))
}

/// Where in the file an address is: as far behind the first segment's place as behind its address.
fn place_of(bytes: &[u8], address: u64) -> u64 {
    let segments = segments(bytes);
    let start = segments.value(bytes, 0, OFFSET);
    let behind = address.saturating_sub(segments.value(bytes, 0, ADDRESS));
    start.saturating_add(behind)
}

/// The symbols. Names stand right behind them.
fn symbols(generator: &mut Generator, bytes: &[u8]) -> Option<Table> {
    let address = under_tag(generator, bytes, SYMBOLS)?;
    let names = under_tag(generator, bytes, NAMES)?;
    Some(Table {
        at: place_of(bytes, address),
        count: names.saturating_sub(address) / ENTRY_SIZE,
        size: ENTRY_SIZE,
    })
}

/// The relocations.
fn relocations(generator: &mut Generator, bytes: &[u8]) -> Option<Table> {
    let address = under_tag(generator, bytes, RELOCATIONS)?;
    let size = under_tag(generator, bytes, RELOCATIONS_SIZE)?;
    Some(Table {
        at: place_of(bytes, address),
        count: size / ENTRY_SIZE,
        size: ENTRY_SIZE,
    })
}

/// Changes a program header.
#[tactic(auto, using(crate::proofs::Differing::differing_self))]
fn change_segment(generator: &mut Generator, bytes: &mut [u8]) -> Option<()>
    ensures { differing bytes.old bytes.new ≤ 128 }
{
    let table = segments(bytes);
    table.change(generator, bytes, &SEGMENT, 8)
}

/// Changes an entry of the dynamic array.
#[tactic(auto, using(crate::proofs::Differing::differing_self))]
fn change_entry(generator: &mut Generator, bytes: &mut [u8]) -> Option<()>
    ensures { differing bytes.old bytes.new ≤ 128 }
{
    let table = dynamic(generator, bytes)?;
    table.change(generator, bytes, &ENTRY, 8)
}

/// Changes a symbol.
#[tactic(auto, using(crate::proofs::Differing::differing_self))]
fn change_symbol(generator: &mut Generator, bytes: &mut [u8]) -> Option<()>
    ensures { differing bytes.old bytes.new ≤ 128 }
{
    let table = symbols(generator, bytes)?;
    table.change(generator, bytes, &SYMBOL, 8)
}

/// Changes a relocation.
#[tactic(auto, using(crate::proofs::Differing::differing_self))]
fn change_relocation(generator: &mut Generator, bytes: &mut [u8]) -> Option<()>
    ensures { differing bytes.old bytes.new ≤ 128 }
{
    let table = relocations(generator, bytes)?;
    table.change(generator, bytes, &RELOCATION, 8)
}

/// Changes a byte of the names, or one of the next sixty-three behind them.
#[tactic(auto, using(crate::proofs::Differing::differing_self))]
fn change_name(generator: &mut Generator, bytes: &mut [u8]) -> Option<()>
    ensures { differing bytes.old bytes.new ≤ 1 }
{
    let address = under_tag(generator, bytes, NAMES)?;
    let place = place_of(bytes, address).saturating_add(generator.below(64));
    change_byte(generator, bytes, place)
}

/// Changes an image in one way that is drawn by chance. Where it has not what that way changes, it stays.
pub fn change_image(generator: &mut Generator, bytes: &mut Vec<u8>) -> Result<(), AllocError>
    ensures few { differing bytes.old.items bytes.new.items ≤ 128 }
    ensures longer { length bytes.new.items ≤ length bytes.old.items + 63 }
{
    let _is_changed = match generator.below(24) {
        0 | 1 => header().change_field(generator, bytes, &HEADER),
        2..=5 => change_segment(generator, bytes),
        6..=8 => change_entry(generator, bytes),
        9..=13 => change_symbol(generator, bytes),
        14..=18 => change_relocation(generator, bytes),
        19 | 20 => change_name(generator, bytes),
        21 | 22 => change_any_byte(generator, bytes),
        _ => return change_length(generator, bytes),
    };
    Ok(())
}
