//! Measures how long it takes to read an object and to walk over its parts.
//!
//! `read_benchmark TEXTS [time]` makes an object of TEXTS sections of code, from 1 to 8, each with 200,000
//! relocations, and of 50,000 symbols. All its sections and symbols have one name of a million bytes: none of the
//! loops below may read it. With `time` it prints how long reading and walking took, and how long one pass takes that
//! adds the file's bytes.
#![tactic(auto)]

use anyhow::{Context, Result, ensure};
use elf_object::Object;
use elf_records::Rela;
use elf_records::relocation::R_X86_64_PC32;
use elf_records::symbol::STT_FUNC;
use object_builder::{Draft, Section, Symbol, draft_of, rela};
use std::alloc::{AllocError, Global};
use std::env;
use std::time::Instant;

/// Bytes of a section of code; at most 2^20 are allowed.
const TEXT_SIZE: usize = 800_000;

/// Relocations of a section of code, each of the next four bytes.
const RELOCATIONS: u32 = 200_000;

const SYMBOLS: u32 = 50_000;

/// Bytes of the name that all sections and symbols have.
const NAME_SIZE: usize = 1_000_000;

/// Relocations of a section of code, for one symbol after another.
fn relocations(alloc: Global) -> Result<Vec<Rela>, AllocError> {
    let mut relocations = Vec::new(alloc);
    for number in 0..RELOCATIONS {
        let symbol = 1 + number % SYMBOLS;
        relocations.push(rela(4 * u64::from(number), R_X86_64_PC32, symbol, -4))?;
    }
    Ok(relocations)
}

/// Gives all sections the name of the last one before the tables, and all symbols the name of the first.
fn share_names(draft: &mut Draft, section_name: u32, symbol_name: u32) {
    for section in draft.sections.as_mut_slice() {
        section.name = section_name;
    }
    for symbol in draft.symbols.as_mut_slice() {
        symbol.name = symbol_name;
    }
}

/// An object with this many sections of code, and a section of thread-local storage.
fn example(alloc: Global, texts: usize) -> Result<Vec<u8>, AllocError> {
    let name = vec![in alloc; b'n'; NAME_SIZE]?;
    let code = vec![in alloc; 0x90; TEXT_SIZE]?;
    let relocations = relocations(alloc)?;
    let mut sections = Vec::new(alloc);
    let mut variables = Section::variables(b"\x2a\0\0\0");
    variables.name = name.as_slice();
    sections.push(variables)?;
    for _ in 0..texts {
        sections.push(Section::code(code.as_slice()).with(relocations.as_slice()))?;
    }
    let mut symbols = Vec::new(alloc);
    symbols.push(Symbol::global(name.as_slice(), STT_FUNC, 2, 0, 1))?;
    for _ in 1..SYMBOLS {
        symbols.push(Symbol::global(b"", STT_FUNC, 2, 0, 1))?;
    }
    let mut draft = draft_of(alloc, sections.as_slice(), symbols.as_slice())?;
    // The first name of each string table comes after its zero byte.
    share_names(&mut draft, 1, 1);
    draft.bytes(alloc)
}

/// Walks over what an object lends: each section, and for each relocation its symbol. The sum says how much there was.
fn lend_all(object: &Object) -> u64 {
    let mut sum = 0_u64;
    for number in 0..object.section_count() {
        if let Some(section) = object.section(number) {
            sum = sum.wrapping_add(section.size);
        }
        for relocation in object.relocs(number) {
            if let Some(symbol) = object.symbol(relocation.symbol) {
                sum = sum.wrapping_add(symbol.size);
            }
        }
    }
    sum
}

/// The sum of the bytes, which reads each of them once.
fn sum_of(bytes: &[u8]) -> u64 {
    let mut sum = 0_u64;
    for byte in bytes {
        sum = sum.wrapping_add(u64::from(*byte));
    }
    sum
}

fn main(rt: HostRuntime) -> Result<()> {
    let mut words = env::args(&rt)?.skip(1);
    let texts: usize = words.next().context("how many sections of code")?.parse()?;
    ensure!(1 <= texts && texts <= 8, "1 to 8 sections of code");
    let bytes = example(rt.alloc(), texts)?;
    let start = Instant::now(&rt)?;
    let object = Object::read(rt.alloc(), bytes.as_slice())?;
    let reading = start.elapsed(&rt)?;
    let start = Instant::now(&rt)?;
    let lent = lend_all(&object);
    let lending = start.elapsed(&rt)?;
    println!(rt; "{} symbols, {lent} bytes lent", object.symbol_count())?;
    if words.next().is_some() {
        let start = Instant::now(&rt)?;
        let sum = sum_of(bytes.as_slice());
        let adding = start.elapsed(&rt)?;
        println!(rt;
            "{} bytes: read in {reading:?}, lent in {lending:?}, added in {adding:?} (sum {sum})",
            bytes.len()
        )?;
    }
    Ok(())
}
