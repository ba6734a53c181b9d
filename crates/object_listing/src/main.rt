//! Lists objects: `object_listing FILE..` prints each file's sections, relocations and symbols, or its fault.
//!
//! Sections are listed as linking sees them. The data are objects that an assembler and a compiler wrote;
//! data/commands has the commands.
#![tactic(auto)]

use anyhow::Result;
use elf_object::{Object, Relocation, SectionPart, SymbolPart};
use std::{env, fs, io, str};

/// A name as text; a question mark for a name that is not UTF-8.
fn text(name: &[u8]) -> &str {
    str::from_utf8(name).unwrap_or("?")
}

/// Prints a section, unless linking drops it.
fn print_section(
    rt: &impl Print,
    number: u32,
    name: &[u8],
    section: &SectionPart,
) -> io::Result<()> {
    let Some(class) = section.class else {
        return Ok(());
    };
    let name = text(name);
    let held = section.bytes.len();
    let size = section.size;
    let alignment = section.alignment;
    println!(rt;
        "  section {number} {name} {class:?}: {held} of {size} bytes, alignment {alignment}"
    )
}

fn print_relocation(rt: &impl Print, relocation: &Relocation) -> io::Result<()> {
    let offset = relocation.offset;
    let kind = relocation.kind;
    let symbol = relocation.symbol;
    let addend = relocation.addend;
    println!(rt; "    at {offset}: {kind:?} of symbol {symbol}, addend {addend}")
}

fn print_symbol(rt: &impl Print, number: u32, name: &[u8], symbol: &SymbolPart) -> io::Result<()> {
    let name = text(name);
    let binding = symbol.binding;
    let kind = symbol.kind;
    let place = symbol.place;
    let value = symbol.value;
    let size = symbol.size;
    println!(rt;
        "  symbol {number} {name} {binding:?} {kind:?} {place:?}: value {value}, size {size}"
    )
}

/// Prints an object: its sections, each with its relocations, and its symbols.
fn print_object(rt: &impl Print, object: &Object) -> io::Result<()> {
    for number in 0..object.section_count() {
        if let Some(section) = object.section(number) {
            print_section(rt, number, object.section_name(number), &section)?;
        }
        for relocation in object.relocs(number) {
            print_relocation(rt, &relocation)?;
        }
    }
    for number in 1..object.symbol_count() {
        if let Some(symbol) = object.symbol(number) {
            print_symbol(rt, number, object.symbol_name(number), &symbol)?;
        }
    }
    if let Some(section) = object.writable() {
        println!(rt; "  data that programs write: section {section}")?;
    }
    Ok(())
}

fn main(rt: HostRuntime) -> Result<()> {
    for name in env::args(&rt)?.skip(1) {
        let bytes = fs::read(&rt, name.as_str())?;
        println!(rt; "{name}")?;
        match Object::read(rt.alloc(), &bytes) {
            Ok(object) => print_object(&rt, &object)?,
            Err(fault) => println!(rt; "  {fault}")?,
        }
    }
    Ok(())
}
