//! Makes objects from a line of text, and writes the findings in one as text.

use crate::cases::CASES;
use elf_object::{Object, ObjectFault};
use elf_records::Rela;
use elf_records::relocation::{
    R_X86_64_32, R_X86_64_64, R_X86_64_DTPOFF32, R_X86_64_GOTPC32_TLSDESC, R_X86_64_GOTPCREL,
    R_X86_64_GOTPCRELX, R_X86_64_GOTTPOFF, R_X86_64_NONE, R_X86_64_PC32, R_X86_64_PLT32,
    R_X86_64_REX_GOTPCRELX, R_X86_64_TLSDESC_CALL, R_X86_64_TLSGD, R_X86_64_TLSLD,
};
use elf_records::symbol::{STT_FUNC, STT_NOTYPE, STT_TLS};
use object_builder::{Section, Symbol, object_of, rela};
use sequence_match::{Site, sites};
use std::alloc::{AllocError, Global};
use std::process::Abort;
use std::test::Fail;

/// The symbols of each object.
fn symbols() -> [Symbol<'static>; 4] {
    [
        Symbol::local(b"__tls_get_addr", STT_FUNC, 1, 0, 0),
        Symbol::global(b"v", STT_TLS, 0, 0, 0),
        Symbol::global(b"__tls_get_addr", STT_NOTYPE, 0, 0, 0),
        Symbol::global(b"w", STT_TLS, 0, 0, 0),
    ]
}

/// The relocation type with a name, without its R_X86_64.
fn kind_of(name: &str) -> Result<u32, Fail> {
    let kind = match name {
        "NONE" => R_X86_64_NONE,
        "64" => R_X86_64_64,
        "32" => R_X86_64_32,
        "PC32" => R_X86_64_PC32,
        "PLT32" => R_X86_64_PLT32,
        "GOTPCREL" => R_X86_64_GOTPCREL,
        "GOTPCRELX" => R_X86_64_GOTPCRELX,
        "REX_GOTPCRELX" => R_X86_64_REX_GOTPCRELX,
        "TLSGD" => R_X86_64_TLSGD,
        "TLSLD" => R_X86_64_TLSLD,
        "GOTTPOFF" => R_X86_64_GOTTPOFF,
        "DTPOFF32" => R_X86_64_DTPOFF32,
        "TLSDESC" => R_X86_64_GOTPC32_TLSDESC,
        "TLSDESC_CALL" => R_X86_64_TLSDESC_CALL,
        _ => return Err("a type of relocation")?,
    };
    Ok(kind)
}

/// The relocation OFFSET:TYPE:SYMBOL:ADDEND.
fn relocation_of(word: &str) -> Result<Rela, Fail> {
    let (offset, rest) = word.split_once(':').ok_or("a type")?;
    let (kind, rest) = rest.split_once(':').ok_or("a symbol")?;
    let (symbol, addend) = rest.split_once(':').ok_or("an addend")?;
    Ok(rela(
        offset.parse()?,
        kind_of(kind)?,
        symbol.parse()?,
        addend.parse()?,
    ))
}

/// The number of a hexadecimal digit.
fn digit(byte: u8) -> Result<u8, Fail> {
    match byte {
        b'0'..=b'9' => Ok(byte - b'0'),
        b'a'..=b'f' => Ok(byte - b'a' + 10),
        _ => Err("a hexadecimal digit")?,
    }
}

/// The bytes of a text with two digits for each.
fn bytes_of(alloc: Global, text: &str) -> Result<Vec<u8>, Fail> {
    let mut bytes = Vec::new(alloc);
    for pair in text.as_bytes().chunks_exact(2) {
        let [high, low] = pair else {
            return Err("two digits")?;
        };
        bytes.push(16 * (digit(*high)? & 15) + (digit(*low)? & 15))?;
    }
    Ok(bytes)
}

/// The findings in an object, as a case writes them.
fn answer(alloc: Global, bytes: &[u8]) -> Result<String, Fail> {
    let object = Object::read(alloc, bytes)?;
    match sites(alloc, &object) {
        Ok(found) => Ok(listed(alloc, found.as_slice())?),
        Err(fault) => Ok(refusal(alloc, fault)?),
    }
}

/// A fault, as a case writes it.
fn refusal(alloc: Global, fault: ObjectFault) -> Result<String, AllocError> {
    match fault {
        ObjectFault::OutOfMemory => String::from_str(alloc, "out of memory"),
        ObjectFault::At {
            section,
            entry,
            kind,
        } => format!(in alloc; "{section} {entry} {kind}"),
    }
}

/// Sites, as a case writes them.
fn listed(alloc: Global, sites: &[Site]) -> Result<String, AllocError> {
    if sites.is_empty() {
        return String::from_str(alloc, "nothing");
    }
    let mut text = String::new(alloc);
    for site in sites {
        if !text.is_empty() {
            text.push(' ')?;
        }
        let shown = format!(in alloc;
            "{:?}@{}+{}:{}:{}",
            site.form, site.start, site.len, site.symbol, site.reg
        )?;
        text.push_str(shown.as_str())?;
    }
    Ok(text)
}

/// The object of a case: its bytes of code, and its relocations.
fn object_in(alloc: Global, text: &str) -> Result<Vec<u8>, Fail> {
    let (code, words) = text.split_once('/').ok_or("relocations")?;
    let code = bytes_of(alloc, code.trim())?;
    let mut relocations = Vec::new(alloc);
    for word in words.split_whitespace() {
        relocations.push(relocation_of(word)?)?;
    }
    let sections = [Section::code(code.as_slice()).with(relocations.as_slice())];
    Ok(object_of(alloc, &sections, &symbols())?)
}

/// Checks the findings of one case.
fn check(rt: &(impl Abort + AllocGlobal), line: &str) -> Result<(), Fail> {
    let (want, text) = line.split_once('=').ok_or("what is found")?;
    let bytes = object_in(rt.alloc(), text)?;
    let found = answer(rt.alloc(), bytes.as_slice())?;
    assert_eq!(rt; found.as_str(), want.trim(), "in {line}");
    Ok(())
}

#[test]
fn finds_what_the_table_says(rt: HostRuntime) -> Result<(), Fail> {
    for line in CASES.lines() {
        if !line.starts_with("//") {
            check(&rt, line)?;
        }
    }
    Ok(())
}
