//! Reads changed images, and checks that no proper prefix of one is accepted.

use crate::cases::CASES;
use crate::images::{ANYWHERE, DYNAMIC, MODULE, PROGRAM, WRITTEN};
use image_faults::fault_free;
use image_file::{FaultKind, Image, ImageFault, SymbolBinding, Visibility, read};
use std::alloc::{AllocError, Global};
use std::process::Abort;
use std::test::Fail;

/// Writes bytes, given in hexadecimal digits, at an offset.
fn put(alloc: Global, bytes: &mut Vec<u8>, at: &str, digits: &str) -> Result<(), Fail> {
    let mut at: usize = at.parse()?;
    let part = hex::decode(alloc, digits).ok().ok_or("hexadecimal digits")?;
    for byte in &part {
        *bytes.get_mut(at).ok_or("within the image")? = *byte;
        at = at.checked_add(1).ok_or("an offset")?;
    }
    Ok(())
}

/// The bytes of an image.
pub(crate) fn bytes_of(alloc: Global, pieces: &str) -> Result<Vec<u8>, Fail> {
    let (size, pieces) = pieces.split_once('\n').ok_or("a size")?;
    let size: usize = size.parse()?;
    let mut bytes = vec![in alloc; 0u8; size]?;
    for line in pieces.lines() {
        let (at, digits) = line.split_once(' ').ok_or("an offset and bytes")?;
        put(alloc, &mut bytes, at, digits)?;
    }
    Ok(bytes)
}

/// The image that a letter stands for.
fn lettered(alloc: Global, letter: &str) -> Result<Vec<u8>, Fail> {
    match letter {
        "a" => bytes_of(alloc, PROGRAM),
        "p" => bytes_of(alloc, ANYWHERE),
        "m" => bytes_of(alloc, MODULE),
        "w" => bytes_of(alloc, WRITTEN),
        "g" => bytes_of(alloc, DYNAMIC),
        _ => Err("a letter of an image")?,
    }
}

/// The answer of reading, as a case writes it.
fn answer(alloc: Global, bytes: &[u8]) -> Result<String, AllocError> {
    match read(alloc, bytes) {
        Ok(_) => String::from_str(alloc, "ok"),
        Err(fault) => format!(in alloc; "{fault}"),
    }
}

/// Checks one case.
fn check(rt: &(impl Abort + AllocGlobal), line: &str) -> Result<(), Fail> {
    let (want, words) = line.split_once(": ").ok_or("an answer")?;
    let (letter, changes) = words.split_once(' ').ok_or("an image")?;
    let mut bytes = lettered(rt.alloc(), letter)?;
    for change in changes.split_whitespace() {
        let (at, digits) = change.split_once('=').ok_or("a change has =")?;
        put(rt.alloc(), &mut bytes, at, digits)?;
    }
    let found = answer(rt.alloc(), bytes.as_slice())?;
    assert_eq!(rt; found.as_str(), want, "in {line}");
    Ok(())
}

#[test]
fn finds_the_first_fault(rt: HostRuntime) -> Result<(), Fail> {
    for line in CASES.lines() {
        if !line.starts_with("//") {
            check(&rt, line)?;
        }
    }
    Ok(())
}

/// Each proper prefix of an image is truncated, at its length.
fn fronts_are_truncated(rt: &(impl Abort + AllocGlobal), pieces: &str) -> Result<(), Fail> {
    let bytes = bytes_of(rt.alloc(), pieces)?;
    for len in 0..bytes.len() {
        match fault_free(&bytes[..len]) {
            Err(ImageFault::At { offset, kind }) => {
                assert_eq!(rt; (offset, kind), (len as u64, FaultKind::Truncated));
            }
            _ => return Err("a front is no image")?,
        }
    }
    Ok(())
}

#[test]
fn every_front_is_truncated(rt: HostRuntime) -> Result<(), Fail> {
    fronts_are_truncated(&rt, PROGRAM)?;
    fronts_are_truncated(&rt, ANYWHERE)?;
    fronts_are_truncated(&rt, MODULE)
}

/// The image of the program.
fn program(alloc: Global) -> Result<Image, Fail> {
    let bytes = bytes_of(alloc, PROGRAM)?;
    Ok(read(alloc, bytes.as_slice())?)
}

/// Checks the parts that an image lends.
fn lends_parts(rt: &impl Abort, image: &Image) -> Result<(), Fail> {
    let code = image.part(0).ok_or("there is code")?;
    assert_eq!(rt;
        code.bytes,
        b"\x64\x8b\x04\x25\xfc\xff\xff\xff\xc3".as_slice()
    );
    let data = image.part(1).ok_or("there is data")?;
    assert_eq!(rt; data.bytes, b"\x2a\0\0\0".as_slice());
    assert!(rt; image.part(3).is_none());
    Ok(())
}

/// Checks the symbols that an image lends.
fn lends_symbols(rt: &impl Abort, image: &Image) -> Result<(), Fail> {
    assert!(rt; image.symbol(3).is_none());
    assert!(rt; image.symbol_name(3).is_none());
    assert!(rt; image.relocation(0).is_none());
    let variable = image.symbol(2).ok_or("there is x")?;
    assert_eq!(rt; variable.binding, SymbolBinding::Global);
    assert_eq!(rt; variable.visibility, Visibility::Default);
    assert_eq!(rt; variable.size, 4);
    assert_eq!(rt; image.symbol_name(0), Some(b"".as_slice()));
    Ok(())
}

#[test]
fn lends_bytes_and_sharing(rt: HostRuntime) -> Result<(), Fail> {
    let image = program(rt.alloc())?;
    lends_parts(&rt, &image)?;
    lends_symbols(&rt, &image)
}

#[test]
fn prints_a_fault(rt: HostRuntime) -> Result<(), Fail> {
    let fault = ImageFault::At {
        offset: 12_456,
        kind: FaultKind::TlsPlace,
    };
    let text = format!(in rt.alloc(); "{fault}")?;
    assert_eq!(rt; text.as_str(), "image 12456 TlsPlace");
    let text = format!(in rt.alloc(); "{}", ImageFault::from(AllocError))?;
    assert_eq!(rt; text.as_str(), "out of memory");
    Ok(())
}
