//! Tests of `decode`, `begins` and `encode` against GNU as and objdump, for each row of the opcode map.

use amd64_encoder::encode;
use amd64_subset::{begins, decode};
use std::alloc::Global;
use std::process::Abort;
use std::test::Fail;

mod corners;
mod listing;
mod text;
mod written;

use corners::CORNERS;
use listing::{OTHERS, SHORTEST};
use written::WRITTEN;

/// The three columns of a table's line; the last is free text.
fn columns(line: &str) -> Option<(&str, &str, &str)> {
    let (first, rest) = line.split_once(' ')?;
    let (second, text) = rest.trim_start().split_once(' ')?;
    Some((first, second, text.trim_start()))
}

/// The bytes that a column writes in hexadecimal digits.
fn bytes(alloc: Global, digits: &str) -> Result<Vec<u8>, Fail> {
    Ok(hex::decode(alloc, digits).ok().ok_or("hexadecimal digits")?)
}

/// Checks that no proper front of an instruction's bytes is an instruction, and that each begins one.
fn checks_fronts(rt: &impl Abort, bytes: &[u8], line: &str) {
    assert!(rt; !begins(bytes), "{line}");
    for (end, _) in bytes.iter().enumerate() {
        let front = &bytes[..end];
        assert!(rt; begins(front), "{end} bytes of {line}");
        assert_eq!(rt; decode(front), None, "{end} bytes of {line}");
    }
}

/// Checks that the line's instruction decodes with its length and its text, and that each proper front of its bytes
/// begins a spelling and is not one.
fn reads(rt: &impl Abort, alloc: Global, line: &str) -> Result<(), Fail> {
    let (address, digits, text) = columns(line).ok_or("three columns")?;
    let address = u64::from_str_radix(address, 16).ok().ok_or("an address")?;
    let bytes = bytes(alloc, digits)?;
    let read = decode(&bytes).ok_or("it is read")?;
    assert_eq!(rt; read.len as usize, bytes.len(), "{line}");
    let printed = text::text_of(read.instr, address.wrapping_add(read.len as u64));
    let printed = format!(in alloc; "{printed}")?;
    assert_eq!(rt; printed.as_str(), text, "{line}");
    checks_fronts(rt, bytes.as_slice(), line);
    Ok(())
}

#[test]
fn reads_what_objdump_prints(rt: HostRuntime) -> Result<(), Fail> {
    for table in [SHORTEST, OTHERS] {
        for line in table.trim().lines() {
            reads(&rt, rt.alloc(), line)?;
        }
    }
    Ok(())
}

/// Checks that the line's bytes decode with its length, if it has one, and begin a spelling if it says so.
fn keeps(rt: &impl Abort, alloc: Global, line: &str) -> Result<(), Fail> {
    let (digits, len, text) = columns(line).ok_or("three columns")?;
    let bytes = bytes(alloc, digits)?;
    let read = decode(&bytes).map(|read| read.len);
    assert_eq!(rt; read, len.parse::<u8>().ok(), "{line}");
    assert_eq!(rt; begins(&bytes), text.starts_with("begins"), "{line}");
    Ok(())
}

#[test]
fn keeps_to_the_corners(rt: HostRuntime) -> Result<(), Fail> {
    assert!(&rt; begins(&[]), "no byte begins an instruction");
    for line in CORNERS.trim().lines() {
        keeps(&rt, rt.alloc(), line)?;
    }
    Ok(())
}

/// Checks that the instruction decoded from `from` is written as `to`, with nothing after it, and decodes again.
fn writes(rt: &impl Abort, from: &[u8], to: &[u8]) -> Result<(), Fail> {
    let Some(read) = decode(from) else {
        return Err(Fail::from("it is read"));
    };
    let mut written = [0xcc; 15];
    let len = encode(&read.instr, &mut written) as usize;
    assert_eq!(rt; &written[..len], to, "{from:?}");
    assert!(rt; written[len..].iter().all(|byte| *byte == 0xcc), "{from:?}");
    let again = decode(&written).ok_or("it is read again")?;
    assert_eq!(rt; again.instr, read.instr, "{from:?}");
    assert_eq!(rt; again.len as usize, len, "{from:?}");
    Ok(())
}

#[test]
fn writes_the_first_of_the_shortest(rt: HostRuntime) -> Result<(), Fail> {
    for line in WRITTEN.trim().lines() {
        let (from, to, _) = columns(line).ok_or("three columns")?;
        writes(&rt, &bytes(rt.alloc(), from)?, &bytes(rt.alloc(), to)?)?;
    }
    Ok(())
}

#[test]
fn writes_what_the_assembler_writes(rt: HostRuntime) -> Result<(), Fail> {
    for line in SHORTEST.trim().lines() {
        let (_, digits, _) = columns(line).ok_or("three columns")?;
        let bytes = bytes(rt.alloc(), digits)?;
        writes(&rt, &bytes, &bytes)?;
    }
    Ok(())
}
