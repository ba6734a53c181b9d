//! Changes of a file's bytes at some places, as a row spells them.

use anyhow::{Context, Result, ensure};
use std::alloc::Global;

/// Sets a byte, or appends it at the end.
fn set(bytes: &mut Vec<u8>, at: usize, byte: u8) -> Result<()> {
    if at == bytes.len() {
        bytes.push(byte)?;
        return Ok(());
    }
    ensure!(at < bytes.len(), "no byte {at}");
    bytes[at] = byte;
    Ok(())
}

/// Sets the bytes of one place: its offset, and groups of hexadecimal digits.
fn patch(alloc: Global, bytes: &mut Vec<u8>, place: &str) -> Result<()> {
    let (at, groups) = place.split_once(' ').context("no bytes at a place")?;
    let mut at: usize = at.parse()?;
    for group in groups.split(' ') {
        for byte in hex::decode(alloc, group)? {
            set(bytes, at, byte)?;
            at = at.saturating_add(1);
        }
    }
    Ok(())
}

/// The bytes with changes at some places, which are separated by a comma and a space.
pub(crate) fn patched(alloc: Global, bytes: &[u8], places: &str) -> Result<Vec<u8>> {
    let mut patched = Vec::from_slice(alloc, bytes)?;
    for place in places.split(", ") {
        patch(alloc, &mut patched, place)?;
    }
    Ok(patched)
}
