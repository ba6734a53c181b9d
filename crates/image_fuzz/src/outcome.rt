//! The allowed results of reading a changed image.

use crate::writing::check_again;
use anyhow::{Context, Result, bail};
use image_file::{Image, ImageFault, read};
use std::alloc::Global;

/// How reading ended.
#[derive(Clone, Copy)]
pub enum Outcome {
    /// It is an image, and so is what the writer makes of it.
    Accepted,
    /// It has a fault, at an offset of the file or at its end.
    Refused,
}

/// Reads all symbols of an image, and their names.
fn take_symbols(image: &Image) -> Result<()> {
    for number in 0..image.symbol_count() {
        image.symbol(number).context("a symbol")?;
        image.symbol_name(number).context("a name")?;
    }
    Ok(())
}

/// Reads everything that an image lends.
fn take_all(image: &Image) -> Result<()> {
    for number in 0..image.part_count() {
        image.part(number).context("a part")?;
    }
    take_symbols(image)?;
    for number in 0..image.relocation_count() {
        let relocation = image.relocation(number).context("a relocation")?;
        let symbol = u64::from(relocation.symbol);
        image.symbol(symbol).context("a relocation's symbol")?;
    }
    Ok(())
}

/// How reading ends. Any other end is an error.
pub(crate) fn outcome_of(alloc: Global, bytes: &[u8]) -> Result<Outcome> {
    match read(alloc, bytes) {
        Ok(image) => {
            take_all(&image)?;
            check_again(alloc, &image)?;
            Ok(Outcome::Accepted)
        }
        Err(ImageFault::At { offset, kind: _ }) if offset <= bytes.len() as u64 => {
            Ok(Outcome::Refused)
        }
        Err(fault) => bail!("{fault}"),
    }
}
