//! Writes images that were read.

use anyhow::{Result, ensure};
use image_file::{Image, read};
use image_writer::{holds_tls, write};
use std::alloc::Global;

/// The file that the writer makes of an image, if the writer accepts it.
fn written(alloc: Global, image: &Image) -> Result<Option<Vec<u8>>> {
    if !holds_tls(image) {
        return Ok(None);
    }
    let mut bytes = Vec::new(alloc);
    write(alloc, image, &mut bytes)?;
    Ok(Some(bytes))
}

/// Checks that the writer makes these bytes of an image.
pub(crate) fn check_written(alloc: Global, image: &Image, bytes: &[u8]) -> Result<()> {
    let made = written(alloc, image)?;
    let is_same = made.is_some_and(|made| made.as_slice() == bytes);
    ensure!(is_same, "the writer makes other bytes");
    Ok(())
}

/// Checks that the file that the writer makes of an image, if any, is read and written again with the same bytes.
pub(crate) fn check_again(alloc: Global, image: &Image) -> Result<()> {
    match written(alloc, image)? {
        None => Ok(()),
        Some(bytes) => {
            let again = read(alloc, bytes.as_slice())?;
            check_written(alloc, &again, bytes.as_slice())
        }
    }
}
