//! The table of an image's names: each is hashed once, and gets the meaning of its first symbol.

ghost use Rattle.std.specs.Prelude.{◌≡◌, ◌<◌, IfOk, OnOk, Some, length, slice_get};
ghost use Rattle.image_names.specs.Meanings.{Tells, TellsWith, noted};

use crate::meaning::{Meaning, meaning_of};
use image_file::Image;
use indexmap::IndexMap;
use std::alloc::{AllocError, Global};

/// Gives a name its meaning, unless it has one.
fn note<'i>(
    meanings: &mut IndexMap<&'i [u8], Meaning>,
    name: &'i [u8],
    meaning: Meaning,
) -> Result<(), AllocError>
    ensures { OnOk result (meanings.new.entries ≡ noted meanings.old.entries name.entry meaning) }
{
    meanings.entry(name)?.or_insert(meaning);
    Ok(())
}

/// The meaning of each name of an image, by its first symbol.
pub fn meanings_of<'i>(
    alloc: Global,
    image: &'i Image,
) -> Result<IndexMap<&'i [u8], Meaning>, AllocError>
    ensures { IfOk result (λ meanings. Tells image.now meanings.entries) }
{
    let mut meanings = IndexMap::new(alloc);
    for number in 1..image.symbol_count() {
        if let Some(name) = image.symbol_name(number) {
            if let Some(symbol) = image.symbol(number) {
                note(&mut meanings, name, meaning_of(image, symbol))?;
            }
        }
    }
    Ok(meanings)
}
