//! The thread-local symbols that startup images share.

ghost use Rattle.std.specs.Prelude.{◌≡◌, ◌≤◌, ◌<◌, ℕ, List, Some, None, IfOk, OnOk, length, map, option_map};
ghost use Rattle.std.specs.Prelude.{if◌then◌else◌, slice_get};
ghost use Rattle.std.specs.Option.{option_or};
ghost use Rattle.std.specs.Str.{bytes_eq};
ghost use Rattle.loaded_modules.specs.Exported.{found, shared_at};
ghost use Rattle.loaded_modules.specs.Loader.{export_here, export_in, is_shared, shared_from, shared_offset};

use image_file::{Image, ImageSymbol};
use link_faults::ImageKind;
use std::alloc::{AllocError, Global};
use std::collections::HashMap;

/// The place of a shared thread-local symbol.
#[derive(Clone, Copy, PartialEq, Eq, Debug)]
pub struct Export {
    /// The number of the image that has it, counted from 1.
    pub image: u32,
    /// Its offset in the blocks of that image.
    pub offset: u64,
}

/// Whether other images may name a symbol.
fn is_shared(symbol: ImageSymbol) -> bool
    ensures { result ≡ is_shared symbol }
{
    symbol.is_defined && symbol.kind.is_tls() && symbol.visibility.is_visible()
}

/// The symbols that startup images share, by their names: for each name the first.
#[derive(Drop)]
pub(crate) struct Exports<'a> {
    by_name: HashMap<&'a [u8], Export>,
}

impl<'a> Exports<'a> {
    /// No symbols.
    pub(crate) fn new(alloc: Global) -> Exports<'a>
        ensures { (name : List ℕ) → found result.by_name name ≡ None }
    {
        Exports {
            by_name: HashMap::new(alloc),
        }
    }

    /// The place of the symbol of that name.
    pub(crate) fn get(&self, name: &[u8]) -> Option<Export>
        ensures { result ≡ found self.now.by_name name.now }
    {
        self.by_name.get(name).copied()
    }

    /// Adds a symbol, unless an earlier one has the name.
    fn add(&mut self, name: &'a [u8], export: Export) -> Result<(), AllocError>
        ensures { OnOk result ((q : List ℕ) → found self.new.by_name q
            ≡ option_or (found self.old.by_name q) (if bytes_eq q name.now then Some export else None)) }
    {
        if self.get(name).is_none() {
            self.by_name.insert(name, export)?;
        }
        Ok(())
    }

    /// Adds a symbol of a startup image, if the image shares it.
    fn add_symbol(&mut self, number: u32, image: &'a Image, symbol: u64) -> Result<(), AllocError>
        ensures { OnOk result ((q : List ℕ) → found self.new.by_name q ≡ option_or (found self.old.by_name q)
            (option_map (export_in number)
            (shared_at q (slice_get image.now.symbols symbol) (slice_get image.now.names symbol)))) }
    {
        let (Some(shared), Some(name)) = (image.symbol(symbol), image.symbol_name(symbol)) else {
            return Ok(());
        };
        if !is_shared(shared) {
            return Ok(());
        }
        let offset = shared.value;
        self.add(
            name,
            Export {
                image: number,
                offset,
            },
        )
    }

    /// Adds the symbols that a startup image shares.
    fn add_image(&mut self, number: u32, image: &'a Image) -> Result<(), AllocError>
        ensures { OnOk result ((q : List ℕ) → found self.new.by_name q ≡ option_or (found self.old.by_name q)
            (option_map (export_in number) (shared_offset q image.now))) }
    {
        for symbol in 1..image.symbol_count() {
            self.add_symbol(number, image, symbol)?;
        }
        Ok(())
    }

    /// Adds the symbols that an image shares, if it starts with the program.
    fn add_at_start(
        &mut self,
        number: u32,
        kind: ImageKind,
        image: &'a Image,
    ) -> Result<(), AllocError>
        ensures { OnOk result ((q : List ℕ) → found self.new.by_name q ≡ option_or (found self.old.by_name q)
            (export_here q number kind image.now)) }
    {
        if kind.is_late() {
            return Ok(());
        }
        self.add_image(number, image)
    }

    /// All symbols that the images of a job share.
    fn of(
        alloc: Global,
        kinds: &[ImageKind],
        images: &'a [Image],
    ) -> Result<Exports<'a>, AllocError>
        requires each { length kinds.now ≡ length images.now }
        requires few { length kinds.now ≤ 64 }
        ensures { IfOk result
            (λ exports. (q : List ℕ) → found exports.by_name q ≡ shared_from q 1 kinds.now images.now) }
    {
        let mut exports = Exports::new(alloc);
        for index in 0..images.len() {
            exports.add_at_start(index as u32 + 1, kinds[index], &images[index])?;
        }
        Ok(exports)
    }

    /// The place of each symbol of an image, by its number, if its name is shared.
    fn for_image(&self, alloc: Global, image: &Image) -> Result<Vec<Option<Export>>, AllocError>
        ensures { IfOk result (λ row. row.items ≡ map (found self.now.by_name) image.now.names) }
    {
        let mut row = Vec::new(alloc);
        for symbol in 0..image.symbol_count() {
            if let Some(name) = image.symbol_name(symbol) {
                row.push(self.get(name))?;
            }
        }
        Ok(row)
    }
}

/// The place of each symbol of each image, by the numbers of both.
pub(crate) fn imports_of(
    alloc: Global,
    kinds: &[ImageKind],
    images: &[Image],
) -> Result<Vec<Vec<Option<Export>>>, AllocError>
    requires each { length kinds.now ≡ length images.now }
    requires few { length kinds.now ≤ 64 }
    ensures { IfOk result (λ rows. map (λ row. row.items) rows.items
        ≡ map (λ image. map (λ name. shared_from name 1 kinds.now images.now) image.names) images.now) }
{
    let exports = Exports::of(alloc, kinds, images)?;
    let mut rows = Vec::new(alloc);
    for image in images {
        rows.push(exports.for_image(alloc, image)?)?;
    }
    Ok(rows)
}
