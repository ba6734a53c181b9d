//! The parts of an image as an instance of it has them.

ghost use Rattle.std.specs.Prelude.{◌≡◌, ◌^◌, ◌<◌, ◌≤◌, ◌+◌, ℕ, List, Some, length, slice_get, slice_range};
ghost use Rattle.loaded_modules.specs.Images.{image_at};
ghost use Rattle.loaded_modules.specs.Loader.{part_bytes, target_of};
ghost use Rattle.loaded_modules.specs.LoaderLaws.{bias_of, loaded_part, parts_of};
ghost use Rattle.loaded_modules.specs.Words.{with_numbered, IsWindow};
ghost use Rattle.image_file.specs.Spelled.{lent_part};

use crate::instance::Instance;
use crate::modules::Modules;
use crate::relocating::{Target, bias, own_target, relocate, words_of};
use crate::searches::relocations_below;
use image_file::{Image, ImagePart, ImageRelocation};

/// An image as one load of it has it, with all images of the job: its relocations may name symbols of others.
#[derive(Clone, Copy)]
pub(crate) struct LoadedImage<'m, 'i, 'l> {
    pub(crate) modules: &'m Modules,
    pub(crate) image: &'i Image,
    pub(crate) instance: &'l Instance,
}

/// Each symbol of an image has a name. The call does nothing; it gives a proof this fact.
fn symbols_are_named(image: &Image)
    ensures { length image.now.symbols ≡ length image.now.names }
{
    image.symbol_count();
}

impl LoadedImage<'_, '_, '_> {
    /// The target of a relocation.
    #[tactic(auto, unfolding(crate::specs::Loader::target_of))]
    fn target(&self, relocation: ImageRelocation) -> Target
        requires there { image_at self.now.modules.now self.now.instance.now.image ≡ Some self.now.image.now }
        requires symbol { relocation.symbol < length self.now.image.now.names }
        ensures { result ≡ target_of self.now.modules.now self.now.image.now self.now.instance.now relocation }
    {
        if relocation.symbol == 0 {
            return own_target(self.instance, relocation);
        }
        match self
            .modules
            .import(self.instance.image, self.image, relocation.symbol)
        {
            Some(export) => Target {
                id: u64::from(export.image),
                offset: export.offset,
                distance: self.modules.static_offset(export.image),
            },
            None => Target {
                id: 0,
                offset: 0,
                distance: 0,
            },
        }
    }

    /// Writes the words of the relocation with this number, as far as they lie in a window of a part. The window
    /// begins `from` bytes past the part's start.
    fn relocate(&self, part: ImagePart, number: u64, from: u64, window: &mut [u8])
        requires there { image_at self.now.modules.now self.now.instance.now.image ≡ Some self.now.image.now }
        requires inside { from + length window.old ≤ length part.bytes.now }
        ensures len { length window.new ≡ length window.old }
        ensures shows { (bytes : List ℕ) → length bytes ≡ length part.entry.bytes.now → IsWindow bytes from window.old
            → IsWindow
            (with_numbered self.now.modules.now self.now.image.now self.now.instance.now (lent_part part.entry) bytes
            (slice_get self.now.image.now.relocations number)) from window.new }
    {
        symbols_are_named(self.image);
        if let Some(relocation) = self.image.relocation(number) {
            let target = self.target(relocation);
            let words = words_of(self.image.kind(), self.instance, target, relocation);
            relocate(window, from, part, relocation.place, words);
        }
    }

    /// Reads a window of a part.
    pub(crate) fn read_window(&self, part: ImagePart, from: u64, window: &mut [u8])
        requires there { image_at self.now.modules.now self.now.instance.now.image ≡ Some self.now.image.now }
        requires inside { from + length window.old ≤ length part.bytes.now }
        ensures len { length window.new ≡ length window.old }
        ensures shows { window.new ≡ slice_range
            (part_bytes self.now.modules.now self.now.image.now self.now.instance.now (lent_part part.entry))
            from (from + length window.old) }
    {
        let end = from as usize + window.len();
        window.copy_from_slice(&part.bytes[from as usize..end]);
        // A relocation writes at most 16 bytes, and their places rise: the others do not reach the window.
        let start = u128::from(part.address) + u128::from(from);
        let first = relocations_below(self.image, start.saturating_sub(15));
        let last = relocations_below(self.image, start + window.len() as u128);
        for number in first..last {
            self.relocate(part, number, from, window);
        }
    }
}

impl Modules {
    /// How far the image of an instance is moved: its load bias, which is added to each address of its file. It is less
    /// than 2^59.
    #[tactic(auto, unfolding(crate::specs::LoaderLaws::bias_of))]
    pub fn bias(&self, instance: &Instance) -> u64
        ensures value { result ≡ bias_of self.now instance.now }
        ensures low { result < 2 ^ 59 }
    {
        match self.image(instance.image) {
            Some(image) => bias(image.kind(), instance.number),
            None => 0,
        }
    }

    /// How many parts the image of an instance has.
    #[tactic(auto, unfolding(crate::specs::LoaderLaws::parts_of))]
    pub fn part_count(&self, instance: &Instance) -> u64
        ensures { result ≡ length (parts_of self.now instance.now) }
    {
        match self.image(instance.image) {
            Some(image) => image.part_count(),
            None => 0,
        }
    }

    /// How many bytes a part of an instance has, by its number from 0; 0 if there is no such part.
    pub fn part_size(&self, instance: &Instance, part: u64) -> u64
        ensures { result ≡ length (loaded_part self.now instance.now part) }
    {
        let Some(image) = self.image(instance.image) else {
            return 0;
        };
        match image.part(part) {
            Some(part) => part.bytes.len() as u64,
            None => 0,
        }
    }

    /// Copies bytes of a part of an instance, with its relocations done, from an offset in the part on. The
    /// bytes lie in the part.
    pub fn copy_bytes(&self, instance: &Instance, part: u64, from: u64, into: &mut [u8])
        requires { from + length into.old ≤ length (loaded_part self.now instance.now part) }
        ensures value { into.new ≡ slice_range (loaded_part self.now instance.now part) from (from + length into.old) }
        ensures len { length into.new ≡ length into.old }
    {
        if let Some(image) = self.image(instance.image) {
            if let Some(part) = image.part(part) {
                let loaded = LoadedImage {
                    modules: self,
                    image,
                    instance,
                };
                loaded.read_window(part, from, into);
            }
        }
    }
}
