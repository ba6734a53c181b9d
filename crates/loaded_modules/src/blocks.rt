//! The TLS block that a thread begins with.

ghost use Rattle.std.specs.Prelude.{◌≡◌, Some, length, replicate};
ghost use Rattle.std.specs.List.{find};
ghost use Rattle.image_file.specs.Spelled.{part_seen, lent_part};
ghost use Rattle.loaded_modules.specs.Ends.{IsTls};
ghost use Rattle.loaded_modules.specs.Images.{image_at, size_at};
ghost use Rattle.loaded_modules.specs.Loader.{block_of, fresh_block, holds};

use crate::infos::tls_of;
use crate::instance::Instance;
use crate::modules::Modules;
use crate::parts::LoadedImage;
use crate::relocating::lies_in;
use image_file::{Image, ImagePart, TlsPart};

/// Whether a part holds the whole initial image of the TLS segment.
fn holds(tls: TlsPart, part: ImagePart) -> bool
    ensures { result ≡ holds tls (lent_part part.entry) }
{
    lies_in(part, tls.address, tls.initial)
}

/// The first part that holds the initial image.
fn initial_part(image: &Image, tls: TlsPart) -> Option<ImagePart<'_>>
    ensures { part_seen result ≡ find (holds tls) image.now.parts }
{
    for number in 0..image.part_count() {
        if let Some(part) = image.part(number) {
            if holds(tls, part) {
                return Some(part);
            }
        }
    }
    None
}

/// Sets all bytes to zero.
fn clear(into: &mut [u8])
    ensures { into.new ≡ replicate (length into.old) 0 }
{
    into.fill(0);
}

impl Modules {
    /// Fills the block of an instance of an image that has thread-local storage.
    fn fill_tls(&self, image: &Image, instance: &Instance, tls: TlsPart, into: &mut [u8])
        requires there { image_at self.now instance.now.image ≡ Some image.now }
        requires kept { IsTls tls }
        requires size { length into.old ≡ tls.size }
        ensures value { into.new ≡ block_of self.now image.now instance.now (Some tls) }
        ensures len { length into.new ≡ length into.old }
    {
        clear(into);
        if let Some(part) = initial_part(image, tls) {
            let from = tls.address - part.address;
            let initial = &mut into[..tls.initial as usize];
            let loaded = LoadedImage {
                modules: self,
                image,
                instance,
            };
            loaded.read_window(part, from, initial);
        }
    }

    /// Fills a thread's block of an instance with its initial bytes: the initial image of the TLS segment with its
    /// relocations done, and zeros up to the segment's size (gABI, "Program Loading"). `into` has as many bytes as
    /// the segment; without a segment it is empty.
    pub fn fill_block(&self, instance: &Instance, into: &mut [u8])
        requires { length into.old ≡ size_at self.now instance.now.image }
        ensures value { into.new ≡ fresh_block self.now instance.now }
        ensures len { length (fresh_block self.now instance.now) ≡ size_at self.now instance.now.image }
    {
        if let Some(image) = self.image(instance.image) {
            if let Some(tls) = tls_of(image) {
                self.fill_tls(image, instance, tls, into);
            }
        }
    }
}
