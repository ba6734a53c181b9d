//! An image: a file that was read and has no fault.

ghost use Rattle.std.specs.Prelude.{◌≡◌, ◌<◌, ℕ, List, IfOk, IfErr, IfSome, length, slice_get};
ghost use Rattle.image_faults.specs.Faults.{IsImage, IsFault};
ghost use Rattle.image_file.specs.Spelled.{spelled, part_seen, text_seen};
ghost use Rattle.image_file.specs.Refusals.{IsRefusal};

use crate::lent::{name_in, part_in, relocation_in, symbol_in, tls_in};
use crate::part::{ImagePart, TlsPart};
use crate::relocation::ImageRelocation;
use crate::symbol::ImageSymbol;
use image_faults::{FileKind, ImageFault, Places, Tables, fault_free};
use std::alloc::Global;
use std::marker::Model;

/// An image that was read. It keeps the bytes of the file. Contracts see what these bytes spell.
#[derive(Drop)]
pub struct Image {
    bytes: Vec<u8>,
    places: Places,
}

impl Model for Image {
    ghost use Rattle.image_faults.specs.Faults.{IsImage};
    ghost use Rattle.image_faults.specs.PlaceLaws.{ArePlaces};
    ghost use Rattle.image_file.specs.Spelled.{Spelled, spelled};

    ghost Value = { Spelled };

    ghost view = { λ image. spelled image.bytes.items };

    ghost invariant = { λ image. IsImage image.bytes.items × ArePlaces image.bytes.items image.places };
}

/// Reads an image. Returns the first fault, or the image that the bytes spell.
pub fn read(alloc: Global, bytes: &[u8]) -> Result<Image, ImageFault>
    ensures image { IfOk result (λ image. (image ≡ spelled bytes.now) × IsImage bytes.now) }
    ensures fault { IfErr result (IsRefusal bytes.now) }
{
    let places = fault_free(bytes)?.places;
    Ok(Image {
        bytes: bytes.to_vec(alloc)?,
        places,
    })
}

/// Reads an image from bytes that it keeps as they are, so that it allocates no memory.
pub fn read_owned(bytes: Vec<u8>) -> Result<Image, ImageFault>
    ensures image { IfOk result (λ image. (image ≡ spelled bytes.items) × IsImage bytes.items) }
    ensures fault { IfErr result (IsFault bytes.items) }
{
    let places = fault_free(bytes.as_slice())?.places;
    Ok(Image { bytes, places })
}

impl Image {
    /// The image of bytes that are known to be one. It keeps them as they are, without a copy.
    pub fn from_bytes(bytes: Vec<u8>) -> Image
        requires { IsImage bytes.items }
        ensures { result ≡ spelled bytes.items }
    {
        match fault_free(bytes.as_slice()) {
            Ok(tables) => {
                let places = tables.places;
                Image { bytes, places }
            }
            Err(_) => unreachable!(),
        }
    }

    /// Gives up the image for the bytes of its file, without a copy.
    pub fn into_bytes(self) -> Vec<u8>
        ensures spelled { spelled result.items ≡ self }
        ensures image { IsImage result.items }
    {
        self.bytes
    }

    /// What kind of image it is.
    pub fn kind(&self) -> FileKind
        ensures { result ≡ self.now.kind }
    {
        self.places.kind
    }

    /// Whether it uses static TLS: its code needs its TLS block at a fixed distance from the thread pointer.
    pub fn is_flagged(&self) -> bool
        ensures { result ≡ self.now.is_flagged }
    {
        self.places.is_flagged
    }

    /// The number of the part that only the loader writes, if there is one.
    pub fn got(&self) -> Option<u64>
        ensures got { result ≡ self.now.got }
        ensures within { IfSome result (λ n. n < length self.now.parts) }
    {
        self.places.got
    }

    /// How many parts are loaded.
    pub fn part_count(&self) -> u64
        ensures { result ≡ length self.now.parts }
    {
        self.places.loads
    }

    /// How many bytes the dynamic array has. It begins where the last part does.
    pub fn array_size(&self) -> u64
        ensures { result ≡ self.now.array_size }
    {
        let tables = Tables {
            bytes: self.bytes.as_slice(),
            places: self.places,
        };
        tables.dynamic().filesz
    }

    /// A part, by its number. `None` exactly past the last.
    pub fn part(&self, number: u64) -> Option<ImagePart<'_>>
        ensures { part_seen result ≡ slice_get self.now.parts number }
    {
        let tables = Tables {
            bytes: self.bytes.as_slice(),
            places: self.places,
        };
        part_in(&tables, number)
    }

    /// The TLS segment, if there is one.
    pub fn tls(&self) -> Option<TlsPart>
        ensures { result ≡ self.now.tls }
    {
        let tables = Tables {
            bytes: self.bytes.as_slice(),
            places: self.places,
        };
        tls_in(&tables)
    }

    /// How many symbols there are, number 0, the reserved one, included.
    pub fn symbol_count(&self) -> u64
        ensures symbols { result ≡ length self.now.symbols }
        ensures names { result ≡ length self.now.names }
    {
        self.places.symbol_count
    }

    /// A symbol, by its number. `None` exactly past the last.
    pub fn symbol(&self, number: u64) -> Option<ImageSymbol>
        ensures { result ≡ slice_get self.now.symbols number }
    {
        let tables = Tables {
            bytes: self.bytes.as_slice(),
            places: self.places,
        };
        symbol_in(&tables, number)
    }

    /// The name of a symbol, by its number. Each call searches for its end.
    pub fn symbol_name(&self, number: u64) -> Option<&[u8]>
        ensures { text_seen result ≡ slice_get self.now.names number }
    {
        let tables = Tables {
            bytes: self.bytes.as_slice(),
            places: self.places,
        };
        name_in(&tables, number)
    }

    /// How many relocations there are.
    pub fn relocation_count(&self) -> u64
        ensures { result ≡ length self.now.relocations }
    {
        self.places.relocation_count
    }

    /// A relocation, by its number. `None` exactly past the last. Its symbol is one of this image.
    pub fn relocation(&self, number: u64) -> Option<ImageRelocation>
        ensures relocation { result ≡ slice_get self.now.relocations number }
        ensures symbol { IfSome result (λ found. found.symbol < length self.now.symbols) }
    {
        let tables = Tables {
            bytes: self.bytes.as_slice(),
            places: self.places,
        };
        relocation_in(&tables, number)
    }
}

/// An image is what the bytes of some file without a fault spell. The call does nothing; it gives a proof this fact.
pub fn image_is_spelled(image: &Image)
    ensures { (b : List ℕ) × (IsImage b × (image.now ≡ spelled b)) }
{
    let _bytes = image.bytes.as_slice();
}

fn crosses_threads<T: Send + Sync>() {}

/// Threads may move and share an image.
pub fn images_cross_threads() {
    crosses_threads::<Image>();
}
