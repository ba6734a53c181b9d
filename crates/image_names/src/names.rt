//! The names of an image.

ghost use Rattle.std.specs.Prelude.{◌≡◌, IfOk};
ghost use Rattle.image_names.specs.Functions.{entry_in};
ghost use Rattle.image_names.specs.Meanings.{meaning_in};
ghost use Rattle.image_names.specs.Variables.{variable_in};

use crate::meaning::Meaning;
use crate::table::meanings_of;
use crate::variable::Variable;
use image_file::Image;
use indexmap::IndexMap;
use std::alloc::{AllocError, Global};
use std::marker::Model;

/// The names of an image. Contracts see what the image spells.
#[derive(Drop)]
pub struct ImageNames<'i> {
    image: &'i Image,
    meanings: IndexMap<&'i [u8], Meaning>,
}

impl<'i> Model for ImageNames<'i> {
    ghost use Rattle.image_file.specs.Spelled.{Spelled};
    ghost use Rattle.image_names.specs.Meanings.{Tells};

    ghost Value = { Spelled };

    ghost view = { λ names. names.image.now };

    ghost invariant = { λ names. Tells names.image.now names.meanings.entries };
}

impl<'i> ImageNames<'i> {
    /// Hashes the names of an image: one walk over its symbols, and one over each name. The only
    /// error is `AllocError`.
    pub fn new(alloc: Global, image: &'i Image) -> Result<ImageNames<'i>, AllocError>
        ensures { IfOk result (λ names. names ≡ image.now) }
    {
        let meanings = meanings_of(alloc, image)?;
        Ok(ImageNames { image, meanings })
    }

    /// The image.
    pub fn image(&self) -> &'i Image
        ensures { result.now ≡ self.now }
    {
        self.image
    }

    /// The meaning of the first symbol with a name.
    fn meaning(&self, name: &[u8]) -> Option<Meaning>
        ensures { result ≡ meaning_in self.now name.now }
    {
        self.meanings.get(name).copied()
    }

    /// Where the function of a name begins, before the image is moved: the address of an executable byte. The first
    /// symbol with the name decides; it must be defined, and not thread-local.
    pub fn function(&self, name: &[u8]) -> Option<u64>
        ensures { result ≡ entry_in self.now name.now }
    {
        self.meaning(name)?.function()
    }

    /// The thread-local variable of a name. The first symbol with the name decides; it must be
    /// defined and thread-local.
    pub fn variable(&self, name: &[u8]) -> Option<Variable>
        ensures { result ≡ variable_in self.now name.now }
    {
        self.meaning(name)?.variable()
    }
}
