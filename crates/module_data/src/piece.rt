//! The data of one image.

ghost use Rattle.std.specs.Prelude.{◌≡◌, IfOk, option_map};
ghost use Rattle.std.specs.Borrow.{sem};
ghost use Rattle.module_data.specs.Pieces.{bytes_of_instance, fresh_piece, is_of, no_piece};

use crate::fresh::fresh_bytes;
use loaded_modules::{Instance, Modules};
use std::alloc::{AllocError, Global};
use std::marker::Model;

/// The data of one image. Contracts see a `Piece`.
#[derive(Drop)]
pub(crate) struct ImageData {
    /// The number of the instance to which they belong, or 0.
    instance: u32,
    bytes: Vec<u8>,
}

impl Model for ImageData {
    ghost use Rattle.module_data.specs.Pieces.{Piece};

    ghost Value = { Piece };

    ghost view = { λ d. record { instance = d.instance; bytes = d.bytes.items } };
}

impl ImageData {
    ghost use Rattle.module_data.specs.Lending.{LendsBytes};

    /// The data of an image that is not loaded.
    #[tactic(auto, unfolding(crate::specs::Pieces::no_piece))]
    pub(crate) fn none(alloc: Global) -> ImageData
        ensures { result ≡ no_piece }
    {
        ImageData {
            instance: 0,
            bytes: Vec::new(alloc),
        }
    }

    /// The data at an instance's start.
    pub(crate) fn fresh(
        alloc: Global,
        modules: &Modules,
        instance: &Instance,
    ) -> Result<ImageData, AllocError>
        ensures { IfOk result (λ d. d ≡ fresh_piece modules.now instance.now) }
    {
        Ok(ImageData {
            instance: instance.number,
            bytes: fresh_bytes(alloc, modules, instance)?,
        })
    }

    /// Whether they belong to an instance.
    pub(crate) fn is_of(&self, instance: u32) -> bool
        ensures { result ≡ is_of instance self.now }
    {
        instance > 0 && self.instance == instance
    }

    /// Their bytes, if they belong to the instance.
    pub(crate) fn bytes_of(&self, instance: u32) -> Option<&[u8]>
        ensures { option_map (λ bytes. bytes.now) result ≡ bytes_of_instance instance self.now }
    {
        if self.is_of(instance) {
            Some(self.bytes.as_slice())
        } else {
            None
        }
    }

    /// Their bytes, for writing.
    pub(crate) fn bytes_mut(&mut self) -> &mut [u8]
        ensures* writes_back { sem 𝓛 (LendsBytes self.entry result) }
        ensures value { result.now ≡ self.old.bytes }
    {
        self.bytes.as_mut_slice()
    }
}
