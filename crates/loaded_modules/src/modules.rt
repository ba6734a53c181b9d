//! The images of a job.

ghost use Rattle.std.specs.Prelude.{◌≡◌, ◌<◌, ◌≤◌, ◌^◌, Some, IfOk, length, map, option_map};
ghost use Rattle.module_table.specs.Modules.{AreInfos};
ghost use Rattle.loaded_modules.specs.Given.{AreModules};
ghost use Rattle.loaded_modules.specs.Loader.{of_job};
ghost use Rattle.loaded_modules.specs.Loader.{export_of, name_of};
ghost use Rattle.loaded_modules.specs.Images.{image_at, infos, last_offset, static_offset};

use crate::exports::{Export, imports_of};
use crate::infos::{infos_of, static_offsets};
use image_file::Image;
use job_text::{Job, at_number, index_of};
use link_faults::ImageKind;
use module_table::ImageInfo;
use std::alloc::{AllocError, Global};
use std::marker::Model;

/// The images of a job. Contracts see `JobImages`: what the file of each spells, with the kind that the job gives it.
#[derive(Drop)]
pub struct Modules {
    kinds: Vec<ImageKind>,
    images: Vec<Image>,
    infos: Vec<ImageInfo>,
    /// How far below the thread pointer the block of each startup image begins, by its number; entry 0 is 0.
    static_offsets: Vec<u64>,
    /// The place of each symbol of each image, among those that startup images share.
    imports: Vec<Vec<Option<Export>>>,
}

impl Model for Modules {
    ghost use Rattle.loaded_modules.specs.Images.{JobImages};

    ghost Value = { JobImages };

    ghost use Rattle.loaded_modules.specs.Holding.{images_of, HoldsImages};

    ghost view = { images_of };

    ghost invariant = { HoldsImages };
}

impl Modules {
    /// Takes the images of a job, in image order. It looks up each name that a relocation imports, once.
    pub fn new(alloc: Global, job: &Job, images: Vec<Image>) -> Result<Modules, AllocError>
        requires { AreModules job.now images.items }
        ensures { IfOk result (λ modules. modules ≡ of_job job.now images.items) }
    {
        let kinds: Vec<ImageKind> = kinds_of(alloc, job)?;
        let infos = infos_of(alloc, kinds.as_slice(), images.as_slice())?;
        let static_offsets = static_offsets(alloc, infos.as_slice())?;
        let imports = imports_of(alloc, kinds.as_slice(), images.as_slice())?;
        Ok(Modules {
            kinds,
            images,
            infos,
            static_offsets,
            imports,
        })
    }

    /// How many images there are, from 1 to 64.
    pub fn image_count(&self) -> u32
        ensures value { result ≡ length self.now.images }
        ensures kinds { result ≡ length self.now.kinds }
        ensures some { 1 ≤ result }
        ensures few { result ≤ 64 }
    {
        self.images.as_slice().len() as u32
    }

    /// An image by its number, counted from 1. `None` exactly at 0 and past the last.
    pub fn image(&self, number: u32) -> Option<&Image>
        ensures { option_map (λ image. image.now) result ≡ image_at self.now number }
    {
        at_number(self.images.as_slice(), number)
    }

    /// The place of a symbol of an image, if a startup image shares its name.
    pub(crate) fn import(&self, number: u32, image: &Image, symbol: u32) -> Option<Export>
        requires there { image_at self.now number ≡ Some image.now }
        requires symbol { symbol < length image.now.names }
        ensures { result ≡ export_of self.now (name_of image.now symbol) }
    {
        let row = self.imports[index_of(number)].as_slice();
        row[symbol as usize]
    }

    /// The facts about each image before anything is loaded, in image order.
    pub fn infos(&self) -> &[ImageInfo]
        ensures value { result.now ≡ infos self.now }
        ensures kept { AreInfos result.now }
    {
        self.infos.as_slice()
    }

    /// How far below the thread pointer the block of a startup image begins, in bytes. For a late image's number, or
    /// a number without an image, that of the last startup image.
    pub fn static_offset(&self, image: u32) -> u64
        ensures { result ≡ static_offset self.now image }
    {
        let at = (image as usize).min(self.images.as_slice().len());
        self.static_offsets[at]
    }

    /// How far below the thread pointer the block of the last startup image begins, in bytes.
    pub fn last_offset(&self) -> u64
        ensures value { result ≡ last_offset self.now }
        ensures low { result < 2 ^ 27 }
    {
        self.static_offset(self.infos().len() as u32)
    }
}

/// The kinds of a job's images.
fn kinds_of(alloc: Global, job: &Job) -> Result<Vec<ImageKind>, AllocError>
    ensures values { IfOk result (λ kinds. kinds.items ≡ map (λ image. image.kind) job.now.images) }
    ensures some { 1 ≤ length job.now.images }
    ensures few { length job.now.images ≤ 64 }
{
    job.images().iter().map(|image| image.kind).collect(alloc)
}
