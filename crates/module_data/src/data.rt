//! The data of all images of a job.

ghost use Rattle.std.specs.Prelude.{◌≡◌, true, [], IfOk, OnOk, OnErr, Some, is_some, option_map};
ghost use Rattle.std.specs.Borrow.{sem};
ghost use Rattle.module_data.specs.Laws.{byte_read, written};
ghost use Rattle.module_data.specs.Parts.{data_start};
ghost use Rattle.module_data.specs.Pieces.{data_of, first_data, first_instance, first_piece, loaded, starts_at};

use crate::part::data_start;
use crate::piece::ImageData;
use job_text::at_number;
use loaded_modules::{Instance, Modules};
use std::alloc::{AllocError, Global};
use std::marker::Model;

/// The data of all images of a job, one copy for all threads. Contracts see a list of pieces, by the images' numbers.
#[derive(Drop)]
pub struct Data {
    pieces: Vec<ImageData>,
}

impl Model for Data {
    ghost use Rattle.std.specs.Prelude.{List};
    ghost use Rattle.module_data.specs.Pieces.{Piece};

    ghost Value = { List Piece };

    ghost view = { λ d. d.pieces.items };
}

/// Whether an image starts with the program, by its number, counted from 1.
fn starts_at(modules: &Modules, number: u32) -> bool
    ensures { result ≡ starts_at modules.now number }
{
    match at_number(modules.infos(), number) {
        Some(info) => !info.late,
        None => false,
    }
}

/// The instance of an image that starts with the program.
fn first_instance(modules: &Modules, number: u32) -> Instance
    ensures { result ≡ first_instance modules.now number }
{
    Instance {
        image: number,
        number,
        id: u64::from(number),
        offset: Some(modules.static_offset(number)),
    }
}

/// The data that an image begins with.
fn first_piece(alloc: Global, modules: &Modules, number: u32) -> Result<ImageData, AllocError>
    ensures { IfOk result (λ d. d ≡ first_piece modules.now number) }
{
    if starts_at(modules, number) {
        ImageData::fresh(alloc, modules, &first_instance(modules, number))
    } else {
        Ok(ImageData::none(alloc))
    }
}

impl Data {
    ghost use Rattle.module_data.specs.Lending.{LendsData};

    /// No data: a value to hold before there are any, or while another holds them. It allocates no memory.
    pub fn none(alloc: Global) -> Data
        ensures { result ≡ [] }
    {
        Data {
            pieces: Vec::new(alloc),
        }
    }

    /// The data at a program's start: each image that starts with it has its own, and a late image none.
    pub fn new(alloc: Global, modules: &Modules) -> Result<Data, AllocError>
        ensures { IfOk result (λ d. d ≡ first_data modules.now) }
    {
        let mut pieces = Vec::new(alloc);
        for number in 0..modules.image_count() + 1 {
            pieces.push(first_piece(alloc, modules, number)?)?;
        }
        Ok(Data { pieces })
    }

    /// Loads an instance: its image gets fresh data, and the data of an older instance are gone. A number without an
    /// image changes nothing, and neither does a refusal.
    #[tactic(auto, unfolding(crate::specs::Pieces::loaded))]
    pub fn load(
        &mut self,
        alloc: Global,
        modules: &Modules,
        instance: &Instance,
    ) -> Result<(), AllocError>
        ensures ok { OnOk result (self.new ≡ loaded modules.now instance.now self.old) }
        ensures err { OnErr result (self.new ≡ self.old) }
    {
        let fresh = ImageData::fresh(alloc, modules, instance)?;
        let image = instance.image as usize;
        if image < self.pieces.as_slice().len() {
            self.pieces[image] = fresh;
        }
        Ok(())
    }

    /// The data of an instance. `None` exactly if the image has no data of that instance.
    #[tactic(auto, unfolding(crate::specs::Pieces::data_of))]
    pub fn bytes(&self, image: u32, instance: u32) -> Option<&[u8]>
        ensures { option_map (λ bytes. bytes.now) result ≡ data_of self.now instance image }
    {
        let piece = self.pieces.as_slice().get(image as usize)?;
        piece.bytes_of(instance)
    }

    /// The data of an instance, for writing. Their length stays, and so do the data of all other images.
    pub fn bytes_mut(&mut self, image: u32, instance: u32) -> &mut [u8]
        requires { is_some (data_of self.old instance image) ≡ true }
        ensures* writes_back { sem 𝓛 (LendsData self.entry image result) }
        ensures value { data_of self.old instance image ≡ Some result.now }
    {
        self.pieces[image as usize].bytes_mut()
    }

    /// A byte of an instance's data, by its offset. `None` exactly past their end, or if the image has
    /// no data of the instance.
    #[tactic(auto, unfolding(crate::specs::Laws::byte_read))]
    pub fn byte(&self, image: u32, instance: u32, at: u64) -> Option<u8>
        ensures { result ≡ byte_read self.now instance image at }
    {
        self.bytes(image, instance)?.get(at as usize).copied()
    }

    /// Writes a byte of an instance's data, at an offset inside them.
    pub fn set_byte(&mut self, image: u32, instance: u32, at: u64, byte: u8)
        requires { is_some (byte_read self.old instance image at) ≡ true }
        ensures { self.new ≡ written image self.old (record { at = at; byte = byte }) }
    {
        let bytes = self.bytes_mut(image, instance);
        bytes[at as usize] = byte;
    }

    /// The address of the first byte of an instance's data: that of the part, moved with the image. `None` exactly if
    /// the image has no data part.
    pub fn start(&self, modules: &Modules, instance: &Instance) -> Option<u64>
        ensures { result ≡ data_start modules.now instance.now }
    {
        data_start(modules, instance)
    }
}
