//! All images of a job, with marked bytes.

ghost use Rattle.std.specs.Prelude.{◌≡◌, ◌<◌, ◌≤◌, ◌+◌, ◌*◌, ◌^◌, ℕ, All, IfOk, IfSome, IsSome, Some, true, length, map, option_map, slice_get, take};
ghost use Rattle.guest_operands.specs.Ranges.{Range, byte_in};
ghost use Rattle.job_meaning.specs.declared.values.Byte.{Byte};
ghost use Rattle.job_meaning.specs.declared.values.Byte.TheVariants.{Value};
ghost use Rattle.job_text.specs.LateImages.{LateLast};
ghost use Rattle.loaded_modules.specs.Ends.{end_behind};
ghost use Rattle.module_table.specs.Modules.{startup_end};
ghost use Rattle.module_table.specs.Modules.{AreInfos, IsInfo};
ghost use Rattle.thread_blocks.specs.Turns.{at_number};
ghost use Rattle.memory_image.specs.Tables.{IsClass, Keeps};
ghost use Rattle.object_faults.specs.declared.class.SectionClass.TheVariants.{Writable};
ghost use Rattle.whole_meaning.specs.Bytes.{function_of};
ghost use Rattle.whole_meaning.specs.Loads.{data_ranges, info_of, loads_of, meaning_of};
ghost use Rattle.whole_meaning.specs.Spots.{bias_of};
ghost use Rattle.link_needs.specs.Linking.{Linking};
ghost use Rattle.meant_images.specs.Images.{AreSound, AreTables};
ghost use Rattle.meant_images.specs.declared.images.Tables.{Tables};

use crate::code_marks::{CodeMarks, bias_of};
use crate::names::{function, info, is_in_room, variable};
use elf_object::SectionClass;
use guest_operands::Access;
use job_text::at_number;
use link_needs::Inputs;
use loaded_modules::Instance;
use marked_bytes::MarkedBytes;
use memory_image::laws::linked_instances_keep_fields;
use memory_image::{MemoryImage, StillBytes, WritableRange, block_of};
use module_table::ImageInfo;
use std::alloc::{AllocError, Global};
use std::marker::Model;
use whole_meaning::{Mark, Sequence};

/// The tables of one image.
#[derive(Drop)]
pub struct Tables<'i> {
    /// What each byte of its code is.
    marks: CodeMarks<'i, 'i, 'i, 'i>,
    /// Its code, its constants, and the initial image of its blocks.
    still: StillBytes,
    /// Its data.
    writable: MemoryImage,
}

/// The images of a job in image order, with marked bytes. Contracts see what each is linked from.
#[derive(Drop)]
pub struct MeantImages<'i> {
    inputs: &'i [Inputs<'i, 'i, 'i>],
    infos: Vec<ImageInfo>,
    tables: Vec<Tables<'i>>,
}

impl<'i> Model for MeantImages<'i> {
    ghost use Rattle.std.specs.Prelude.{List};
    ghost use Rattle.link_needs.specs.Linking.{Linking};
    ghost use Rattle.meant_images.specs.Images.{HoldsImages};

    ghost Value = { List Linking };

    ghost view = { λ images. images.inputs.now };

    ghost invariant = { λ images. HoldsImages images.inputs.now images.infos.items images.tables.items };
}

/// When each image is loaded, and its TLS segment.
fn infos_of(alloc: Global, inputs: &[Inputs]) -> Result<Vec<ImageInfo>, AllocError>
    ensures infos { IfOk result (λ infos. infos.items ≡ map info_of inputs.now) }
    ensures each { IfOk result (λ infos. All IsInfo infos.items) }
{
    let mut infos = Vec::with_capacity(alloc, inputs.len())?;
    for own in inputs {
        infos.push(info(own))?;
    }
    Ok(infos)
}

/// Makes the tables of an image of a job.
fn tables_of<'i>(
    alloc: Global,
    images: &'i [Inputs<'i, 'i, 'i>],
    own: &'i Inputs<'i, 'i, 'i>,
) -> Result<Tables<'i>, AllocError>
    requires few { length images.now ≤ 64 }
    requires small { All (λ l. length l.objects < 2 ^ 32) images.now }
    requires own { length own.now.objects < 2 ^ 32 }
    ensures { IfOk result (AreTables images.now own.now) }
{
    Ok(Tables {
        marks: CodeMarks::of(alloc, images, own)?,
        still: StillBytes::of(alloc, own)?,
        writable: MemoryImage::of(alloc, own, SectionClass::Writable { initial: true })?,
    })
}

/// Makes the tables of each image of a job.
fn all_tables<'i>(
    alloc: Global,
    images: &'i [Inputs<'i, 'i, 'i>],
) -> Result<Vec<Tables<'i>>, AllocError>
    requires few { length images.now ≤ 64 }
    requires small { All (λ l. length l.objects < 2 ^ 32) images.now }
    ensures count { IfOk result (λ all. length all.items ≡ length images.now) }
    ensures each { IfOk result (λ all. (i : ℕ) (l : Linking) (t : Tables) → slice_get images.now i ≡ Some l
        → slice_get all.items i ≡ Some t → AreTables images.now l t) }
{
    let mut all = Vec::with_capacity(alloc, images.len())?;
    for own in images {
        all.push(tables_of(alloc, images, own)?)?;
    }
    Ok(all)
}

/// Adds an image's block to those below the thread pointer, if the image starts with the program. `taken` and the
/// result are distances from the thread pointer down.
fn end_with(taken: u64, info: ImageInfo) -> u64
    requires room { taken ≤ 2 ^ 32 }
    requires kept { IsInfo info }
    ensures value { result ≡ end_behind taken info }
    ensures close { result ≤ taken + 2 ^ 20 + 4096 }
{
    if info.late {
        return taken;
    }
    (taken + info.size).next_multiple_of(info.align)
}

/// How far below the thread pointer the blocks of the images that start with the program reach.
fn end_of(infos: &[ImageInfo]) -> u64
    requires few { length infos.now ≤ 64 }
    requires each { All IsInfo infos.now }
    ensures value { result ≡ startup_end infos.now 0 }
    ensures low { result ≤ length infos.now * (2 ^ 20 + 4096) }
{
    let mut end = 0;
    for info in infos {
        end = end_with(end, *info);
    }
    end
}

/// The address of a function in an instance of an image, by its name.
fn function_in(own: &Inputs, number: u32, name: &[u8]) -> Option<u64>
    ensures { result ≡ option_map (λ at. at + bias_of own.now.kind number) (function_of own.now name.now) }
{
    match function(own, name) {
        Some(at) => Some(at + bias_of(own.kind, number)),
        None => None,
    }
}

/// The address of data in an instance that is moved by `bias`, if there are any.
fn start_of(writable: &MemoryImage, bias: u64) -> Option<u64>
    requires { bias < 2 ^ 60 }
    ensures { (l : Linking) → IsClass l (Writable true) writable.now → Keeps l bias
        → result ≡ option_map (λ (range : Range Byte). range.start) (data_ranges l bias) }
{
    if writable.is_empty() {
        None
    } else {
        Some(writable.place(bias))
    }
}

/// The data of an instance that is moved by `bias`, if there are any.
fn data_in(
    alloc: Global,
    writable: &MemoryImage,
    bias: u64,
) -> Result<Option<WritableRange>, AllocError>
    requires { bias < 2 ^ 60 }
    ensures { IfOk result (λ range. (l : Linking) → IsClass l (Writable true) writable.now → Keeps l bias
        → range ≡ data_ranges l bias) }
{
    if writable.is_empty() {
        return Ok(None);
    }
    let start = writable.place(bias);
    let values = writable.values(alloc, bias)?;
    let bytes = MarkedBytes::of(alloc, values)?;
    Ok(Some(WritableRange { start, bytes }))
}

impl<'i> MeantImages<'i> {
    /// Makes the tables of these images, which are in image order and can be linked. Fails only when memory runs out;
    /// 2^32 objects in one image count as that.
    pub fn new(
        alloc: Global,
        inputs: &'i [Inputs<'i, 'i, 'i>],
    ) -> Result<MeantImages<'i>, AllocError>
        requires some { 1 ≤ length inputs.now }
        requires few { length inputs.now ≤ 64 }
        requires late { LateLast (map (λ l. l.kind) inputs.now) }
        requires sound { AreSound inputs.now }
        ensures { IfOk result (λ images. images ≡ inputs.now) }
    {
        if inputs.iter().any(|own| own.objects.len() >= 1 << 32) {
            return Err(AllocError);
        }
        let infos = infos_of(alloc, inputs)?;
        let tables = all_tables(alloc, inputs)?;
        Ok(MeantImages {
            inputs,
            infos,
            tables,
        })
    }

    /// The number of images.
    pub fn count(&self) -> u32
        ensures value { result ≡ length self.now }
        ensures few { result ≤ 64 }
    {
        self.infos.as_slice().len() as u32
    }

    /// When each image is loaded, and its TLS segment.
    pub fn infos(&self) -> &[ImageInfo]
        ensures value { result.now ≡ map info_of self.now }
        ensures kept { AreInfos result.now }
    {
        self.infos.as_slice()
    }

    /// How far below the thread pointer the block of an image that starts with the program begins. For the number of a
    /// late image, or one that no image has, it is that of the last image that starts with the program.
    pub fn static_offset(&self, image: u32) -> u64
        ensures value { result ≡ startup_end (take image (map info_of self.now)) 0 }
        ensures low { result < 2 ^ 27 }
    {
        let infos = self.infos();
        let count = (image as usize).min(infos.len());
        end_of(&infos[..count])
    }

    /// The image with this number, from 1.
    fn image(&self, number: u32) -> Option<&'i Inputs<'i, 'i, 'i>>
        ensures { option_map (λ own. own.now) result ≡ at_number self.now number }
    {
        at_number(self.inputs, number)
    }

    /// The tables of the image with this number, from 1.
    fn tables(&self, number: u32) -> Option<&Tables<'i>>
        ensures there { (l : Linking) → at_number self.now number ≡ Some l → IsSome result }
        ensures each { (l : Linking) → at_number self.now number ≡ Some l
            → IfSome result (λ t. AreTables self.now l t.now) }
        ensures sound { AreSound self.now }
    {
        at_number(self.tables.as_slice(), number)
    }

    /// The address of the function with this name in an instance, if there is one that can be called.
    #[tactic(auto, unfolding(whole_meaning::specs::Loads::loads_of))]
    pub fn function(&self, instance: &Instance, name: &[u8]) -> Option<u64>
        ensures { result ≡ (loads_of self.now).function instance.now name.now }
    {
        match self.image(instance.image) {
            Some(own) => function_in(own, instance.number, name),
            None => None,
        }
    }

    /// The offset of the thread-local variable with this name in an image's blocks, if there is one.
    #[tactic(auto, unfolding(whole_meaning::specs::Loads::loads_of))]
    pub fn variable(&self, image: u32, name: &[u8]) -> Option<u64>
        ensures { result ≡ (loads_of self.now).variable image name.now }
    {
        match self.image(image) {
            Some(own) => variable(own, name),
            None => None,
        }
    }

    /// Whether `place` is in the room of an instance: after its sections, where a linker may put what it makes.
    #[tactic(auto, unfolding(whole_meaning::specs::Loads::meaning_of))]
    pub fn is_in_room(&self, instance: &Instance, place: u64) -> bool
        ensures { result ≡ (meaning_of self.now).room instance.now place }
    {
        match self.image(instance.image) {
            Some(own) => is_in_room(own, bias_of(own.kind, instance.number), place),
            None => false,
        }
    }

    /// The mark of a byte of an instance's code.
    #[tactic(auto, unfolding(whole_meaning::specs::Loads::meaning_of))]
    pub fn mark(&self, instance: &Instance, place: u64) -> Mark
        ensures { result ≡ (meaning_of self.now).mark instance.now place }
    {
        let Some(own) = self.image(instance.image) else {
            return Mark::Usual;
        };
        match self.tables(instance.image) {
            Some(tables) => tables.marks.mark(bias_of(own.kind, instance.number), place),
            None => Mark::Usual,
        }
    }

    /// The sequence that begins at `place` in an instance's code, if one does.
    #[tactic(auto, unfolding(whole_meaning::specs::Loads::meaning_of))]
    pub fn sequence(&self, instance: &Instance, place: u64) -> Option<Sequence>
        ensures { result ≡ (meaning_of self.now).sequence instance.now place }
    {
        let Some(_) = self.image(instance.image) else {
            return None;
        };
        if instance.image > self.count() {
            return None;
        }
        match self.tables(instance.image) {
            Some(tables) => tables
                .marks
                .sequence(instance.image, instance.number, place),
            None => None,
        }
    }

    /// The byte at `place` of an instance's code or constants; `None` if there is none, or `access` is not allowed.
    #[tactic(auto, unfolding(whole_meaning::specs::Loads::loads_of))]
    pub fn fixed_byte(&self, instance: &Instance, access: Access, place: u64) -> Option<u8>
        ensures { option_map Value result ≡ byte_in access ((loads_of self.now).fixed instance.now) place }
    {
        linked_instances_keep_fields();
        let Some(own) = self.image(instance.image) else {
            return None;
        };
        match self.tables(instance.image) {
            Some(tables) => {
                tables
                    .still
                    .byte(access, bias_of(own.kind, instance.number), place)
            }
            None => None,
        }
    }

    /// The address of an instance's data, if its image has any.
    #[tactic(auto, unfolding(whole_meaning::specs::Loads::loads_of))]
    pub fn data_start(&self, instance: &Instance) -> Option<u64>
        ensures { result ≡ option_map (λ (range : Range Byte). range.start) ((loads_of self.now).shared instance.now) }
    {
        linked_instances_keep_fields();
        let Some(own) = self.image(instance.image) else {
            return None;
        };
        match self.tables(instance.image) {
            Some(tables) => start_of(&tables.writable, bias_of(own.kind, instance.number)),
            None => None,
        }
    }

    /// The data of an instance as its load fills them, if its image has any.
    #[tactic(auto, unfolding(whole_meaning::specs::Loads::loads_of))]
    pub fn fresh_data(
        &self,
        alloc: Global,
        instance: &Instance,
    ) -> Result<Option<WritableRange>, AllocError>
        ensures { IfOk result (λ range. range ≡ (loads_of self.now).shared instance.now) }
    {
        linked_instances_keep_fields();
        let Some(own) = self.image(instance.image) else {
            return Ok(None);
        };
        match self.tables(instance.image) {
            Some(tables) => { data_in(alloc, &tables.writable, bias_of(own.kind, instance.number)) }
            None => Ok(None),
        }
    }

    /// A thread's block of an instance, before any write.
    #[tactic(auto, unfolding(whole_meaning::specs::Loads::loads_of))]
    pub fn block(&self, alloc: Global, instance: &Instance) -> Result<MarkedBytes, AllocError>
        ensures { IfOk result (λ bytes. bytes ≡ (loads_of self.now).block instance.now) }
    {
        linked_instances_keep_fields();
        let Some(own) = self.image(instance.image) else {
            return Ok(MarkedBytes::none(alloc));
        };
        match self.tables(instance.image) {
            Some(tables) => {
                let bias = bias_of(own.kind, instance.number);
                let size = own.placement.tls_size();
                block_of(alloc, tables.still.initial(), size, bias)
            }
            None => Ok(MarkedBytes::none(alloc)),
        }
    }
}
