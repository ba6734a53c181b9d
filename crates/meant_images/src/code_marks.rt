//! What each byte of an image's code is, and which sequence begins there.

ghost use Rattle.std.specs.Prelude.{◌≡◌, ◌<◌, ◌≤◌, ◌^◌, IfOk, length, slice_index_or};
ghost use Rattle.std.specs.List.{All};
ghost use Rattle.link_needs.specs.Given.{IsGiven};
ghost use Rattle.link_needs.specs.Linking.{layout};
ghost use Rattle.meant_images.specs.Marked.{moved_cell};
ghost use Rattle.meant_images.specs.Targets.{HasFewObjects};
ghost use Rattle.tls_layout.specs.Places.{IsLawful, executable};
ghost use Rattle.whole_meaning.specs.Code.{mark_of, sequence_of};
ghost use Rattle.whole_meaning.specs.Spots.{bias_of};

use crate::entries::Entry;
use crate::kept::{Kept, keep};
use crate::painting::{Cell, Painter};
use address_map::moved_bias;
use elf_object::SectionClass;
use link_faults::ImageKind;
use link_needs::Inputs;
use memory_image::lay;
use std::alloc::{AllocError, Global};
use std::marker::Model;
use whole_meaning::{Mark, Sequence};

/// What each byte of an image's code is. Contracts see the image, and all images of its job.
#[derive(Drop)]
pub struct CodeMarks<'i, 'l, 's, 'a> {
    images: &'i [Inputs<'l, 's, 'a>],
    inputs: &'i Inputs<'l, 's, 'a>,
    /// The address of the first byte of code, before the image is moved.
    start: u64,
    /// A cell for each byte of code.
    cells: Vec<Cell>,
    /// The fields and sequences that cells refer to.
    entries: Vec<Entry>,
}

impl<'i, 'l, 's, 'a> Model for CodeMarks<'i, 'l, 's, 'a> {
    ghost use Rattle.meant_images.specs.Marked.{AreMarks, MarkedImage};

    ghost Value = { MarkedImage };

    ghost view = { λ m. record { all = m.images.now; own = m.inputs.now } };

    ghost invariant = { λ m. AreMarks m.images.now m.inputs.now m.start m.cells.items m.entries.items };
}

/// The bias of an instance: its distance from where its image was laid out.
pub(crate) fn bias_of(kind: ImageKind, number: u32) -> u64
    ensures bias { result ≡ bias_of kind number }
    ensures small { result ≤ 2 ^ 60 }
{
    match kind {
        ImageKind::Exe => 0,
        ImageKind::Pie | ImageKind::Start | ImageKind::Late => moved_bias(number),
    }
}

/// Where the code of an image begins, before the image is moved.
fn code_start(inputs: &Inputs) -> u64
    ensures start { result ≡ (executable (layout inputs.now).kind (layout inputs.now).sections).start }
    ensures given { IsGiven inputs.now }
    ensures lawful { IsLawful (layout inputs.now) }
{
    inputs.placement.executable().start
}

/// The cell of `place`, in an image that is moved by `bias`. The table begins at address `start`, before the move.
fn cell_at(cells: &[Cell], start: u64, bias: u64, place: u64) -> Option<Cell>
    ensures { result ≡ moved_cell start cells.now bias place }
{
    let address = place.checked_sub(bias)?;
    if address < start {
        return None;
    }
    cells.get((address - start) as usize).copied()
}

/// The entry with this number.
fn entry_at(entries: &[Entry], number: u32) -> Entry
    requires { number < length entries.now }
    ensures { result ≡ slice_index_or entries.now number Entry.Usual }
{
    entries[number as usize]
}

impl<'i, 'l, 's, 'a> CodeMarks<'i, 'l, 's, 'a> {
    /// The marks of an image. `images` are all images of its job, in image order.
    pub fn of(
        alloc: Global,
        images: &'i [Inputs<'l, 's, 'a>],
        inputs: &'i Inputs<'l, 's, 'a>,
    ) -> Result<CodeMarks<'i, 'l, 's, 'a>, AllocError>
        requires few { length images.now ≤ 64 }
        requires small { All HasFewObjects images.now }
        requires own { HasFewObjects inputs.now }
        ensures all { IfOk result (λ marks. marks.all ≡ images.now) }
        ensures own { IfOk result (λ marks. marks.own ≡ inputs.now) }
    {
        let Kept { entries, objects } = keep(alloc, images, inputs)?;
        let painter = Painter {
            alloc,
            inputs,
            objects: &objects,
        };
        let cells = lay(alloc, inputs, SectionClass::Executable, &painter)?;
        Ok(CodeMarks {
            images,
            inputs,
            start: code_start(inputs),
            cells,
            entries,
        })
    }

    /// The mark of the byte at `place`, in an instance that is moved by `bias`, modulo 2^64.
    pub fn mark(&self, bias: u64, place: u64) -> Mark
        ensures { result ≡ mark_of self.now.own bias place }
    {
        match cell_at(self.cells.as_slice(), self.start, bias, place) {
            Some(cell) => entry_at(self.entries.as_slice(), cell.entry).mark(bias, cell.byte),
            None => Mark::Usual,
        }
    }

    /// The sequence that begins at `place`, if one does. `image` is the number of the image, and `number` that of the
    /// instance.
    pub fn sequence(&self, image: u32, number: u32, place: u64) -> Option<Sequence>
        requires image { image ≤ 64 }
        ensures { result ≡ sequence_of self.now.all image number self.now.own place }
    {
        let inputs = self.inputs;
        let bias = bias_of(inputs.kind, number);
        match cell_at(self.cells.as_slice(), self.start, bias, place) {
            Some(cell) => {
                let entry = entry_at(self.entries.as_slice(), cell.entry);
                entry.sequence(image, number, place, cell.byte)
            }
            None => None,
        }
    }
}
