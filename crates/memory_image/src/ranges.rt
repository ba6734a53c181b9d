//! The ranges of an instance, as a job loads them.

ghost use Rattle.std.specs.Prelude.{◌≡◌, ◌++◌, ◌-◌, ◌<◌, ◌≤◌, ◌^◌, true, IfOk, OnOk, length, map};
ghost use Rattle.std.specs.Prelude.{option_map, replicate};
ghost use Rattle.guest_operands.specs.Ranges.{byte_in};
ghost use Rattle.link_needs.specs.Linking.{Linking, layout};
ghost use Rattle.object_faults.specs.declared.class.SectionClass.TheVariants.{Tls};
ghost use Rattle.tls_layout.specs.Places.{tls_size};
ghost use Rattle.memory_image.specs.Still.{AreStill, still_byte};
ghost use Rattle.memory_image.specs.Tables.{IsClass, Keeps};
ghost use Rattle.whole_meaning.specs.Bytes.{block_bytes};
ghost use Rattle.whole_meaning.specs.Loads.{still_ranges};

use crate::memory_image::MemoryImage;
use elf_object::SectionClass;
use guest_operands::Access;
use job_meaning::Byte;
use link_needs::Inputs;
use marked_bytes::MarkedBytes;
use std::alloc::{AllocError, Global};
use std::marker::Model;

/// The bytes of an instance that nothing writes: code, constants and the initial image of thread-local storage.
#[derive(Drop)]
pub struct StillBytes {
    code: MemoryImage,
    constants: MemoryImage,
    initial: MemoryImage,
}

impl Model for StillBytes {
    ghost use Rattle.memory_image.specs.Still.{StillTables};

    ghost Value = { StillTables };

    ghost view = { λ s. record { code = s.code; constants = s.constants; initial = s.initial } };
}

impl StillBytes {
    /// Makes those of an image.
    pub fn of(alloc: Global, inputs: &Inputs) -> Result<StillBytes, AllocError>
        ensures { IfOk result (AreStill inputs.now) }
    {
        Ok(StillBytes {
            code: MemoryImage::of(alloc, inputs, SectionClass::Executable)?,
            constants: MemoryImage::of(alloc, inputs, SectionClass::ReadOnly)?,
            initial: MemoryImage::of(alloc, inputs, SectionClass::Tls { initial: true })?,
        })
    }

    /// The initial image of thread-local storage, from which blocks are made.
    pub fn initial(&self) -> &MemoryImage
        ensures { result.now ≡ self.now.initial }
    {
        &self.initial
    }

    /// The byte at `place` of the class that `access` is allowed in; `None` if there is none.
    #[tactic(auto, unfolding(crate::specs::Still::still_byte))]
    fn byte_for(&self, access: Access, bias: u64, place: u64) -> Option<u8>
        requires { bias < 2 ^ 60 }
        ensures { result ≡ still_byte access self.now bias place }
    {
        match access {
            Access::Run => self.code.byte(bias, place),
            Access::Read => match self.constants.byte(bias, place) {
                Some(byte) => Some(byte),
                None => self.initial.byte(bias, place),
            },
            Access::Write => None,
        }
    }

    /// The byte at `place` of an instance that is moved by `bias`; `None` if there is none, or `access` is not allowed.
    /// Code is run, the others are read.
    pub fn byte(&self, access: Access, bias: u64, place: u64) -> Option<u8>
        requires { bias < 2 ^ 60 }
        ensures { (l : Linking) → AreStill l self.now → Keeps l bias
            → option_map Byte.Value result ≡ byte_in access (still_ranges l bias) place }
    {
        self.byte_for(access, bias, place)
    }
}

/// Fills a block with zeros up to a length, if it is shorter.
fn pad_block(block: &mut Vec<u8>, len: usize) -> Result<(), AllocError>
    ensures { OnOk result (block.new.items ≡ block.old.items ++ replicate (len - length block.old.items) 0) }
{
    if block.len() < len {
        block.resize(len, 0)?;
    }
    Ok(())
}

/// The values of a thread's block before any write: the initial image of an instance that is moved by `bias`, and zeros
/// up to the size of the segment.
fn block_values(
    alloc: Global,
    initial: &MemoryImage,
    size: u64,
    bias: u64,
) -> Result<Vec<u8>, AllocError>
    requires bias { bias < 2 ^ 60 }
    requires small { size ≤ 2 ^ 20 }
    ensures values { IfOk result (λ block. (l : Linking) → IsClass l (Tls true) initial.now → Keeps l bias
        → size ≡ tls_size (layout l).sections → block.items ≡ block_bytes l bias) }
    ensures few { IfOk result (λ block. length block.items ≤ 2 ^ 26) }
{
    let mut block = initial.values(alloc, bias)?;
    pad_block(&mut block, size as usize)?;
    Ok(block)
}

/// A thread's block of an instance that is moved by `bias`, before any write.
pub fn block_of(
    alloc: Global,
    initial: &MemoryImage,
    size: u64,
    bias: u64,
) -> Result<MarkedBytes, AllocError>
    requires bias { bias < 2 ^ 60 }
    requires small { size ≤ 2 ^ 20 }
    ensures { IfOk result (λ block. (l : Linking) → IsClass l (Tls true) initial.now → Keeps l bias
        → size ≡ tls_size (layout l).sections → block ≡ map Byte.Value (block_bytes l bias)) }
{
    let values = block_values(alloc, initial, size, bias)?;
    let block = MarkedBytes::of(alloc, values)?;
    Ok(block)
}
