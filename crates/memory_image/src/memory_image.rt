//! The bytes of a class of sections, for every distance that the image may be moved.

ghost use Rattle.std.specs.Prelude.{◌≡◌, ◌+◌, ◌<◌, ◌≤◌, ◌^◌, ◌==◌, IfOk, length, slice_index_or};
ghost use Rattle.elf_records.specs.Fields.{number_at as number_in};
ghost use Rattle.memory_image.specs.Laying.{HasRange};
ghost use Rattle.memory_image.specs.Tables.{IsClass, byte_at as byte_in, byte_of_place, bytes_at};
ghost use Rattle.memory_image.specs.Tables.{moved_byte as byte_moved};

use crate::fields::{Fields, Table};
use crate::laying::{class_extent, lay};
use byteorder::{ByteOrder, LittleEndian};
use elf_object::SectionClass;
use link_needs::Inputs;
use std::alloc::{AllocError, Global};
use std::marker::Model;

/// The bytes of a class of an image, for every distance that the image may be moved. They take two bytes of memory
/// each. Contracts see where the class begins, its bytes, and which of them belong to an address that moves.
#[derive(Drop)]
pub struct MemoryImage {
    start: u64,
    bytes: Vec<u8>,
    marks: Vec<u8>,
}

impl Model for MemoryImage {
    ghost use Rattle.memory_image.specs.Tables.{ClassTable, IsTable};

    ghost Value = { ClassTable };

    ghost view = { λ c. record { start = c.start; bytes = c.bytes.items; marks = c.marks.items } };

    ghost invariant = { λ c. IsTable (record { start = c.start; bytes = c.bytes.items; marks = c.marks.items }) };
}

/// A byte of a list; 0 after its end.
fn byte_or_zero(bytes: &[u8], at: usize) -> u8
    ensures { result ≡ slice_index_or bytes.now at 0 }
{
    match bytes.get(at) {
        Some(byte) => *byte,
        None => 0,
    }
}

/// The number in eight bytes, the lowest first.
fn number_at(bytes: &[u8], at: usize) -> u64
    requires { at ≤ 2 ^ 32 }
    ensures { result ≡ number_in 8 at bytes.now }
{
    LittleEndian::read_u64(&[
        byte_or_zero(bytes, at),
        byte_or_zero(bytes, at + 1),
        byte_or_zero(bytes, at + 2),
        byte_or_zero(bytes, at + 3),
        byte_or_zero(bytes, at + 4),
        byte_or_zero(bytes, at + 5),
        byte_or_zero(bytes, at + 6),
        byte_or_zero(bytes, at + 7),
    ])
}

/// Byte k of the address that begins at an index, in an image that is moved by `bias`.
#[tactic(auto, unfolding(elf_records::specs::Fields::bytes_of))]
fn moved_byte(bytes: &[u8], bias: u64, at: usize, k: usize) -> u8
    requires { at ≤ 2 ^ 32 }
    ensures { result ≡ byte_moved bytes.now bias at k }
{
    let moved = number_at(bytes, at).wrapping_add(bias).to_le_bytes();
    byte_or_zero(&moved, k)
}

impl MemoryImage {
    /// Makes the bytes of a class of a link. They are right at every distance at which the image's other fields keep
    /// their values: 0, and 2^32 or more.
    pub fn of(
        alloc: Global,
        inputs: &Inputs,
        class: SectionClass,
    ) -> Result<MemoryImage, AllocError>
        requires { HasRange class }
        ensures { IfOk result (IsClass inputs.now class) }
    {
        let start = class_extent(inputs, class).start;
        let mut fields = Fields {
            alloc,
            inputs,
            class,
            table: Table::Bytes,
        };
        let bytes = lay(alloc, inputs, class, &fields)?;
        fields.table = Table::Marks;
        let marks = lay(alloc, inputs, class, &fields)?;
        Ok(MemoryImage {
            start,
            bytes,
            marks,
        })
    }

    /// The address of the class, before the image is moved.
    fn start(&self) -> u64
        ensures start { result ≡ self.now.start }
        ensures low { result ≤ 2 ^ 25 }
    {
        self.start
    }

    /// The bytes, before the image is moved.
    fn bytes(&self) -> &[u8]
        ensures bytes { result.now ≡ self.now.bytes }
        ensures few { length result.now ≤ 2 ^ 25 }
    {
        self.bytes.as_slice()
    }

    /// The marks of the bytes that move.
    fn marks(&self) -> &[u8]
        ensures { result.now ≡ self.now.marks }
    {
        self.marks.as_slice()
    }

    /// The byte at an index, in an image that is moved by `bias`.
    #[tactic(auto, unfolding(crate::specs::Tables::byte_at))]
    fn byte_at(&self, bias: u64, index: usize) -> u8
        requires { index ≤ 2 ^ 25 }
        ensures { result ≡ byte_in self.now bias index }
    {
        let mark = byte_or_zero(self.marks(), index) as usize;
        if mark == 0 {
            return byte_or_zero(self.bytes(), index);
        }
        moved_byte(self.bytes(), bias, index.saturating_sub(mark - 1), mark - 1)
    }

    /// The byte at `place`, in an image that is moved by `bias`; `None` exactly if `place` is not in the class.
    #[tactic(auto, using(crate::proofs::Moving::below_class, crate::proofs::Moving::in_class))]
    pub fn byte(&self, bias: u64, place: u64) -> Option<u8>
        requires { bias < 2 ^ 60 }
        ensures { result ≡ byte_of_place self.now bias place }
    {
        let start = self.start() + bias;
        if place < start {
            return None;
        }
        let index = place - start;
        if self.bytes().len() as u64 <= index {
            return None;
        }
        Some(self.byte_at(bias, index as usize))
    }
    /// Whether the class has no bytes.
    pub fn is_empty(&self) -> bool
        ensures { result ≡ (length self.now.bytes == 0) }
    {
        self.bytes().is_empty()
    }

    /// The address of the class, in an image that is moved by `bias`.
    pub fn place(&self, bias: u64) -> u64
        requires { bias < 2 ^ 60 }
        ensures { result ≡ self.now.start + bias }
    {
        self.start() + bias
    }

    /// All bytes of the class, in an image that is moved by `bias`.
    #[tactic(auto, using(crate::proofs::Ranging::all_values, crate::proofs::Ranging::more_values))]
    pub fn values(&self, alloc: Global, bias: u64) -> Result<Vec<u8>, AllocError>
        requires { bias < 2 ^ 60 }
        ensures values { IfOk result (λ bytes. bytes.items ≡ bytes_at self.now bias) }
        ensures few { IfOk result (λ bytes. length bytes.items ≤ 2 ^ 25) }
    {
        let count = self.bytes().len();
        let mut bytes = Vec::with_capacity(alloc, count)?;
        for index in 0..count {
            bytes.push(self.byte_at(bias, index))?;
        }
        Ok(bytes)
    }
}
