//! Bytes that threads write: blocks and data, each with its owner.

ghost use Rattle.std.specs.Prelude.{◌≡◌, ◌-◌, IfOk, IsTrue, option_map, slice_get, slice_set};
ghost use Rattle.std.specs.List.{position_or_len};
ghost use Rattle.guest_memory.specs.Writable.{first_writable};
ghost use Rattle.guest_operands.specs.Ranges.{byte_in, grants, holds};
ghost use Rattle.thread_blocks.specs.Held.{block_bytes, ranges_in};
ghost use Rattle.thread_blocks.specs.JobWorlds.{blocks_in, data_in};
ghost use Rattle.marked_memory.specs.Owners.{LeavesOthers, bytes_for, is_owner};
ghost use Rattle.marked_memory.specs.Writing.{written_in};

use guest_operands::Access;
use job_meaning::Byte;
use marked_bytes::MarkedBytes;
use memory_image::WritableRange;
use std::alloc::{AllocError, Global};
use std::marker::Model;
use std::mem;

/// Which kind of bytes: a thread's block of an instance, or an instance's data.
#[derive(Clone, Copy, PartialEq, Eq, Debug)]
pub enum Written {
    Block,
    Data,
}

/// A block or data, and the instance that it belongs to. Contracts see an `Owned`.
#[derive(Drop)]
pub struct OwnedRange {
    pub kind: Written,
    /// The number of the instance.
    pub instance: u32,
    pub range: WritableRange,
}

impl Model for OwnedRange {
    ghost use Rattle.job_meaning.specs.declared.values.Byte.{Byte};
    ghost use Rattle.thread_blocks.specs.Held.{Owned};
    ghost use Rattle.marked_memory.specs.Owners.{kind_of};

    ghost Value = { Owned Byte };

    ghost view = { λ o. record {
      owner = record { kind = kind_of o.kind; instance = o.instance };
      range = o.range;
    } };
}

impl OwnedRange {
    /// Whether it is the block, or the data, of this instance.
    fn is_of(&self, kind: Written, instance: u32) -> bool
        ensures { result ≡ is_owner kind instance self.now.owner }
    {
        match (kind, self.kind) {
            (Written::Block, Written::Block) | (Written::Data, Written::Data) => {
                self.instance == instance
            }
            (Written::Block, Written::Data) | (Written::Data, Written::Block) => false,
        }
    }

    fn bytes(&self) -> &MarkedBytes
        ensures { result.now ≡ self.now.range.bytes }
    {
        let range = &self.range;
        &range.bytes
    }

    /// Copies the range with its bytes.
    fn copy(&self, alloc: Global) -> Result<OwnedRange, AllocError>
        ensures { IfOk result (λ owned. owned ≡ self.now) }
    {
        let range = &self.range;
        let bytes = range.bytes.copy(alloc)?;
        Ok(OwnedRange {
            kind: self.kind,
            instance: self.instance,
            range: WritableRange {
                start: range.start,
                bytes,
            },
        })
    }

    /// Takes its bytes out, and leaves none.
    fn take_bytes(&mut self, alloc: Global) -> MarkedBytes
        ensures bytes { result ≡ self.old.range.bytes }
        ensures owner { self.new.owner ≡ self.old.owner }
    {
        let range = &mut self.range;
        mem::replace(&mut range.bytes, MarkedBytes::none(alloc))
    }

    /// Whether `place` is in the range, and `access` is allowed there.
    pub(crate) fn grants(&self, access: Access, place: u64) -> bool
        ensures { result ≡ grants access self.now.range place }
    {
        self.range.grants(access, place)
    }

    pub(crate) fn byte(&self, place: u64) -> Option<Byte>
        ensures { result ≡ slice_get self.now.range.bytes (place - self.now.range.start) }
    {
        self.range.byte(place)
    }

    pub(crate) fn set_byte(&mut self, place: u64, byte: Byte)
        requires { IsTrue (holds self.old.range place) }
        ensures { self.new ≡ record self.old {
          range = record self.old.range { bytes = slice_set self.old.range.bytes (place - self.old.range.start) byte };
        } }
    {
        self.range.set_byte(place, byte);
    }
}

/// The bytes of an instance's block.
pub(crate) fn block(owned: &[OwnedRange], instance: u32) -> Option<&MarkedBytes>
    ensures { option_map (λ b. b.now) result ≡ block_bytes instance owned.now }
{
    for range in owned {
        if range.is_of(Written::Block, instance) {
            return Some(range.bytes());
        }
    }
    None
}

/// The byte at `place`; `None` if no range has it, or `access` is not allowed.
pub(crate) fn byte_in(owned: &[OwnedRange], access: Access, place: u64) -> Option<Byte>
    ensures { result ≡ byte_in access (ranges_in owned.now) place }
{
    for range in owned {
        if range.grants(access, place) {
            return range.byte(place);
        }
    }
    None
}

/// The index of the first range that may be written at `place`; the number of ranges if there is none.
fn writable_at(owned: &[OwnedRange], place: u64) -> usize
    ensures { result ≡ first_writable (ranges_in owned.now) place }
{
    for (index, range) in owned.iter().enumerate() {
        if range.grants(Access::Write, place) {
            return index;
        }
    }
    owned.len()
}

/// Writes a byte, in the first range that may be written at `place`. Does nothing where there is none.
pub(crate) fn write_in(owned: &mut [OwnedRange], place: u64, byte: Byte)
    ensures { owned.new ≡ written_in owned.old place byte }
{
    let index = writable_at(owned, place);
    if index < owned.len() {
        let range = &mut owned[index];
        range.set_byte(place, byte);
    }
}

/// Copies all ranges.
pub(crate) fn copy(alloc: Global, owned: &[OwnedRange]) -> Result<Vec<OwnedRange>, AllocError>
    ensures { IfOk result (λ copies. copies.items ≡ owned.now) }
{
    let mut copies = Vec::new(alloc);
    for range in owned {
        copies.push(range.copy(alloc)?)?;
    }
    Ok(copies)
}

/// A thread's blocks, apart from the data of instances.
#[derive(Drop)]
pub(crate) struct Parted {
    pub(crate) blocks: Vec<OwnedRange>,
    pub(crate) shared: Vec<OwnedRange>,
}

/// Separates blocks from data, each in their order.
pub(crate) fn part(alloc: Global, owned: Vec<OwnedRange>) -> Result<Parted, AllocError>
    ensures blocks { IfOk result (λ parted. parted.blocks.items ≡ blocks_in owned.items) }
    ensures shared { IfOk result (λ parted. parted.shared.items ≡ data_in owned.items) }
{
    let mut blocks = Vec::new(alloc);
    let mut shared = Vec::new(alloc);
    for range in owned {
        match range.kind {
            Written::Block => blocks.push(range)?,
            Written::Data => shared.push(range)?,
        }
    }
    Ok(Parted { blocks, shared })
}

/// The index of the block, or of the data, of an instance; the number of ranges if there is none.
fn place_of(owned: &[OwnedRange], kind: Written, instance: u32) -> usize
    ensures { result ≡ position_or_len (λ x. is_owner kind instance x.owner) owned.now }
{
    for (index, range) in owned.iter().enumerate() {
        if range.is_of(kind, instance) {
            return index;
        }
    }
    owned.len()
}

/// Takes out the bytes of the block, or of the data, of an instance.
pub(crate) fn take_bytes(
    alloc: Global,
    owned: &mut [OwnedRange],
    kind: Written,
    instance: u32,
) -> Option<MarkedBytes>
    ensures bytes { result ≡ bytes_for (is_owner kind instance) owned.old }
    ensures others { LeavesOthers kind instance owned.old owned.new }
{
    let index = place_of(owned, kind, instance);
    if index >= owned.len() {
        return None;
    }
    let range = &mut owned[index];
    Some(range.take_bytes(alloc))
}
