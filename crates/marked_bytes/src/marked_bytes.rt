//! A list of bytes that keeps values apart from all others.

ghost use Rattle.std.specs.Prelude.{◌≡◌, ◌<◌, ◌≤◌, ◌+◌, ◌-◌, ◌^◌, ◌++◌, ◌∷◌, [], IfOk, IfSome};
ghost use Rattle.std.specs.Prelude.{length, map, option_map, replicate, slice_get, slice_index_or, slice_range, slice_set};
ghost use Rattle.std.specs.Vec.{vec_capacity, vec_len};
ghost use Rattle.marked_bytes.specs.Parts.{part_of};

use job_meaning::Byte;
use std::alloc::{AllocError, Global};
use std::marker::Model;

/// Bytes of which most are values. A value takes one byte of memory, or five once one of them was no value. Address
/// space of 53 bytes is reserved for each. Contracts see a list of [`Byte`].
#[derive(Drop)]
pub struct MarkedBytes {
    /// The value of each byte that is one.
    values: Vec<u8>,
    /// The number of each byte's mark, from 1; 0 where it is a value. Empty until a byte is no value.
    slots: Vec<u32>,
    /// The bytes that are no values, or were none once.
    marks: Vec<Byte>,
}

impl Model for MarkedBytes {
    ghost use Rattle.std.specs.Prelude.{List};
    ghost use Rattle.job_meaning.specs.declared.values.Byte.{Byte};
    ghost use Rattle.marked_bytes.specs.Cells.{bytes_from};

    ghost Value = { List Byte };

    ghost view = { λ bytes. bytes_from bytes.values.items bytes.slots.items bytes.marks.items };

    ghost use Rattle.marked_bytes.specs.Kept.{IsKept};

    ghost invariant = { IsKept };
}

/// The number of a byte's mark, from 1; 0 for a value.
fn slot_at(slots: &[u32], index: usize) -> u32
    ensures { result ≡ slice_index_or slots.now index 0 }
{
    match slots.get(index) {
        Some(slot) => *slot,
        None => 0,
    }
}

/// A byte's value.
fn value_at(values: &[u8], index: usize) -> u8
    ensures { result ≡ slice_index_or values.now index 0 }
{
    match values.get(index) {
        Some(value) => *value,
        None => 0,
    }
}

/// The index, counted from 0, of the mark with this number.
fn mark_index(number: u32) -> usize
    requires { 1 ≤ number }
    ensures { result ≡ number - 1 }
{
    number as usize - 1
}

/// A mark, by its number.
fn mark_at(marks: &[Byte], number: u32) -> Byte
    requires { 1 ≤ number }
    ensures { result ≡ slice_index_or marks.now (number - 1) Byte.Hidden }
{
    match marks.get(mark_index(number)) {
        Some(mark) => *mark,
        None => Byte::Hidden,
    }
}

/// Writes a value.
fn put_value(values: &mut Vec<u8>, index: usize, value: u8)
    requires { index < length values.old.items }
    ensures { values.new.items ≡ slice_set values.old.items index value }
{
    values[index] = value;
}

/// Writes the number of a byte's mark.
fn put_slot(slots: &mut Vec<u32>, index: usize, slot: u32)
    requires { index < length slots.old.items }
    ensures items { slots.new.items ≡ slice_set slots.old.items index slot }
    ensures len { vec_len slots.new ≡ vec_len slots.old }
    ensures capacity { vec_capacity slots.new ≡ vec_capacity slots.old }
{
    slots[index] = slot;
}

/// Writes a mark, by its number.
fn put_mark(marks: &mut Vec<Byte>, number: u32, byte: Byte)
    requires some { 1 ≤ number }
    requires within { number ≤ length marks.old.items }
    ensures items { marks.new.items ≡ slice_set marks.old.items (number - 1) byte }
    ensures len { vec_len marks.new ≡ vec_len marks.old }
    ensures capacity { vec_capacity marks.new ≡ vec_capacity marks.old }
{
    marks[mark_index(number)] = byte;
}

/// Adds a mark, for which there is room, and gives its number, from 1.
fn add_mark(marks: &mut Vec<Byte>, byte: Byte) -> u32
    requires room { length marks.old.items < vec_capacity marks.old }
    requires kept { vec_len marks.old ≡ length marks.old.items }
    requires few { length marks.old.items + 1 < 2 ^ 32 }
    ensures items { marks.new.items ≡ marks.old.items ++ byte ∷ [] }
    ensures kept { vec_len marks.new ≡ length marks.new.items }
    ensures capacity { vec_capacity marks.new ≡ vec_capacity marks.old }
    ensures number { result ≡ length marks.old.items + 1 }
{
    let number = marks.as_slice().len() as u32 + 1;
    marks.push_reserved(byte);
    number
}

/// Lengthens the list of numbers to `count`, with 0 for each new one. Without room for them it does nothing.
fn widen(slots: &mut Vec<u32>, count: usize)
    requires room { count ≤ vec_capacity slots.old }
    requires kept { vec_len slots.old ≡ length slots.old.items }
    ensures items { slots.new.items ≡ slots.old.items ++ replicate (count - length slots.old.items) 0 }
    ensures kept { vec_len slots.new ≡ length slots.new.items }
    ensures capacity { vec_capacity slots.old ≤ vec_capacity slots.new }
{
    if slots.len() >= count {
        return;
    }
    match slots.resize(count, 0) {
        Ok(()) | Err(_) => {}
    }
}

impl MarkedBytes {
    /// No byte.
    pub fn none(alloc: Global) -> MarkedBytes
        ensures { result ≡ [] }
    {
        MarkedBytes {
            values: Vec::new(alloc),
            slots: Vec::new(alloc),
            marks: Vec::new(alloc),
        }
    }

    /// Keeps these values.
    pub fn of(alloc: Global, values: Vec<u8>) -> Result<MarkedBytes, AllocError>
        requires few { length values.items < 2 ^ 32 }
        ensures { IfOk result (λ bytes. bytes ≡ map Byte.Value values.items) }
    {
        let count = values.as_slice().len();
        Ok(MarkedBytes {
            values,
            slots: Vec::with_capacity(alloc, count)?,
            marks: Vec::with_capacity(alloc, count)?,
        })
    }

    /// How many bytes there are.
    pub fn len(&self) -> u64
        ensures count { result ≡ length self.now }
        ensures few { result < 2 ^ 32 }
    {
        self.values.as_slice().len() as u64
    }

    /// The byte at an index, below the length.
    fn byte_at(&self, index: usize) -> Byte
        requires { index < length self.now }
        ensures { slice_get self.now index ≡ Some result }
    {
        let slot = slot_at(&self.slots, index);
        if slot == 0 {
            return Byte::Value(value_at(&self.values, index));
        }
        mark_at(&self.marks, slot)
    }

    /// The byte at an index.
    pub fn byte(&self, index: u64) -> Option<Byte>
        ensures { result ≡ slice_get self.now index }
    {
        if index >= self.len() {
            return None;
        }
        Some(self.byte_at(index as usize))
    }

    /// Writes the byte at an index.
    pub fn set_byte(&mut self, index: u64, byte: Byte)
        requires { index < length self.old }
        ensures { self.new ≡ slice_set self.old index byte }
    {
        let index = index as usize;
        let slot = slot_at(&self.slots, index);
        if slot != 0 {
            put_mark(&mut self.marks, slot, byte);
            return;
        }
        if let Byte::Value(value) = byte {
            put_value(&mut self.values, index, value);
            return;
        }
        widen(&mut self.slots, self.values.as_slice().len());
        let number = add_mark(&mut self.marks, byte);
        put_slot(&mut self.slots, index, number);
    }

    /// The bytes from an index up to another.
    #[tactic(auto, using(crate::proofs::Cells::next_taken, crate::proofs::Cells::none_taken))]
    fn bytes_between(
        &self,
        alloc: Global,
        start: usize,
        end: usize,
    ) -> Result<Vec<Byte>, AllocError>
        requires order { start ≤ end }
        requires within { end ≤ length self.now }
        ensures { IfOk result (λ bytes. bytes.items ≡ slice_range self.now start end) }
    {
        let mut bytes = Vec::with_capacity(alloc, end - start)?;
        for index in start..end {
            bytes.push(self.byte_at(index))?;
        }
        Ok(bytes)
    }

    /// The `size` bytes from an offset on, if all of them are there.
    #[tactic(auto, using(crate::proofs::Parts::part_is, crate::proofs::Parts::part_is_none))]
    pub fn part(
        &self,
        alloc: Global,
        offset: u64,
        size: u32,
    ) -> Result<Option<Vec<Byte>>, AllocError>
        ensures part { IfOk result (λ part. option_map (λ bytes. bytes.items) part ≡ part_of offset size self.now) }
        ensures low { IfOk result (λ part. IfSome part (λ bytes. offset < 2 ^ 32)) }
    {
        let end = u128::from(offset) + u128::from(size);
        if end > u128::from(self.len()) {
            return Ok(None);
        }
        let bytes = self.bytes_between(alloc, offset as usize, end as usize)?;
        Ok(Some(bytes))
    }

    /// A copy of the bytes.
    pub fn copy(&self, alloc: Global) -> Result<MarkedBytes, AllocError>
        ensures { IfOk result (λ bytes. bytes ≡ self.now) }
    {
        let count = self.values.as_slice().len();
        let mut slots = Vec::with_capacity(alloc, count)?;
        slots.extend_from_slice(&self.slots)?;
        let mut marks = Vec::with_capacity(alloc, count)?;
        marks.extend_from_slice(&self.marks)?;
        Ok(MarkedBytes {
            values: Vec::from_slice(alloc, &self.values)?,
            slots,
            marks,
        })
    }
}
