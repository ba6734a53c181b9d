//! A memory in owned bytes.

ghost use Rattle.std.specs.Prelude.{◌≡◌, [], ◌∷◌, ◌++◌, OnOk, OnErr, ◌==◌};
ghost use Rattle.std.specs.List.{list_any};
ghost use Rattle.guest_memory.specs.Writable.{first_writable};
ghost use Rattle.guest_operands.specs.Ranges.{byte_in, with_byte};

use crate::bytes::{Bytes, fetch, load, store};
use crate::range::GuestRange;
use guest_arithmetic::Values;
use guest_operands::{Access, Size, Space};
use std::alloc::{AllocError, AllocFailed, Global};
use std::marker::Model;

/// Ranges of owned bytes, and the places of offset fields.
#[derive(Drop)]
pub struct GuestMemory<B> {
    ranges: Vec<GuestRange<B>>,
    fields: Vec<u64>,
}

impl<B> Model for GuestMemory<B> {
    ghost use Rattle.guest_operands.specs.Ranges.{AddressSpace};

    ghost Value = { AddressSpace B };

    ghost view = { λ memory. record { ranges = memory.ranges.items; fields = memory.fields.items } };
}

impl<B: Copy + Drop> GuestMemory<B> {
    /// A memory with nothing in it.
    pub fn new(alloc: Global) -> Self
        ensures { result ≡ record { ranges = []; fields = [] } }
    {
        GuestMemory {
            ranges: Vec::new(alloc),
            fields: Vec::new(alloc),
        }
    }

    /// Adds a range after the others.
    pub fn add_range(&mut self, range: GuestRange<B>) -> Result<(), AllocError>
        ensures ok { OnOk result (self.new ≡ record self.old { ranges = self.old.ranges ++ range ∷ [] }) }
        ensures err { OnErr result (self.new ≡ self.old) }
    {
        match self.ranges.push(range) {
            Ok(()) => Ok(()),
            Err(_) => Err(AllocError),
        }
    }

    /// Records that an offset field begins at `place`.
    pub fn add_field(&mut self, place: u64) -> Result<(), AllocError>
        ensures ok { OnOk result (self.new ≡ record self.old { fields = self.old.fields ++ place ∷ [] }) }
        ensures err { OnErr result (self.new ≡ self.old) }
    {
        match self.fields.push(place) {
            Ok(()) => Ok(()),
            Err(_) => Err(AllocError),
        }
    }
}

/// The byte at `place`, if it allows the access.
fn byte_of<B: Copy + Drop>(ranges: &[GuestRange<B>], access: Access, place: u64) -> Option<B>
    ensures { result ≡ byte_in access ranges.now place }
{
    for range in ranges {
        if range.grants(access, place) {
            return range.byte(place);
        }
    }
    None
}

/// The index of the range that takes a write at `place`, or the number of ranges if none does.
fn writable_at<B: Copy + Drop>(ranges: &[GuestRange<B>], place: u64) -> usize
    ensures { result ≡ first_writable ranges.now place }
{
    for (index, range) in ranges.iter().enumerate() {
        if range.grants(Access::Write, place) {
            return index;
        }
    }
    ranges.len()
}

/// Writes the byte at `place`, or nothing if it may not be written.
fn write_in<B: Copy + Drop>(ranges: &mut [GuestRange<B>], place: u64, byte: B)
    ensures { ranges.new ≡ with_byte ranges.old place byte }
{
    let index = writable_at(ranges, place);
    if index < ranges.len() {
        let range = &mut ranges[index];
        range.set_byte(place, byte);
    }
}

fn is_among(fields: &[u64], place: u64) -> bool
    ensures { result ≡ list_any (λ field. field == place) fields.now }
{
    fields.iter().any(|field| *field == place)
}

impl<V: Values> Bytes<V> for GuestMemory<V::Byte> {
    type Rest = ();

    ghost memory = { λ memory. memory };

    ghost rest = { λ _. tt };

    fn read(&self, place: u64) -> Option<V::Byte> {
        byte_of(&self.ranges, Access::Read, place)
    }

    fn run(&self, place: u64) -> Option<V::Byte> {
        byte_of(&self.ranges, Access::Run, place)
    }

    fn may_write(&self, place: u64) -> bool {
        byte_of(&self.ranges, Access::Write, place).is_some()
    }

    fn write(&mut self, place: u64, byte: V::Byte) {
        write_in(&mut self.ranges, place, byte);
    }

    #[tactic(auto, unfolding(guest_operands::specs::RangeLaws::is_field_of))]
    fn is_field(&self, place: u64) -> bool {
        is_among(&self.fields, place)
    }
}

impl<V: Values> Space<V> for GuestMemory<V::Byte> {
    type Rest = ();

    ghost memory = { λ memory. memory };

    ghost rest = { λ _. tt };

    fn fetch(&self, place: u64, into: &mut [u8; 15]) -> u8 {
        fetch::<V, GuestMemory<V::Byte>>(self, place, into)
    }

    fn load(&self, place: u64, size: Size) -> Option<V::Word> {
        load::<V, GuestMemory<V::Byte>>(self, place, size)
    }

    fn store(&mut self, place: u64, size: Size, word: V::Word) -> bool {
        store::<V, GuestMemory<V::Byte>>(self, place, size, word)
    }

    #[tactic(auto, unfolding(guest_operands::specs::RangeLaws::is_field_of))]
    fn is_field(&self, place: u64) -> bool {
        is_among(&self.fields, place)
    }
}
