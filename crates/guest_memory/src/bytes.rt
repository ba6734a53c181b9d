//! Accesses of several bytes, built from accesses of single bytes.

ghost use Rattle.std.specs.Prelude.{◌≡◌, ◌≤◌, length, take, is_some, option_map};
ghost use Rattle.guest_operands.specs.Access.{fetch_of, store_of};
ghost use Rattle.guest_arithmetic.specs.Four.{bytes_of};
ghost use Rattle.guest_operands.specs.declared.space.Access.TheVariants.{Read, Write, Run};
ghost use Rattle.guest_operands.specs.Ranges.{AddressSpace, byte_in, with_byte};
ghost use Rattle.guest_operands.specs.RangeLaws.{range_accesses, is_field_of, Loads, Stores, StoresAs};
ghost use Rattle.guest_memory.specs.Several.{bytes_in, all_writable};

use guest_arithmetic::{Four, Values};
use guest_operands::Size;

/// A memory that is accessed one byte at a time. `load`, `store` and `fetch` below build the rest of a `Space` from
/// it.
pub trait Bytes<V: Values> {
    /// The part that no access changes; `()` if there is nothing but bytes.
    type Rest;

    ghost memory: { Self → AddressSpace V.Byte };

    ghost rest: { Self → Self.Rest };

    /// The byte at `place`, if it may be read.
    fn read(&self, place: u64) -> Option<V::Byte>
        ensures { result ≡ byte_in Read (memory self.now).ranges place };

    /// The byte at `place`, if it may be run.
    fn run(&self, place: u64) -> Option<V::Byte>
        ensures { result ≡ byte_in Run (memory self.now).ranges place };

    /// Whether the byte at `place` may be written.
    fn may_write(&self, place: u64) -> bool
        ensures { result ≡ is_some (byte_in Write (memory self.now).ranges place) };

    /// Writes the byte at `place`, or nothing if it may not be written.
    fn write(&mut self, place: u64, byte: V::Byte)
        ensures written { memory self.new ≡
            record (memory self.old) { ranges = with_byte (memory self.old).ranges place byte } }
        ensures rest { rest self.new ≡ rest self.old };

    /// Whether an offset field begins at `place`.
    fn is_field(&self, place: u64) -> bool
        ensures { result ≡ is_field_of (memory self.now) place };
}

/// Four bytes from `place` on, unless one of them may not be read.
fn four<V: Values, M: Bytes<V>>(memory: &M, place: u64) -> Option<Four<V::Byte>>
    ensures { option_map bytes_of result ≡ bytes_in (M.memory memory.now).ranges place 4 }
{
    let first = memory.read(place)?;
    let place = place.wrapping_add(1);
    let second = memory.read(place)?;
    let place = place.wrapping_add(1);
    let third = memory.read(place)?;
    let fourth = memory.read(place.wrapping_add(1))?;
    Some(Four {
        first,
        second,
        third,
        fourth,
    })
}

fn load_byte<V: Values, M: Bytes<V>>(memory: &M, place: u64) -> Option<V::Word>
    ensures { result ≡ option_map V.operations.joined (bytes_in (M.memory memory.now).ranges place 1) }
{
    let byte = memory.read(place)?;
    Some(V::joined_byte(byte))
}

fn load_long<V: Values, M: Bytes<V>>(memory: &M, place: u64) -> Option<V::Word>
    ensures { result ≡ option_map V.operations.joined (bytes_in (M.memory memory.now).ranges place 4) }
{
    let bytes = four::<V, M>(memory, place)?;
    Some(V::joined_long(bytes))
}

fn load_quad<V: Values, M: Bytes<V>>(memory: &M, place: u64) -> Option<V::Word>
    ensures { result ≡ option_map V.operations.joined (bytes_in (M.memory memory.now).ranges place 8) }
{
    let low = four::<V, M>(memory, place)?;
    let high = four::<V, M>(memory, place.wrapping_add(4))?;
    Some(V::joined_quad(low, high))
}

/// The word of `size` bytes at `address`, unless one of them may not be read.
#[tactic(auto, using(crate::proofs::Several::load_of_ranges))]
pub fn load<V: Values, M: Bytes<V>>(memory: &M, address: u64, size: Size) -> Option<V::Word>
    ensures { Loads V.operations result (M.memory memory.now) address size }
{
    match size {
        Size::Byte => load_byte::<V, M>(memory, address),
        Size::Long => load_long::<V, M>(memory, address),
        Size::Quad => load_quad::<V, M>(memory, address),
    }
}

/// Writes a word's lowest `size` bytes at `address`, unless one of them may not be written.
pub fn store<V: Values, M: Bytes<V>>(
    memory: &mut M,
    address: u64,
    size: Size,
    word: V::Word,
) -> bool
    ensures stores { Stores V.operations result (M.memory memory.old) (M.memory memory.new) address size word }
    ensures rest { M.rest memory.new ≡ M.rest memory.old }
{
    store_bytes::<V, M>(memory, address, size.bytes(), word)
}

/// Writes the word's lowest `size` bytes.
fn store_bytes<V: Values, M: Bytes<V>>(memory: &mut M, place: u64, size: u8, word: V::Word) -> bool
    requires { size ≤ 8 }
    ensures stores { StoresAs result (M.memory memory.old) (M.memory memory.new)
        (store_of V.operations (range_accesses V.operations) (M.memory memory.old) place size word) }
    ensures rest { M.rest memory.new ≡ M.rest memory.old }
{
    if !may_write_all::<V, M>(memory, place, size) {
        return false;
    }
    let mut at = place;
    for index in 0..size {
        memory.write(at, V::byte_of(word, index));
        at = at.wrapping_add(1);
    }
    true
}

/// Whether `size` bytes from `place` on may be written.
fn may_write_all<V: Values, M: Bytes<V>>(memory: &M, place: u64, size: u8) -> bool
    ensures { result ≡ all_writable (M.memory memory.now).ranges place size }
{
    let mut at = place;
    for _index in 0..size {
        if !memory.may_write(at) {
            return false;
        }
        at = at.wrapping_add(1);
    }
    true
}

/// Writes the next 15 bytes of code to `into`, or those up to the first that may not be run. Returns how many.
pub fn fetch<V: Values, M: Bytes<V>>(memory: &M, place: u64, into: &mut [u8; 15]) -> u8
    ensures count { result ≡ length (fetch_of (range_accesses V.operations) (M.memory memory.now) place) }
    ensures bytes { take result into.new ≡ fetch_of (range_accesses V.operations) (M.memory memory.now) place }
{
    let mut at = place;
    for index in 0..15 {
        match memory.run(at) {
            None => return index,
            Some(byte) => match V::code(byte) {
                None => return index,
                Some(code) => into[usize::from(index)] = code,
            },
        }
        at = at.wrapping_add(1);
    }
    15
}
