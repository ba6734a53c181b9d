//! The accesses that a memory offers a machine.

ghost use Rattle.std.specs.Prelude.{◌≡◌, ◌≤◌, length, take};
ghost use Rattle.guest_operands.specs.Access.{bytes_in, fetch_of};
ghost use Rattle.guest_operands.specs.Ranges.{AddressSpace};
ghost use Rattle.guest_operands.specs.RangeLaws.{range_accesses, is_field_of, Loads, Stores};

use guest_arithmetic::Values;

/// The kinds of access to a byte of memory.
#[derive(Clone, Copy, PartialEq, Eq, Debug)]
pub enum Access {
    Read,
    Write,
    Run,
}

/// How many bytes an access of data has.
#[derive(Clone, Copy, PartialEq, Eq, Debug)]
pub enum Size {
    Byte,
    Long,
    Quad,
}

impl Size {
    pub fn bytes(self) -> u8
        ensures value { result ≡ bytes_in self }
        ensures small { result ≤ 8 }
    {
        match self {
            Size::Byte => 1,
            Size::Long => 4,
            Size::Quad => 8,
        }
    }
}

/// A thread's memory. It stands for two finite lists: ranges of bytes with their rights, and the addresses where
/// offset fields begin. A memory may hold more, such as the modules that own the blocks in its ranges; `rest` is the
/// part of that that no access changes.
pub trait Space<V: Values> {
    /// The part that no access changes; `()` if there is nothing but bytes.
    type Rest;

    ghost memory: { Self → AddressSpace V.Byte };

    ghost rest: { Self → Self.Rest };

    /// Writes the next 15 bytes of code to `into`, or those up to the first that may not be run. Returns how many.
    fn fetch(&self, address: u64, into: &mut [u8; 15]) -> u8
        ensures count { result ≡ length (fetch_of (range_accesses V.operations) (memory self.now) address) }
        ensures bytes { take result into.new ≡ fetch_of (range_accesses V.operations) (memory self.now) address };

    /// The word of `size` bytes at `address`, unless one of them may not be read.
    fn load(&self, address: u64, size: Size) -> Option<V::Word>
        ensures { Loads V.operations result (memory self.now) address size };

    /// Writes the word's lowest `size` bytes. If one of them may not be written, it writes none and returns false.
    fn store(&mut self, address: u64, size: Size, word: V::Word) -> bool
        ensures stores { Stores V.operations result (memory self.old) (memory self.new) address size word }
        ensures rest { rest self.new ≡ rest self.old };

    /// Whether an offset field begins at `address`.
    fn is_field(&self, address: u64) -> bool
        ensures { result ≡ is_field_of (memory self.now) address };
}
