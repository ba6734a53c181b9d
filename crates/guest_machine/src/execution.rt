//! The execution of one instruction: what it changes, and what it reads before.

ghost use Rattle.std.specs.Prelude.{◌≡◌, ◌<◌, Ok, IfOk};
ghost use Rattle.guest_arithmetic.specs.Arithmetic.{span_of};
ghost use Rattle.guest_operands.specs.Access.{bytes_in, load_of};
ghost use Rattle.guest_operands.specs.Operand.{address_of, carried, taken};
ghost use Rattle.guest_operands.specs.RangeLaws.{range_accesses};
ghost use Rattle.guest_operands.specs.Use.{clean, there};

use amd64_subset::{Memory, Operand, Width};
use guest_arithmetic::{Cause, Values};
use guest_operands::{
    Frame, Size, Space, State, Stop, Taken, address, carried, load, take_operand, used,
};

/// One instruction while it is executed: the state and the memory that it changes, and its frame. A method that takes
/// the execution by value does what is left of the instruction.
// In clauses of these methods `self.exit.0` is the state at the end, and `self.exit.1.0` the memory.
#[derive(Drop)]
pub(crate) struct Execution<'a, V: Values, S: Space<V>> {
    pub(crate) state: &'a mut State<V::Word, V::Flag>,
    pub(crate) space: &'a mut S,
    pub(crate) frame: &'a Frame,
}

impl<V: Values, S: Space<V>> Execution<'_, V, S> {
    /// Where a memory operand lies.
    pub(crate) fn address(&self, memory: &Memory) -> Result<u64, Stop>
        ensures { result ≡ clean self.now.state.now.place
            (address_of V.operations self.now.frame.now self.now.state.now memory.now) }
    {
        let address = address::<V>(self.frame, self.state, memory);
        used(self.state.place, address)
    }

    /// The word at an address.
    pub(crate) fn load(&self, address: u64, size: Size) -> Result<V::Word, Stop>
        ensures { result ≡ there self.now.state.now.place
            (load_of V.operations (range_accesses V.operations) (S.memory self.now.space.now) address (bytes_in size)) }
    {
        load::<V, S>(self.space, self.state.place, address, size)
    }

    /// The operand's word, to be moved and not used.
    pub(crate) fn carried(&self, width: Width, operand: &Operand) -> Result<V::Word, Stop>
        ensures { result ≡ carried V.operations (range_accesses V.operations) width self.now.frame.now
            self.now.state.now (S.memory self.now.space.now) operand.now }
    {
        carried::<V, S>(width, self.frame, self.state, self.space, operand)
    }

    /// The operand's number, with another use.
    pub(crate) fn take(
        &self,
        width: Width,
        operand: &Operand,
        other: Result<u64, Cause>,
    ) -> Result<Taken, Stop>
        ensures value { result ≡ taken V.operations (range_accesses V.operations) width self.now.frame.now
            self.now.state.now (S.memory self.now.space.now) operand.now other }
        ensures small { IfOk result (λ it. it.number < span_of width) }
        ensures other { IfOk result (λ it. other ≡ Ok it.other) }
    {
        take_operand::<V, S>(width, self.frame, self.state, self.space, operand, other)
    }
}
