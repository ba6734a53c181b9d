//! The machine that callers see.

ghost use Rattle.std.specs.Prelude.{◌≡◌, ◌-◌, ◌^◌, ◌<◌, ◌≤◌, max};
ghost use Rattle.amd64_subset.specs.Register.{register_of};
ghost use Rattle.guest_machine.specs.Machine.{Answers, answer_of};
ghost use Rattle.guest_operands.specs.RangeLaws.{range_accesses, is_field_of};
ghost use Rattle.guest_machine.specs.RunLaws.{Runs};
ghost use Rattle.guest_operands.specs.State.{start_of, with_register};
ghost use Rattle.guest_operands.specs.State as state;
ghost use Rattle.guest_machine.specs.Touch.{next_touches};

use crate::run::run;
use crate::stack::return_from;
use crate::step::instruction;
use crate::touch::{Touches, touches_of};
use amd64_subset::Register;
use guest_arithmetic::{Flags, Values};
use guest_operands::{Space, State, Stop, frame_at, register, set_register, start};
use std::marker::Model;

/// A machine and the number of steps that it took.
#[derive(Drop)]
pub struct Machine<V: Values> {
    state: State<V::Word, V::Flag>,
    taken: u64,
}

impl<V: Values> Model for Machine<V> {
    ghost use Rattle.guest_machine.specs.Machine.{Standing};

    ghost Value = { Standing V.Word V.Flag };

    ghost view = { λ machine. record { state = machine.state; taken = machine.taken } };
}

impl<V: Values> Machine<V> {
    /// A machine before a call: %rdi, %rsi and %rdx hold `a`, `b` and `c`, %rsp holds `stack`, and all else is 0, the
    /// thread pointer too.
    pub fn start(place: u64, stack: u64, a: V::Word, b: V::Word, c: V::Word) -> Machine<V>
        ensures { result ≡ record { state = start_of V.operations place stack a b c; taken = 0 } }
    {
        Machine {
            state: start::<V>(place, stack, a, b, c),
            taken: 0,
        }
    }

    /// The number of steps since `start`.
    pub fn taken(&self) -> u64
        ensures { result ≡ self.now.taken }
    {
        self.taken
    }

    /// Runs up to a stop. At 0x2000 the call is over. Anywhere else `run` stops if the limit is reached, then if the
    /// address is that of a look; otherwise it makes one step and goes on.
    pub fn run<S: Space<V>>(&mut self, space: &mut S, limit: u64) -> Stop
        ensures runs { Runs V.operations limit result self.old (S.memory space.old) self.new (S.memory space.new) }
        // The run makes no step past the limit.
        ensures within { self.new.taken ≤ max self.old.taken limit }
        ensures rest { S.rest space.new ≡ S.rest space.old }
    {
        run::<V, S>(&mut self.state, &mut self.taken, space, limit)
    }

    /// The word in the register with this number.
    pub fn register(&self, number: u8) -> V::Word
        requires { number < 16 }
        ensures { result ≡ state.register_of self.now.state.registers (register_of number) }
    {
        register(&self.state.registers, Register::numbered(number))
    }

    /// Puts a word into the register with this number.
    pub fn set_register(&mut self, number: u8, word: V::Word)
        requires { number < 16 }
        ensures { self.new ≡ record self.old {
          state = record self.old.state {
            registers = with_register self.old.state.registers (register_of number) word;
          };
        } }
    {
        set_register(&mut self.state.registers, Register::numbered(number), word);
    }

    pub fn flags(&self) -> Flags<V::Flag>
        ensures { result ≡ self.now.state.flags }
    {
        self.state.flags
    }

    pub fn set_flags(&mut self, zf: V::Flag, sf: V::Flag, cf: V::Flag, of: V::Flag)
        ensures { self.new ≡ record self.old {
          state = record self.old.state {
            flags = record { zero = zf; sign = sf; carry = cf; overflow = of };
          };
        } }
    {
        self.state.flags = Flags {
            zero: zf,
            sign: sf,
            carry: cf,
            overflow: of,
        };
    }

    /// The address of the next instruction.
    pub fn place(&self) -> u64
        ensures { result ≡ self.now.state.place }
    {
        self.state.place
    }

    /// Sets the address of the next instruction.
    pub fn set_place(&mut self, place: u64)
        ensures { self.new ≡ record self.old { state = record self.old.state { place = place } } }
    {
        self.state.place = place;
    }

    /// Sets the thread pointer, which the FS prefix adds to an address.
    pub fn set_thread_pointer(&mut self, thread_pointer: u64)
        ensures { self.new ≡ record self.old { state = record self.old.state { thread_pointer = thread_pointer } } }
    {
        self.state.thread_pointer = thread_pointer;
    }

    /// The data bytes that the next instruction touches, without an access to one: its accesses in their order, except
    /// those whose address is not a number. There are none if there is no instruction. The first access that is
    /// refused is the last one that is made.
    #[tactic(auto, unfolding(crate::specs::Touch::next_touches))]
    pub fn touches<S: Space<V>>(&self, space: &S) -> Touches
        ensures { result ≡ next_touches V.operations (range_accesses V.operations) (is_field_of (S.memory space.now))
            self.now.state (S.memory space.now) }
    {
        match instruction::<V, S>(space, self.state.place) {
            None => Touches {
                first: None,
                second: None,
            },
            Some(decoded) => {
                let frame = frame_at::<V, S>(space, self.state.place, &decoded);
                touches_of::<V>(&frame, &self.state, &decoded.instr.operation)
            }
        }
    }

    /// Answers a look in one step: puts the word into %rax and pops the return address. Returns false if it can't, and
    /// then nothing has changed.
    pub fn answer<S: Space<V>>(&mut self, space: &mut S, word: V::Word) -> bool
        requires { self.old.taken < 2 ^ 64 - 1 }
        ensures answers { Answers result self.old (S.memory space.old) self.new (S.memory space.new)
            (answer_of V.operations (range_accesses V.operations) word self.old.state (S.memory space.old)) }
        ensures rest { S.rest space.new ≡ S.rest space.old }
    {
        let mut state = self.state;
        state.registers.rax = word;
        if return_from::<V, S>(&mut state, space).is_err() {
            return false;
        }
        self.state = state;
        self.taken += 1;
        true
    }
}
