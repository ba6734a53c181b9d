//! push, pop, leave, ret and call.

ghost use Rattle.std.specs.Prelude.{◌≡◌};
ghost use Rattle.amd64_subset.specs.declared.instr.Target.TheVariants.{Indirect};
ghost use Rattle.guest_machine.specs.Step.{pushed, push_of, pop_of, leave_of, return_of, call_of};
ghost use Rattle.guest_operands.specs.UseLaws.{Does};

use crate::execution::Execution;
use amd64_subset::{Operand, Register, Target, Width};
use guest_arithmetic::Values;
use guest_operands::{Size, Space, State, Stop, load, register, set_register, store, used};

/// Pushes a word onto the stack that %rsp points to.
#[tactic(auto, unfolding(crate::specs::Step::pushed))]
fn push_word<V: Values, S: Space<V>>(
    stack: u64,
    word: V::Word,
    state: &mut State<V::Word, V::Flag>,
    space: &mut S,
) -> Result<(), Stop>
    ensures does { Does V.operations result state.old (S.memory space.old) state.new (S.memory space.new)
        (λ ops acc s m. pushed ops acc stack word s m) }
    ensures rest { S.rest space.new ≡ S.rest space.old }
{
    let place = stack.wrapping_sub(8);
    store::<V, S>(space, state.place, place, Size::Quad, word)?;
    state.registers.rsp = V::word(place);
    Ok(())
}

/// ret
#[tactic(auto, unfolding(crate::specs::Step::return_of))]
pub(crate) fn return_from<V: Values, S: Space<V>>(
    state: &mut State<V::Word, V::Flag>,
    space: &S,
) -> Result<(), Stop>
    ensures { Does V.operations result state.old (S.memory space.now) state.new (S.memory space.now)
        (λ ops acc s m. return_of ops acc s m) }
{
    let stack = used(state.place, V::number_of(state.registers.rsp))?;
    let word = load::<V, S>(space, state.place, stack, Size::Quad)?;
    let place = used(state.place, V::number_of(word))?;
    state.registers.rsp = V::word(stack.wrapping_add(8));
    state.place = place;
    Ok(())
}

impl<V: Values, S: Space<V>> Execution<'_, V, S> {
    /// push r
    #[tactic(auto, unfolding(crate::specs::Step::push_of))]
    pub(crate) fn push(self, from: Register) -> Result<(), Stop>
        ensures does { Does V.operations result self.entry.state.now (S.memory self.entry.space.now) self.exit.0.now
            (S.memory self.exit.1.0.now) (λ ops acc s m. push_of ops acc self.entry.frame.now s m from) }
        ensures rest { S.rest self.exit.1.0.now ≡ S.rest self.entry.space.now }
    {
        let stack = used(self.state.place, V::number_of(self.state.registers.rsp))?;
        let word = register(&self.state.registers, from);
        let Execution { state, space, .. } = self;
        push_word::<V, S>(stack, word, state, space)?;
        state.place = self.frame.next;
        Ok(())
    }

    /// pop r
    #[tactic(auto, unfolding(crate::specs::Step::pop_of))]
    pub(crate) fn pop(self, to: Register) -> Result<(), Stop>
        ensures does { Does V.operations result self.entry.state.now (S.memory self.entry.space.now) self.exit.0.now
            (S.memory self.exit.1.0.now) (λ ops acc s m. pop_of ops acc self.entry.frame.now s m to) }
        ensures rest { S.rest self.exit.1.0.now ≡ S.rest self.entry.space.now }
    {
        let stack = used(self.state.place, V::number_of(self.state.registers.rsp))?;
        let word = self.load(stack, Size::Quad)?;
        self.state.registers.rsp = V::word(stack.wrapping_add(8));
        set_register(&mut self.state.registers, to, word);
        self.state.place = self.frame.next;
        Ok(())
    }

    /// leave
    #[tactic(auto, unfolding(crate::specs::Step::leave_of))]
    pub(crate) fn leave(self) -> Result<(), Stop>
        ensures does { Does V.operations result self.entry.state.now (S.memory self.entry.space.now) self.exit.0.now
            (S.memory self.exit.1.0.now) (λ ops acc s m. leave_of ops acc self.entry.frame.now s m) }
        ensures rest { S.rest self.exit.1.0.now ≡ S.rest self.entry.space.now }
    {
        let base = used(self.state.place, V::number_of(self.state.registers.rbp))?;
        let word = self.load(base, Size::Quad)?;
        self.state.registers.rsp = V::word(base.wrapping_add(8));
        self.state.registers.rbp = word;
        self.state.place = self.frame.next;
        Ok(())
    }

    /// call: the target is loaded before the return address is pushed.
    #[tactic(auto, unfolding(crate::specs::Step::call_of))]
    pub(crate) fn call(self, target: &Target) -> Result<(), Stop>
        ensures does { Does V.operations result self.entry.state.now (S.memory self.entry.space.now) self.exit.0.now
            (S.memory self.exit.1.0.now) (λ ops acc s m. call_of ops acc self.entry.frame.now s m target.now) }
        ensures rest { S.rest self.exit.1.0.now ≡ S.rest self.entry.space.now }
    {
        let stack = V::number_of(self.state.registers.rsp);
        let (stack, place) = match target {
            Target::Relative(distance) => {
                let stack = used(self.state.place, stack)?;
                (stack, self.frame.next.wrapping_add(*distance))
            }
            Target::Indirect(operand) => {
                let it = self.take(Width::Quad, operand, stack)?;
                (it.other, it.number)
            }
        };
        let Execution { state, space, .. } = self;
        push_word::<V, S>(stack, V::word(self.frame.next), state, space)?;
        state.place = place;
        Ok(())
    }
}
