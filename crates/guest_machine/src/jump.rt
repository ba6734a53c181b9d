//! jmp, jcc and nop.

ghost use Rattle.std.specs.Prelude.{◌≡◌};
ghost use Rattle.guest_machine.specs.Step.{jump_of, jump_if, nop_use, nop_of};
ghost use Rattle.guest_operands.specs.UseLaws.{Does};

use crate::execution::Execution;
use amd64_subset::{Condition, Operand, Target, Width};
use guest_arithmetic::{Cause, Values, condition};
use guest_operands::{Space, Stop, address, used};

impl<V: Values, S: Space<V>> Execution<'_, V, S> {
    /// jmp
    #[tactic(auto, unfolding(crate::specs::Step::jump_of))]
    pub(crate) fn jump(self, target: &Target) -> Result<(), Stop>
        ensures does { Does V.operations result self.entry.state.now (S.memory self.entry.space.now) self.exit.0.now
            (S.memory self.exit.1.0.now) (λ ops acc s m. jump_of ops acc self.entry.frame.now s m target.now) }
        ensures rest { S.rest self.exit.1.0.now ≡ S.rest self.entry.space.now }
    {
        self.state.place = match target {
            Target::Relative(distance) => self.frame.next.wrapping_add(*distance),
            Target::Indirect(operand) => self.take(Width::Quad, operand, Ok(0))?.number,
        };
        Ok(())
    }

    /// jcc
    #[tactic(auto, unfolding(crate::specs::Step::jump_if))]
    pub(crate) fn jump_if(self, when: Condition, distance: u64) -> Result<(), Stop>
        ensures does { Does V.operations result self.entry.state.now (S.memory self.entry.space.now) self.exit.0.now
            (S.memory self.exit.1.0.now) (λ ops acc s m. jump_if ops acc self.entry.frame.now s m when distance) }
        ensures rest { S.rest self.exit.1.0.now ≡ S.rest self.entry.space.now }
    {
        let holds = used(self.state.place, condition::<V>(when, &self.state.flags))?;
        self.state.place = if holds {
            self.frame.next.wrapping_add(distance)
        } else {
            self.frame.next
        };
        Ok(())
    }

    /// What a nop uses: nothing, unless its operand holds an offset field.
    fn nop_use(&self, operand: &Option<Operand>) -> Result<u64, Cause>
        ensures { result ≡ nop_use V.operations self.now.frame.now self.now.state.now
            self.now.frame.now.displacement_field operand.now }
    {
        match (self.frame.displacement_field, operand) {
            (Some(_), Some(Operand::InMemory(memory))) => {
                address::<V>(self.frame, self.state, memory)
            }
            _ => Ok(0),
        }
    }

    /// nop and endbr64
    #[tactic(auto, unfolding(crate::specs::Step::nop_of))]
    pub(crate) fn nop(self, operand: &Option<Operand>) -> Result<(), Stop>
        ensures does { Does V.operations result self.entry.state.now (S.memory self.entry.space.now) self.exit.0.now
            (S.memory self.exit.1.0.now) (λ ops acc s m. nop_of ops acc self.entry.frame.now s m operand.now) }
        ensures rest { S.rest self.exit.1.0.now ≡ S.rest self.entry.space.now }
    {
        used(self.state.place, self.nop_use(operand))?;
        self.state.place = self.frame.next;
        Ok(())
    }
}
