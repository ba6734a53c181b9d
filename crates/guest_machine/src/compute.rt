//! add, or, and, sub, xor, cmp, test, imul and shifts.

ghost use Rattle.std.specs.Prelude.{◌≡◌, ◌<◌};
ghost use Rattle.guest_arithmetic.specs.Arithmetic.{compute_effect, span_of};
ghost use Rattle.guest_arithmetic.specs.Flags.{with_changes};
ghost use Rattle.guest_machine.specs.Step.{is_cleared, finished, concluded, settled, compute_in, add_field, compute_plain, compute_number, compute_of, test_of, multiply_of, shift_of};
ghost use Rattle.guest_operands.specs.UseLaws.{Does};

use crate::execution::Execution;
use crate::moves::immediate;
use amd64_subset::{Arithmetic, Operand, Operands, Register, Shift, Width};
use guest_arithmetic::{Change, Changes, Effect, Values, compute, product, shift, with_changes};
use guest_operands::{Frame, Slot, Space, State, Stop, charged, number_at, put, register, used};

/// Whether a register is combined with itself, which gives 0 whatever it holds.
#[tactic(auto, unfolding(crate::specs::Step::is_cleared))]
fn is_cleared(arithmetic: Arithmetic, to: Register, from: &Operand) -> bool
    ensures { result ≡ is_cleared arithmetic to from.now }
{
    match (arithmetic, from) {
        (Arithmetic::Sub, Operand::Register(from)) => to == *from,
        (Arithmetic::Xor, Operand::Register(from)) => to == *from,
        _ => false,
    }
}

/// Sets the flags after an instruction, and the next address.
fn settle<V: Values>(changes: &Changes, frame: &Frame, state: &mut State<V::Word, V::Flag>)
    ensures { state.new ≡ record state.old {
      flags = with_changes V.operations changes.now state.old.flags;
      place = frame.now.next;
    } }
{
    state.flags = with_changes::<V>(changes, &state.flags);
    state.place = frame.next;
}

impl<V: Values, S: Space<V>> Execution<'_, V, S> {
    /// Writes a result, and then the flags and the next address.
    #[tactic(auto, unfolding(crate::specs::Step::finished))]
    fn finish(self, width: Width, slot: Slot, effect: &Effect) -> Result<(), Stop>
        ensures does { Does V.operations result self.entry.state.now (S.memory self.entry.space.now) self.exit.0.now
            (S.memory self.exit.1.0.now)
            (λ ops acc s m. finished ops acc width slot effect.now self.entry.frame.now s m) }
        ensures rest { S.rest self.exit.1.0.now ≡ S.rest self.entry.space.now }
    {
        let Execution { state, space, .. } = self;
        put::<V, S>(width, slot, V::word(effect.number), state, space)?;
        settle::<V>(&effect.changes, self.frame, state);
        Ok(())
    }

    /// Computes, writes the result unless the instruction is cmp, and then the flags and the next address.
    #[tactic(auto, unfolding(crate::specs::Step::concluded))]
    fn conclude(
        self,
        arithmetic: Arithmetic,
        width: Width,
        slot: Slot,
        left: u64,
        right: u64,
    ) -> Result<(), Stop>
        requires { right < span_of width }
        ensures does { Does V.operations result self.entry.state.now (S.memory self.entry.space.now) self.exit.0.now
            (S.memory self.exit.1.0.now)
            (λ ops acc s m. concluded ops acc arithmetic width slot (compute_effect arithmetic width left right)
            self.entry.frame.now s m) }
        ensures rest { S.rest self.exit.1.0.now ≡ S.rest self.entry.space.now }
    {
        let effect = compute(arithmetic, width, left, right);
        match arithmetic {
            Arithmetic::Compare => {
                settle::<V>(&effect.changes, self.frame, self.state);
                Ok(())
            }
            _ => self.finish(width, slot, &effect),
        }
    }

    /// add, or, and, sub, xor, cmp into a register
    #[tactic(auto, unfolding(crate::specs::Step::compute_in))]
    fn compute_in(
        self,
        arithmetic: Arithmetic,
        width: Width,
        to: Register,
        from: &Operand,
    ) -> Result<(), Stop>
        ensures does { Does V.operations result self.entry.state.now (S.memory self.entry.space.now) self.exit.0.now
            (S.memory self.exit.1.0.now)
            (λ ops acc s m. compute_in ops acc arithmetic width self.entry.frame.now s m to from.now) }
        ensures rest { S.rest self.exit.1.0.now ≡ S.rest self.entry.space.now }
    {
        let slot = Slot::Register(to);
        if is_cleared(arithmetic, to, from) {
            return self.finish(width, slot, &compute(arithmetic, width, 0, 0));
        }
        let left = number_at::<V>(width, register(&self.state.registers, to));
        let it = self.take(width, from, left)?;
        self.conclude(arithmetic, width, slot, it.other, it.number)
    }

    /// Adds an offset field to a base.
    #[tactic(auto, unfolding(crate::specs::Step::add_field))]
    fn add_field(self, to: Register, at: u64) -> Result<(), Stop>
        ensures does { Does V.operations result self.entry.state.now (S.memory self.entry.space.now) self.exit.0.now
            (S.memory self.exit.1.0.now) (λ ops acc s m. add_field ops acc self.entry.frame.now s m to at) }
        ensures rest { S.rest self.exit.1.0.now ≡ S.rest self.entry.space.now }
    {
        let base = register(&self.state.registers, to);
        let moved = V::moved(base, self.frame.immediate, at);
        let number = used(self.state.place, charged(Some(at), moved))?;
        let changes = Changes::each(Change::Unsettled);
        self.finish(Width::Quad, Slot::Register(to), &Effect { number, changes })
    }

    /// add, or, and, sub, xor, cmp with an immediate
    #[tactic(auto, unfolding(crate::specs::Step::compute_plain))]
    fn compute_plain(self, arithmetic: Arithmetic, width: Width, to: &Operand) -> Result<(), Stop>
        ensures does { Does V.operations result self.entry.state.now (S.memory self.entry.space.now) self.exit.0.now
            (S.memory self.exit.1.0.now)
            (λ ops acc s m. compute_plain ops acc arithmetic width self.entry.frame.now.immediate_field
            self.entry.frame.now s m to.now) }
        ensures rest { S.rest self.exit.1.0.now ≡ S.rest self.entry.space.now }
    {
        let it = self.take(width, to, immediate::<V>(width, self.frame))?;
        self.conclude(arithmetic, width, it.slot, it.number, it.other)
    }

    /// The same, except that the immediate may be an offset field that is added to a base in a register.
    #[tactic(auto, unfolding(crate::specs::Step::compute_number))]
    fn compute_number(self, arithmetic: Arithmetic, width: Width, to: &Operand) -> Result<(), Stop>
        ensures does { Does V.operations result self.entry.state.now (S.memory self.entry.space.now) self.exit.0.now
            (S.memory self.exit.1.0.now)
            (λ ops acc s m. compute_number ops acc arithmetic width self.entry.frame.now.immediate_field
            self.entry.frame.now s m to.now) }
        ensures rest { S.rest self.exit.1.0.now ≡ S.rest self.entry.space.now }
    {
        match (arithmetic, width, self.frame.immediate_field, to) {
            (Arithmetic::Add, Width::Quad, Some(at), Operand::Register(to)) => {
                self.add_field(*to, at)
            }
            _ => self.compute_plain(arithmetic, width, to),
        }
    }

    /// add, or, and, sub, xor, cmp
    #[tactic(auto, unfolding(crate::specs::Step::compute_of))]
    pub(crate) fn compute(
        self,
        arithmetic: Arithmetic,
        width: Width,
        operands: &Operands,
    ) -> Result<(), Stop>
        ensures does { Does V.operations result self.entry.state.now (S.memory self.entry.space.now) self.exit.0.now
            (S.memory self.exit.1.0.now)
            (λ ops acc s m. compute_of ops acc arithmetic width self.entry.frame.now s m operands.now) }
        ensures rest { S.rest self.exit.1.0.now ≡ S.rest self.entry.space.now }
    {
        match operands {
            Operands::IntoRegister { to, from } => self.compute_in(arithmetic, width, *to, from),
            Operands::IntoMemory { to, from } => {
                let right = number_at::<V>(width, register(&self.state.registers, *from));
                let it = self.take(width, &Operand::InMemory(*to), right)?;
                self.conclude(arithmetic, width, it.slot, it.number, it.other)
            }
            Operands::Immediate { to } => self.compute_number(arithmetic, width, to),
        }
    }

    /// test r/m, r
    #[tactic(auto, unfolding(crate::specs::Step::test_of))]
    pub(crate) fn test(self, width: Width, from: &Operand, right: Register) -> Result<(), Stop>
        ensures does { Does V.operations result self.entry.state.now (S.memory self.entry.space.now) self.exit.0.now
            (S.memory self.exit.1.0.now)
            (λ ops acc s m. test_of ops acc width self.entry.frame.now s m from.now right) }
        ensures rest { S.rest self.exit.1.0.now ≡ S.rest self.entry.space.now }
    {
        let right = number_at::<V>(width, register(&self.state.registers, right));
        let it = self.take(width, from, right)?;
        let effect = compute(Arithmetic::And, width, it.number, it.other);
        settle::<V>(&effect.changes, self.frame, self.state);
        Ok(())
    }

    /// imul r, r/m
    #[tactic(auto, unfolding(crate::specs::Step::multiply_of))]
    pub(crate) fn multiply(self, width: Width, to: Register, from: &Operand) -> Result<(), Stop>
        ensures does { Does V.operations result self.entry.state.now (S.memory self.entry.space.now) self.exit.0.now
            (S.memory self.exit.1.0.now)
            (λ ops acc s m. multiply_of ops acc width self.entry.frame.now s m to from.now) }
        ensures rest { S.rest self.exit.1.0.now ≡ S.rest self.entry.space.now }
    {
        let left = number_at::<V>(width, register(&self.state.registers, to));
        let it = self.take(width, from, left)?;
        let effect = product(width, it.other, it.number);
        self.finish(width, Slot::Register(to), &effect)
    }

    /// shl, shr, sar r/m, count
    #[tactic(auto, unfolding(crate::specs::Step::shift_of))]
    pub(crate) fn shift(
        self,
        kind: Shift,
        width: Width,
        to: &Operand,
        count: u8,
    ) -> Result<(), Stop>
        ensures does { Does V.operations result self.entry.state.now (S.memory self.entry.space.now) self.exit.0.now
            (S.memory self.exit.1.0.now)
            (λ ops acc s m. shift_of ops acc kind width self.entry.frame.now s m to.now count) }
        ensures rest { S.rest self.exit.1.0.now ≡ S.rest self.entry.space.now }
    {
        let it = self.take(width, to, Ok(0))?;
        let effect = shift(kind, width, it.number, count);
        self.finish(width, it.slot, &effect)
    }
}
