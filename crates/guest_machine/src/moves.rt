//! mov, movzx, movslq and lea.

ghost use Rattle.std.specs.Prelude.{◌≡◌, ◌<◌, IfOk};
ghost use Rattle.amd64_subset.specs.Number.{signed_long_of};
ghost use Rattle.amd64_subset.specs.declared.instr.Width.TheVariants.{Long};
ghost use Rattle.guest_operands.specs.Access.{bytes_in};
ghost use Rattle.guest_arithmetic.specs.Arithmetic.{low, span_of};
ghost use Rattle.guest_operands.specs.Operand.{carried_as};
ghost use Rattle.guest_machine.specs.Step.{immediate_of, move_in, stored, store_byte, move_number, move_of, extend_byte, extend_long, load_address};
ghost use Rattle.guest_operands.specs.UseLaws.{Does};

use crate::execution::Execution;
use amd64_subset::{Memory, Operand, Operands, Register, Width};
use guest_arithmetic::{Cause, Values, low};
use guest_operands::{
    Frame, Size, Space, Stop, kept, kept_byte, register, set_register, size, store, unmoved, used,
};

/// The immediate at a width.
#[tactic(auto, unfolding(crate::specs::Step::immediate_of))]
pub(crate) fn immediate<V: Values>(width: Width, frame: &Frame) -> Result<u64, Cause>
    ensures value { result ≡ immediate_of V.operations width frame.now.immediate_field frame.now.immediate }
    ensures small { IfOk result (λ number. number < span_of width) }
{
    let number = unmoved::<V>(frame.immediate_field, frame.immediate)?;
    Ok(low(width, number))
}

/// The lower half as a signed number of 64 bits.
fn sign_extended(number: u64) -> u64
    ensures { result ≡ signed_long_of (low Long number) }
{
    let low = low(Width::Long, number);
    if low < 1 << 31 {
        low
    } else {
        low + (u64::MAX - 0xffff_ffff)
    }
}

/// A word's lower half, sign-extended and moved.
fn extended<V: Values>(word: V::Word) -> V::Word
    ensures { result ≡ carried_as V.operations (λ n. signed_long_of (low Long n)) (V.operations.number_of word) }
{
    match V::number_of(word) {
        Ok(number) => V::word(sign_extended(number)),
        Err(_) => V::unknown(),
    }
}

impl<V: Values, S: Space<V>> Execution<'_, V, S> {
    /// mov r, r/m
    #[tactic(auto, unfolding(crate::specs::Step::move_in))]
    fn move_in(self, width: Width, to: Register, from: &Operand) -> Result<(), Stop>
        ensures does { Does V.operations result self.entry.state.now (S.memory self.entry.space.now) self.exit.0.now
            (S.memory self.exit.1.0.now) (λ ops acc s m. move_in ops acc width self.entry.frame.now s m to from.now) }
        ensures rest { S.rest self.exit.1.0.now ≡ S.rest self.entry.space.now }
    {
        let word = self.carried(width, from)?;
        set_register(&mut self.state.registers, to, word);
        self.state.place = self.frame.next;
        Ok(())
    }

    /// Writes a word's lowest bytes to a memory operand.
    #[tactic(auto, unfolding(crate::specs::Step::stored))]
    fn stored(self, size: Size, to: &Memory, word: V::Word) -> Result<(), Stop>
        ensures does { Does V.operations result self.entry.state.now (S.memory self.entry.space.now) self.exit.0.now
            (S.memory self.exit.1.0.now)
            (λ ops acc s m. stored ops acc (bytes_in size) self.entry.frame.now s m to.now word) }
        ensures rest { S.rest self.exit.1.0.now ≡ S.rest self.entry.space.now }
    {
        let place = self.address(to)?;
        let Execution { state, space, .. } = self;
        store::<V, S>(space, state.place, place, size, word)?;
        state.place = self.frame.next;
        Ok(())
    }

    /// mov r8 to memory
    #[tactic(auto, unfolding(crate::specs::Step::store_byte))]
    pub(crate) fn store_byte(self, to: &Memory, from: Register) -> Result<(), Stop>
        ensures does { Does V.operations result self.entry.state.now (S.memory self.entry.space.now) self.exit.0.now
            (S.memory self.exit.1.0.now) (λ ops acc s m. store_byte ops acc self.entry.frame.now s m to.now from) }
        ensures rest { S.rest self.exit.1.0.now ≡ S.rest self.entry.space.now }
    {
        let byte = kept_byte::<V>(register(&self.state.registers, from));
        self.stored(Size::Byte, to, byte)
    }

    /// mov r/m, imm
    #[tactic(auto, unfolding(crate::specs::Step::move_number))]
    fn move_number(self, width: Width, to: &Operand) -> Result<(), Stop>
        ensures does { Does V.operations result self.entry.state.now (S.memory self.entry.space.now) self.exit.0.now
            (S.memory self.exit.1.0.now) (λ ops acc s m. move_number ops acc width self.entry.frame.now s m to.now) }
        ensures rest { S.rest self.exit.1.0.now ≡ S.rest self.entry.space.now }
    {
        let number = used(self.state.place, immediate::<V>(width, self.frame))?;
        match to {
            Operand::Register(to) => {
                set_register(&mut self.state.registers, *to, V::word(number));
                self.state.place = self.frame.next;
                Ok(())
            }
            Operand::InMemory(to) => self.stored(size(width), to, V::word(number)),
        }
    }

    /// mov
    #[tactic(auto, unfolding(crate::specs::Step::move_of))]
    pub(crate) fn move_operands(self, width: Width, operands: &Operands) -> Result<(), Stop>
        ensures does { Does V.operations result self.entry.state.now (S.memory self.entry.space.now) self.exit.0.now
            (S.memory self.exit.1.0.now) (λ ops acc s m. move_of ops acc width self.entry.frame.now s m operands.now) }
        ensures rest { S.rest self.exit.1.0.now ≡ S.rest self.entry.space.now }
    {
        match operands {
            Operands::IntoRegister { to, from } => self.move_in(width, *to, from),
            Operands::IntoMemory { to, from } => {
                let word = kept::<V>(width, register(&self.state.registers, *from));
                self.stored(size(width), to, word)
            }
            Operands::Immediate { to } => self.move_number(width, to),
        }
    }

    /// movzx r, r/m8
    #[tactic(auto, unfolding(crate::specs::Step::extend_byte))]
    pub(crate) fn extend_byte(self, to: Register, from: &Operand) -> Result<(), Stop>
        ensures does { Does V.operations result self.entry.state.now (S.memory self.entry.space.now) self.exit.0.now
            (S.memory self.exit.1.0.now) (λ ops acc s m. extend_byte ops acc self.entry.frame.now s m to from.now) }
        ensures rest { S.rest self.exit.1.0.now ≡ S.rest self.entry.space.now }
    {
        let word = match from {
            Operand::Register(from) => kept_byte::<V>(register(&self.state.registers, *from)),
            Operand::InMemory(from) => self.load(self.address(from)?, Size::Byte)?,
        };
        set_register(&mut self.state.registers, to, word);
        self.state.place = self.frame.next;
        Ok(())
    }

    /// movslq r, r/m
    #[tactic(auto, unfolding(crate::specs::Step::extend_long))]
    pub(crate) fn extend_long(self, to: Register, from: &Operand) -> Result<(), Stop>
        ensures does { Does V.operations result self.entry.state.now (S.memory self.entry.space.now) self.exit.0.now
            (S.memory self.exit.1.0.now) (λ ops acc s m. extend_long ops acc self.entry.frame.now s m to from.now) }
        ensures rest { S.rest self.exit.1.0.now ≡ S.rest self.entry.space.now }
    {
        let word = extended::<V>(self.carried(Width::Long, from)?);
        set_register(&mut self.state.registers, to, word);
        self.state.place = self.frame.next;
        Ok(())
    }

    /// lea r, m
    #[tactic(auto, unfolding(crate::specs::Step::load_address))]
    pub(crate) fn load_address(self, width: Width, to: Register, from: &Memory) -> Result<(), Stop>
        ensures does { Does V.operations result self.entry.state.now (S.memory self.entry.space.now) self.exit.0.now
            (S.memory self.exit.1.0.now)
            (λ ops acc s m. load_address ops acc width self.entry.frame.now s m to from.now) }
        ensures rest { S.rest self.exit.1.0.now ≡ S.rest self.entry.space.now }
    {
        let place = self.address(from)?;
        set_register(&mut self.state.registers, to, V::word(low(width, place)));
        self.state.place = self.frame.next;
        Ok(())
    }
}
