//! The data bytes that an instruction touches, computed without a memory.

ghost use Rattle.std.specs.Prelude.{◌≡◌, None};
ghost use Rattle.amd64_subset.specs.declared.instr.Operation.TheVariants.{Call, Compute, Jump, Move};
ghost use Rattle.amd64_subset.specs.declared.operand.Operand.TheVariants.{InMemory};
ghost use Rattle.guest_machine.specs.declared.touch.Direction.TheVariants.{Load};
ghost use Rattle.guest_operands.specs.declared.space.Size.TheVariants.{Quad};
ghost use Rattle.guest_machine.specs.Touch.{touch_at, paired, operand_touch, changed_touches, computed_touches, push_touch, touches_of};

use amd64_subset::Operation::{
    Call, Compute, ExtendByte, ExtendLong, Jump, JumpIf, Leave, LoadAddress, Move, Multiply, Nop,
    Pop, Push, Return, Shift, StoreByte, Test, Undefined,
};
use amd64_subset::{Arithmetic, Memory, Operand, Operands, Operation, Target, Width};
use guest_arithmetic::{Cause, Values};
use guest_operands::{Frame, Size, State, address, size};

/// Whether an access loads or stores.
#[derive(Clone, Copy, PartialEq, Eq, Debug)]
pub enum Direction {
    Load,
    Store,
}

/// One access of an instruction.
#[derive(Clone, Copy, PartialEq, Eq, Debug)]
pub struct Touch {
    pub direction: Direction,
    pub size: Size,
    pub address: u64,
}

/// An instruction's accesses in their order. One whose address is not a number is left out.
#[derive(Clone, Copy, PartialEq, Eq, Debug)]
pub struct Touches {
    pub first: Option<Touch>,
    pub second: Option<Touch>,
}

fn touch_at(direction: Direction, size: Size, address: Result<u64, Cause>) -> Option<Touch>
    ensures { result ≡ touch_at direction size address }
{
    match address {
        Ok(address) => Some(Touch {
            direction,
            size,
            address,
        }),
        Err(_) => None,
    }
}

fn paired(first: Option<Touch>, second: Option<Touch>) -> Touches
    ensures { result ≡ paired first second }
{
    Touches { first, second }
}

/// An instruction's frame and the state that it finds: where its operands lie.
#[derive(Drop)]
struct Addressing<'a, V: Values> {
    frame: &'a Frame,
    state: &'a State<V::Word, V::Flag>,
}

impl<V: Values> Addressing<'_, V> {
    fn memory(&self, direction: Direction, size: Size, memory: &Memory) -> Option<Touch>
        ensures { result ≡ operand_touch V.operations self.now.frame.now self.now.state.now direction size
            (InMemory memory.now) }
    {
        touch_at(
            direction,
            size,
            address::<V>(self.frame, self.state, memory),
        )
    }

    /// The access to an operand, if it lies in memory.
    fn operand(&self, direction: Direction, size: Size, operand: &Operand) -> Option<Touch>
        ensures { result ≡ operand_touch V.operations self.now.frame.now self.now.state.now direction size operand.now }
    {
        match operand {
            Operand::Register(_) => None,
            Operand::InMemory(memory) => self.memory(direction, size, memory),
        }
    }

    /// The accesses to an operand that is read and then written.
    fn changed(&self, width: Width, to: &Operand) -> Touches
        ensures { result ≡ changed_touches V.operations self.now.frame.now self.now.state.now width to.now }
    {
        paired(
            self.operand(Direction::Load, size(width), to),
            self.operand(Direction::Store, size(width), to),
        )
    }

    /// The access to an operand that is read.
    fn loaded(&self, size: Size, from: &Operand) -> Touches
        ensures { result
            ≡ paired (operand_touch V.operations self.now.frame.now self.now.state.now Load size from.now) None }
    {
        paired(self.operand(Direction::Load, size, from), None)
    }

    /// The accesses of an arithmetic instruction; cmp writes nothing.
    fn computed(&self, arithmetic: Arithmetic, width: Width, to: &Operand) -> Touches
        ensures { result ≡ computed_touches V.operations self.now.frame.now self.now.state.now arithmetic width to.now }
    {
        match arithmetic {
            Arithmetic::Compare => self.loaded(size(width), to),
            Arithmetic::Add
            | Arithmetic::Or
            | Arithmetic::And
            | Arithmetic::Sub
            | Arithmetic::Xor => self.changed(width, to),
        }
    }

    #[tactic(auto, unfolding(crate::specs::Touch::touches_of))]
    fn of_move(&self, width: Width, operands: &Operands) -> Touches
        ensures { result ≡ touches_of V.operations self.now.frame.now self.now.state.now (Move width operands.now) }
    {
        let store = match operands {
            Operands::IntoRegister { from, .. } => return self.loaded(size(width), from),
            Operands::IntoMemory { to, .. } => self.memory(Direction::Store, size(width), to),
            Operands::Immediate { to } => self.operand(Direction::Store, size(width), to),
        };
        paired(store, None)
    }

    #[tactic(auto, unfolding(crate::specs::Touch::touches_of))]
    fn of_compute(&self, arithmetic: Arithmetic, width: Width, operands: &Operands) -> Touches
        ensures { result ≡ touches_of V.operations self.now.frame.now self.now.state.now
            (Compute arithmetic width operands.now) }
    {
        match operands {
            Operands::IntoRegister { from, .. } => self.loaded(size(width), from),
            Operands::IntoMemory { to, .. } => {
                self.computed(arithmetic, width, &Operand::InMemory(*to))
            }
            Operands::Immediate { to } => self.computed(arithmetic, width, to),
        }
    }

    /// The eight bytes that %rsp points to.
    fn pop(&self) -> Option<Touch>
        ensures { result ≡ touch_at Load Quad (V.operations.number_of self.now.state.now.registers.rsp) }
    {
        let stack = V::number_of(self.state.registers.rsp);
        touch_at(Direction::Load, Size::Quad, stack)
    }

    /// The eight bytes below %rsp.
    fn push(&self) -> Option<Touch>
        ensures { result ≡ push_touch V.operations self.now.state.now }
    {
        match V::number_of(self.state.registers.rsp) {
            Ok(stack) => touch_at(Direction::Store, Size::Quad, Ok(stack.wrapping_sub(8))),
            Err(_) => None,
        }
    }

    #[tactic(auto, unfolding(crate::specs::Touch::touches_of))]
    fn of_call(&self, target: &Target) -> Touches
        ensures { result ≡ touches_of V.operations self.now.frame.now self.now.state.now (Call target.now) }
    {
        match target {
            Target::Relative(_) => paired(self.push(), None),
            Target::Indirect(operand) => paired(
                self.operand(Direction::Load, Size::Quad, operand),
                self.push(),
            ),
        }
    }

    #[tactic(auto, unfolding(crate::specs::Touch::touches_of))]
    fn of_jump(&self, target: &Target) -> Touches
        ensures { result ≡ touches_of V.operations self.now.frame.now self.now.state.now (Jump target.now) }
    {
        match target {
            Target::Relative(_) => paired(None, None),
            Target::Indirect(operand) => self.loaded(Size::Quad, operand),
        }
    }
}

/// An instruction's accesses.
#[tactic(auto, unfolding(crate::specs::Touch::touches_of))]
pub fn touches_of<V: Values>(
    frame: &Frame,
    state: &State<V::Word, V::Flag>,
    operation: &Operation,
) -> Touches
    ensures { result ≡ touches_of V.operations frame.now state.now operation.now }
{
    let addressing = Addressing::<V> { frame, state };
    match operation {
        Move { width, operands } => addressing.of_move(*width, operands),
        StoreByte { to, .. } => paired(addressing.memory(Direction::Store, Size::Byte, to), None),
        ExtendByte { from, .. } => addressing.loaded(Size::Byte, from),
        ExtendLong { from, .. } => addressing.loaded(Size::Long, from),
        Compute {
            arithmetic,
            width,
            operands,
        } => addressing.of_compute(*arithmetic, *width, operands),
        Test { width, left, .. } => addressing.loaded(size(*width), left),
        Multiply { width, from, .. } => addressing.loaded(size(*width), from),
        Shift { width, to, .. } => addressing.changed(*width, to),
        Push { .. } => paired(addressing.push(), None),
        Pop { .. } | Return => paired(addressing.pop(), None),
        Leave => {
            let base = V::number_of(state.registers.rbp);
            paired(touch_at(Direction::Load, Size::Quad, base), None)
        }
        Call { target } => addressing.of_call(target),
        Jump { target } => addressing.of_jump(target),
        LoadAddress { .. } | JumpIf { .. } | Nop { .. } | Undefined => paired(None, None),
    }
}
