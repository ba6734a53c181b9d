//! One instruction, and one step.

ghost use Rattle.std.specs.Prelude.{◌≡◌};
ghost use Rattle.guest_operands.specs.RangeLaws.{range_accesses, is_field_of};
ghost use Rattle.amd64_subset.specs.Decoding.{decoded};
ghost use Rattle.guest_operands.specs.Access.{fetch_of};
ghost use Rattle.guest_machine.specs.Step.{act, step_of};
ghost use Rattle.guest_operands.specs.UseLaws.{Does};

use crate::execution::Execution;
use crate::stack::return_from;
use amd64_subset::Operation::{
    Call, Compute, ExtendByte, ExtendLong, Jump, JumpIf, Leave, LoadAddress, Move, Multiply, Nop,
    Pop, Push, Return, Shift, StoreByte, Test, Undefined,
};
use amd64_subset::{Decoded, Operation, decode};
use guest_arithmetic::Values;
use guest_operands::{Frame, Space, State, Stop, frame_at};

/// Does one instruction.
#[tactic(auto, unfolding(crate::specs::Step::act))]
pub fn act<V: Values, S: Space<V>>(
    frame: &Frame,
    operation: &Operation,
    state: &mut State<V::Word, V::Flag>,
    space: &mut S,
) -> Result<(), Stop>
    ensures does { Does V.operations result state.old (S.memory space.old) state.new (S.memory space.new)
        (λ ops acc s m. act ops acc frame.now operation.now s m) }
    ensures rest { S.rest space.new ≡ S.rest space.old }
{
    let execution = Execution {
        state,
        space,
        frame,
    };
    match operation {
        Move { width, operands } => execution.move_operands(*width, operands),
        StoreByte { to, from } => execution.store_byte(to, *from),
        ExtendByte { to, from, .. } => execution.extend_byte(*to, from),
        ExtendLong { to, from } => execution.extend_long(*to, from),
        LoadAddress { width, to, from } => execution.load_address(*width, *to, from),
        Compute {
            arithmetic,
            width,
            operands,
        } => execution.compute(*arithmetic, *width, operands),
        Test { width, left, right } => execution.test(*width, left, *right),
        Multiply { width, to, from } => execution.multiply(*width, *to, from),
        Shift {
            shift,
            width,
            to,
            count,
        } => execution.shift(*shift, *width, to, *count),
        Push { from } => execution.push(*from),
        Pop { to } => execution.pop(*to),
        Leave => execution.leave(),
        Call { target } => execution.call(target),
        Jump { target } => execution.jump(target),
        JumpIf {
            condition,
            distance,
        } => execution.jump_if(*condition, *distance),
        Return => return_from::<V, S>(state, space),
        Nop { operand } => execution.nop(operand),
        Undefined => Err(Stop::Code(state.place)),
    }
}

/// The instruction at an address, if one can be fetched there.
pub(crate) fn instruction<V: Values, S: Space<V>>(space: &S, address: u64) -> Option<Decoded>
    ensures { result ≡ decoded (fetch_of (range_accesses V.operations) (S.memory space.now) address) }
{
    let mut bytes = [0; 15];
    let count = space.fetch(address, &mut bytes);
    decode(&bytes[..usize::from(count)])
}

/// One step: fetches an instruction, decodes it and does it.
#[tactic(auto, unfolding(crate::specs::Step::step_of))]
pub(crate) fn step<V: Values, S: Space<V>>(
    state: &mut State<V::Word, V::Flag>,
    space: &mut S,
) -> Result<(), Stop>
    ensures does { Does V.operations result state.old (S.memory space.old) state.new (S.memory space.new)
        (λ ops acc s m. step_of ops acc (is_field_of m) s m) }
    ensures rest { S.rest space.new ≡ S.rest space.old }
{
    match instruction::<V, S>(space, state.place) {
        None => Err(Stop::Code(state.place)),
        Some(decoded) => {
            let frame = frame_at::<V, S>(space, state.place, &decoded);
            act::<V, S>(&frame, &decoded.instr.operation, state, space)
        }
    }
}
