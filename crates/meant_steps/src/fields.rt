//! What an instruction may do with a field in it.

ghost use Rattle.std.specs.Prelude.{◌≡◌, ℕ, is_ok};
ghost use Rattle.amd64_subset.specs.declared.instr.Operation.TheVariants.{Compute as Computes, Move as Moves};
ghost use Rattle.amd64_subset.specs.declared.instr.Arithmetic.TheVariants.{Add};
ghost use Rattle.amd64_subset.specs.declared.instr.Width.TheVariants.{Quad};
ghost use Rattle.amd64_subset.specs.declared.operand.Operand.TheVariants.{Register as InRegister};
ghost use Rattle.amd64_subset.specs.declared.operand.Operands.TheVariants.{Immediate};
ghost use Rattle.guest_operands.specs.Frame.{field_at};
ghost use Rattle.guest_operands.specs.declared.state.State.{State};
ghost use Rattle.job_meaning.specs.declared.values.Flag.{Flag};
ghost use Rattle.job_meaning.specs.declared.values.Word.{Word};
ghost use Rattle.job_meaning.specs.Reading.{is_at};
ghost use Rattle.whole_meaning.specs.Fields.{operand_in, operands_in, target_in, memory_in, read_in, starts_offset, field_number, field_address, is_minus, is_from_next, reads_next, number_in, marked_frame, address_at, has_address, adds_to_base, takes_offset, takes_address};
ghost use Rattle.whole_meaning.specs.Threads.{ops};
ghost use Rattle.whole_meaning.specs.declared.marks.Mark.{Mark};

use crate::marks::Marks;
use amd64_subset::Operation::{
    Call, Compute, ExtendByte, ExtendLong, Jump, JumpIf, Leave, LoadAddress, Move, Multiply, Nop,
    Pop, Push, Return, Shift, StoreByte, Test, Undefined,
};
use amd64_subset::{
    Arithmetic, Base, Decoded, Memory, Operand, Operands, Operation, Register, Target, Width,
};
use guest_arithmetic::{Cause, Values};
use guest_operands::{Frame, State, address, register};
use job_meaning::{Flag, MarkedValues, Word};
use whole_meaning::Mark;

fn operand_in(operand: &Operand) -> Option<Memory>
    ensures { result ≡ operand_in operand.now }
{
    match operand {
        Operand::Register(_) => None,
        Operand::InMemory(memory) => Some(*memory),
    }
}

fn operands_in(operands: &Operands) -> Option<Memory>
    ensures { result ≡ operands_in operands.now }
{
    match operands {
        Operands::IntoRegister { from, .. } => operand_in(from),
        Operands::IntoMemory { to, .. } => Some(*to),
        Operands::Immediate { to } => operand_in(to),
    }
}

fn target_in(target: &Target) -> Option<Memory>
    ensures { result ≡ target_in target.now }
{
    match target {
        Target::Relative(_) => None,
        Target::Indirect(operand) => operand_in(operand),
    }
}

/// An instruction's operand in memory. No instruction has more than one.
#[tactic(auto, unfolding(whole_meaning::specs::Fields::memory_in))]
pub fn memory_in(operation: &Operation) -> Option<Memory>
    ensures { result ≡ memory_in operation.now }
{
    match operation {
        Move { operands, .. } | Compute { operands, .. } => operands_in(operands),
        StoreByte { to: memory, .. } | LoadAddress { from: memory, .. } => Some(*memory),
        ExtendByte { from: operand, .. }
        | ExtendLong { from: operand, .. }
        | Test { left: operand, .. }
        | Multiply { from: operand, .. }
        | Shift { to: operand, .. }
        | Nop {
            operand: Some(operand),
        } => operand_in(operand),
        Call { target } | Jump { target } => target_in(target),
        Push { .. }
        | Pop { .. }
        | Leave
        | JumpIf { .. }
        | Return
        | Nop { operand: None }
        | Undefined => None,
    }
}

/// The operand of a mov that reads 64 bits of it.
#[tactic(auto, unfolding(whole_meaning::specs::Fields::read_in))]
fn read_by_move(width: Width, operands: &Operands) -> Option<Memory>
    ensures { result ≡ read_in (Moves width operands.now) }
{
    match (width, operands) {
        (Width::Quad, Operands::IntoRegister { from, .. }) => operand_in(from),
        (Width::Quad, Operands::IntoMemory { .. } | Operands::Immediate { .. })
        | (Width::Long, _) => None,
    }
}

/// The memory operand, if the instruction reads 64 bits of it and does not write it: into a register, or for cmp.
#[tactic(auto, unfolding(whole_meaning::specs::Fields::read_in))]
fn read_by_compute(arithmetic: Arithmetic, width: Width, operands: &Operands) -> Option<Memory>
    ensures { result ≡ read_in (Computes arithmetic width operands.now) }
{
    match (width, operands, arithmetic) {
        (Width::Quad, Operands::IntoRegister { from, .. }, _) => operand_in(from),
        (Width::Quad, Operands::IntoMemory { to, .. }, Arithmetic::Compare) => Some(*to),
        (Width::Quad, Operands::Immediate { to }, Arithmetic::Compare) => operand_in(to),
        (Width::Quad, _, _) | (Width::Long, _, _) => None,
    }
}

/// The operand in memory of an instruction that reads its 64 bits and does not write it.
#[tactic(auto, unfolding(whole_meaning::specs::Fields::read_in))]
pub fn read_in(operation: &Operation) -> Option<Memory>
    ensures { result ≡ read_in operation.now }
{
    match operation {
        Move { width, operands } => read_by_move(*width, operands),
        Compute {
            arithmetic,
            width,
            operands,
        } => read_by_compute(*arithmetic, *width, operands),
        Test {
            width: Width::Quad,
            left: operand,
            ..
        }
        | Multiply {
            width: Width::Quad,
            from: operand,
            ..
        }
        | Call {
            target: Target::Indirect(operand),
        }
        | Jump {
            target: Target::Indirect(operand),
        } => operand_in(operand),
        _ => None,
    }
}

/// Whether an offset field begins here.
fn starts_offset(mark: Mark) -> bool
    ensures { result ≡ starts_offset mark }
{
    match mark {
        Mark::Offset(_, byte) => byte == 0,
        Mark::Usual | Mark::Address(_, _, _) | Mark::Inside => false,
    }
}

/// The field's own number if an offset field begins here, and else what was decoded.
fn field_number(mark: Mark, read: u64) -> u64
    ensures { result ≡ field_number mark read }
{
    match mark {
        Mark::Offset(number, byte) => if byte == 0 { number } else { read },
        Mark::Usual | Mark::Address(_, _, _) | Mark::Inside => read,
    }
}

/// The address that an address field stands for, if one begins here.
fn field_address(mark: Mark) -> Option<u64>
    ensures { result ≡ field_address mark }
{
    match mark {
        Mark::Address(number, _, byte) => if byte == 0 { Some(number) } else { None },
        Mark::Usual | Mark::Offset(_, _) | Mark::Inside => None,
    }
}

/// The address of a part of an instruction, if an offset field begins there.
fn field_at<M: Marks>(marks: &M, here: u64, within: Option<u8>) -> Option<u64>
    ensures { result ≡ field_at (λ place. starts_offset (M.mark marks.now place)) here within }
{
    let within = within?;
    let place = here.wrapping_add(u64::from(within));
    if starts_offset(marks.mark(place)) {
        return Some(place);
    }
    None
}

/// The number of a displacement or an immediate of four bytes.
fn number_in<M: Marks>(marks: &M, here: u64, at: Option<u8>, read: u64) -> u64
    ensures { result ≡ number_in (M.mark marks.now) here at read }
{
    match at {
        None => read,
        Some(at) => field_number(marks.mark(here.wrapping_add(u64::from(at))), read),
    }
}

/// The frame of an instruction, with a field's own number in its place.
#[tactic(auto, unfolding(whole_meaning::specs::Fields::marked_frame, guest_operands::specs::Frame::frame_of))]
pub fn marked_frame<M: Marks>(marks: &M, here: u64, it: &Decoded) -> Frame
    ensures { result ≡ marked_frame (M.mark marks.now) here it.now }
{
    Frame {
        next: here.wrapping_add(u64::from(it.len)),
        displacement: number_in(marks, here, it.disp, it.instr.displacement),
        immediate: number_in(marks, here, it.imm, it.instr.immediate),
        displacement_field: field_at(marks, here, it.disp),
        immediate_field: field_at(marks, here, it.imm),
    }
}

/// The address that an instruction's address field stands for, if it has one. `at` is the displacement's offset in the
/// instruction.
pub fn address_at<M: Marks>(marks: &M, here: u64, at: Option<u8>) -> Option<u64>
    ensures { result ≡ address_at (M.mark marks.now) here at }
{
    match at {
        None => None,
        Some(at) => field_address(marks.mark(here.wrapping_add(u64::from(at)))),
    }
}

fn is_at(at: Option<u8>, k: u8) -> bool
    ensures { result ≡ is_at at k }
{
    match at {
        None => false,
        Some(at) => at == k,
    }
}

fn is_used(answer: Result<u64, Cause>) -> bool
    ensures { result ≡ is_ok answer }
{
    match answer {
        Ok(_) => true,
        Err(_) => false,
    }
}

/// Whether an operand's address can be used: its base is one of the code's own instance, and its index is a number.
fn has_address<M: Marks>(
    marks: &M,
    state: &State<Word, Flag>,
    it: &Decoded,
    operand: &Option<Memory>,
) -> bool
    ensures { result ≡ has_address ops (M.mark marks.now) state.now it.now operand.now }
{
    match operand {
        None => false,
        Some(memory) => {
            let frame = marked_frame(marks, state.place, it);
            is_used(address::<MarkedValues>(&frame, state, memory))
        }
    }
}

/// Whether the sum of a register's word and an immediate at byte k can be used.
fn is_base<M: Marks>(
    marks: &M,
    state: &State<Word, Flag>,
    it: &Decoded,
    k: u8,
    to: Register,
) -> bool
    ensures { result ≡ adds_to_base ops (M.mark marks.now) state.now it.now k
        (Computes Add Quad (Immediate (InRegister to))) }
{
    let frame = marked_frame(marks, state.place, it);
    let base = register(&state.registers, to);
    let place = state.place.wrapping_add(u64::from(k));
    is_used(MarkedValues::moved(base, frame.immediate, place))
}

/// Whether the instruction adds an immediate at byte k to such a base.
fn adds_to_base<M: Marks>(marks: &M, state: &State<Word, Flag>, it: &Decoded, k: u8) -> bool
    ensures { result ≡ adds_to_base ops (M.mark marks.now) state.now it.now k it.now.instr.operation }
{
    match &it.instr.operation {
        Compute {
            arithmetic: Arithmetic::Add,
            width: Width::Quad,
            operands: Operands::Immediate {
                to: Operand::Register(to),
            },
        } => is_base(marks, state, it, k, *to),
        _ => false,
    }
}

/// Whether an offset field may begin at byte k of an instruction: as the displacement of an operand in memory, or as
/// an immediate that is added to a base.
pub fn takes_offset<M: Marks>(marks: &M, state: &State<Word, Flag>, k: u8, it: &Decoded) -> bool
    ensures { result ≡ takes_offset ops (M.mark marks.now) state.now k it.now }
{
    (is_at(it.disp, k) && has_address(marks, state, it, &memory_in(&it.instr.operation)))
        || (is_at(it.imm, k) && adds_to_base(marks, state, it, k))
}

/// Whether the addend is -`size`.
fn is_minus(addend: i64, size: u8) -> bool
    ensures { result ≡ is_minus addend size }
{
    addend < 0 && addend.unsigned_abs() == u64::from(size)
}

fn is_from_next(base: Base) -> bool
    ensures { result ≡ is_from_next base }
{
    match base {
        Base::NextInstruction => true,
        Base::Absolute | Base::Register(_) => false,
    }
}

/// Whether the operand is relative to the next instruction's address, and not to the thread pointer.
fn reads_next(operand: Option<Memory>) -> bool
    ensures { result ≡ reads_next operand }
{
    match operand {
        None => false,
        Some(memory) => is_from_next(memory.base) && !memory.from_thread_pointer,
    }
}

/// Whether an address field with this addend may begin at byte k of an instruction: as the displacement of an operand
/// that is read, if the addend leads from the field to the next instruction.
pub fn takes_address(addend: i64, k: u8, it: &Decoded) -> bool
    ensures { (mark : ℕ → Mark) (state : State Word Flag) → result ≡ takes_address ops mark state addend k it.now }
{
    is_at(it.disp, k)
        && reads_next(read_in(&it.instr.operation))
        && is_minus(addend, it.len.saturating_sub(k))
}
