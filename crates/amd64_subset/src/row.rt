//! The opcode map: what follows each opcode, and what the instruction does.

ghost use Rattle.std.specs.Prelude.{◌≡◌};
ghost use Rattle.amd64_subset.specs.Row.{condition_of, row_of, fixed_row_of, escaped_row_of, arithmetic_of, shift_of};
ghost use Rattle.amd64_subset.specs.Row.{group_action, action_of, accesses, pads, takes};

use crate::instr::{Arithmetic, Condition, Operation, Shift};
use crate::prefix::{Prefixes, Rex};
use Action::*;
use Arithmetic::*;
use amd64_words::{Register, Size};

/// What follows an opcode, and what the instruction does.
#[derive(Clone, Copy)]
pub enum Row {
    /// Nothing follows.
    Alone(Operation),
    /// nop in one byte: it may have 66 and 2e, and no REX.
    Nop,
    /// endbr64: it may have no prefix.
    EndBranch,
    /// A distance or an immediate.
    Number(Numbered, Size),
    /// /r: a ModRM byte that names a register in its reg field.
    Register(Action),
    /// /n: a ModRM byte whose reg field extends the opcode, then an immediate.
    Group(Group, Size),
}

/// What an instruction does whose opcode is followed by a number alone.
#[derive(Clone, Copy)]
pub enum Numbered {
    /// The number is a distance.
    Call,
    Jump,
    JumpIf(Condition),
    /// The number is an immediate.
    Move(Register),
    Compute(Arithmetic),
}

/// The opcodes that ModRM's reg field completes.
#[derive(Clone, Copy)]
pub enum Group {
    Move,
    Arithmetic,
    Shift,
    ShiftOnce,
    Target,
    Nop,
}

/// What an instruction with a ModRM byte does. `Into` writes the operand, `From` the register.
#[derive(Clone, Copy)]
pub enum Action {
    StoreByte,
    Store,
    Load,
    MoveImmediate,
    ExtendByte,
    ExtendLong,
    LoadAddress,
    ComputeInto(Arithmetic),
    ComputeFrom(Arithmetic),
    ComputeImmediate(Arithmetic),
    TestWith,
    MultiplyBy,
    ShiftBy(Shift),
    ShiftOnce(Shift),
    CallTarget,
    JumpTarget,
    Padding,
}

/// The condition with this number, from 0 to 15. The subset leaves out the two parity conditions.
#[tactic(auto, unfolding(crate::specs::Row::condition_of))]
fn condition_at(number: u8) -> Option<Condition>
    ensures { result ≡ condition_of number }
{
    match number {
        0 => Some(Condition::Overflow),
        1 => Some(Condition::NotOverflow),
        2 => Some(Condition::Below),
        3 => Some(Condition::NotBelow),
        4 => Some(Condition::Equal),
        5 => Some(Condition::NotEqual),
        6 => Some(Condition::BelowOrEqual),
        7 => Some(Condition::Above),
        8 => Some(Condition::Sign),
        9 => Some(Condition::NotSign),
        12 => Some(Condition::Less),
        13 => Some(Condition::NotLess),
        14 => Some(Condition::LessOrEqual),
        15 => Some(Condition::Greater),
        _ => None,
    }
}

/// The one-byte opcodes. Those with a register or a condition in their low bits come first.
#[tactic(auto, unfolding(crate::specs::Row::row_of))]
pub(crate) fn opcode_row(rex: Rex, opcode: u8) -> Option<Row>
    ensures { result ≡ row_of rex opcode }
{
    let register = Register::extended(opcode % 8, rex.base);
    if opcode / 16 == 0x4 {
        None // REX
    } else if opcode / 8 == 0xa {
        Some(Row::Alone(Operation::Push { from: register })) // 50+r  push %r
    } else if opcode / 8 == 0xb {
        Some(Row::Alone(Operation::Pop { to: register })) // 58+r  pop %r
    } else if opcode / 8 == 0x17 {
        let size = if rex.wide { Size::Eight } else { Size::Four };
        Some(Row::Number(Numbered::Move(register), size)) // b8+r  mov $i, %r
    } else if opcode / 16 == 0x7 {
        let condition = condition_at(opcode % 16)?;
        Some(Row::Number(Numbered::JumpIf(condition), Size::One)) // 70+c  jcc
    } else {
        fixed_row(rex.wide, opcode)
    }
}

/// The one-byte opcodes with no register or condition in their low bits.
#[tactic(auto, unfolding(crate::specs::Row::fixed_row_of))]
fn fixed_row(wide: bool, opcode: u8) -> Option<Row>
    ensures { result ≡ fixed_row_of wide opcode }
{
    let row = match opcode {
        0x88 => Row::Register(StoreByte), // mov %r8, m
        0x89 => Row::Register(Store), // mov %r, rm
        0x8b => Row::Register(Load), // mov rm, %r
        0xc7 => Row::Group(Group::Move, Size::Four), // mov $i, rm
        0x63 if wide => Row::Register(ExtendLong), // movslq rm, %r
        0x8d => Row::Register(LoadAddress), // lea m, %r
        0x01 => Row::Register(ComputeInto(Add)), // add %r, rm
        0x03 => Row::Register(ComputeFrom(Add)), // add rm, %r
        0x09 => Row::Register(ComputeInto(Or)), // or %r, rm
        0x0b => Row::Register(ComputeFrom(Or)), // or rm, %r
        0x21 => Row::Register(ComputeInto(And)), // and %r, rm
        0x23 => Row::Register(ComputeFrom(And)), // and rm, %r
        0x29 => Row::Register(ComputeInto(Sub)), // sub %r, rm
        0x2b => Row::Register(ComputeFrom(Sub)), // sub rm, %r
        0x31 => Row::Register(ComputeInto(Xor)), // xor %r, rm
        0x33 => Row::Register(ComputeFrom(Xor)), // xor rm, %r
        0x39 => Row::Register(ComputeInto(Compare)), // cmp %r, rm
        0x3b => Row::Register(ComputeFrom(Compare)), // cmp rm, %r
        0x81 => Row::Group(Group::Arithmetic, Size::Four), // add .. cmp $i, rm
        0x83 => Row::Group(Group::Arithmetic, Size::One), // add .. cmp $i, rm
        0x05 => Row::Number(Numbered::Compute(Add), Size::Four), // add $i, %rax
        0x0d => Row::Number(Numbered::Compute(Or), Size::Four), // or $i, %rax
        0x25 => Row::Number(Numbered::Compute(And), Size::Four), // and $i, %rax
        0x2d => Row::Number(Numbered::Compute(Sub), Size::Four), // sub $i, %rax
        0x35 => Row::Number(Numbered::Compute(Xor), Size::Four), // xor $i, %rax
        0x3d => Row::Number(Numbered::Compute(Compare), Size::Four), // cmp $i, %rax
        0x85 => Row::Register(TestWith), // test %r, rm
        0xc1 => Row::Group(Group::Shift, Size::One), // shl, shr, sar $i, rm
        0xd1 => Row::Group(Group::ShiftOnce, Size::Zero), // shl, shr, sar rm
        0xc9 => Row::Alone(Operation::Leave), // leave
        0xe8 => Row::Number(Numbered::Call, Size::Four), // call
        0xff => Row::Group(Group::Target, Size::Zero), // call, jmp *rm
        0xe9 => Row::Number(Numbered::Jump, Size::Four), // jmp
        0xeb => Row::Number(Numbered::Jump, Size::One), // jmp
        0xc3 => Row::Alone(Operation::Return), // ret
        0x90 => Row::Nop, // nop
        _ => return None,
    };
    Some(row)
}

/// The second bytes of the opcodes that begin with 0f.
#[tactic(auto, unfolding(crate::specs::Row::escaped_row_of))]
pub(crate) fn escaped_row(opcode: u8) -> Option<Row>
    ensures { result ≡ escaped_row_of opcode }
{
    if opcode / 16 == 0x8 {
        let condition = condition_at(opcode % 16)?;
        return Some(Row::Number(Numbered::JumpIf(condition), Size::Four)); // 0f 80+c  jcc
    }
    let row = match opcode {
        0xb6 => Row::Register(ExtendByte), // movzbl rm, %r
        0xaf => Row::Register(MultiplyBy), // imul rm, %r
        0x1f => Row::Group(Group::Nop, Size::Zero), // nop rm
        0x0b => Row::Alone(Operation::Undefined), // ud2
        _ => return None,
    };
    Some(row)
}

#[tactic(auto, unfolding(crate::specs::Row::arithmetic_of))]
fn arithmetic_at(digit: u8) -> Option<Arithmetic>
    ensures { result ≡ arithmetic_of digit }
{
    match digit {
        0 => Some(Add),
        1 => Some(Or),
        4 => Some(And),
        5 => Some(Sub),
        6 => Some(Xor),
        7 => Some(Compare),
        _ => None,
    }
}

#[tactic(auto, unfolding(crate::specs::Row::shift_of))]
fn shift_at(digit: u8) -> Option<Shift>
    ensures { result ≡ shift_of digit }
{
    match digit {
        4 => Some(Shift::Left),
        5 => Some(Shift::Right),
        7 => Some(Shift::RightSigned),
        _ => None,
    }
}

impl Group {
    /// What the opcode does with this digit in ModRM's reg field.
    #[tactic(auto, unfolding(crate::specs::Row::group_action))]
    fn action(self, digit: u8) -> Option<Action>
        ensures { result ≡ group_action self digit }
    {
        match self {
            Group::Arithmetic => Some(ComputeImmediate(arithmetic_at(digit)?)),
            Group::Shift => Some(ShiftBy(shift_at(digit)?)),
            Group::ShiftOnce => Some(ShiftOnce(shift_at(digit)?)),
            Group::Move if digit == 0 => Some(MoveImmediate),
            Group::Target if digit == 2 => Some(CallTarget),
            Group::Target if digit == 4 => Some(JumpTarget),
            Group::Nop if digit == 0 => Some(Padding),
            _ => None,
        }
    }
}

impl Row {
    /// What the instruction does with this digit in ModRM's reg field, if it has a ModRM byte.
    pub(crate) fn action(self, digit: u8) -> Option<Action>
        ensures { result ≡ action_of self digit }
    {
        match self {
            Row::Register(action) => Some(action),
            Row::Group(group, _) => group.action(digit),
            _ => None,
        }
    }

    /// The instruction accesses its memory operand, and does not only name it.
    fn accesses(self) -> bool
        ensures { result ≡ accesses self }
    {
        match self {
            Row::Register(LoadAddress) | Row::Group(Group::Nop, _) => false,
            Row::Register(_) | Row::Group(_, _) => true,
            _ => false,
        }
    }

    /// A nop that prefixes may pad.
    fn pads(self) -> bool
        ensures { result ≡ pads self }
    {
        matches!(self, Row::Nop | Row::Group(Group::Nop, _))
    }

    /// The opcode may follow these prefixes.
    #[tactic(auto, unfolding(crate::specs::Row::takes))]
    pub(crate) fn takes(self, prefixes: Prefixes) -> bool
        ensures { result ≡ takes self prefixes }
    {
        match self {
            Row::EndBranch => prefixes.has_none(),
            Row::Nop => !prefixes.thread_pointer && prefixes.rex.is_none(),
            _ => {
                (!prefixes.thread_pointer || self.accesses())
                    && (!prefixes.takes_only_nops() || self.pads())
            }
        }
    }
}
