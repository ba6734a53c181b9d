//! What the parts of an instruction's bytes mean together.

ghost use Rattle.std.specs.Prelude.{◌≡◌, ◌≤◌};
ghost use Rattle.amd64_subset.specs.Meaning.{width_of, from_end, is_immediate, numbered_operation, takes_immediate};
ghost use Rattle.amd64_subset.specs.Meaning.{into_operand, operation_of, alone_body, numbered_body, operand_body};

use crate::instr::{Instr, Operation, Target, Width};
use crate::numbers::Numbers;
use crate::operand::{Operand, Operands};
use crate::prefix::Prefixes;
use crate::row::{Action, Numbered};
use crate::selectors::Selectors;
use amd64_words::{Register, Size};

/// An instruction, and how far before its end each four-byte field begins.
#[derive(Clone, Copy)]
pub struct Body {
    pub instr: Instr,
    pub disp: Option<u8>,
    pub imm: Option<u8>,
}

/// The width that REX.W or its absence gives.
pub(crate) fn width(prefixes: Prefixes) -> Width
    ensures { result ≡ width_of prefixes }
{
    if prefixes.bits().wide {
        Width::Quad
    } else {
        Width::Long
    }
}

/// How far before the end a field of `size` begins that `behind` bytes follow; `None` unless it has four bytes.
fn from_end(size: Size, behind: u8) -> Option<u8>
    requires { behind ≤ 8 }
    ensures { result ≡ from_end size behind }
{
    match size {
        Size::Four => Some(behind + 4),
        _ => None,
    }
}

/// An instruction that is an opcode alone.
pub(crate) fn alone_body(operation: Operation) -> Body
    ensures { result ≡ alone_body operation }
{
    Body {
        instr: Instr {
            operation,
            displacement: 0,
            immediate: 0,
        },
        disp: None,
        imm: None,
    }
}

/// The number is an immediate, not a distance.
fn is_immediate(action: Numbered) -> bool
    ensures { result ≡ is_immediate action }
{
    matches!(action, Numbered::Move(_) | Numbered::Compute(_))
}

/// What each instruction does whose opcode is followed by a number alone, a line each.
#[rattlefmt::skip]
fn numbered_operation(action: Numbered, width: Width, number: u64) -> Operation
    ensures { result ≡ numbered_operation action width number }
{
    use Numbered::*;
    use Operands::Immediate;
    let rax = Immediate { to: Operand::Register(Register::Rax) };
    match action {
        Call => Operation::Call { target: Target::Relative(number) },                             // call
        Jump => Operation::Jump { target: Target::Relative(number) },                             // jmp
        JumpIf(condition) => Operation::JumpIf { condition, distance: number },                   // jcc
        Move(to) => Operation::Move { width, operands: Immediate { to: Operand::Register(to) } }, // mov $i, %r
        Compute(arithmetic) => Operation::Compute { arithmetic, width, operands: rax },           // add .. cmp $i, %rax
    }
}

/// An instruction whose opcode is followed by a number alone.
#[tactic(auto, unfolding(crate::specs::Meaning::numbered_body))]
pub(crate) fn numbered_body(action: Numbered, width: Width, size: Size, number: u64) -> Body
    ensures { result ≡ numbered_body action width size number }
{
    let operation = numbered_operation(action, width, number);
    if is_immediate(action) {
        Body {
            instr: Instr {
                operation,
                displacement: 0,
                immediate: number,
            },
            disp: None,
            imm: from_end(size, 0),
        }
    } else {
        alone_body(operation)
    }
}

/// The action has an immediate.
fn takes_immediate(action: Action) -> bool
    ensures { result ≡ takes_immediate action }
{
    matches!(action, Action::MoveImmediate | Action::ComputeImmediate(_))
}

/// The operation writes the operand, or compares it, with the register.
fn into_operand(operand: Operand, register: Register) -> Operands
    ensures { result ≡ into_operand operand register }
{
    match operand {
        Operand::Register(to) => Operands::IntoRegister {
            to,
            from: Operand::Register(register),
        },
        Operand::InMemory(to) => Operands::IntoMemory { to, from: register },
    }
}

/// What each action does, a line each. As in the manual's tables, `r` is the register in ModRM's reg
/// field, `rm` the operand, and `m` that operand where it lies in memory.
#[rattlefmt::skip]
#[tactic(auto, unfolding(crate::specs::Meaning::operation_of))]
fn operation(action: Action, prefixes: Prefixes, selectors: Selectors, count: u8) -> Operation
    ensures { result ≡ operation_of action prefixes selectors count }
{
    use Action::*;
    let width = width(prefixes);
    let r = selectors.register(prefixes);
    let rm = selectors.operand(prefixes);
    let m = selectors.memory(prefixes);
    let stored = into_operand(rm, r);
    let loaded = Operands::IntoRegister { to: r, from: rm };
    let number = Operands::Immediate { to: rm };
    match action {
        StoreByte => Operation::StoreByte { to: m, from: r },                                       // mov %r8, m
        Store => Operation::Move { width, operands: stored },                                       // mov %r, rm
        Load => Operation::Move { width, operands: loaded },                                        // mov rm, %r
        MoveImmediate => Operation::Move { width, operands: number },                               // mov $i, rm
        ExtendByte => Operation::ExtendByte { width, to: r, from: rm },                             // movzx rm, %r
        ExtendLong => Operation::ExtendLong { to: r, from: rm },                                    // movslq rm, %r
        LoadAddress => Operation::LoadAddress { width, to: r, from: m },                            // lea m, %r
        ComputeInto(arithmetic) => Operation::Compute { arithmetic, width, operands: stored },      // add .. cmp %r, rm
        ComputeFrom(arithmetic) => Operation::Compute { arithmetic, width, operands: loaded },      // add .. cmp rm, %r
        ComputeImmediate(arithmetic) => Operation::Compute { arithmetic, width, operands: number }, // add .. cmp $i, rm
        TestWith => Operation::Test { width, left: rm, right: r },                                  // test %r, rm
        MultiplyBy => Operation::Multiply { width, to: r, from: rm },                               // imul rm, %r
        ShiftBy(shift) => Operation::Shift { shift, width, to: rm, count },                         // shl .. sar $i, rm
        ShiftOnce(shift) => Operation::Shift { shift, width, to: rm, count: 1 },                    // shl .. sar rm
        CallTarget => Operation::Call { target: Target::Indirect(rm) },                             // call *rm
        JumpTarget => Operation::Jump { target: Target::Indirect(rm) },                             // jmp *rm
        Padding => Operation::Nop { operand: Some(rm) },                                            // nop rm
    }
}

/// An instruction with a ModRM byte, a displacement of one size and an immediate of another.
#[tactic(auto, unfolding(crate::specs::Meaning::operand_body))]
pub(crate) fn operand_body(
    action: Action,
    prefixes: Prefixes,
    selectors: Selectors,
    size: Size,
    numbers: Numbers,
) -> Body
    ensures { result ≡ operand_body action prefixes selectors size numbers }
{
    let count = (numbers.immediate % 256) as u8;
    let instr = Instr {
        operation: operation(action, prefixes, selectors, count),
        displacement: numbers.displacement,
        immediate: if takes_immediate(action) {
            numbers.immediate
        } else {
            0
        },
    };
    Body {
        instr,
        disp: from_end(selectors.displacement_size(), size.count()),
        imm: if takes_immediate(action) {
            from_end(size, 0)
        } else {
            None
        },
    }
}
