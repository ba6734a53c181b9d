//! The form in which an instruction is written: which row of the opcode map, and what stands in that row's fields.

ghost use Rattle.std.specs.Prelude.{◌≡◌, ◌<◌, true};
ghost use Rattle.amd64_encoder.specs.Form.{fits_byte, fits_long, is_quad, arithmetic_number, shift_number};
ghost use Rattle.amd64_encoder.specs.Form.{condition_number, with_number, with_low, with_operand, two_operands};
ghost use Rattle.amd64_encoder.specs.Form.{move_number, compute_number, shifted, needs_rex, jump, jump_if};
ghost use Rattle.amd64_encoder.specs.Form.{other_form_of, form_of};

use amd64_subset::encoding::Size;
use amd64_subset::{
    Arithmetic, Condition, Operand, Operands, Operation, Register, Shift, Target, Width,
};

/// Where a form names its operands.
#[derive(Clone, Copy)]
pub(crate) enum Fields {
    /// Nowhere.
    Bare,
    /// A register in the opcode's low bits.
    Low(Register),
    /// ModRM: a register's number, or more of the opcode, in the reg field, and an operand.
    Selected { field: u8, operand: Operand },
}

/// What is written of an instruction, except its displacement.
#[derive(Clone, Copy)]
pub(crate) struct Form {
    /// 0f stands before the opcode.
    pub escaped: bool,
    pub opcode: u8,
    /// The width is 64 bits, by REX.W.
    pub wide: bool,
    /// REX is written even if none of its bits is set, because the operand is a register's low byte.
    pub low_byte: bool,
    pub fields: Fields,
    /// The size of the immediate or the distance. The number itself is `number`.
    pub size: Size,
    pub number: u64,
}

/// The number is a sign-extended number of 8 bits.
pub(crate) fn fits_byte(number: u64) -> bool
    ensures { result ≡ fits_byte number }
{
    number < 0x80 || number >= 0xffff_ffff_ffff_ff80
}

/// The number is a sign-extended number of 32 bits.
fn fits_long(number: u64) -> bool
    ensures { result ≡ fits_long number }
{
    number < 0x8000_0000 || number >= 0xffff_ffff_8000_0000
}

fn is_quad(width: Width) -> bool
    ensures { result ≡ is_quad width }
{
    match width {
        Width::Long => false,
        Width::Quad => true,
    }
}

/// The operation's number, in ModRM's reg field or times 8 in the opcode.
fn arithmetic_number(arithmetic: Arithmetic) -> u8
    ensures { result ≡ arithmetic_number arithmetic }
{
    match arithmetic {
        Arithmetic::Add => 0,
        Arithmetic::Or => 1,
        Arithmetic::And => 4,
        Arithmetic::Sub => 5,
        Arithmetic::Xor => 6,
        Arithmetic::Compare => 7,
    }
}

fn shift_number(shift: Shift) -> u8
    ensures { result ≡ shift_number shift }
{
    match shift {
        Shift::Left => 4,
        Shift::Right => 5,
        Shift::RightSigned => 7,
    }
}

fn condition_number(condition: Condition) -> u8
    ensures { result ≡ condition_number condition }
{
    match condition {
        Condition::Overflow => 0,
        Condition::NotOverflow => 1,
        Condition::Below => 2,
        Condition::NotBelow => 3,
        Condition::Equal => 4,
        Condition::NotEqual => 5,
        Condition::BelowOrEqual => 6,
        Condition::Above => 7,
        Condition::Sign => 8,
        Condition::NotSign => 9,
        Condition::Less => 12,
        Condition::NotLess => 13,
        Condition::LessOrEqual => 14,
        Condition::Greater => 15,
    }
}

/// An opcode followed by a number alone.
fn with_number(opcode: u8, size: Size, number: u64) -> Form
    ensures { result ≡ with_number opcode size number }
{
    Form {
        escaped: false,
        opcode,
        wide: false,
        low_byte: false,
        fields: Fields::Bare,
        size,
        number,
    }
}

/// An opcode with a register in its low bits.
fn with_low(opcode: u8, register: Register) -> Form
    requires { opcode < 249 }
    ensures { result ≡ with_low opcode register }
{
    Form {
        fields: Fields::Low(register),
        ..with_number(opcode + register.number() % 8, Size::Zero, 0)
    }
}

/// An opcode with ModRM.
fn with_operand(opcode: u8, wide: bool, field: u8, operand: Operand) -> Form
    ensures { result ≡ with_operand opcode wide field operand }
{
    Form {
        wide,
        fields: Fields::Selected { field, operand },
        ..with_number(opcode, Size::Zero, 0)
    }
}

/// Two operands, of which one at least is a register. `opcode` is the first of a group of eight. Two registers take
/// the first row, which writes rm.
fn two_operands(opcode: u8, width: Width, operands: Operands) -> Form
    requires { opcode < 253 }
    ensures { result ≡ two_operands opcode width operands }
{
    let wide = is_quad(width);
    match operands {
        Operands::IntoRegister { to, from } => match from {
            Operand::Register(from) => {
                with_operand(opcode + 1, wide, from.number(), Operand::Register(to)) // %r, %r
            }
            Operand::InMemory(_) => with_operand(opcode + 3, wide, to.number(), from), // m, %r
        },
        Operands::IntoMemory { to, from } => {
            with_operand(opcode + 1, wide, from.number(), Operand::InMemory(to)) // %r, m
        }
        Operands::Immediate { to } => with_operand(opcode + 1, wide, 0, to),
    }
}

fn move_number(width: Width, to: Operand, number: u64) -> Form
    ensures { result ≡ move_number width to number }
{
    let wide = is_quad(width);
    match to {
        Operand::Register(register) if !wide || !fits_long(number) => Form {
            wide,
            size: if wide { Size::Eight } else { Size::Four },
            number,
            ..with_low(0xb8, register) // mov $i, %r
        },
        _ => Form {
            size: Size::Four,
            number,
            ..with_operand(0xc7, wide, 0, to) // mov $i, rm
        },
    }
}

fn compute_number(arithmetic: Arithmetic, width: Width, to: Operand, number: u64) -> Form
    ensures { result ≡ compute_number arithmetic width to number }
{
    let digit = arithmetic_number(arithmetic);
    let wide = is_quad(width);
    if fits_byte(number) {
        return Form {
            size: Size::One,
            number,
            ..with_operand(0x83, wide, digit, to) // add .. cmp $i, rm
        };
    }
    match to {
        Operand::Register(Register::Rax) => Form {
            wide,
            ..with_number(8 * digit + 5, Size::Four, number) // add .. cmp $i, %rax
        },
        _ => Form {
            size: Size::Four,
            number,
            ..with_operand(0x81, wide, digit, to) // add .. cmp $i, rm
        },
    }
}

fn shifted(shift: Shift, width: Width, to: Operand, count: u8) -> Form
    ensures { result ≡ shifted shift width to count }
{
    let digit = shift_number(shift);
    let wide = is_quad(width);
    if count == 1 {
        with_operand(0xd1, wide, digit, to) // shl, shr, sar rm
    } else {
        Form {
            size: Size::One,
            number: count as u64,
            ..with_operand(0xc1, wide, digit, to) // shl, shr, sar $i, rm
        }
    }
}

/// The operand is a register whose low byte needs REX: without it, numbers 4 to 7 would name %ah to %bh.
fn needs_rex(operand: Operand) -> bool
    ensures { result ≡ needs_rex operand }
{
    match operand {
        Operand::Register(register) => register.number() >= 4,
        Operand::InMemory(_) => false,
    }
}

fn jump(distance: u64) -> Form
    ensures { result ≡ jump distance }
{
    if fits_byte(distance) {
        with_number(0xeb, Size::One, distance) // jmp
    } else {
        with_number(0xe9, Size::Four, distance) // jmp
    }
}

fn jump_if(condition: Condition, distance: u64) -> Form
    ensures { result ≡ jump_if condition distance }
{
    let condition = condition_number(condition);
    if fits_byte(distance) {
        with_number(0x70 + condition, Size::One, distance) // jcc
    } else {
        escaped(with_number(0x80 + condition, Size::Four, distance)) // jcc
    }
}

/// The form with 0f before its opcode.
fn escaped(form: Form) -> Form
    ensures { result ≡ record form { escaped = true } }
{
    Form {
        escaped: true,
        ..form
    }
}

/// The form of each instruction, a line each.
#[tactic(auto, unfolding(crate::specs::Form::form_of))]
pub(crate) fn choose(operation: Operation, number: u64) -> Form
    ensures { result ≡ form_of operation number }
{
    use Operand::InMemory;
    match operation {
        Operation::Move { width, operands } => match operands {
            Operands::Immediate { to } => move_number(width, to, number), // mov $i, rm
            _ => two_operands(0x88, width, operands), // mov
        },
        Operation::StoreByte { to, from } => Form {
            low_byte: from.number() >= 4,
            ..with_operand(0x88, false, from.number(), InMemory(to)) // mov %r8, m
        },
        Operation::ExtendByte { width, to, from } => Form {
            low_byte: needs_rex(from),
            ..escaped(with_operand(0xb6, is_quad(width), to.number(), from)) // movzx rm, %r
        },
        Operation::ExtendLong { to, from } => with_operand(0x63, true, to.number(), from), // movslq rm, %r
        Operation::LoadAddress { width, to, from } => {
            with_operand(0x8d, is_quad(width), to.number(), InMemory(from)) // lea m, %r
        }
        Operation::Compute {
            arithmetic,
            width,
            operands,
        } => match operands {
            Operands::Immediate { to } => compute_number(arithmetic, width, to, number),
            _ => two_operands(8 * arithmetic_number(arithmetic), width, operands),
        },
        other => other_form(other),
    }
}

/// The form of each instruction that `choose` does not name, ud2 last.
fn other_form(operation: Operation) -> Form
    ensures { result ≡ other_form_of operation }
{
    match operation {
        Operation::Test { width, left, right } => {
            with_operand(0x85, is_quad(width), right.number(), left) // test %r, rm
        }
        Operation::Multiply { width, to, from } => {
            escaped(with_operand(0xaf, is_quad(width), to.number(), from)) // imul rm, %r
        }
        Operation::Shift {
            shift,
            width,
            to,
            count,
        } => shifted(shift, width, to, count), // shl, shr, sar
        Operation::Push { from } => with_low(0x50, from), // push %r
        Operation::Pop { to } => with_low(0x58, to), // pop %r
        Operation::Leave => with_number(0xc9, Size::Zero, 0), // leave
        Operation::Call { target } => match target {
            Target::Relative(distance) => with_number(0xe8, Size::Four, distance), // call
            Target::Indirect(to) => with_operand(0xff, false, 2, to), // call *rm
        },
        Operation::Jump { target } => match target {
            Target::Relative(distance) => jump(distance), // jmp
            Target::Indirect(to) => with_operand(0xff, false, 4, to), // jmp *rm
        },
        Operation::JumpIf {
            condition,
            distance,
        } => jump_if(condition, distance), // jcc
        Operation::Return => with_number(0xc3, Size::Zero, 0), // ret
        Operation::Nop { operand } => match operand {
            None => with_number(0x90, Size::Zero, 0), // nop
            Some(operand) => escaped(with_operand(0x1f, false, 0, operand)), // nop rm
        },
        _ => escaped(with_number(0x0b, Size::Zero, 0)), // ud2
    }
}
