//! An instruction as `objdump` prints it.

use amd64_subset::{
    Arithmetic, Base, Condition, Instr, Memory, Operand, Operands, Operation, Register, Scale,
    Shift, Target, Width,
};
use std::fmt;

fn name(register: Register, width: Width) -> &'static str {
    match width {
        Width::Quad => match register {
            Register::Rax => "%rax",
            Register::Rcx => "%rcx",
            Register::Rdx => "%rdx",
            Register::Rbx => "%rbx",
            Register::Rsp => "%rsp",
            Register::Rbp => "%rbp",
            Register::Rsi => "%rsi",
            Register::Rdi => "%rdi",
            Register::R8 => "%r8",
            Register::R9 => "%r9",
            Register::R10 => "%r10",
            Register::R11 => "%r11",
            Register::R12 => "%r12",
            Register::R13 => "%r13",
            Register::R14 => "%r14",
            Register::R15 => "%r15",
        },
        Width::Long => match register {
            Register::Rax => "%eax",
            Register::Rcx => "%ecx",
            Register::Rdx => "%edx",
            Register::Rbx => "%ebx",
            Register::Rsp => "%esp",
            Register::Rbp => "%ebp",
            Register::Rsi => "%esi",
            Register::Rdi => "%edi",
            Register::R8 => "%r8d",
            Register::R9 => "%r9d",
            Register::R10 => "%r10d",
            Register::R11 => "%r11d",
            Register::R12 => "%r12d",
            Register::R13 => "%r13d",
            Register::R14 => "%r14d",
            Register::R15 => "%r15d",
        },
    }
}

fn byte_name(register: Register) -> &'static str {
    match register {
        Register::Rax => "%al",
        Register::Rcx => "%cl",
        Register::Rdx => "%dl",
        Register::Rbx => "%bl",
        Register::Rsp => "%spl",
        Register::Rbp => "%bpl",
        Register::Rsi => "%sil",
        Register::Rdi => "%dil",
        Register::R8 => "%r8b",
        Register::R9 => "%r9b",
        Register::R10 => "%r10b",
        Register::R11 => "%r11b",
        Register::R12 => "%r12b",
        Register::R13 => "%r13b",
        Register::R14 => "%r14b",
        Register::R15 => "%r15b",
    }
}

fn base_name(base: Base) -> &'static str {
    match base {
        Base::Register(register) => name(register, Width::Quad),
        Base::NextInstruction => "%rip",
        Base::Absolute => "",
    }
}

fn factor(scale: Scale) -> u8 {
    match scale {
        Scale::One => 1,
        Scale::Two => 2,
        Scale::Four => 4,
        Scale::Eight => 8,
    }
}

fn suffix(width: Width) -> &'static str {
    match width {
        Width::Long => "l",
        Width::Quad => "q",
    }
}

fn condition_name(condition: Condition) -> &'static str {
    match condition {
        Condition::Overflow => "jo",
        Condition::NotOverflow => "jno",
        Condition::Below => "jb",
        Condition::NotBelow => "jae",
        Condition::Equal => "je",
        Condition::NotEqual => "jne",
        Condition::BelowOrEqual => "jbe",
        Condition::Above => "ja",
        Condition::Sign => "js",
        Condition::NotSign => "jns",
        Condition::Less => "jl",
        Condition::NotLess => "jge",
        Condition::LessOrEqual => "jle",
        Condition::Greater => "jg",
    }
}

fn arithmetic_name(arithmetic: Arithmetic) -> &'static str {
    match arithmetic {
        Arithmetic::Add => "add",
        Arithmetic::Or => "or",
        Arithmetic::And => "and",
        Arithmetic::Sub => "sub",
        Arithmetic::Xor => "xor",
        Arithmetic::Compare => "cmp",
    }
}

fn shift_name(shift: Shift) -> &'static str {
    match shift {
        Shift::Left => "shl",
        Shift::Right => "shr",
        Shift::RightSigned => "sar",
    }
}

/// A displacement before a base: signed, and nothing where it is 0.
#[derive(Clone, Copy)]
struct Signed(u64);

impl fmt::Display for Signed {
    fn fmt<W: fmt::Write>(&self, f: &mut fmt::Formatter<W>) -> fmt::Result {
        let number = self.0;
        if number == 0 {
            return Ok(());
        }
        if number < 0x8000_0000_0000_0000 {
            return write!(f, "{number:#x}");
        }
        let below = (u64::MAX - number).wrapping_add(1);
        write!(f, "-{below:#x}")
    }
}

/// A memory operand with its displacement.
#[derive(Clone, Copy)]
struct Place(Memory, u64);

impl fmt::Display for Place {
    fn fmt<W: fmt::Write>(&self, f: &mut fmt::Formatter<W>) -> fmt::Result {
        let Place(memory, displacement) = *self;
        let segment = if memory.from_thread_pointer {
            "%fs:"
        } else {
            ""
        };
        let number = Signed(displacement);
        let base = base_name(memory.base);
        match memory.index {
            None if memory.base == Base::Absolute => write!(f, "{segment}{displacement:#x}"),
            None => write!(f, "{segment}{number}({base})"),
            Some(index) => {
                let scale = factor(index.scale);
                let index = name(index.register, Width::Quad);
                write!(f, "{segment}{number}({base},{index},{scale})")
            }
        }
    }
}

/// What stands behind a mnemonic.
#[derive(Clone, Copy)]
enum Part {
    Nothing,
    Name(&'static str),
    Memory(Place),
    Number(u64),
    Address(u64),
}

impl fmt::Display for Part {
    fn fmt<W: fmt::Write>(&self, f: &mut fmt::Formatter<W>) -> fmt::Result {
        match *self {
            Part::Nothing => Ok(()),
            Part::Name(name) => write!(f, "{name}"),
            Part::Memory(place) => write!(f, "{place}"),
            Part::Number(number) => write!(f, "${number:#x}"),
            Part::Address(address) => write!(f, "{address:#x}"),
        }
    }
}

/// An instruction's text: a mnemonic, its suffix, and up to two parts.
#[derive(Clone, Copy)]
pub(super) struct Text {
    mnemonic: &'static str,
    suffix: &'static str,
    /// Stands before the first part.
    mark: &'static str,
    first: Part,
    second: Part,
}

impl fmt::Display for Text {
    fn fmt<W: fmt::Write>(&self, f: &mut fmt::Formatter<W>) -> fmt::Result {
        let Text {
            mnemonic,
            suffix,
            mark,
            first,
            second,
        } = *self;
        match (first, second) {
            (Part::Nothing, _) => write!(f, "{mnemonic}{suffix}"),
            (_, Part::Nothing) => write!(f, "{mnemonic}{suffix} {mark}{first}"),
            _ => write!(f, "{mnemonic}{suffix} {first},{second}"),
        }
    }
}

fn line(mnemonic: &'static str, suffix: &'static str, first: Part, second: Part) -> Text {
    Text {
        mnemonic,
        suffix,
        mark: "",
        first,
        second,
    }
}

fn named(register: Register, width: Width) -> Part {
    Part::Name(name(register, width))
}

fn memory(memory: Memory, displacement: u64) -> Part {
    Part::Memory(Place(memory, displacement))
}

fn operand(operand: Operand, width: Width, displacement: u64) -> Part {
    match operand {
        Operand::Register(register) => named(register, width),
        Operand::InMemory(of) => memory(of, displacement),
    }
}

fn byte_operand(operand: Operand, displacement: u64) -> Part {
    match operand {
        Operand::Register(register) => Part::Name(byte_name(register)),
        Operand::InMemory(of) => memory(of, displacement),
    }
}

fn two(mnemonic: &'static str, width: Width, operands: Operands, instr: Instr) -> Text {
    let displacement = instr.displacement;
    let (first, second) = match operands {
        Operands::IntoRegister { to, from } => {
            (operand(from, width, displacement), named(to, width))
        }
        Operands::IntoMemory { to, from } => (named(from, width), memory(to, displacement)),
        Operands::Immediate { to } => {
            let number = match width {
                Width::Long => instr.immediate % 0x1_0000_0000,
                Width::Quad => instr.immediate,
            };
            (Part::Number(number), operand(to, width, displacement))
        }
    };
    line(mnemonic, suffix(width), first, second)
}

/// A jump or a call, from where the next instruction has this address.
fn jump(mnemonic: &'static str, target: Target, displacement: u64, next: u64) -> Text {
    match target {
        Target::Relative(distance) => {
            let address = Part::Address(next.wrapping_add(distance));
            line(mnemonic, "", address, Part::Nothing)
        }
        Target::Indirect(from) => {
            let from = operand(from, Width::Quad, displacement);
            Text {
                mark: "*",
                ..line(mnemonic, "", from, Part::Nothing)
            }
        }
    }
}

/// The text of an instruction whose successor has this address.
#[rattlefmt::skip]
pub(super) fn text_of(instr: Instr, next: u64) -> Text {
    use Width::{Long, Quad};
    let d = instr.displacement;
    match instr.operation {
        Operation::Move { width, operands } => two("mov", width, operands, instr),
        Operation::StoreByte { to, from } => line("movb", "", Part::Name(byte_name(from)), memory(to, d)),
        Operation::ExtendByte { width, to, from } => {
            line("movzb", suffix(width), byte_operand(from, d), named(to, width))
        }
        Operation::ExtendLong { to, from } => line("movslq", "", operand(from, Long, d), named(to, Quad)),
        Operation::LoadAddress { width, to, from } => line("lea", suffix(width), memory(from, d), named(to, width)),
        Operation::Compute { arithmetic, width, operands } => two(arithmetic_name(arithmetic), width, operands, instr),
        Operation::Test { width, left, right } => {
            line("test", suffix(width), named(right, width), operand(left, width, d))
        }
        Operation::Multiply { width, to, from } => {
            line("imul", suffix(width), operand(from, width, d), named(to, width))
        }
        Operation::Shift { shift, width, to, count } => {
            line(shift_name(shift), suffix(width), Part::Number(count as u64), operand(to, width, d))
        }
        Operation::Push { from } => line("pushq", "", named(from, Quad), Part::Nothing),
        Operation::Pop { to } => line("popq", "", named(to, Quad), Part::Nothing),
        Operation::Leave => line("leaveq", "", Part::Nothing, Part::Nothing),
        Operation::Call { target } => jump("callq", target, d, next),
        Operation::Jump { target } => jump("jmpq", target, d, next),
        Operation::JumpIf { condition, distance } => {
            jump(condition_name(condition), Target::Relative(distance), d, next)
        }
        Operation::Return => line("retq", "", Part::Nothing, Part::Nothing),
        Operation::Nop { operand: None } => line("nop", "", Part::Nothing, Part::Nothing),
        Operation::Nop { operand: Some(of) } => line("nop", "", operand(of, Long, d), Part::Nothing),
        Operation::Undefined => line("ud2", "", Part::Nothing, Part::Nothing),
    }
}
