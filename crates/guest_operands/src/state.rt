//! What a machine holds besides its memory.

ghost use Rattle.std.specs.Prelude.{◌≡◌};
ghost use Rattle.guest_operands.specs.State.{register_of, with_register, start_of};

use amd64_subset::Register;
use guest_arithmetic::{Flags, Values};

/// The sixteen general registers.
#[derive(Clone, Copy, Debug)]
pub struct Registers<W> {
    pub rax: W,
    pub rcx: W,
    pub rdx: W,
    pub rbx: W,
    pub rsp: W,
    pub rbp: W,
    pub rsi: W,
    pub rdi: W,
    pub r8: W,
    pub r9: W,
    pub r10: W,
    pub r11: W,
    pub r12: W,
    pub r13: W,
    pub r14: W,
    pub r15: W,
}

/// All that a machine holds besides its memory.
#[derive(Clone, Copy, Debug)]
pub struct State<W, F> {
    pub registers: Registers<W>,
    pub flags: Flags<F>,
    /// The address of the next instruction.
    pub place: u64,
    /// The thread pointer, which the FS prefix adds to an address.
    pub thread_pointer: u64,
}

#[tactic(auto, unfolding(crate::specs::State::register_of))]
pub fn register<W: Copy>(registers: &Registers<W>, register: Register) -> W
    ensures { result ≡ register_of registers.now register }
{
    match register {
        Register::Rax => registers.rax,
        Register::Rcx => registers.rcx,
        Register::Rdx => registers.rdx,
        Register::Rbx => registers.rbx,
        Register::Rsp => registers.rsp,
        Register::Rbp => registers.rbp,
        Register::Rsi => registers.rsi,
        Register::Rdi => registers.rdi,
        Register::R8 => registers.r8,
        Register::R9 => registers.r9,
        Register::R10 => registers.r10,
        Register::R11 => registers.r11,
        Register::R12 => registers.r12,
        Register::R13 => registers.r13,
        Register::R14 => registers.r14,
        Register::R15 => registers.r15,
    }
}

#[tactic(auto, unfolding(crate::specs::State::with_register))]
pub fn set_register<W: Copy>(registers: &mut Registers<W>, register: Register, word: W)
    ensures { registers.new ≡ with_register registers.old register word }
{
    match register {
        Register::Rax => registers.rax = word,
        Register::Rcx => registers.rcx = word,
        Register::Rdx => registers.rdx = word,
        Register::Rbx => registers.rbx = word,
        Register::Rsp => registers.rsp = word,
        Register::Rbp => registers.rbp = word,
        Register::Rsi => registers.rsi = word,
        Register::Rdi => registers.rdi = word,
        Register::R8 => registers.r8 = word,
        Register::R9 => registers.r9 = word,
        Register::R10 => registers.r10 = word,
        Register::R11 => registers.r11 = word,
        Register::R12 => registers.r12 = word,
        Register::R13 => registers.r13 = word,
        Register::R14 => registers.r14 = word,
        Register::R15 => registers.r15 = word,
    }
}

/// A machine before the first step of a call.
#[tactic(auto, unfolding(crate::specs::State::start_of))]
pub fn start<V: Values>(
    place: u64,
    stack: u64,
    a: V::Word,
    b: V::Word,
    c: V::Word,
) -> State<V::Word, V::Flag>
    ensures { result ≡ start_of V.operations place stack a b c }
{
    let zero = V::word(0);
    let clear = V::flag(false);
    State {
        registers: Registers {
            rax: zero,
            rcx: zero,
            rdx: c,
            rbx: zero,
            rsp: V::word(stack),
            rbp: zero,
            rsi: b,
            rdi: a,
            r8: zero,
            r9: zero,
            r10: zero,
            r11: zero,
            r12: zero,
            r13: zero,
            r14: zero,
            r15: zero,
        },
        flags: Flags {
            zero: clear,
            sign: clear,
            carry: clear,
            overflow: clear,
        },
        place,
        thread_pointer: 0,
    }
}
