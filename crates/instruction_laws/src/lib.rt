//! What each instruction does to numbers and flags, said a second time: laws, and no code.
//!
//! The job's machine and the meaning of a job compute with the same definitions (`guest_arithmetic`): a carry that
//! both get wrong, no theorem on the two can see. So results and flags are told here once more, in words that are not
//! the definition's: the words of Intel's manual, over whole numbers. A word of 32 or 64 bits is a number below 2^32
//! or 2^64, and by two's complement one signed integer (`specs/Words.antt`). Then, with a and b the operands as
//! numbers, x and y as signed integers, and 2^n words:
//!
//! ```text
//!                result                       CF                     OF                       ZF, SF
//! add            a + b, cut                   2^n ≤ a + b            x + y does not fit       by the result
//! sub, cmp       a - b, cut                   a - b < 0              x - y does not fit       by the result
//! and, or, xor   bit for bit                  0                      0                        by the result
//! imul           x * y, cut                   x * y does not fit     x * y does not fit       undefined
//! shl            a * 2^count, cut             the bit next to it     1: 2x does not fit       by the result
//! shr            a / 2^count                  the rest is a half     1: x < 0                 by the result
//! sar            x / 2^count, downward        the rest is a half     1: 0                     by the result
//! ```
//!
//! A shift by 0 keeps all, and by more than 1 it leaves OF undefined. `test` is `and` without its result, and `cmp` is
//! `sub` without it.
//!
//! The rule of the crate: **what is computed is the only answer with these properties**
//! ([`laws::computations_are_the_manuals`], [`laws::products_are_the_manuals`], [`laws::shifts_are_the_manuals`]).
//! Each law is an equivalence: the definition's effect has the properties, and an effect that has them is the
//! definition's. So a definition with `<` for `≤`, or with a carry the other way, makes a law false.
//!
//! A condition is told twice: by its flags ([`laws::conditions_are_the_manuals`]), and after `cmp` by what was
//! compared ([`laws::comparisons_decide`]): `jb` where a < b, `jl` where x < y.
//!
//! Then each operation of the subset ([`laws::steps_are_the_manuals`], `specs/Steps.antt`): where its operands are,
//! what it makes of them, where the result goes, what becomes of the stack, and where the next instruction is. What
//! the manual says that is done, the machine does; all else stays. The law asks that each register holds a word and
//! that accesses are allowed. Conversely, where memory holds bytes, what the machine does is what the manual says
//! ([`laws::steps_are_only`]): it says one thing, and none only where the machine stops. A load and a store of several
//! bytes are those of `guest_operands`, and so is a register by its name.
//!
//! Which operations read which registers, flags and bytes, and leave which flags undefined, `step_laws` tells once
//! more. Last the opcode maps ([`laws::opcodes_are_the_manuals`], [`laws::digits_are_the_manuals`]): a table of
//! literals, and no other byte is an opcode. `instruction_tests` has the bytes of an assembler beside them.
#![tactic(auto)]

pub mod laws;
