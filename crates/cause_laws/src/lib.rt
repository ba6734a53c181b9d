//! Laws of unclean steps: why a step is unclean, by a table, and what a clean step does. No code runs here.
//!
//! "If a job is clean, it prints what it means" says nothing of a job that is called unclean. A definition by which
//! each `xor` were unclean would satisfy it. So here the causes are written a second time, as a table of rows
//! (`specs/Rows.antt`), and **a step answers a cause exactly where that cause is the first in the order whose row
//! holds** ([`laws::causes_are_answered`]), at the instruction's address. The rows use no definition of the meaning's
//! steps. They are about the instruction that is read at the thread's place:
//!
//! ```text
//! inside      the first byte that it may not cover lies in a sequence
//! field       the first byte that it may not cover lies in a field
//! linker      it begins at an address of the linker's own, or touches a data byte at one
//! undefined   it computes with a word of which nothing is known
//! flags       it goes by a flag of which nothing is known
//! base        it computes with the base of a block
//! desc        it computes with a descriptor
//! answer      the call has returned, and %rax is no number
//! steps       no step is left
//! ```
//!
//! Which words and flags an instruction computes with is a table too (`specs/Instructions.antt`). `add (%rdi), %rax`
//! computes with %rax, with %rdi for the address, and with the word that it loads; `mov (%rdi), %rax` with %rdi alone,
//! for it only moves what it loads; `xor %rax, %rax` with nothing. Its accesses of data stand beside them
//! (`specs/Steps.antt`): all bytes of each access, in their order, through the first one that is refused.
//!
//! Fields (`specs/Operands.antt`) may be covered in three ways, and in no other:
//!
//! ```text
//! mov x@dtpoff(%rax), %ecx      %rax holds the base of a block of the code's own instance, and an index a number
//! add $x@dtpoff, %rax           so does %rax; 64 bits
//! mov f@gotpcrel(%rip), %rax    64 bits are read and not written, and the addend leads to the instruction's end
//! ```
//!
//! **Where no row holds, a step is the machine's own step over marked values**
//! ([`laws::clean_steps_are_generic`]; `step_of` of `guest_machine`). With a field it is that of another operand
//! (`specs/Laws.antt`): the first one does what it does with the operand at the address that base, field and index
//! give; the second leaves the sum in the register, and no flag known; the third does what it does with the word at
//! any address at all, where eight bytes are those of the word.
//!
//! Both laws hold for each meaning, thread and state, where no sequence begins. Sequences have definitions of their
//! own, one for each form (`whole_meaning`, `specs/Sequences.antt`).
#![tactic(auto)]

pub mod laws;
