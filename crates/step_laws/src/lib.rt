//! Laws of single steps of the meaning, where no sequence begins. No code runs here.
//!
//! `linked_jobs` says: if no step of a job is unclean, the linked images print what the job means. This is worth
//! nothing if the meaning calls too much unclean. A definition by which every `xor` is unclean would keep that theorem,
//! and so would one by which `mov (%rdi), %eax` touches five bytes: then nothing is said of more jobs.
//!
//! The rule of the crate: **the meaning is not stricter than it says**. It has two laws, one from each side.
//!
//! **A plain step has no cause** ([`laws::plain_steps_are_the_machines`]), and it is the machine's step of the same
//! numbers. When is a step plain (`specs/Plain.antt`)? The instruction is read whole before any sequence and any
//! field. Each register, flag and byte that it reads is a number. Neither the address where it begins nor a byte that
//! it touches is the linker's own. What an instruction reads and writes is told here once more, by Intel's manual
//! (`specs/Reads.antt`), and not by the definitions of the machine:
//!
//! ```text
//!                               reads                          writes
//! 8b 07       mov (%rdi), %eax  %rdi, four bytes at %rdi       %eax
//! 01 07       add %eax, (%rdi)  %eax, %rdi, four bytes there   the same four bytes, the flags
//! 31 c0       xor %eax, %eax    nothing                        %eax, the flags
//! 7c ..       jl                SF, OF
//! 50          push %rax         %rsp, %rax                     eight bytes below %rsp, %rsp
//! ```
//!
//! Other registers and bytes may hold marks: the machine has any numbers in their place, and the step leaves them as
//! they are. So if %rbx is the base of a block, `mov (%rdi), %eax` leaves it in %rbx, and the number that was loaded in
//! %rax. A flag that the manual leaves undefined is unknown in the meaning, and the machine keeps it. Both use one
//! memory, whose bytes the machine reads and writes as numbers, and it is the same afterwards.
//!
//! **A byte that is said to be touched is needed** ([`laws::touched_bytes_are_needed`]). The meaning asks of the bytes
//! of data that an instruction touches whether one is the linker's own. If the step has no cause and any one of those
//! bytes can be neither read nor written, the step is refused. So no byte is asked for that is not accessed.
//! `guest_machine` has the other side: a step accesses no byte besides (`reaches_what_it_touches`).
//!
//! Which bytes are meant, and that the steps here are those of a job's meaning, is a law too
//! ([`laws::steps_are_as_told`]).
//!
//! There is a plain step ([`laws::example_is_plain`]): `xor %ecx, %eax`, where nothing is known of %rbx.
//!
//! The laws hold for any meaning, any thread and anything that it holds: no job is in them. A run takes such a step
//! where it is not over and a step is left (`run` of `guest_machine`).
#![tactic(auto)]

pub mod laws;
