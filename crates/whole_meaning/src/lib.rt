//! Definitions and laws of what every job means, with sequences as single steps. No code runs here.
//!
//! `job_meaning` has the idea and the values: objects mean something before anything is linked, values and code are
//! marked, and a step is clean, so that each image of the objects does the same, or it is unclean and says why. Here
//! this is defined for every job: images of all kinds, opened and closed by their threads, with sequences and with
//! data that threads share. The theorem (`linked_jobs`) compares two things turn by turn: the meaning that is defined
//! here, and the machine of `thread_blocks` that runs the linked images. So both have one shape. Lines, looks, blocks,
//! data and turns are the definitions of `thread_blocks`, over marked values; only steps, and what is loaded, are
//! defined anew.
//!
//! **A sequence is one step** (`specs/Sequences.antt`). `lea x@tlsgd(%rip), %rdi; call __tls_get_addr` puts the
//! address of x into %rax, whatever an image has in its place. What a call may change is undefined after it: the
//! registers that psABI gives to the callee, the flags, and the stack below %rsp, where a return address may or may
//! not have been pushed. Each form has a definition of its own:
//!
//! | form | %rax or the register | undefined |
//! |---|---|---|
//! | gd, gd-ind | the address of the variable | eight registers, flags, stack below %rsp |
//! | ld, ld-ind | the base of the thread's block of the code's own instance | the same |
//! | ie-mov | the variable's distance from the thread pointer | nothing |
//! | ie-add | what it held and that distance | flags |
//! | desc-lea | the descriptor of the code's instance and the symbol | nothing |
//! | desc-call | the distance, where %rax held that descriptor | flags, stack below %rsp |
//!
//! The five forms that call need eight bytes of stack below %rsp. If the variable's instance is not a startup one,
//! they look first, after these tests and before any effect, and end the line as `unloaded` if the code's own instance
//! is closed.
//!
//! **Code is marked** (`src/marks.rt`, `specs/Code.antt`): bytes of the program's own; bytes of a sequence; and the
//! bytes of two kinds of field. An offset field, `x@dtpoff`, counts from the base of a block. Its mark holds the whole
//! number, the offset in the block plus the addend, and neither the object's four bytes nor what a linker writes into
//! them: rewriting puts another number there, which the meaning does not know. An address field, `f@gotpcrel(%rip)`,
//! names a word that is loaded. Its mark holds that word; the step uses it as its operand and accesses no memory for
//! it.
//!
//! **What is loaded** (`specs/Loads.antt`) is made of the objects' own sections: code, constants, the initial image of
//! blocks, data, each byte by the table of relocations at the instance's address. There is no global offset table, no
//! stub, no module id, no descriptor in memory, and nothing that a loader writes. After the sections comes the room,
//! where a linker may put what it makes.
//!
//! **Why a step is unclean**, in the order in which causes are reported. The verdict of a job is the first unclean
//! step of the lowest thread that has one (`specs/Jobs.antt`). Such a step has no effect, and the thread goes on with
//! its next line.
//!
//! `inside`: an instruction would be decoded from bytes of a sequence, or execution begins in a sequence after its
//! first byte.
//!
//! ```text
//! f:  jmp 1f                          eb 01
//!     lea x@tlsld(%rip), %rdi         48
//! 1:                                     8d 3d ..
//!     call __tls_get_addr             e8 ..
//!     ret                             c3              unclean at 1, inside
//! ```
//!
//! `field`: an instruction covers an offset field, but not as the displacement from a base or as a number that is
//! added to one; or it covers an address field, but not as the address of a word that it reads.
//!
//! ```text
//! f:  lea f@gotpcrel(%rip), %rax                      unclean at f, field: the address of a table
//!     ret
//! g:  mov f@gotpcrel(%rip), %rax                      clean: the address of f
//!     mov $x@dtpoff, %ecx                             unclean, field: no base
//!     ret
//! ```
//!
//! `linker`: an instruction begins, or touches a byte of data, in a room or at an address of the run time.
//!
//! ```text
//! f:  mov (%rdi), %eax                called with 0x402000, behind all sections: unclean at f, linker
//!     ret
//! g:  mov $0x1000, %eax
//!     jmp *%rax                                       unclean at 0x1000, linker
//!     ret
//! ```
//!
//! `undefined`: a word of which nothing is known is used, or a sequence calls with no stack left.
//!
//! ```text
//! f:  lea x@tlsgd(%rip), %rdi
//!     call __tls_get_addr                             clean, and %rcx is unknown
//!     mov %rcx, %rdx                                  clean: it is carried
//!     add $1, %rdx                                    unclean, undefined
//!     ret
//! ```
//!
//! `flags`: a condition uses a flag of which nothing is known.
//!
//! ```text
//! f:  mov %fs:0, %rax
//!     add x@gottpoff(%rip), %rax                      clean: a linker may make it lea, which sets no flag
//!     je 1f                                           unclean, flags
//!     ret
//! 1:  ret
//! ```
//!
//! `base`: the base of a block is used as a number. After rewriting it is the thread pointer.
//!
//! ```text
//! f:  lea x@tlsld(%rip), %rdi
//!     call __tls_get_addr
//!     push %rax                                       clean: eight bytes of the base
//!     cmp $0, %rax                                    unclean, base
//!     ret
//! ```
//!
//! `desc`: a descriptor is used, but not by the call for its own symbol in the code of its own instance.
//!
//! ```text
//! f:  lea x@tlsdesc(%rip), %rax
//!     mov %rax, %rbx                                  clean
//!     add $0, %rax                                    unclean, desc
//!     call *x@tlscall(%rax)
//!     ret
//! ```
//!
//! `answer`: a call returns, and %rax does not hold a number.
//!
//! ```text
//! f:  lea x@tlsld(%rip), %rdi
//!     call __tls_get_addr
//!     ret                                             clean, and then
//!                                                     unclean at 0x2000, answer: %rax is a base
//! ```
//!
//! `steps`: the call has taken all steps that the job allows, and one more would be clean. A sequence counts as one.
//!
//! ```text
//! fuel 2
//! f:  mov $3, %eax
//!     sub $1, %eax
//!     jne f                                           unclean, steps, unless it is unclean anyway
//!     ret
//! ```
//!
//! **Laws** ([`laws`]): a General Dynamic sequence and the call of a descriptor find a variable at one address, both
//! here and in the run time's answers; no two symbols of a job have the same number. `job_check` decides whether a job
//! is clean, and `tlsld check` prints it. `linked_jobs` proves that a clean job prints what it means.
//!
//! The checker computes whole jobs from the files of their objects by these definitions (`proofs/FormExamples.antt` and
//! its neighbours): each form of sequence, each kind of image that a variable may lie in, and each cause.
#![tactic(auto)]

pub mod laws;
mod marks;
mod sequences;
mod unclean;

pub use marks::Mark;
pub use sequences::Sequence;
pub use unclean::UncleanStep;
