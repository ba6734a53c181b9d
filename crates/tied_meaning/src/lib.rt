//! Definitions and one law of the relation between a job's meaning and its machine. No code runs here.
//!
//! A job is run twice. The machine runs the linked images (`thread_blocks`), and the meaning runs what their objects
//! say (`whole_meaning`). Both take the same turns and hold the same kinds of things: registers, a stack, blocks,
//! data, code. They differ where a linker chooses: in the numbers of bases and descriptors, in fields that hold such
//! numbers, in the bytes of sequences, and in tables and stubs, which the meaning does not have.
//!
//! The rule of the crate: **every difference between the two is named**, and everywhere else they are the same. A
//! linker's choices are one record of a few functions, a `Setting`. All else is defined for any setting and any load,
//! without linking: an image is only bytes, words and instructions at addresses of an instance.
//!
//! Take a program with 8 bytes of thread-local storage, x at offset 4, and Local Dynamic code. If its sequence is
//! kept, it finds the block's first byte, and the field of `x@dtpoff` holds 4. If it is rewritten ("ELF Handling For
//! Thread-Local Storage", section 5), it finds the thread pointer, and the field holds -4 (psABI, "Thread-Local
//! Storage"):
//!
//! ```text
//!                             meaning               kept                         rewritten
//! lea x@tlsld(%rip), %rdi     one step              48 8d 3d ..                  66 66 66 64 48 8b 04 25 00 00 00 00
//! call __tls_get_addr                               e8 ..                            (mov %fs:0, %rax)
//! %rax in thread 1            Base of that block    0x13ffffffff8                0x14000000000
//! mov x@dtpoff(%rax), %eax    field number 4        8b 80 04 00 00 00            8b 80 fc ff ff ff
//! its address                 0x13ffffffff8 + 4     0x13ffffffff8 + 4            0x14000000000 - 4
//! ```
//!
//! Each image has its own number in the register, and the meaning has a token for it; the two fields differ; the
//! address is the same. So the relation of words says which number stands for a token (`SameWord`), and that of fields
//! says that they move each thread's base to one address (`SameField`). Both take the setting as a parameter.
//!
//! From the smallest to the largest:
//!
//! - `specs/Numbers.antt`: words, flags, bytes and fields, and what a setting is;
//! - `specs/Codes.antt`: code that the meaning marks, and code of an image, address by address;
//! - `specs/Sites.antt`: the instructions and words that an image has in place of a sequence;
//! - `specs/Ties.antt`: all that is loaded of an instance (`IsTied`), and of all instances of a job (`AreTied`);
//! - `specs/Threads.antt`: two threads between lines, in a call, and while they wait for a look.
//!
//! **The history is a parameter.** A job ends with one list of events, and each list that a thread ever sees is a
//! front of it. In all these fronts a number stands for one instance. So the instance of a number, the addresses of
//! its blocks and the number of its base are functions that no look changes, and data that another thread wrote after
//! this one's look is related at once.
//!
//! The law is about values alone ([`laws::numbers_follow_marked_values`]): arithmetic on plain numbers does what
//! arithmetic on marked values does, in any setting. `proofs/Examples.antt` has the example above.
#![tactic(auto)]

pub mod laws;
