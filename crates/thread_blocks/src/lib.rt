//! Definitions and laws of what a job's threads do, turn by turn, and of what each has in its memory.
//!
//! No code runs here; `job_turns` runs threads as these definitions say, each in a memory of `thread_space`.
//!
//! A thread has a list of lines to do, such as "call `f` of image 1 with 3, 10 and 0" or "open image 2". The result of
//! a line may depend on what other threads did before: one thread may call a module that another opened. All of that
//! is one list of events, the history, which only grows. A thread reads it by **looks**: one at the start of each
//! line, and one at each access to a module's block that it can't answer by itself. Between two looks its steps are
//! private, since no other thread sees its registers, its stack or its blocks. So an order of threads can interleave
//! only **turns**: a turn is a look and the private steps after it. Besides the history, threads share the data of
//! programs and modules, which go from turn to turn.
//!
//! That is why there is a history and no shared clock. If no image has data, a thread's lines are a function of the
//! lists of events that its looks see. To know these lists, it is enough to know the number of events at each look:
//! the line's points.
//!
//! **Turns** (`specs/Turns.antt`) are defined over any steps, lines and events: `turn`, and `turns` at any lists of
//! events. `specs/TurnsAlike.antt` states that two threads have done the same, up to the first unclean line;
//! `order_laws` proves that turns keep this.
//!
//! **Orders** (`specs/JobWorlds.antt`): each entry of an order lets a thread take a turn. The turn sees the whole
//! history, holds the shared data, and may add its event (`shared_order`). A whole job is its own order, and then each
//! thread up to its end (`job_world`). The laws ([`laws`]), of every job:
//!
//! - each open and close was accepted after those before it (`histories_are_legal`);
//! - each thread finishes (`threads_end`);
//! - after a look a thread holds nothing of a closed instance (`looks_leave_what_is_live`);
//! - if no image has data, a thread of a job takes the turns that it would take alone, at fronts of the history
//!   that never get shorter (`threads_take_their_own_turns`).
//!
//! **A thread's memory** (`specs/Spaces.antt`) has three parts: its stack; the other bytes that it writes, its TLS
//! blocks and the data that it holds; and what no thread writes, which is a function of the events seen: code,
//! constants, and the eight bytes at the thread pointer, which hold it. A machine over these parts is the machine over
//! the list of their ranges (`space_image`, `space_run`), and memories that are related part by part stay so
//! (`spaces_kept`).
//!
//! **Lines** (`specs/Lines.antt`) call, open, close, or show bytes of a variable, over the instances that are live in
//! the history that their look saw (`specs/Instances.antt`). A look drops blocks and data of closed instances, and
//! finds the blocks at fixed distances (`specs/Held.antt`). The machine's calls of `__tls_get_addr` and of a
//! descriptor's function are steps of their own: an id of a startup image is answered at once, any other after a look
//! (`specs/RunTime.antt`). The thread's question to the run time is [`Asked`].
//!
//! **What is loaded of an image** (`specs/JobLoads.antt`). `image_file` reads an image, whoever linked it. Each part
//! of a live instance lies at its address in every thread's memory, as the loader leaves it, with the rights of its
//! class: code can be fetched and not read, constants can be read, data can be read and written, except the part that
//! only the loader writes (GNU_RELRO), which can be read. The TLS segment is not a part. It says how each thread's
//! block begins: with the initial image, which lies in the first part that holds it whole, followed by zeros. A
//! function is found by the first symbol of its name.
//!
//! **Addresses of a thread.** Thread t has its thread pointer at t * 2^40 + 2^38, and its stack is the 65,536 bytes
//! before t * 2^40 + 2^39. By variant II of Drepper's "ELF Handling For Thread-Local Storage" (section 3) the block of
//! a program lies below the thread pointer: its distance is the block's size, rounded up to its alignment. Say its TLS
//! segment has 8 bytes, aligned to 4, of which the file gives four:
//!
//! ```text
//! the image:  x  0x400000        64 8b 04 25 f8 ff ff ff     mov %fs:-8, %eax
//!                                c3                          ret
//!             r  0x401000        2a 00 00 00                 the initial image
//!
//! thread 2:   rw 0x23ffffffff8   2a 00 00 00 00 00 00 00     the block: initial image, zeros
//!             r  0x24000000000   00 00 00 00 40 02 00 00     the thread pointer's own word
//!             x  0x400000        64 8b 04 25 f8 ff ff ff c3  the parts of the image, in their order
//!             r  0x401000        2a 00 00 00
//! ```
//!
//! Blocks of startup modules, and of modules in the static surplus, lie further below. The block of any other
//! instance, number n, begins at t * 2^40 + n * 2^24, once the thread has reached it.
//!
//! The checker computes whole jobs by these definitions, from the bytes of their images (`proofs/JobExamples.antt`,
//! `DataExamples`, `StaticExamples`): modules that are opened twice, or closed while a call waits for their block,
//! data that two threads share, descriptors.
//!
//! The start of a call is one definition for any kind of values, so that a meaning over marked values starts as the
//! machine does (`call_start_alike`, `proofs/Begin.antt`).
#![tactic(auto)]

mod asked;
pub mod laws;

pub use asked::Asked;
