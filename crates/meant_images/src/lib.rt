//! What a job means, in code: which place of an image's code is what.
//!
//! For each byte of an instance's code `whole_meaning` says what it is: a byte that the program alone decides, a byte
//! of a field that only the linker knows, or a byte of a sequence that reaches thread-local storage. Its definitions
//! search: for the section that contains the byte, for the first relocation whose field covers it, for the first
//! sequence that does. A step asks this for each byte that it reads, so the code here looks it up in a table.
//!
//! An image is laid out once, before it is moved, as one *cell* for each byte from the first byte of its code to the
//! last. A cell is the number of an *entry*, and which byte of the entry this is. An entry is a field with its number,
//! a sequence, or what the program alone decides.
//!
//! ```text
//! f:  mov x@dtpoff(%rax), %ecx      8b 88 r r r r      cells    0,0  0,0  1,0  1,1  1,2  1,3
//!     lea x@tlsld(%rip), %rdi       48 8d 3d r r r r            2,0  2,1  2,2  2,3 ..
//!     call __tls_get_addr           e8 r r r r                  .. 2,11
//!
//! entries    0: usual
//!            1: an offset field, the offset of x and the addend
//!            2: a sequence, LD, of the block of its own instance
//! ```
//!
//! The rule that the crate keeps: **each answer is that of the definitions, for any distance that the image is moved.**
//! The distance matters in one place: an address in a field moves with the image, and its entry says so; all else stays
//! ([`CodeMarks::mark`]). A sequence may name a variable that a startup image exports. That image is searched once,
//! when the entries are made. Both answers, the mark and the sequence ([`CodeMarks::sequence`]), take constant time.
//!
//! [`MeantImages`] has these tables for all images of a job. It also has what is loaded of each instance: the bytes of
//! its sections (`memory_image`), its functions and variables by name, and a thread's fresh block.
//!
//! By the definitions a byte that two fields or two sequences share belongs to the first. So cells are written from the
//! last to the first.
#![tactic(auto)]

mod code_marks;
mod entries;
mod images;
mod kept;
mod names;
mod painting;
mod targets;

pub use code_marks::CodeMarks;
pub use images::{MeantImages, Tables};
pub use names::{function, info, is_in_room, variable};
