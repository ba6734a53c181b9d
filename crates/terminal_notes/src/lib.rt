//! One line more for a person at a terminal: the names that a refusal gives by number, what the host said of a file,
//! the commands.
//!
//! A refused command prints one line on standard output, which scripts read: `object b.o section 2 entry 0 RelocRange`,
//! `store fault`, `usage`. A person asks which section that is and what was wrong with which file. Once the command has
//! ended, `main` prints the answer on standard error, if that is a terminal:
//!
//! ```text
//! status 6   tlsld: b.o: section .rela.text, symbol x
//! status 3   tlsld: b.o: No such file or directory (os error 2)
//! status 2   tlsld: commands: run JOB, race JOB, ..
//! ```
//!
//! The rule that the crate keeps: **a note says what stands in the file that the refusal names, and shows no byte that
//! moves a cursor.** [`object_refusal`] takes a line only if it is exactly the line of such a refusal. The names are
//! those at its numbers (`specs/Names`); if there is none, there is no note. Of each name [`append_printable`] shows at
//! most 80 bytes, those outside 0x20 to 0x7e in hexadecimal.
//!
//! [`KeptSink`] keeps the line, and [`note_of`] chooses the note by the status. The object is read once more for it,
//! by the name in the line (`ports::Aftermath`): the names are those of that file and of no other. If memory runs out,
//! or the file is gone, there is no note; if the file has changed, the names are those that it has now. Nothing else
//! differs.
//!
//! Names lie in an object as the System V ABI has it (gABI, "Object Files").
#![tactic(auto)]

mod kept_sink;
mod names;
mod notes;
mod printable;
mod refusals;

pub use kept_sink::KeptSink;
pub use names::{Part, section_name, symbol_name};
pub use notes::{COMMANDS, file_note, note_of, object_note};
pub use printable::append_printable;
pub use refusals::{ObjectRefusal, object_refusal};
