//! Changed objects and images, made from a seed.
//!
//! A reader is tried by inputs that are nearly right: a file of random bytes is refused by its first four, and tells
//! nothing of what stands behind. So a change here is one that knows what a file is made of. It takes a field of a
//! header, a count, an offset, a type or a name, and puts another number there: one more or less, a power of two more
//! or less, a limit, or the number that another entry has in the same field.
//!
//! ```text
//! 0120: .. 02 00 00 00 13 00 00 00 fc ff ff ff ..     a relocation: type 19, of symbol 2, addend -4
//! 0120: .. 02 00 00 00 14 00 00 00 fc ff ff ff ..     its type is 20
//! 0120: .. 03 00 00 00 13 00 00 00 fc ff ff ff ..     it names the next symbol
//! ```
//!
//! - Of an **object** ([`change_object`]) these are the fields of its header, of its sections, symbols and relocations;
//!   relocations that are doubled, moved, dropped or exchanged; bytes of code where a relocation stands; names; and its
//!   length.
//! - Of an **image** ([`change_image`]) the fields of its header and segments, of its dynamic array, symbols and
//!   relocations; names, its length, and any byte.
//! - Jobs are changed by `job_changes`.
//!
//! A table is found as a reader finds it, by the fields that name its place. Where an earlier change has moved it away
//! there is nothing to change, and the call leaves the bytes alone. So no change needs a file that is whole.
//!
//! **The rule of changes** (`specs/Differing`): a change writes at most 128 bytes, and adds at most 2^16 + 24.
//!
//! All changes are drawn from one fixed sequence of numbers (`job_changes::Generator`), so a seed names them.
#![tactic(auto)]

mod fields;
mod images;
mod lengths;
mod numbers;
mod objects;
mod tables;

pub use images::change_image;
pub use objects::change_object;
