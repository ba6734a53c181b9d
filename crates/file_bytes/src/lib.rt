//! The bytes of a file, as a stream has them and as pieces make them.
//!
//! - [`read_all`] takes a reader to its end, and [`write_all`] makes a writer take every byte: a single call may move
//!   fewer bytes than it is asked for, may be interrupted by a signal, and may fail.
//! - [`Pieces`] are a file whose first and last bytes are there, and whose middle is made when it is asked for: so no
//!   buffer need be as large as the file. [`write_pieces`] makes them run by run in the buffer of [`room_for`], and
//!   [`join`] makes all of them in one. [`Whole`] are bytes that are all there.
//!
//! **What a clause can say of a stream.** A reader may show the bytes that are left in it, and a writer those that it
//! has taken; of one that shows nothing, such as the host's file, clauses claim nothing. Where it does, the rule is:
//!
//! ```text
//! read_all      Ok: the buffer grew by all that was left       Err: the buffer is as it was
//! write_all     Ok: the writer grew by all the bytes           Err: it grew by a prefix of them
//! write_pieces  Ok: the writer grew by the whole file          Err: it grew by a prefix of it
//! ```
//!
//! When a stream fails no clause says. A call that a signal interrupts is tried again, a thousand times in a row; a
//! writer that takes no byte has failed.
#![tactic(auto)]

mod pieces;
mod runs;
mod streams;

pub use pieces::{Pieces, Whole, join};
pub use runs::{room_for, write_pieces};
pub use streams::{read_all, too_large, write_all};
