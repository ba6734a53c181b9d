//! Every command over changed inputs, and whether its answers fit one another.
//!
//! That no input crashes a command is proved, and so is most of what is tested here. A trial tries what the proofs
//! stand on: the definitions, which might say of an input what nobody meant; the two compilers, whose code it is that
//! runs; and that an answer comes in time. For each input it tests
//!
//! - that each answer has a cause: its status is one of those of the guide, and its text is the output, or the one line
//!   of that status with a kind that is known, and nothing else;
//! - that the commands agree: `run` in both settings, `check`, `sites`, `link` and `race` refuse the same input with
//!   the same line, but for links that fail in one setting, images that a job does not have, and the data that `race`
//!   alone refuses; each image that `link` puts has the length that it says, and `show` takes it;
//! - that a `link` that is refused leaves OUT as it was;
//! - that a job which `check` calls clean prints the same whether sequences were rewritten or not, and that `race` of
//!   one thread prints what `run` does;
//! - once in a while that a store or a sink that fails is told, and that words of no command are.
//!
//! The first answer that is otherwise ends the trials with an error, and the line before it names the input; else causes
//! are counted.
//!
//! The commands are a [`Program`], so this crate is proved without those that `tlsld` is made of. Its own proof says that
//! nothing in it is undefined, and that it ends if each answer comes. The samples that are changed are named here
//! (`samples`); their bytes are data of the program `command_runs`.
#![tactic(auto)]

mod alarm;
mod bench;
mod causes;
mod inputs;
mod plan;
mod samples;
mod tally;
mod trial;

pub use alarm::{Alarm, Ended};
pub use bench::Program;
pub use plan::try_words;
