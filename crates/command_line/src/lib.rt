//! The words of a command line: reads them as a command.
//!
//! A user asks a linker for work by words: a command, the names of files, and options that may stand before,
//! between or after them. This crate reads the words that follow the program's name, and returns a [`Command`], or
//! `Usage` if they are not one:
//!
//! | words | what is asked for |
//! |---|---|
//! | `run JOB [--no-relax]` | link the images of the job in the file JOB, and run its threads |
//! | `race JOB [--no-relax]` | the same, each thread in a thread of its own |
//! | `link JOB IMAGE OUT [--no-relax]` | link the images, write the one named IMAGE to the file OUT, print its length |
//! | `sites JOB IMAGE` | print the code sequences of the image named IMAGE, and what stands in the place of each |
//! | `show FILE` | print what the image in the file FILE says |
//! | `check JOB` | print whether the job is clean, or its first step that uses what only a linker can know |
//! | `gen N` | make a job of N objects and a module in memory, run it, and print a summary |
//!
//! ```text
//! run a.job                    Run { job: "a.job", rewriting: Allowed }
//! run --no-relax a.job         Run { job: "a.job", rewriting: Off }
//! run -- --no-relax            Run { job: "--no-relax", rewriting: Allowed }
//! run -                        Run { job: "-", rewriting: Allowed }
//! run                          usage: there is no JOB
//! race a.job                   Race { job: "a.job", rewriting: Allowed }
//! link a.job app a.out         Link { job: "a.job", image: "app", out: "a.out", rewriting: Allowed }
//! link a.job app               usage: there is no OUT
//! sites a.job app              Sites { job: "a.job", image: "app" }
//! show app                     Show { file: "app" }
//! check a.job                  Check { job: "a.job" }
//! gen 5                        Gen { count: 5 }
//! gen -- 5                     Gen { count: 5 }
//! gen 05                       usage: no zero stands in front of a number, and no sign
//! gen 1001                     usage: a number is one from 1 to 1,000
//! run a.job b.job              usage: there is one word too many
//! run a.job --no-rel           usage: an option has no shorter forms
//! check a.job --no-relax       usage: `check` takes no option
//! --help                       usage: a wish for help is no command
//! ```
//!
//! `--no-relax` is the name that linkers give to the option that keeps each TLS code sequence as the compiler wrote
//! it, even if a shorter one would do. Every command but `race` is a [`Task`]: it waits for no other thread. The
//! threads of a `race` wait for one another, so it is a [`Command`] of its own.
//!
//! **The rule that the crate keeps.** The words are read as one simple command of `clap`, with a subcommand for each
//! row of the table, and the contract says so in `clap`'s own definitions: `asked` says which command words give, if they
//! give one. For `clap` all values are texts. This crate itself reads the number of `gen`, since usual readers of numbers
//! accept `05` and `+5` too. [`read_words`] returns `Ok` only for words that give a command, with that command, and
//! `Usage` only for words that give none. Any call may return `OutOfMemory` instead.
//!
//! No other crate uses `clap`: those above see a [`Command`], whose texts have a type of their own, [`Text`], which
//! contracts read as bytes.
#![tactic(auto)]

mod command_set;
mod counts;
mod tasks;
mod text;
mod words;

pub use tasks::{Command, Rewriting, Task, WordsFault};
pub use text::Text;
pub use words::read_words;
