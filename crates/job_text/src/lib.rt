//! A job, the text that says what to link and what to run: reads it, or finds its first fault.
//!
//! A linker's work shows only when its images run. A **job** says what to link and what to run: a text with a line
//! for each image, and a line for each thing that a thread does.
//!
//! ```text
//! image app exe main.o counter.o      the program, linked from two objects
//! image plug late plugin.o            a module that a thread may open while the program runs
//! threads 2
//! 1 open plug                         thread 1 opens the module,
//! 1 call plug bump 1 0 0              calls its function `bump`,
//! 2 peek plug total 4                 thread 2 looks at 4 bytes of its own copy of `total`
//! ```
//!
//! The program is an `exe` or a `pie`, and there is one of them; `start` modules are loaded with it, and threads open
//! `late` ones. Images are numbered in *image order*: the program is 1, then come the start modules and then the late
//! ones, each group in the order of the job. A job also keeps the order in which its lines name the images
//! (`Job::mentions`). A line may name an image only after the image's own line. `fuel N` bounds the steps of a call,
//! and `order T T ..` says which threads take the first turns. Numbers are decimal without leading zeros, or `0x` and
//! hexadecimal digits. A line that begins with `#` or has no word is skipped, but counted.
//!
//! [`Job::read`] returns the job that a text spells, or its **first fault**: that of the first faulty line, and in
//! that line the first of the kinds of [`JobFaultKind`], in their order. So a user gets one fault, and always the
//! same one. `specs/` has the grammar as definitions: a line is text (`Words`), has a heading (`Grammar`) and a
//! fault or none (`LineFaults`), adds to what is declared (`LineEffects`), and the lines together make a job
//! (`Jobs`). The grammar is this project's own; the names in it are those of object files and of their symbols.
#![tactic(auto)]

mod draft;
mod fault;
mod grammar;
mod images;
mod jobs;
mod numbering;
mod numbers;
mod operands;
mod spelling;
mod thread_lines;
mod words;

pub use crate::fault::{JobFault, JobFaultKind};
pub use crate::images::Image;
pub use crate::jobs::{Job, jobs_cross_threads};
pub use crate::numbering::{at_number, index_of};
pub use crate::spelling::{Name, Names};
pub use crate::thread_lines::{Action, ThreadLine};
