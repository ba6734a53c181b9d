//! Laws of the text of a job: a grammar of it, and what it can spell. No code runs here.
//!
//! `job_text` tells how a job is read: a text is cut into lines and a line into words, and of each line it says the
//! fault that it has, the first of a list of tests, or what it adds. This crate says which texts are good, from the
//! other end (`specs/Grammar`): a relation builds a line from words and spaces, with **a constructor for each kind of
//! line**, and a text from lines. In between stands what was told so far, in the order of the text, images by name:
//!
//! ```text
//! image plug late plugin.o     an image more: its name is new, there are fewer than 64
//! image app exe main.o         an image more: no other is a program
//! threads 2                    there was no such line
//! 2 open plug                  an earlier line tells of `plug`, and there is a thread 2
//! ```
//!
//! A job is made of that at the end (`specs/Derived`): the program comes first, then images that start with it, then
//! late ones, each group in the order of the text; and each name is the number of the image that has it. The rule of
//! the crate: **a text spells a job exactly where it derives it** ([`laws::derived_texts_are_jobs`],
//! [`laws::jobs_are_derived`]), and it derives one at most ([`laws::texts_derive_one_job`]). `specs/Example` has four
//! lines and their job.
//!
//! So not everything that a `Job` may hold has a text. **A job has one exactly where its parts can be spelled**
//! ([`laws::texts_are_spelled`]; `specs/Spellable`): each name is a word, no two images share one, those of a group are
//! mentioned in their order, and there are no more lines than 65,536. The proof writes that text (`proofs/Writer`).
//! Two images of one name have none, nor has an image without objects ([`laws::some_have_no_text`]); of the images
//! alone [`laws::images_are_spelled`] speaks (`specs/Images`). And numbers are written in two ways
//! ([`laws::numbers_are_written`]): as they would be printed, or as `0x` and hexadecimal digits (`specs/Numbers`).
//!
//! First faults have no law here: what is reported is the first of a list of tests, line by line and kind by kind, and
//! any second sentence would be that list again.
//!
//! The reader's types of kinds and slots have no name outside its crate, so the proofs tell a kind by words of a line
//! that has it (`proofs/LineKinds`). They hold what is told against what the reader has declared (`proofs/Tied`), in
//! one direction (`proofs/Told`) and the other (`proofs/Read`), line by line (`proofs/Lines`).
#![tactic(auto)]

pub mod laws;
