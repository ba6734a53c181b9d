//! Laws of transcripts, which say that nothing is lost where one is printed. No code runs here.
//!
//! What a run shows is a value: for each thread its lines, each with its points and its outcome, and the events of the
//! history. `transcript_text` says which bytes are printed of it. Whether these bytes tell the value is not plain from
//! that: a number without its letter, two refusals with one word, or names of images with spaces in them would still
//! be some text. So here is a reader (`specs/Reader`), written from the format as a user meets it:
//!
//! ```text
//! t1 l2 g1,1 = 0000000000000007       line 2 of thread 1: points 1 and 1, returned 7
//! e0 t1 l1 open plug                  event 0: line 1 of thread 1 opened plug
//! ```
//!
//! It splits a text at its line feeds and a line at its spaces, reads numerals by a table of digits, and finds a line
//! by its thread and its number. The rule of the crate: **the reader gives a transcript back**
//! ([`laws::transcripts_are_read`]), each line and each event, and none that is not there; so two transcripts over a
//! job that have one text are one ([`laws::texts_determine_transcripts`]).
//!
//! The transcript is over a job that a text spells: as many threads, events of its images, and numbers within their
//! types. Of the job the proof needs that no two images share a name, and that no name has a space or a line feed
//! (`proofs/Names`).
#![tactic(auto)]

pub mod laws;
