//! Laws of every job's meaning: what threads mean alone, and that no linker's setting matters. No code runs here.
//!
//! A job's threads take turns in some order. They share two things: the history of opens and closes, and the data that
//! programs and modules write. If no image has such data, for example because each variable is thread-local, a thread
//! learns of the others only through the history, as it is at each of its turns. Say the order is 2, 1, 2:
//!
//! ```text
//! thread 1              open m
//! thread 2    call g              call g
//! sees        []        []        [1 opens m]
//! ```
//!
//! The rule of the crate: **what a thread's lines mean in a job, they mean alone at its points**, here `[]` and `[1
//! opens m]`: fronts of the history, each of which the next one continues ([`laws::threads_mean_their_own`]).
//! `thread_blocks` has the same law for the machine's threads. The objects of images show that they have no such data:
//! none has a byte in a writable section ([`laws::images_without_data_share_none`]).
//!
//! A linker may rewrite TLS sequences, or must keep them: one setting for all links of a job. **The meaning is the
//! same in both settings** ([`laws::meaning_knows_no_setting`]), since a sequence is one step of it whatever
//! instructions replace it. So is the verdict on a job, clean or with a first unclean step
//! ([`laws::verdict_knows_no_setting`]). One check of a job holds for its images with rewritten sequences and with
//! kept ones.
#![tactic(auto)]

pub mod laws;
