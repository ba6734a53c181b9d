//! The commands that are run over changed inputs.

use command_trials::Program;
use commands::tlsld;
use ports::{MemorySink, MemoryStore};
use std::alloc::Global;
use std::sync::Wait;
use std::thread::Threads;

/// The commands of `tlsld`.
#[derive(Clone, Copy)]
pub(crate) struct Commands;

impl Program for Commands {
    fn answer<R: Threads + Wait + Sync>(
        &self,
        rt: &R,
        alloc: Global,
        words: &[String],
        files: &mut MemoryStore,
        out: &mut MemorySink,
    ) -> u8 {
        tlsld(rt, alloc, words, files, out)
    }
}
