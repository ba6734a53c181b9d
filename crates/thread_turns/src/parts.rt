//! What a turn of a thread that runs lines of a job is made of, whatever its values are.

ghost use Rattle.std.specs.Prelude.{◌≡◌, IfOk};
ghost use Rattle.thread_turns.specs.Parts.{IsFirstScript};

use guest_operands::Stop;
use job_text::{Job, ThreadLine};
use std::alloc::{AllocError, Global};

/// The arguments of a call.
#[derive(Clone, Copy)]
pub struct Arguments {
    pub a: u64,
    pub b: u64,
    pub c: u64,
}

/// The result of a line's first look.
#[derive(Drop)]
pub enum Started<O, M> {
    /// The line is over, with this outcome.
    Says(O),
    /// A call begins, on this machine.
    Calls(M),
}

/// How a machine's run, or a turn, ended.
#[derive(Drop)]
pub enum Ended<O, W> {
    /// It is over, with this outcome.
    Over(O),
    /// It waits for a look, with this.
    Waits(W),
}

/// The result of a look in the middle of a call.
#[derive(Clone, Copy)]
pub enum Resumed {
    /// The call goes on.
    Goes,
    /// It stopped.
    Stops(Stop),
    /// The instance that asked is closed.
    Unloaded,
}

/// The lines of a thread, and what it takes to run them.
#[derive(Drop)]
pub struct Script<'j, S> {
    pub alloc: Global,
    pub lines: &'j [ThreadLine],
    /// The job's limit for the steps of a call.
    pub fuel: u64,
    /// The number of lines that have begun.
    pub begun: usize,
    /// What the lines that are over said.
    pub said: S,
}

impl<'j, S: Drop> Script<'j, S> {
    /// The lines of a job's thread before the first. The only error is out of memory; 2^31 lines or more give that error
    /// too, but a job that was read has at most 65,536.
    pub fn new(
        alloc: Global,
        thread: u32,
        job: &'j Job,
        said: S,
    ) -> Result<Script<'j, S>, AllocError>
        ensures { IfOk result (IsFirstScript thread job.now said) }
    {
        let lines = job.lines(thread);
        if lines.len() >= 0x8000_0000 {
            return Err(AllocError);
        }
        Ok(Script {
            alloc,
            lines,
            fuel: job.fuel(),
            begun: 0,
            said,
        })
    }
}
