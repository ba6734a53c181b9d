//! Files in memory, and what commands over them answer.

ghost use Rattle.std.specs.Prelude.{◌≡◌, ◌==◌, ◌↔◌, IsTrue};
ghost use Rattle.std.specs.Thread.{IsSync};
ghost use Rattle.command_trials.specs.Agreement.{printed_in};

use crate::alarm::{Alarm, ensure};
use crate::causes::{DONE, SINK, number_of, refusal_of};
use crate::tally::Tally;
use ports::{MemorySink, MemoryStore};
use std::alloc::{AllocError, Global};
use std::str;
use std::sync::Wait;
use std::thread::Threads;

/// Commands that are tried.
pub trait Program: Drop {
    /// Runs the command of these words over files, and returns the status that it ends with, as `commands::tlsld` does.
    fn answer<R: Threads + Wait + Sync>(
        &self,
        rt: &R,
        alloc: Global,
        words: &[String],
        files: &mut MemoryStore,
        out: &mut MemorySink,
    ) -> u8
        requires sync { IsSync R.row };
}

/// An answer: its number among those to one input, and its status.
#[derive(Clone, Copy)]
pub(crate) struct Answer {
    number: usize,
    pub(crate) status: u8,
}

impl Answer {
    /// Whether it is the output that was asked for.
    pub(crate) fn is_done(self) -> bool
        ensures { result ≡ (self.status == 0) }
    {
        self.status == DONE
    }
}

/// Commands, the files that they read, and what they answered.
#[derive(Drop)]
pub(crate) struct Bench<P> {
    program: P,
    pub(crate) alloc: Global,
    pub(crate) files: MemoryStore,
    pub(crate) tally: Tally,
    /// What was printed of the input that is tried.
    outputs: Vec<MemorySink>,
}

/// Words of a command, each on its own.
fn owned(alloc: Global, words: &[&str]) -> Result<Vec<String>, AllocError> {
    let mut all = Vec::new(alloc);
    for word in words {
        all.push(String::from_str(alloc, word)?)?;
    }
    Ok(all)
}

/// What was printed into the output of this number.
fn bytes_at(outputs: &[MemorySink], number: usize) -> &[u8]
    ensures { result.now ≡ printed_in outputs.now number }
{
    match outputs.get(number) {
        Some(out) => out.bytes(),
        None => &[],
    }
}

impl<P: Program> Bench<P> {
    /// A bench without files.
    pub(crate) fn new(alloc: Global, program: P) -> Result<Bench<P>, AllocError> {
        let tally = Tally::new(alloc)?;
        Ok(Bench {
            program,
            alloc,
            files: MemoryStore::new(alloc),
            tally,
            outputs: Vec::new(alloc),
        })
    }

    /// Forgets what was answered to the input before.
    fn begin(&mut self) {
        self.outputs.clear();
    }

    /// Runs a command.
    fn run<R: Threads + Wait + Sync>(
        &mut self,
        rt: &R,
        words: &[&str],
        out: &mut MemorySink,
    ) -> Result<u8, AllocError> {
        let words = owned(self.alloc, words)?;
        Ok(
            self.program
                .answer(rt, self.alloc, &words, &mut self.files, out),
        )
    }

    /// What a command answers.
    fn answer<R: Threads + Wait + Sync>(
        &mut self,
        rt: &R,
        words: &[&str],
    ) -> Result<Answer, AllocError> {
        let mut out = MemorySink::new(self.alloc);
        let status = self.run(rt, words, &mut out)?;
        let number = self.outputs.len();
        self.outputs.push(out)?;
        Ok(Answer { number, status })
    }

    /// What an answer printed. An image's names are bytes, so what `show` and `sites` print may be no text.
    pub(crate) fn bytes(&self, answer: Answer) -> &[u8]
        ensures { result.now ≡ printed_in self.now.outputs.items answer.number }
    {
        bytes_at(&self.outputs, answer.number)
    }

    /// What an answer printed, if that is text, else nothing.
    pub(crate) fn text(&self, answer: Answer) -> &str {
        str::from_utf8(self.bytes(answer)).unwrap_or("")
    }

    /// Whether two commands answered the same.
    pub(crate) fn are_same(&self, first: Answer, second: Answer) -> bool
        ensures { IsTrue result ↔ (first.status ≡ second.status)
            × (printed_in self.now.outputs.items first.number ≡ printed_in self.now.outputs.items second.number) }
    {
        first.status == second.status && self.bytes(first) == self.bytes(second)
    }

    /// The number of the cause that an answer to these words names.
    fn cause(&self, answer: Answer, words: &[&str]) -> Option<usize> {
        match answer.status {
            DONE => number_of(DONE, words.first()?),
            SINK => Some(0),
            status => refusal_of(status, self.text(answer)),
        }
    }

    /// Counts what a command answers, which must have a cause. It may be the first answer to an input.
    fn counted<R: Threads + Wait + Sync>(
        &mut self,
        rt: &R,
        words: &[&str],
        is_first: bool,
    ) -> Result<Answer, Alarm> {
        let answer = self.answer(rt, words)?;
        let cause = self.cause(answer, words);
        ensure(cause.is_some(), "an answer names no cause")?;
        self.tally
            .count(answer.status, cause.unwrap_or(0), is_first);
        Ok(answer)
    }

    /// What a command answers; it is counted, and must have a cause.
    pub(crate) fn ask<R: Threads + Wait + Sync>(
        &mut self,
        rt: &R,
        words: &[&str],
    ) -> Result<Answer, Alarm> {
        self.counted(rt, words, false)
    }

    /// What the first command answers that is asked of an input.
    pub(crate) fn ask_first<R: Threads + Wait + Sync>(
        &mut self,
        rt: &R,
        words: &[&str],
    ) -> Result<Answer, Alarm> {
        self.begin();
        self.counted(rt, words, true)
    }

    /// Puts an input onto the bench, and notes its size.
    pub(crate) fn lay_input(&mut self, name: &str, bytes: &[u8]) -> Result<(), AllocError> {
        self.tally.note_size(bytes.len());
        self.files.add(name, bytes)
    }

    /// Counts what the lines of a transcript say.
    pub(crate) fn count_lines(&mut self, run: Answer) -> Result<(), Alarm> {
        let transcript = str::from_utf8(bytes_at(&self.outputs, run.number));
        ensure(transcript.is_ok(), "a transcript is no text")?;
        self.tally.count_lines(transcript.unwrap_or(""))
    }

    /// Asks a command whose sink fails once it took so many bytes: a front of its whole text must be there.
    pub(crate) fn ask_cut<R: Threads + Wait + Sync>(
        &mut self,
        rt: &R,
        words: &[&str],
        whole: Answer,
        taken: u64,
    ) -> Result<(), Alarm> {
        let mut out = MemorySink::new(self.alloc);
        out.fail_part(1, taken);
        let status = self.run(rt, words, &mut out)?;
        self.tally.count(status, 0, false);
        let is_front = self.bytes(whole).starts_with(out.bytes());
        ensure(status == SINK && is_front, "a failing sink has no front")
    }
}
