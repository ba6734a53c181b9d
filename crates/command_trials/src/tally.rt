//! How many inputs and answers there were, by their causes.

use crate::alarm::{Alarm, ensure};
use crate::causes::{DONE, LINES, MOST, STATUSES, causes_of, number_of, outcome_of};
use std::alloc::{AllocError, Global};
use std::io;

/// How often a cause came.
#[derive(Clone, Copy)]
struct Count {
    /// As what the first command says of an input.
    inputs: u64,
    /// As what any command says.
    answers: u64,
}

/// The counts of all causes.
#[derive(Drop)]
pub(crate) struct Tally {
    counts: Vec<Count>,
    inputs: u64,
    accepted: u64,
    greatest: usize,
}

impl Tally {
    /// Nothing was seen yet.
    pub(crate) fn new(alloc: Global) -> Result<Tally, AllocError> {
        let none = Count {
            inputs: 0,
            answers: 0,
        };
        Ok(Tally {
            counts: vec![in alloc; none; MOST * STATUSES as usize]?,
            inputs: 0,
            accepted: 0,
            greatest: 0,
        })
    }

    /// Counts an answer, which may be the first to an input.
    pub(crate) fn count(&mut self, status: u8, number: usize, is_first: bool) {
        let place = usize::from(status)
            .saturating_mul(MOST)
            .saturating_add(number);
        if let Some(count) = self.counts.get_mut(place) {
            count.answers = count.answers.saturating_add(1);
            if is_first {
                count.inputs = count.inputs.saturating_add(1);
            }
        }
        if is_first {
            self.inputs = self.inputs.saturating_add(1);
            if status == DONE {
                self.accepted = self.accepted.saturating_add(1);
            }
        }
    }

    /// Counts what the lines of a transcript say.
    pub(crate) fn count_lines(&mut self, transcript: &str) -> Result<(), Alarm> {
        for line in transcript.lines().filter(|line| line.starts_with('t')) {
            let number = outcome_of(line);
            ensure(number.is_some(), "a line says what no line can")?;
            self.count(LINES, number.unwrap_or(0), false);
        }
        Ok(())
    }

    /// Notes how many bytes an input has.
    pub(crate) fn note_size(&mut self, size: usize) {
        self.greatest = self.greatest.max(size);
    }

    /// Prints the counts of a cause.
    fn print_cause(&self, rt: &impl Print, status: u8, cause: &str) -> io::Result<()> {
        let number = number_of(status, cause).unwrap_or(0);
        let place = usize::from(status)
            .saturating_mul(MOST)
            .saturating_add(number);
        let none = Count {
            inputs: 0,
            answers: 0,
        };
        let count = self.counts.get(place).copied().unwrap_or(none);
        let inputs = count.inputs;
        let answers = count.answers;
        println!(rt; "{status} {cause} {inputs} {answers}")
    }

    /// Prints all counts.
    pub(crate) fn print(&self, rt: &impl Print, kind: &str) -> io::Result<()> {
        let inputs = self.inputs;
        let accepted = self.accepted;
        let refused = inputs.saturating_sub(accepted);
        let greatest = self.greatest;
        println!(rt; "{inputs} {kind}: {accepted} accepted, {refused} refused")?;
        println!(rt; "greatest {greatest}")?;
        for status in 0..STATUSES {
            for cause in causes_of(status).split(' ') {
                self.print_cause(rt, status, cause)?;
            }
        }
        Ok(())
    }
}
