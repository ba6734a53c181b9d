//! All threads of a job, turn by turn.

ghost use Rattle.std.specs.Prelude.{◌≡◌, ◌*◌, ◌<◌, ◌^◌, ◌∷◌, [], false, OnOk, replicate};
ghost use Rattle.thread_blocks.specs.Turns.{enough, finishing};
ghost use Rattle.thread_turns.specs.Orders.{StayFit, TakesTurns, is_thread_over, progress};

use crate::taker::TurnTaker;
use job_text::{Job, at_number, index_of};
use std::alloc::AllocError;

/// Threads between two turns, and what they share.
#[derive(Drop)]
pub struct Threads<S, T> {
    pub shared: S,
    /// Thread 1 first.
    pub threads: Vec<T>,
}

impl<S: Drop, T: TurnTaker<S>> Threads<S, T> {
    /// Whether a thread has nothing left to do, or no thread has this number.
    fn is_over(&self, thread: u32) -> bool
        ensures { result ≡ is_thread_over T.is_done self.now.threads.items thread }
    {
        match at_number(self.threads.as_slice(), thread) {
            Some(thread) => thread.is_done(),
            None => true,
        }
    }

    /// Takes a turn of a thread that has something left to do.
    fn go(&mut self, thread: u32) -> Result<(), AllocError>
        requires laws { StayFit T.can_turn T.turned T.fit }
        requires fit { T.fit self.old.shared self.old.threads.items }
        requires going { is_thread_over T.is_done self.old.threads.items thread ≡ false }
        ensures { OnOk result (TakesTurns T.is_done T.turned (progress self.old) (thread ∷ []) (progress self.new)) }
    {
        let index = index_of(thread);
        self.threads[index].turn(&mut self.shared)?;
        Ok(())
    }

    /// Takes a turn of a thread. Does nothing if the thread has nothing left to do.
    fn turn(&mut self, thread: u32) -> Result<(), AllocError>
        requires laws { StayFit T.can_turn T.turned T.fit }
        requires fit { T.fit self.old.shared self.old.threads.items }
        ensures { OnOk result (TakesTurns T.is_done T.turned (progress self.old) (thread ∷ []) (progress self.new)) }
    {
        if self.is_over(thread) {
            return Ok(());
        }
        self.go(thread)
    }

    /// Takes turns of threads, in this order. Fails only when memory runs out, in the middle of a turn.
    pub fn take_order(&mut self, order: &[u32]) -> Result<(), AllocError>
        requires laws { StayFit T.can_turn T.turned T.fit }
        requires fit { T.fit self.old.shared self.old.threads.items }
        ensures { OnOk result (TakesTurns T.is_done T.turned (progress self.old) order.now (progress self.new)) }
    {
        for thread in order {
            self.turn(*thread)?;
        }
        Ok(())
    }

    /// Takes `count` turns of a thread, without those after its end, which change nothing.
    fn take_turns(&mut self, thread: u32, count: u64) -> Result<(), AllocError>
        requires laws { StayFit T.can_turn T.turned T.fit }
        requires fit { T.fit self.old.shared self.old.threads.items }
        ensures { OnOk result
            (TakesTurns T.is_done T.turned (progress self.old) (replicate count thread) (progress self.new)) }
    {
        for _ in 0..count {
            if self.is_over(thread) {
                return Ok(());
            }
            self.go(thread)?;
        }
        Ok(())
    }

    /// Takes as many turns of a thread as are enough for `lines` lines. The definitions take `4 * fuel + 2` turns for each
    /// line, since a line has its first look, and each look in its middle takes a step.
    fn finish_thread(&mut self, thread: u32, fuel: u64, lines: usize) -> Result<(), AllocError>
        requires laws { StayFit T.can_turn T.turned T.fit }
        requires fit { T.fit self.old.shared self.old.threads.items }
        requires fuel { fuel < 2 ^ 32 }
        ensures { OnOk result (TakesTurns T.is_done T.turned (progress self.old)
            (replicate (enough (4 * fuel) lines) thread) (progress self.new)) }
    {
        for _ in 0..lines {
            self.take_turns(thread, 4 * fuel + 2)?;
        }
        Ok(())
    }

    /// Takes the turns that definitions finish each thread by, by number. Fails as `take_order` does.
    pub fn finish(&mut self, job: &Job) -> Result<(), AllocError>
        requires laws { StayFit T.can_turn T.turned T.fit }
        requires fit { T.fit self.old.shared self.old.threads.items }
        ensures { OnOk result (TakesTurns T.is_done T.turned (progress self.old)
            (finishing (4 * job.now.fuel) 1 job.now.lines) (progress self.new)) }
    {
        for thread in 1..job.threads() + 1 {
            self.finish_thread(thread, job.fuel(), job.lines(thread).len())?;
        }
        Ok(())
    }
}
