//! One step of a thread's call.

ghost use Rattle.std.specs.Prelude.{◌≡◌, None, IfOk};
ghost use Rattle.job_check.specs.Running.{Steps};
ghost use Rattle.job_check.specs.Stepping.{stepped_of};

use crate::plain::plain_step;
use crate::sequence::sequence_step;
use guest_operands::{State, Stop};
use job_meaning::{Flag, Word};
use marked_memory::MarkedMemory;
use std::alloc::AllocError;

/// How a step ends.
#[derive(Clone, Copy, Debug)]
pub(crate) enum Stepped {
    /// The step is made.
    Goes,
    /// A sequence looks first, and nothing is done yet.
    Looks,
    /// The step stops, and has no effect.
    Ends(Stop),
}

/// How a step ends that does not look.
pub(crate) fn as_step(done: Result<(), Stop>) -> Stepped
    ensures { result ≡ stepped_of done }
{
    match done {
        Ok(()) => Stepped::Goes,
        Err(stop) => Stepped::Ends(stop),
    }
}

/// Makes one step: the sequence that begins at the thread's place, or else the instruction there. A stop changes
/// nothing. Fails only when memory runs out; no clause says what is then left of the thread.
pub(crate) fn step(
    state: &mut State<Word, Flag>,
    space: &mut MarkedMemory,
) -> Result<Stepped, AllocError>
    requires { space.old.lent ≡ None }
    ensures { IfOk result (λ stepped. Steps state.old space.old stepped state.new space.new) }
{
    match space.sequence(state.place) {
        Some(sequence) => Ok(sequence_step(&sequence, state, space)),
        None => plain_step(state, space),
    }
}
