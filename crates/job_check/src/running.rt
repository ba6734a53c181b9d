//! The steps of a thread's call, up to its next look.

ghost use Rattle.std.specs.Prelude.{◌≡◌, None, IfOk};
ghost use Rattle.guest_machine.specs.Run.{returned};
ghost use Rattle.whole_meaning.specs.Running.{asked};
ghost use Rattle.whole_meaning.specs.Threads.{Meant};
ghost use Rattle.job_check.specs.Running.{Resumes, RunsOn, stepped_as};
ghost use Rattle.job_check.specs.Stepping.{Asks, ResumesAs, resumed_of, sequence_resumed};

use crate::sequence::do_sequence;
use crate::step::{Stepped, step};
use guest_arithmetic::{Cause, Values};
use guest_machine::RETURN;
use guest_operands::{State, Stop};
use job_meaning::{Flag, MarkedValues, Word};
use marked_memory::MarkedMemory;
use std::alloc::AllocError;
use thread_turns::{Ended, Resumed};
use whole_meaning::Sequence;

/// How a run ends, with this number of steps left: it stopped, or a sequence looks, whose own step is one of them.
pub(crate) type Ran = Ended<(Stop, u64), u64>;

/// The stop of a call that returned, from %rax.
fn returned(answer: Result<u64, Cause>, place: u64) -> Stop
    ensures { result ≡ returned answer place }
{
    match answer {
        Ok(number) => Stop::Returned(number),
        Err(_) => Stop::Unclean(place, Cause::Answer),
    }
}

/// The stop of the step after the last one: the step's own cause, or that no steps are left.
fn asked_stop(place: u64, stepped: Stepped) -> Stop
    ensures { (h : Meant) → asked place (stepped_as stepped h) ≡ result }
{
    match stepped {
        Stepped::Ends(Stop::Unclean(at, cause)) => Stop::Unclean(at, cause),
        _ => Stop::Unclean(place, Cause::Steps),
    }
}

/// The stop of the next step. The step is tried in a copy of the memory.
fn asked(state: &State<Word, Flag>, space: &MarkedMemory) -> Result<Stop, AllocError>
    requires { space.now.lent ≡ None }
    ensures { IfOk result (λ stop. Asks stop state.now space.now) }
{
    let mut state = *state;
    let place = state.place;
    let mut tried = space.copy()?;
    let stepped = step(&mut state, &mut tried)?;
    Ok(asked_stop(place, stepped))
}

/// Steps up to a stop or a look, at most `count` times. The step after the last one is tried for its cause, and has no
/// effect. Fails only when memory runs out; no clause says what is then left of the thread.
pub(crate) fn run(
    state: &mut State<Word, Flag>,
    space: &mut MarkedMemory,
    count: u64,
) -> Result<Ran, AllocError>
    requires { space.old.lent ≡ None }
    ensures { IfOk result (λ ran. RunsOn count state.old space.old ran state.new space.new) }
{
    let mut left = count;
    loop {
        if state.place == RETURN {
            let answer = MarkedValues::number_of(state.registers.rax);
            return Ok(Ran::Over((returned(answer, state.place), left)));
        }
        if left == 0 {
            return Ok(Ran::Over((asked(state, space)?, left)));
        }
        match step(state, space)? {
            Stepped::Goes => left -= 1,
            Stepped::Looks => return Ok(Ran::Waits(left)),
            Stepped::Ends(stop) => return Ok(Ran::Over((stop, left))),
        }
    }
}

/// How a call goes on after its sequence was done, or stopped.
fn as_resumed(done: Result<(), Stop>) -> Resumed
    ensures { result ≡ resumed_of done }
{
    match done {
        Ok(()) => Resumed::Goes,
        Err(stop) => Resumed::Stops(stop),
    }
}

/// Does a sequence after its look: makes the thread's block of the variable's instance, if there is none.
fn resume_at(
    sequence: &Sequence,
    state: &mut State<Word, Flag>,
    space: &mut MarkedMemory,
) -> Result<Resumed, AllocError>
    ensures { IfOk result (λ resumed.
        ResumesAs state.old space.old resumed state.new space.new (sequence_resumed sequence.now state.old space.old)) }
{
    match space.numbered(sequence.target) {
        None => Ok(Resumed::Goes),
        Some(instance) => {
            space.reach(instance.number)?;
            Ok(as_resumed(do_sequence(sequence, state, space)))
        }
    }
}

/// Does the sequence at which a call waits, after its look. Fails only when memory runs out; no clause says what is
/// then left of the thread.
pub(crate) fn resume(
    state: &mut State<Word, Flag>,
    space: &mut MarkedMemory,
) -> Result<Resumed, AllocError>
    requires { space.old.lent ≡ None }
    ensures { IfOk result (λ resumed. Resumes state.old space.old resumed state.new space.new) }
{
    match (space.owner(state.place), space.sequence(state.place)) {
        (None, _) => Ok(Resumed::Unloaded),
        (Some(_), None) => Ok(Resumed::Goes),
        (Some(_), Some(sequence)) => resume_at(&sequence, state, space),
    }
}
