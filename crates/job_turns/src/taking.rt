//! The steps of a turn after its look.

ghost use Rattle.std.specs.Prelude.{◌≡◌, ◌≤◌, ◌<◌, ◌+◌, ◌*◌, ◌^◌, IfOk, OnErr, Some};
ghost use Rattle.guest_machine.specs.Clean.{IsClean};
ghost use Rattle.thread_blocks.specs.MachineTurns.{answer_of};
ghost use Rattle.thread_blocks.specs.Turns.{Stopped};
ghost use Rattle.job_turns.specs.Asking.{answer_to, ask_by};
ghost use Rattle.job_turns.specs.Taking.{BeginsTo, CanBegin, KeepsJob, ResumesTo, RunsTo};

use crate::asking::LineAnswer;
use crate::lines::{Started, begin};
use crate::running::{Ran, answer_asked, run_on};
use guest_arithmetic::Plain;
use guest_machine::{Machine, Stop};
use job_text::ThreadLine;
use std::alloc::AllocError;
use thread_blocks::Asked;
use thread_space::{JobNames, ThreadSpace};
use thread_turns::{Ended, Resumed};
use transcript_text::{LineFault, Outcome};

/// How a turn ends: the line is over, or its call waits for its next look.
pub(crate) type Taken = Ended<Outcome, (Machine<Plain>, Asked)>;

/// A stop, as the transcript shows it.
fn outcome_of(stop: Stop) -> Outcome
    requires { IsClean stop }
    ensures { answer_of (Stopped stop) ≡ Some result }
{
    match stop {
        Stop::Returned(number) => Outcome::Returned(number),
        Stop::Address(_) | Stop::Look(_) => Outcome::Fault(LineFault::Address),
        // A step over plain numbers always has a meaning.
        Stop::Code(_) | Stop::Unclean(_, _) => Outcome::Fault(LineFault::Code),
        Stop::Steps(_) => Outcome::Fault(LineFault::Steps),
    }
}

/// Runs a call up to its end or its next look, for at most `limit` steps since it began.
fn run_to(space: &mut ThreadSpace, mut machine: Machine<Plain>, limit: u64) -> Taken
    requires { machine.taken ≤ limit }
    ensures { RunsTo limit machine space.old result space.new }
{
    space.history_is_lawful();
    match run_on(space, &mut machine, limit) {
        Ran::Over(stop) => Taken::Over(outcome_of(stop)),
        Ran::Waits(asked) => Taken::Waits((machine, asked)),
    }
}

/// Begins a line after its first look, and runs its call.
pub(crate) fn take_begin(
    space: &mut ThreadSpace,
    names: &JobNames,
    number: u32,
    line: &ThreadLine,
    answer: Option<LineAnswer>,
    fuel: u64,
) -> Result<Taken, AllocError>
    requires images { names.now ≡ space.old.vector.images }
    requires fuel { fuel < 2 ^ 32 }
    requires ready { CanBegin space.old }
    requires answer { answer ≡ answer_to space.old.vector.past (ask_by number line.now.image line.now.action) }
    ensures begins { IfOk result
        (λ taken. BeginsTo fuel (record { number = number; told = line.now }) space.old taken space.new) }
    ensures err { OnErr result (KeepsJob space.old space.new) }
{
    match begin(space, names, number, line, answer)? {
        Started::Says(outcome) => Ok(Taken::Over(outcome)),
        Started::Calls(machine) => Ok(run_to(space, machine, 4 * fuel)),
    }
}

/// Goes on with a call that asked for a block, after its next look.
pub(crate) fn take_resume(
    space: &mut ThreadSpace,
    mut machine: Machine<Plain>,
    asked: Asked,
    fuel: u64,
) -> Result<Taken, AllocError>
    requires fuel { fuel < 2 ^ 32 }
    requires taken { machine.taken < 4 * fuel }
    ensures resumes { IfOk result (λ taken. ResumesTo fuel machine asked space.old taken space.new) }
    ensures err { OnErr result (space.new ≡ space.old) }
{
    match answer_asked(space, &mut machine, asked)? {
        Resumed::Goes => Ok(run_to(space, machine, 4 * fuel)),
        Resumed::Stops(stop) => Ok(Taken::Over(outcome_of(stop))),
        Resumed::Unloaded => Ok(Taken::Over(Outcome::Fault(LineFault::Unloaded))),
    }
}
