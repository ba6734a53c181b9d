//! One thread of a job, turn by turn.

ghost use Rattle.std.specs.Prelude.{◌≡◌, ◌≤◌, ℕ, [], false, None, IfOk};
ghost use Rattle.module_table.specs.Past.{start};
ghost use Rattle.job_check.specs.Histories.{IsHistory, infos_of, last_of};
ghost use Rattle.job_check.specs.Lines.{CanBegin};
ghost use Rattle.job_check.specs.Progress.{CanTurn, Share, Turned};
ghost use Rattle.job_check.specs.Standing.{GoesOn, IsFirstRun, is_done, run_after};
ghost use Rattle.job_check.specs.Taking.{BeginsTo, ResumesTo, RunsTo};

use crate::lines::{Started, begin};
use crate::live::see;
use crate::running::{Ran, resume, run};
use crate::verdict::unclean_stop;
use guest_operands::State;
use job_meaning::{Flag, Word};
use job_text::{Job, ThreadLine};
use marked_memory::{MarkedMemory, OwnedRange};
use meant_images::MeantImages;
use module_table::ModuleTable;
use std::alloc::{AllocError, Global};
use std::marker::Model;
use std::mem;
use thread_turns::{Ended, MOST_EVENTS, Resumed, TurnTaker};
use whole_meaning::UncleanStep;

/// A call that waits for its next look.
#[derive(Clone, Copy, Debug)]
pub(crate) struct Waiting {
    pub(crate) state: State<Word, Flag>,
    /// The steps that it has left. The step that looks is one of them.
    pub(crate) steps: u64,
}

/// How a turn ends: the line is over, unclean at this step or clean, or its call waits for its next look.
pub(crate) type Taken = Ended<Option<UncleanStep>, Waiting>;

/// The lines of a thread, and their first unclean step so far.
type Script<'j> = thread_turns::Script<'j, Option<UncleanStep>>;

/// One thread of a job between two turns. Contracts see a `Run`.
#[derive(Drop)]
pub(crate) struct MeantThread<'j, 'm> {
    script: Script<'j>,
    space: MarkedMemory<'m>,
    call: Option<Waiting>,
}

impl<'j, 'm> Model for MeantThread<'j, 'm> {
    ghost use Rattle.job_check.specs.Standing.{Run};

    ghost Value = { Run };

    ghost use Rattle.job_check.specs.Threads.{HoldsRun, run_of};

    ghost view = { run_of };

    ghost invariant = { HoldsRun };
}

// ** after a look

/// Runs a call up to its end or its next look, for at most `count` steps.
fn run_to(
    space: &mut MarkedMemory,
    mut state: State<Word, Flag>,
    line: u32,
    count: u64,
) -> Result<Taken, AllocError>
    requires { space.old.lent ≡ None }
    ensures { IfOk result (λ taken. RunsTo line count state space.old taken space.new) }
{
    let ran = run(&mut state, space, count)?;
    match ran {
        Ran::Over((stop, _)) => Ok(Taken::Over(unclean_stop(space.thread(), line, stop))),
        Ran::Waits(steps) => Ok(Taken::Waits(Waiting { state, steps })),
    }
}

/// Begins a line, whose first look is taken here, and runs its call.
fn take_begin(
    alloc: Global,
    space: &mut MarkedMemory,
    table: &mut ModuleTable,
    number: u32,
    line: &ThreadLine,
    fuel: u64,
) -> Result<Taken, AllocError>
    requires ready { CanBegin space.old table.old }
    requires lent { space.old.lent ≡ None }
    ensures { IfOk result (λ taken.
        BeginsTo fuel (record { number = number; told = line.now }) table.old space.old taken table.new space.new) }
{
    let started = begin(alloc, space, table, number, line)?;
    match started {
        Started::Says(unclean) => Ok(Taken::Over(unclean)),
        Started::Calls(state) => run_to(space, state, number, fuel),
    }
}

/// Continues a call that waited, at its next look.
fn take_resume(space: &mut MarkedMemory, line: u32, call: Waiting) -> Result<Taken, AllocError>
    requires { space.old.lent ≡ None }
    ensures { IfOk result (λ taken. (fuel : ℕ) → ResumesTo fuel line call space.old taken space.new) }
{
    let Waiting { mut state, steps } = call;
    let resumed = resume(&mut state, space)?;
    match resumed {
        Resumed::Goes => run_to(space, state, line, steps.saturating_sub(1)),
        Resumed::Unloaded => Ok(Taken::Over(None)),
        Resumed::Stops(stop) => Ok(Taken::Over(unclean_stop(space.thread(), line, stop))),
    }
}

// ** turns

/// What all threads share: the state that the history leaves, and the data of all instances.
#[derive(Drop)]
pub(crate) struct Common {
    pub(crate) table: ModuleTable,
    pub(crate) ranges: Vec<OwnedRange>,
}

impl<'j, 'm> TurnTaker<Common> for MeantThread<'j, 'm> {
    ghost is_done = { is_done };

    ghost can_turn = { CanTurn };

    ghost turned = { Turned };

    ghost fit = { Share };

    fn is_done(&self) -> bool {
        let script = &self.script;
        match &self.call {
            Some(_) => false,
            None => script.lines.len() <= script.begun,
        }
    }

    /// Looks at the whole history, and takes the steps up to the next look. Meanwhile the thread has the data that all
    /// threads share. An accepted open or close enters the history.
    fn turn(&mut self, shared: &mut Common) -> Result<(), AllocError> {
        if shared.table.seen() >= MOST_EVENTS {
            return Err(AllocError);
        }
        let alloc = self.script.alloc;
        let handed = mem::replace(&mut shared.ranges, Vec::new(alloc));
        see(alloc, &mut self.space, &shared.table, handed)?;
        // After a turn that failed, no clause says what is lent.
        self.space.lend(None);
        let taken = self.go_on(&mut shared.table)?;
        shared.ranges = self.space.take_data()?;
        self.end(taken);
        Ok(())
    }
}

impl<'j, 'm> MeantThread<'j, 'm> {
    /// A thread of a job, numbered from 1 to 64, before its first line. Fails only when memory runs out; 2^31 lines
    /// count as that, where a job that was read has at most 65,536.
    pub(crate) fn new(
        alloc: Global,
        thread: u32,
        job: &'j Job,
        images: &'m MeantImages<'m>,
        table: &ModuleTable,
    ) -> Result<MeantThread<'j, 'm>, AllocError>
        requires low { 1 ≤ thread }
        requires high { thread ≤ 64 }
        requires legal { IsHistory images.now [] }
        requires start { table.now ≡ start (infos_of images.now) (last_of images.now) }
        ensures { IfOk result (IsFirstRun thread images.now job.now) }
    {
        let script = Script::new(alloc, thread, job, None)?;
        let mut space = MarkedMemory::new(alloc, thread, images)?;
        see(alloc, &mut space, table, Vec::new(alloc))?;
        Ok(MeantThread {
            script,
            space,
            call: None,
        })
    }

    /// The thread's first unclean step so far.
    pub(crate) fn unclean(&self) -> Option<UncleanStep>
        ensures { result ≡ self.now.unclean }
    {
        let script = &self.script;
        script.said
    }

    /// Begins the next line, or continues the call that waits. The thread has looked, and has the data.
    fn go_on(&mut self, table: &mut ModuleTable) -> Result<Taken, AllocError>
        requires going { is_done self.old ≡ false }
        requires ready { CanBegin self.old.kept table.old }
        requires lent { self.old.kept.lent ≡ None }
        ensures { IfOk result (λ taken. GoesOn self.old.call self.old table.old taken self.new table.new) }
    {
        match self.call {
            Some(call) => take_resume(&mut self.space, self.script.begun as u32, call),
            None => {
                let line = &self.script.lines[self.script.begun];
                self.script.begun += 1;
                let number = self.script.begun as u32;
                take_begin(
                    self.script.alloc,
                    &mut self.space,
                    table,
                    number,
                    line,
                    self.script.fuel,
                )
            }
        }
    }

    /// Ends a turn. Of what a line that is over was unclean for, the thread's first counts.
    fn end(&mut self, taken: Taken)
        ensures { self.new ≡ run_after self.old taken }
    {
        self.call = match taken {
            Taken::Over(found) => {
                self.script.said = self.script.said.or(found);
                None
            }
            Taken::Waits(call) => Some(call),
        };
    }
}
