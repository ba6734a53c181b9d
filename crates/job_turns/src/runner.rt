//! A thread's lines, turn by turn.

ghost use Rattle.std.specs.Prelude.{◌≡◌, ◌≤◌, ◌<◌, ◌+◌, ◌*◌, ◌^◌, None, true, false, IfOk, OnOk, length, option_map};
ghost use Rattle.module_table.specs.Past.{after, is_legal};
ghost use Rattle.thread_vector.specs.Holding.{IsLeftBy};
ghost use Rattle.job_turns.specs.Alone.{TakesOwnTurn, has_data};
ghost use Rattle.job_turns.specs.Asking.{answer_to, ask_by, ask_next};
ghost use Rattle.job_turns.specs.Standing.{IsFirstRun, IsGoing, TakesTurn, ask_of};
ghost use Rattle.job_turns.specs.Taking.{BeginsLine, CanBegin, HasStepsLeft, ResumesLine, run_after};

use crate::asking::{Ask, LineAnswer};
use crate::taking::{Taken, take_begin, take_resume};
use guest_arithmetic::Plain;
use guest_machine::Machine;
use job_text::{Action, Job, ThreadLine};
use module_data::Data;
use module_table::Event;
use std::alloc::{AllocError, Global};
use std::marker::Model;
use std::mem;
use thread_blocks::Asked;
use thread_space::{JobNames, ThreadSpace};
use transcript_text::{Line, Points};

/// A call that waits for its next look.
#[derive(Drop)]
pub struct Pending {
    machine: Machine<Plain>,
    asked: Asked,
    /// The number of events that each of its looks saw so far.
    points: Vec<u64>,
}

impl Model for Pending {
    ghost use Rattle.job_turns.specs.Standing.{Waiting};

    ghost Value = { Waiting };

    ghost view = { λ p. record { machine = p.machine; asked = p.asked; points = p.points.items } };
}

/// One thread of a job, which takes its turns. Contracts see a `Run`.
#[derive(Drop)]
pub struct Runner<'j, 'n, 'm> {
    script: Script<'j>,
    names: &'n JobNames<'m>,
    space: ThreadSpace<'m>,
    call: Option<Pending>,
}

impl<'j, 'n, 'm> Model for Runner<'j, 'n, 'm> {
    ghost use Rattle.job_turns.specs.Standing.{Run};

    ghost Value = { Run };

    ghost use Rattle.job_turns.specs.Runners.{HoldsRun, run_of};

    ghost view = { run_of };

    ghost invariant = { HoldsRun };
}

/// What a line asks the registry, by its number.
fn ask_by(number: u32, line: &ThreadLine) -> Ask
    ensures { result ≡ ask_by number line.now.image line.now.action }
{
    match &line.action {
        Action::Open => Ask::Opens(number, line.image),
        Action::Close => Ask::Closes(number, line.image),
        Action::Call { .. } | Action::Peek { .. } => Ask::Look(number),
    }
}

/// What the line at an index asks, if there is one.
fn ask_next(number: u32, line: Option<&ThreadLine>) -> Ask
    ensures { result ≡ ask_next number (option_map (λ x. x.now) line.entry) }
{
    match line {
        Some(line) => ask_by(number, line),
        None => Ask::Done,
    }
}

/// The lines of a thread, and those of the transcript that are over.
type Script<'j> = thread_turns::Script<'j, Vec<Line>>;

impl<'j, 'n, 'm> Runner<'j, 'n, 'm> {
    /// A thread of a job, from 1 to 64, before its first line. The only error is out of memory; 2^31 lines or more
    /// give that error too, but a job that was read has at most 65,536.
    pub fn new(
        alloc: Global,
        thread: u32,
        job: &'j Job,
        names: &'n JobNames<'m>,
    ) -> Result<Runner<'j, 'n, 'm>, AllocError>
        requires low { 1 ≤ thread }
        requires high { thread ≤ 64 }
        ensures { IfOk result (λ r. IsFirstRun thread names.now job.now r) }
    {
        let script = Script::new(alloc, thread, job, Vec::new(alloc))?;
        let space = ThreadSpace::new(alloc, thread, names.modules())?;
        space.history_is_lawful();
        Ok(Runner {
            script,
            names,
            space,
            call: None,
        })
    }

    /// The thread, from 1.
    pub fn thread(&self) -> u32
        ensures { result ≡ self.now.kept.vector.thread }
    {
        self.space.thread()
    }

    /// How many events the thread has seen, its own among them.
    pub fn seen(&self) -> u64
        ensures value { result ≡ self.now.kept.vector.past.seen }
        ensures left { IsLeftBy self.now.kept.vector.images self.now.kept.vector.past }
    {
        self.space.seen()
    }

    /// What the thread does at its next turn.
    pub fn asks(&self) -> Ask
        ensures { result ≡ ask_of self.now }
    {
        let script = &self.script;
        match &self.call {
            Some(_) => Ask::Look(script.begun as u32),
            None => ask_next(script.begun as u32 + 1, script.lines.get(script.begun)),
        }
    }

    /// Ends a turn. `points` are the event counts that the line's looks saw.
    fn end(&mut self, points: Vec<u64>, taken: Taken) -> Result<(), AllocError>
        requires { HasStepsLeft (4 * self.old.fuel) taken }
        ensures { OnOk result (self.new ≡ run_after self.old.lines self.old.begun self.old.fuel self.old.said
            points.items taken self.old.kept) }
    {
        self.call = match taken {
            Taken::Over(outcome) => {
                let points = Points::new(points);
                self.script.said.push(Line { points, outcome })?;
                None
            }
            Taken::Waits((machine, asked)) => Some(Pending {
                machine,
                asked,
                points,
            }),
        };
        Ok(())
    }

    /// Begins the next line, after the thread looked and while it holds the data.
    fn begin_line(
        &mut self,
        line: &ThreadLine,
        answer: Option<LineAnswer>,
        pieces: &mut Data,
    ) -> Result<(), AllocError>
        requires begun { self.old.begun < length self.old.lines }
        requires ready { CanBegin self.old.kept }
        requires answer { answer ≡ answer_to self.old.kept.vector.past
            (ask_by (self.old.begun + 1) line.now.image line.now.action) }
        ensures { OnOk result (BeginsLine self.old.lines self.old.begun self.old.fuel line.now
            self.old.kept self.old.said self.new pieces.new) }
    {
        let points = vec![in self.script.alloc; self.space.seen()]?;
        self.script.begun += 1;
        let number = self.script.begun as u32;
        let taken = take_begin(
            &mut self.space,
            self.names,
            number,
            line,
            answer,
            self.script.fuel,
        )?;
        *pieces = self.space.take_data();
        self.end(points, taken)
    }

    /// Goes on with a call, after the thread looked and while it holds the data.
    fn resume_line(&mut self, call: Pending, pieces: &mut Data) -> Result<(), AllocError>
        requires { call.machine.taken < 4 * self.old.fuel }
        ensures { OnOk result (ResumesLine self.old.lines self.old.begun self.old.fuel
            self.old.kept self.old.said call self.new pieces.new) }
    {
        let Pending {
            machine,
            asked,
            mut points,
        } = call;
        points.push(self.space.seen())?;
        let taken = take_resume(&mut self.space, machine, asked, self.script.fuel)?;
        *pieces = self.space.take_data();
        self.end(points, taken)
    }

    /// Takes the thread's next turn as [`Runner::turn_with`] does. If memory runs out in the middle of it, no clause says
    /// what is left of the line and the data.
    pub(crate) fn advance(
        &mut self,
        events: &[Event],
        answer: Option<LineAnswer>,
        pieces: &mut Data,
    ) -> Result<(), AllocError>
        requires going { IsGoing (ask_of self.old) }
        requires legal { is_legal self.old.kept.vector.past events.now ≡ true }
        requires room { self.old.kept.vector.past.seen + length events.now + 1 < 2 ^ 62 }
        requires pieces { length pieces.old ≡ length self.old.kept.vector.images.images + 1 }
        requires answer { answer ≡ answer_to (after self.old.kept.vector.past events.now) (ask_of self.old) }
        ensures taken { OnOk result (TakesTurn self.old events.now pieces.old self.new pieces.new) }
        ensures pieces { OnOk result (length pieces.new ≡ length pieces.old) }
    {
        let shared = mem::replace(pieces, Data::none(self.script.alloc));
        self.space.put_data(shared);
        self.space.look(events)?;
        self.space.history_is_lawful();
        match self.call.take() {
            Some(call) => self.resume_line(call, pieces),
            None => {
                let lines = self.script.lines;
                let line = &lines[self.script.begun];
                self.begin_line(line, answer, pieces)
            }
        }
    }

    /// Takes the thread's next turn: a look at the events that it has not seen, and the steps up to its next look. The
    /// thread holds the data that all threads share. An open or a close is answered as the registry of the history
    /// answers it after those events. The only error is out of memory: it drops the runner, and says nothing of the
    /// data.
    pub fn turn_with(
        self,
        events: &[Event],
        answer: Option<LineAnswer>,
        pieces: &mut Data,
    ) -> Result<Runner<'j, 'n, 'm>, AllocError>
        requires going { IsGoing (ask_of self) }
        requires legal { is_legal self.kept.vector.past events.now ≡ true }
        requires room { self.kept.vector.past.seen + length events.now + 1 < 2 ^ 62 }
        requires pieces { length pieces.old ≡ length self.kept.vector.images.images + 1 }
        requires answer { answer ≡ answer_to (after self.kept.vector.past events.now) (ask_of self) }
        ensures taken { IfOk result (λ r. TakesTurn self.entry events.now pieces.old r pieces.new) }
        ensures pieces { OnOk result (length pieces.new ≡ length pieces.old) }
    {
        let mut runner = self;
        runner.advance(events, answer, pieces)?;
        Ok(runner)
    }

    /// Takes the thread's next turn as [`Runner::turn_with`] does, in a job where no image has data that threads
    /// share. So only the history goes from turn to turn, and threads that run at once can take their turns.
    pub fn turn(
        self,
        events: &[Event],
        answer: Option<LineAnswer>,
    ) -> Result<Runner<'j, 'n, 'm>, AllocError>
        requires going { IsGoing (ask_of self) }
        requires legal { is_legal self.kept.vector.past events.now ≡ true }
        requires room { self.kept.vector.past.seen + length events.now + 1 < 2 ^ 62 }
        requires alone { has_data self.kept.vector.images ≡ false }
        requires answer { answer ≡ answer_to (after self.kept.vector.past events.now) (ask_of self) }
        ensures { IfOk result (λ r. TakesOwnTurn self.entry events.now r) }
    {
        let mut none = Data::new(self.script.alloc, self.names.modules())?;
        self.turn_with(events, answer, &mut none)
    }

    /// The thread's lines, as far as they are over.
    pub fn lines(self) -> Vec<Line>
        ensures { result.items ≡ self.entry.said }
    {
        self.script.said
    }
}
