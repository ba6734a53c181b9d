//! The turns of a thread, up to its end.

ghost use Rattle.std.specs.Prelude.{◌≡◌, ◌≤◌, ◌∷◌, [], false, IfOk};
ghost use Rattle.loaded_modules.specs.Images.{infos, last_offset};
ghost use Rattle.shared_modules.specs.Passes.{IsSamePass};
ghost use Rattle.job_turns.specs.Alone.{has_data};
ghost use Rattle.job_turns.specs.Standing.{IsGoing, ask_of};
ghost use Rattle.racing_thread.specs.Answers.{IsLevel, TakesRacingTurn};
ghost use Rattle.racing_thread.specs.Racing.{HasRaced};

use crate::gates::{Gate, pass_gate};
use crate::looks::answer;
use job_text::Job;
use job_turns::Runner;
use module_table::Event;
use shared_modules::{Pass, Shared};
use std::alloc::{AllocError, Global};
use std::sync::Wait;
use thread_space::JobNames;
use thread_turns::MOST_EVENTS;
use transcript_text::Line;

/// The result of one thread: its lines, and all events that it has seen.
#[derive(Drop)]
pub struct Raced {
    pub lines: Vec<Line>,
    pub events: Vec<Event>,
}

/// What a thread that races is given: the job, the names of its images, and the gate for each line.
pub struct Course<'j, 'n, 'm, 'g, G> {
    pub job: &'j Job,
    pub names: &'n JobNames<'m>,
    pub gate: &'g G,
}

/// Takes a turn of a thread that has something left to do. The list holds what its pass has seen.
fn take_turn<'j, 'n, 'm, R: Wait>(
    rt: &R,
    shared: &Shared,
    pass: &mut Pass,
    events: &mut Vec<Event>,
    runner: Runner<'j, 'n, 'm>,
) -> Result<Runner<'j, 'n, 'm>, AllocError>
    requires of { pass.old.shared ≡ shared.now }
    requires going { IsGoing (ask_of runner) }
    requires level { IsLevel runner pass.old events.old.items }
    ensures takes { IfOk result (TakesRacingTurn runner.entry pass.old events.new.items pass.new) }
    ensures same { IsSamePass pass.old pass.new }
{
    let known = events.as_slice().len();
    let answered = answer(rt, shared, pass, runner.thread(), runner.asks(), events)?;
    if events.as_slice().len() as u64 >= MOST_EVENTS {
        return Err(AllocError);
    }
    let runner = runner.turn(&events.as_slice()[known..], answered.answer)?;
    if let Some(own) = answered.own {
        events.push(own)?;
    }
    Ok(runner)
}

/// Takes the turns of a thread, up to its end.
fn take_turns<R: Wait, G: Gate>(
    rt: &R,
    alloc: Global,
    course: &Course<'_, '_, '_, '_, G>,
    shared: &Shared,
    pass: &mut Pass,
    thread: u32,
) -> Result<Raced, AllocError>
    requires of { pass.old.shared ≡ shared.now }
    requires alone { pass.old.threads ≡ thread ∷ [] }
    requires fresh { pass.old.seen ≡ [] }
    requires low { 1 ≤ thread }
    requires high { thread ≤ 64 }
    requires images { shared.now.images ≡ record { infos = infos course.now.names.now; last_offset = last_offset course.now.names.now } }
    requires data { has_data course.now.names.now ≡ false }
    ensures raced { IfOk result (λ raced.
        HasRaced course.now.names.now course.now.job.now thread pass.old pass.new raced.lines.items raced.events.items) }
    ensures same { IsSamePass pass.old pass.new }
{
    pass.history_is_lawful();
    let mut events = Vec::new(alloc);
    let mut runner = Runner::new(alloc, thread, course.job, course.names)?;
    let mut line = 0;
    for _ in rt.forever() {
        let ask = runner.asks();
        line = pass_gate(course.gate, thread, line, ask);
        if ask.is_done() {
            let lines = runner.lines();
            return Ok(Raced { lines, events });
        }
        runner = take_turn(rt, shared, pass, &mut events, runner)?;
    }
    unreachable!()
}

/// Takes the turns of one thread of a job, from 1 to 64, each at the history as it finds it, while other threads take
/// theirs. Returns the pass in any case. The only error is out of memory; opens and closes accepted before it stay in
/// the history.
pub fn race_thread<R: Wait, G: Gate>(
    rt: &R,
    alloc: Global,
    course: &Course<'_, '_, '_, '_, G>,
    shared: &Shared,
    mut pass: Pass,
    thread: u32,
) -> (Pass, Result<Raced, AllocError>)
    requires of { pass.shared ≡ shared.now }
    requires alone { pass.threads ≡ thread ∷ [] }
    requires fresh { pass.seen ≡ [] }
    requires low { 1 ≤ thread }
    requires high { thread ≤ 64 }
    requires images { shared.now.images ≡ record { infos = infos course.now.names.now; last_offset = last_offset course.now.names.now } }
    requires data { has_data course.now.names.now ≡ false }
    ensures same { (result.0.shared ≡ shared.now) × (result.0.threads ≡ thread ∷ []) }
    ensures raced { IfOk result.1 (λ raced.
        HasRaced course.now.names.now course.now.job.now thread pass result.0 raced.lines.items raced.events.items) }
{
    let raced = take_turns(rt, alloc, course, shared, &mut pass, thread);
    (pass, raced)
}
