//! What a thread asks the shared history at a turn.

ghost use Rattle.std.specs.Prelude.{◌≡◌, ◌∷◌, [], IfOk, OnOk};
ghost use Rattle.shared_modules.specs.Passes.{IsSamePass};
ghost use Rattle.racing_thread.specs.Answers.{Answers, Looks};

use job_turns::{Ask, LineAnswer, refused_close, refused_open};
use module_table::Event;
use shared_modules::{Pass, Shared};
use std::alloc::AllocError;
use std::sync::Wait;

/// The shared history's answer to a turn, and the event that the turn added to it, if there is one.
#[derive(Clone, Copy)]
pub(crate) struct Answered {
    pub(crate) answer: Option<LineAnswer>,
    pub(crate) own: Option<Event>,
}

/// A look: one load, and the lock only if there is something new.
fn look<R: Wait>(
    rt: &R,
    shared: &Shared,
    pass: &mut Pass,
    events: &mut Vec<Event>,
) -> Result<(), AllocError>
    requires of { pass.old.shared ≡ shared.now }
    requires all { events.old.items ≡ pass.old.seen }
    ensures looks { OnOk result (Looks pass.old events.new.items pass.new) }
    ensures same { IsSamePass pass.old pass.new }
{
    pass.history_is_lawful();
    if shared.newer(pass) {
        shared.catch_up(rt, pass, events)?;
    }
    Ok(())
}

/// Answers what a thread asks at its turn. Adds to the list what the pass lacked of the history, without the thread's
/// own event. The only error is out of memory.
pub(crate) fn answer<R: Wait>(
    rt: &R,
    shared: &Shared,
    pass: &mut Pass,
    thread: u32,
    ask: Ask,
    events: &mut Vec<Event>,
) -> Result<Answered, AllocError>
    requires of { pass.old.shared ≡ shared.now }
    requires alone { pass.old.threads ≡ thread ∷ [] }
    requires all { events.old.items ≡ pass.old.seen }
    ensures answers { IfOk result (λ answered.
        Answers thread ask pass.old events.new.items pass.new answered.answer answered.own) }
    ensures same { IsSamePass pass.old pass.new }
{
    match ask {
        Ask::Done | Ask::Look(_) => {
            look(rt, shared, pass, events)?;
            Ok(Answered {
                answer: None,
                own: None,
            })
        }
        Ask::Opens(line, image) => match shared.open(rt, pass, thread, line, image, events) {
            Ok(opened) => Ok(Answered {
                answer: Some(LineAnswer::Opened(Ok(opened))),
                own: Some(Event::open(thread, line, image)),
            }),
            Err(refusal) => Ok(Answered {
                answer: Some(LineAnswer::Opened(Err(refused_open(refusal)?))),
                own: None,
            }),
        },
        Ask::Closes(line, image) => match shared.close(rt, pass, thread, line, image, events) {
            Ok(closed) => Ok(Answered {
                answer: Some(LineAnswer::Closed(Ok(closed))),
                own: Some(Event::close(thread, line, image)),
            }),
            Err(refusal) => Ok(Answered {
                answer: Some(LineAnswer::Closed(Err(refused_close(refusal)?))),
                own: None,
            }),
        },
    }
}
