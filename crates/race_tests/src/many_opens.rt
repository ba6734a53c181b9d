//! 64 threads that open, call and close one module, each 100 times, with nothing that holds them back.
//!
//! No two runs need print the same, so the test expects no fixed transcript. It replays each run's own events one
//! after another. Each line must have the answer that follows from the module's state after the events that the line's
//! looks saw:
//!
//! ```text
//! line     the module, and the answer
//! open     anything: `opened`, as the instance that this open, event p, leaves; not loaded and 4,094 times loaded
//!          before: `refused full`, since with the program there would be 4,096 instances
//! call     not open: `refused not-open`; at the second look the same instance still: 5, the thread's own copy of a
//!          variable that nobody writes; another one, or none: `fault unloaded`
//! close    open: `closed`, as event p; not open: `refused not-open`
//! ```
//!
//! An accepted line that saw p events is event p, by its thread and its number. There are as many events as accepted
//! lines, so each of those stands in the history once, and nothing else does. The numbers of a thread never fall, and
//! after an accepted line at p they are above p.

use crate::images::{plug_image, program_image};
use crate::loading::{loaded, race};
use module_table::Event;
use racing_thread::NoGate;
use std::alloc::{AllocError, Global};
use std::test::Fail;
use transcript_text::{Line, LineFault, LineRefusal, Outcome};

const HEAD: &str = "image app exe app.o
image plug late plug.o
threads 64
";

/// A job with 64 threads that each open, call and close the module 100 times.
fn job_text(alloc: Global) -> Result<String, AllocError> {
    let mut text = String::from_str(alloc, HEAD)?;
    for thread in 1..65_u32 {
        for _ in 0..100_u32 {
            let lines = format!(in alloc;
                "{thread} open plug\n{thread} call plug f 0 0 0\n{thread} close plug\n"
            )?;
            text.push_str(lines.as_str())?;
        }
    }
    Ok(text)
}

/// The module after some events: how many opens of it are not closed, and how often it was loaded.
#[derive(Clone, Copy)]
struct Left {
    opens: u32,
    loads: u32,
}

impl Left {
    fn after(self, event: &Event) -> Left {
        if !event.opens {
            return Left {
                opens: self.opens.saturating_sub(1),
                loads: self.loads,
            };
        }
        let more = if self.opens == 0 { 1 } else { 0 };
        Left {
            opens: self.opens.saturating_add(1),
            loads: self.loads.saturating_add(more),
        }
    }

    /// The number of the module's last instance. The program is instance 1.
    fn instance(self) -> u32 {
        self.loads.saturating_add(1)
    }
}

/// The module after each front of a history, the empty one first.
fn replayed(alloc: Global, events: &[Event]) -> Result<Vec<Left>, AllocError> {
    let mut left = Left { opens: 0, loads: 0 };
    let mut all = vec![in alloc; left]?;
    for event in events {
        left = left.after(event);
        all.push(left)?;
    }
    Ok(all)
}

/// The module as look `look` of a line found it, counted from 0.
fn found(all: &[Left], said: &Line, look: usize) -> Option<Left> {
    let point = said.points.as_slice().get(look)?;
    all.get(*point as usize).copied()
}

fn fits_open(all: &[Left], said: &Line) -> bool {
    let Some(left) = found(all, said, 0) else {
        return false;
    };
    match said.outcome {
        Outcome::Opened(instance) => {
            instance == left.instance().saturating_add(u32::from(left.opens == 0))
        }
        Outcome::Refused(LineRefusal::Full) => left.opens == 0 && left.loads == 4_094,
        _ => false,
    }
}

fn fits_call(all: &[Left], said: &Line) -> bool {
    let Some(left) = found(all, said, 0) else {
        return false;
    };
    let Some(then) = found(all, said, 1) else {
        return left.opens == 0 && matches!(said.outcome, Outcome::Refused(LineRefusal::NotOpen));
    };
    let stayed = then.opens > 0 && then.loads == left.loads;
    match said.outcome {
        Outcome::Returned(5) => left.opens > 0 && stayed,
        Outcome::Fault(LineFault::Unloaded) => left.opens > 0 && !stayed,
        _ => false,
    }
}

fn fits_close(all: &[Left], said: &Line) -> bool {
    let Some(left) = found(all, said, 0) else {
        return false;
    };
    match said.outcome {
        Outcome::Closed => left.opens > 0,
        Outcome::Refused(LineRefusal::NotOpen) => left.opens == 0,
        _ => false,
    }
}

/// The most looks that a line takes.
fn most_looks(line: u32) -> usize {
    if line % 3 == 2 { 2 } else { 1 }
}

/// Whether a line has the answer that follows from its looks.
fn fits(all: &[Left], line: u32, said: &Line) -> bool {
    if said.points.as_slice().len() > most_looks(line) {
        return false;
    }
    match line % 3 {
        1 => fits_open(all, said),
        2 => fits_call(all, said),
        _ => fits_close(all, said),
    }
}

fn is_accepted(said: &Line) -> bool {
    matches!(said.outcome, Outcome::Opened(_) | Outcome::Closed)
}

/// The least number of events that the next line must see, if this line's looks saw at least `seen` and never fewer
/// from one to the next.
fn seen_after(mut seen: u64, said: &Line) -> Option<u64> {
    for point in said.points.as_slice() {
        if *point < seen {
            return None;
        }
        seen = *point;
    }
    Some(seen.saturating_add(u64::from(is_accepted(said))))
}

/// Whether the event after those that a line's look saw is the line's own.
fn is_own(events: &[Event], thread: u32, line: u32, said: &Line) -> bool {
    let own = Event {
        thread,
        line,
        opens: line % 3 == 1,
        image: 2,
    };
    let Some(point) = said.points.as_slice().first() else {
        return false;
    };
    events.get(*point as usize) == Some(&own)
}

/// How many lines of a thread were accepted, if all of its lines are right.
fn accepted(all: &[Left], events: &[Event], thread: u32, lines: &[Line]) -> Option<u64> {
    let mut seen = 0;
    let mut accepted = 0_u64;
    let mut line = 1_u32;
    for said in lines {
        seen = seen_after(seen, said)?;
        if !fits(all, line, said) {
            return None;
        }
        if is_accepted(said) {
            if !is_own(events, thread, line, said) {
                return None;
            }
            accepted = accepted.wrapping_add(1);
        }
        line = line.wrapping_add(1);
    }
    Some(accepted)
}

#[test]
fn sixty_four_threads(rt: HostRuntime) -> Result<(), Fail> {
    let alloc = rt.alloc();
    let text = job_text(alloc)?;
    let images = vec![in alloc; program_image(alloc)?, plug_image(alloc)?]?;
    let (job, modules) = loaded(alloc, text.as_str(), images)?;
    let shown = race(&rt, alloc, &job, &modules, &NoGate)?;
    let all = replayed(alloc, shown.events())?;
    let mut events = 0_u64;
    for thread in 1..65_u32 {
        let lines = shown.lines(thread);
        assert!(rt; lines.len() == 300, "thread {thread}");
        let own = accepted(all.as_slice(), shown.events(), thread, lines);
        assert!(rt; own.is_some(), "thread {thread}");
        events = events.wrapping_add(own.unwrap_or(0));
    }
    assert!(rt; shown.threads() == 64 && events == shown.events().len() as u64);
    Ok(())
}
