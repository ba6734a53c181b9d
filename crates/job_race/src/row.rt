//! The results of a row of threads.

ghost use Rattle.std.specs.Prelude.{◌≡◌, ◌≤◌, ◌∷◌, [], IfOk, length};
ghost use Rattle.shared_modules.specs.Views.{longer};
ghost use Rattle.job_race.specs.Rows.{IsTogether, together};

use module_table::Event;
use racing_thread::Raced;
use std::alloc::{AllocError, Global};
use std::marker::Model;
use transcript_text::{Line, Transcript};

/// The lines of a row of threads, thread after thread, and the events that their pass has seen. Contracts see a
/// `Shown`.
#[derive(Drop)]
pub(crate) struct Row {
    threads: Vec<Vec<Line>>,
    events: Vec<Event>,
}

impl Model for Row {
    ghost use Rattle.std.specs.Prelude.{map};
    ghost use Rattle.transcript_text.specs.Texts.{Shown};

    ghost Value = { Shown };

    ghost view = { λ row. record {
      threads = map (λ lines. lines.items) row.threads.items;
      events = row.events.items;
    } };
}

/// The longer of two lists; the first if they have the same length.
fn longer(first: Vec<Event>, second: Vec<Event>) -> Vec<Event>
    ensures { result.items ≡ longer first.items second.items }
{
    if first.as_slice().len() < second.as_slice().len() {
        second
    } else {
        first
    }
}

impl Row {
    /// The row with no thread and no event.
    pub(crate) fn none(alloc: Global) -> Row
        ensures { result ≡ record { threads = []; events = [] } }
    {
        Row {
            threads: Vec::new(alloc),
            events: Vec::new(alloc),
        }
    }

    /// The row of one thread.
    pub(crate) fn of(alloc: Global, raced: Raced) -> Result<Row, AllocError>
        ensures { IfOk result (λ row. row ≡ record { threads = raced.lines.items ∷ []; events = raced.events.items }) }
    {
        let Raced { lines, events } = raced;
        let mut threads = Vec::new(alloc);
        threads.push(lines)?;
        Ok(Row { threads, events })
    }

    /// These threads, and then others: the lines of all, and the longer list of events.
    fn with(self, others: Row) -> Result<Row, AllocError>
        ensures { IfOk result (λ row. row ≡ together self others) }
    {
        let Row {
            mut threads,
            events,
        } = self;
        let Row {
            threads: mut more,
            events: other,
        } = others;
        threads.append(&mut more)?;
        let events = longer(events, other);
        Ok(Row { threads, events })
    }

    /// The transcript of these threads.
    fn transcript(self, alloc: Global) -> Result<Transcript, AllocError>
        requires { length self.threads ≤ 64 }
        ensures { IfOk result (λ shown. shown ≡ self) }
    {
        let Row { threads, events } = self;
        let mut transcript = Transcript::new(alloc);
        for lines in threads {
            transcript.push_thread(lines)?;
        }
        for event in events.as_slice() {
            transcript.push_event(*event)?;
        }
        Ok(transcript)
    }
}

/// Joins the results of two rows, the left one's threads first. Out of memory in either is the result of both.
pub(crate) fn together(
    left: Result<Row, AllocError>,
    right: Result<Row, AllocError>,
) -> Result<Row, AllocError>
    ensures { IfOk result (IsTogether left right) }
{
    match (left, right) {
        (Ok(left), Ok(right)) => left.with(right),
        _ => Err(AllocError),
    }
}

/// The transcript of a row.
pub(crate) fn transcript_of(
    alloc: Global,
    row: Result<Row, AllocError>,
) -> Result<Transcript, AllocError>
    requires { IfOk row (λ row. length row.threads ≤ 64) }
    ensures { IfOk result (λ shown. row ≡ Ok shown) }
{
    row?.transcript(alloc)
}
