//! What a run shows: each thread's lines, and the events of the module history.

ghost use Rattle.std.specs.Prelude.{◌≡◌, ◌++◌, ◌∷◌, ◌<◌, [], All, OnOk, OnErr, length};

use crate::outcomes::{Line, Outcome};
use crate::text::{push_events, push_threads};
use job_text::{Job, at_number};
use module_table::Event;
use std::alloc::{AllocError, Global};
use std::marker::Model;

/// What a run shows.
#[derive(Debug, Drop)]
pub struct Transcript {
    threads: Vec<Vec<Line>>,
    events: Vec<Event>,
}

impl Model for Transcript {
    ghost use Rattle.std.specs.Prelude.{map, length, ◌≤◌};
    ghost use Rattle.transcript_text.specs.Texts.{Shown};

    ghost Value = { Shown };

    ghost view = { λ shown. record {
      threads = map (λ lines. lines.items) shown.threads.items;
      events = shown.events.items;
    } };

    ghost invariant = { λ shown. length shown.threads.items ≤ 64 };
}

impl Transcript {
    ghost use Rattle.transcript_text.specs.Texts.{IsImageNumber, transcript_text};
    ghost use Rattle.job_text.specs.Threads.{of_thread};

    /// A transcript without threads and events.
    pub fn new(alloc: Global) -> Transcript
        ensures threads { result.threads ≡ [] }
        ensures events { result.events ≡ [] }
    {
        Transcript {
            threads: Vec::new(alloc),
            events: Vec::new(alloc),
        }
    }

    /// Adds the lines of the next thread. There are at most 64 threads.
    pub fn push_thread(&mut self, lines: Vec<Line>) -> Result<(), AllocError>
        requires { length self.old.threads < 64 }
        ensures ok { OnOk result (self.new.threads ≡ self.old.threads ++ lines.items ∷ []) }
        ensures err { OnErr result (self.new.threads ≡ self.old.threads) }
        ensures events { self.new.events ≡ self.old.events }
    {
        self.threads.push(lines)?;
        Ok(())
    }

    /// Adds the next event of the history.
    pub fn push_event(&mut self, event: Event) -> Result<(), AllocError>
        ensures ok { OnOk result (self.new.events ≡ self.old.events ++ event ∷ []) }
        ensures err { OnErr result (self.new.events ≡ self.old.events) }
        ensures threads { self.new.threads ≡ self.old.threads }
    {
        self.events.push(event)?;
        Ok(())
    }

    /// The lines of a thread, counted from 1; none if there is no such thread.
    #[tactic(auto, using(job_text::proofs::Entries::entry_at))]
    pub fn lines(&self, thread: u32) -> &[Line]
        ensures { result.now ≡ of_thread self.now.threads thread }
    {
        match at_number(self.threads.as_slice(), thread) {
            Some(lines) => lines.as_slice(),
            None => &[],
        }
    }

    /// How many threads there are.
    pub fn threads(&self) -> u32
        ensures { result ≡ length self.now.threads }
    {
        self.threads.len() as u32
    }

    /// The events.
    pub fn events(&self) -> &[Event]
        ensures { result.now ≡ self.now.events }
    {
        self.events.as_slice()
    }

    /// Appends the transcript's text: a line for each line of each thread, and then one for each event. If memory
    /// runs out, nothing is appended.
    #[tactic(auto, unfolding(crate::specs::Texts::transcript_text))]
    pub fn text(&self, job: &Job, into: &mut Vec<u8>) -> Result<(), AllocError>
        requires { All (λ event. IsImageNumber job.now.images event.image) self.now.events }
        ensures ok { OnOk result (into.new.items ≡ into.old.items ++ transcript_text job.now.images self.now) }
        ensures err { OnErr result (into.new.items ≡ into.old.items) }
    {
        let mut text = String::new(*into.allocator());
        push_threads(&mut text, self.threads.as_slice())?;
        push_events(&mut text, job.images(), self.events.as_slice())?;
        into.extend_from_slice(text.as_bytes())?;
        Ok(())
    }
}

/// Checks that threads may move and share a type's values.
fn crosses_threads<T: Send + Sync>() {}

/// Threads may move and share a transcript, and all that it is made of.
pub fn transcripts_cross_threads() {
    crosses_threads::<Transcript>();
    crosses_threads::<Line>();
    crosses_threads::<Outcome>();
}
