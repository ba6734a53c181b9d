//! The text of a transcript.

ghost use Rattle.std.specs.Prelude.{◌≡◌, ◌≤◌, ◌++◌, OnOk, All, length, map};
ghost use Rattle.std.specs.String.{string_bytes};
ghost use Rattle.transcript_text.specs.Texts.{IsImageNumber, bytes_text, outcome_text, points_text, line_text};
ghost use Rattle.transcript_text.specs.Texts.{lines_text, threads_text, event_word, image_name, event_text};
ghost use Rattle.transcript_text.specs.Texts.{events_text};

use crate::outcomes::{Bytes, Line, Outcome};
use job_text::{Image, index_of};
use module_table::Event;
use std::alloc::AllocError;

/// Appends the text of a thread's line.
#[tactic(auto, unfolding(crate::specs::Texts::line_text))]
pub(crate) fn push_line(
    text: &mut String,
    thread: u32,
    number: u64,
    line: &Line,
) -> Result<(), AllocError>
    ensures { OnOk result (string_bytes text.new ≡ string_bytes text.old ++ line_text thread number line.now) }
{
    write!(text, "t{thread} l{number} g")?;
    push_points(text, line.points.as_slice())?;
    text.push_str(" ")?;
    push_outcome(text, &line.outcome)?;
    text.push_str("\n")?;
    Ok(())
}

/// Appends points, separated by commas.
#[tactic(auto, unfolding(crate::specs::Texts::points_text))]
fn push_points(text: &mut String, points: &[u64]) -> Result<(), AllocError>
    ensures { OnOk result (string_bytes text.new ≡ string_bytes text.old ++ points_text points.now) }
{
    let Some((first, more)) = points.split_first() else {
        return Ok(());
    };
    write!(text, "{first}")?;
    for point in more {
        write!(text, ",{point}")?;
    }
    Ok(())
}

/// Appends the outcome of a line.
#[tactic(auto, unfolding(crate::specs::Texts::outcome_text))]
fn push_outcome(text: &mut String, outcome: &Outcome) -> Result<(), AllocError>
    ensures { OnOk result (string_bytes text.new ≡ string_bytes text.old ++ outcome_text outcome.now) }
{
    match outcome {
        Outcome::Returned(value) => write!(text, "= {value:016x}"),
        Outcome::Opened(instance) => write!(text, "opened {instance}"),
        Outcome::Closed => text.push_str("closed"),
        Outcome::Bytes(bytes) => push_bytes(text, bytes),
        Outcome::Refused(refusal) => write!(text, "refused {refusal}"),
        Outcome::Fault(fault) => write!(text, "fault {fault}"),
    }
}

/// Appends the bytes of a peek as hexadecimal digits.
#[tactic(auto, unfolding(crate::specs::Texts::bytes_text))]
fn push_bytes(text: &mut String, bytes: &Bytes) -> Result<(), AllocError>
    ensures { OnOk result (string_bytes text.new ≡ string_bytes text.old ++ bytes_text bytes.now) }
{
    let bytes = bytes.as_slice();
    if bytes.is_empty() {
        return text.push_str("bytes");
    }
    let digits = hex::encode(*text.allocator(), bytes)?;
    text.push_str("bytes ")?;
    text.push_str(digits.as_str())
}

/// Appends the lines of a thread.
fn push_lines(text: &mut String, thread: u32, lines: &[Line]) -> Result<(), AllocError>
    ensures { OnOk result (string_bytes text.new ≡ string_bytes text.old ++ lines_text thread 1 lines.now) }
{
    for (index, line) in lines.iter().enumerate() {
        push_line(text, thread, index as u64 + 1, line)?;
    }
    Ok(())
}

/// Appends the lines of all threads.
pub(crate) fn push_threads(text: &mut String, threads: &[Vec<Line>]) -> Result<(), AllocError>
    requires { length threads.now ≤ 64 }
    ensures { OnOk result
        (string_bytes text.new ≡ string_bytes text.old ++ threads_text 1 (map (λ lines. lines.items) threads.now)) }
{
    for (index, lines) in threads.iter().enumerate() {
        push_lines(text, index as u32 + 1, lines.as_slice())?;
    }
    Ok(())
}

/// Appends the lines of the events.
pub(crate) fn push_events(
    text: &mut String,
    images: &[Image],
    events: &[Event],
) -> Result<(), AllocError>
    requires { All (λ event. IsImageNumber images.now event.image) events.now }
    ensures { OnOk result (string_bytes text.new ≡ string_bytes text.old ++ events_text images.now 0 events.now) }
{
    for (index, event) in events.iter().enumerate() {
        push_event(text, images, index, event)?;
    }
    Ok(())
}

/// Appends the line of an event.
#[tactic(auto, unfolding(crate::specs::Texts::event_text))]
fn push_event(
    text: &mut String,
    images: &[Image],
    number: usize,
    event: &Event,
) -> Result<(), AllocError>
    requires { IsImageNumber images.now event.now.image }
    ensures { OnOk result (string_bytes text.new ≡ string_bytes text.old ++ event_text images.now number event.now) }
{
    let thread = event.thread;
    let line = event.line;
    write!(text, "e{number} t{thread} l{line} ")?;
    text.push_str(event_word(event.opens))?;
    let name = name_at(images, event.image);
    write!(text, " {name}\n")?;
    Ok(())
}

/// The word for what an event did.
fn event_word(opens: bool) -> &'static str
    ensures { result.now ≡ event_word opens }
{
    if opens { "open" } else { "close" }
}

/// The name of an image, by its number.
fn name_at(images: &[Image], number: u32) -> &str
    requires { IsImageNumber images.now number }
    ensures { result.now ≡ image_name images.now number }
{
    images[index_of(number)].name.as_str()
}
