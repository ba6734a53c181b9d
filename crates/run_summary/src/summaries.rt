//! The line of a run.

ghost use Rattle.std.specs.Prelude.{◌≡◌, ◌+◌, ◌%◌, ◌^◌, ◌++◌, IfOk, OnOk};
ghost use Rattle.run_summary.specs.Summaries.{images_text, line_count, lines_sum, lines_text, returned};
ghost use Rattle.run_summary.specs.Summaries.{returned_sum, shown_in, shown_of, summary_text};
ghost use Rattle.std.specs.String.{string_bytes};

use crate::sites::{SiteCounts, plus};
use std::alloc::{AllocError, Global};
use transcript_text::{Line, Outcome, Transcript};

/// How many lines threads have.
#[tactic(auto, unfolding(crate::specs::Summaries::line_count))]
fn line_count(transcript: &Transcript) -> Result<u64, AllocError>
    ensures { IfOk result (λ count. count ≡ line_count transcript.now.threads) }
{
    let mut count = 0;
    for index in 0..transcript.threads() {
        count = plus(count, transcript.lines(index + 1).len() as u64)?;
    }
    Ok(count)
}

/// What a call returned; 0 for any other line.
fn returned(line: &Line) -> u64
    ensures { result ≡ returned line.now.outcome }
{
    match line.outcome {
        Outcome::Returned(value) => value,
        _ => 0,
    }
}

/// A sum plus what calls returned, modulo 2^64.
fn with_lines(sum: u64, lines: &[Line]) -> u64
    ensures { result ≡ (sum + lines_sum lines.now) % 2 ^ 64 }
{
    let mut sum = sum;
    for line in lines {
        sum = sum.wrapping_add(returned(line));
    }
    sum
}

/// The sum of what all calls returned, modulo 2^64.
#[tactic(auto, unfolding(crate::specs::Summaries::returned_sum))]
fn returned_sum(transcript: &Transcript) -> u64
    ensures { result ≡ returned_sum transcript.now.threads }
{
    let mut sum = 0;
    for index in 0..transcript.threads() {
        sum = with_lines(sum, transcript.lines(index + 1));
    }
    sum
}

/// Appends the bytes that lines showed.
fn push_shown(lines: &[Line], into: &mut Vec<u8>) -> Result<(), AllocError>
    ensures { OnOk result (into.new.items ≡ into.old.items ++ shown_in lines.now) }
{
    for line in lines {
        if let Outcome::Bytes(bytes) = &line.outcome {
            into.extend_from_slice(bytes.as_slice())?;
        }
    }
    Ok(())
}

/// The bytes that all lines showed.
#[tactic(auto, unfolding(crate::specs::Summaries::shown_of))]
fn shown(alloc: Global, transcript: &Transcript) -> Result<Vec<u8>, AllocError>
    ensures { IfOk result (λ bytes. bytes.items ≡ shown_of transcript.now.threads) }
{
    let mut bytes = Vec::new(alloc);
    for index in 0..transcript.threads() {
        push_shown(transcript.lines(index + 1), &mut bytes)?;
    }
    Ok(bytes)
}

/// Appends the part of the line about the images of the job of `gen count`.
#[tactic(auto, unfolding(crate::specs::Summaries::images_text))]
fn push_images(text: &mut String, count: u32, counts: SiteCounts) -> Result<(), AllocError>
    ensures { OnOk result (string_bytes text.new ≡ string_bytes text.old ++ images_text count counts) }
{
    let SiteCounts { sites, rewritten } = counts;
    write!(text, "gen {count} sites {sites} rewritten {rewritten}")
}

/// Appends the part about lines and events, and the sum of what calls returned.
#[tactic(auto, unfolding(crate::specs::Summaries::lines_text))]
fn push_lines(text: &mut String, lines: u64, events: usize, sum: u64) -> Result<(), AllocError>
    ensures { OnOk result (string_bytes text.new ≡ string_bytes text.old ++ lines_text lines events sum) }
{
    write!(text, " lines {lines} events {events} sum {sum:016x}")
}

/// The line about a run of the job of `gen count`, with these counts of sites: `gen N sites S rewritten R lines L
/// events E sum H peek B`. The only error is `AllocError`.
#[tactic(auto, unfolding(crate::specs::Summaries::summary_text))]
pub fn summary(
    alloc: Global,
    count: u32,
    counts: SiteCounts,
    transcript: &Transcript,
) -> Result<Vec<u8>, AllocError>
    ensures { IfOk result (λ text. text.items ≡ summary_text count counts transcript.now) }
{
    let lines = line_count(transcript)?;
    let events = transcript.events().len();
    let sum = returned_sum(transcript);
    let bytes = shown(alloc, transcript)?;
    let digits = hex::encode(alloc, bytes.as_slice())?;
    let mut text = String::new(alloc);
    push_images(&mut text, count, counts)?;
    push_lines(&mut text, lines, events, sum)?;
    text.push_str(" peek ")?;
    text.push_str(digits.as_str())?;
    text.push_str("\n")?;
    Ok(text.into_bytes())
}
