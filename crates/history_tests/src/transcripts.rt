//! Transcripts and their expected text.

ghost use Rattle.std.specs.Prelude.{◌≡◌};

use crate::compared::same;
use job_text::Job;
use module_table::Event;
use std::alloc::{AllocError, Global};
use std::test::Fail;
use transcript_text::{Bytes, Line, LineFault, LineRefusal, Outcome, Points, Transcript};

/// The text of a transcript with these two threads, over a job of one image.
fn text_of(alloc: Global, first: Vec<Line>, second: Vec<Line>) -> Result<String, Fail> {
    let job = Job::read(alloc, b"image app exe a.o\nthreads 2\n")?;
    let mut transcript = Transcript::new(alloc);
    transcript.push_thread(first)?;
    transcript.push_thread(second)?;
    let mut text = Vec::new(alloc);
    transcript.text(&job, &mut text)?;
    Ok(String::from_utf8(text).ok().ok_or("no text")?)
}

/// Adds a line with these points.
fn push(
    alloc: Global,
    lines: &mut Vec<Line>,
    points: &[u64],
    outcome: Outcome,
) -> Result<(), AllocError> {
    let points = Points::new(points.to_vec(alloc)?);
    lines.push(Line { points, outcome })?;
    Ok(())
}

/// Lines that succeeded.
fn good_lines(alloc: Global) -> Result<Vec<Line>, AllocError> {
    let mut lines = Vec::new(alloc);
    push(alloc, &mut lines, &[0], Outcome::Returned(42))?;
    push(
        alloc,
        &mut lines,
        &[1, 1],
        Outcome::Returned(0x0000_0100_0200_0000),
    )?;
    push(alloc, &mut lines, &[12], Outcome::Opened(4095))?;
    push(alloc, &mut lines, &[1], Outcome::Closed)?;
    let bytes = Bytes::new([0x07, 0xab, 0, 0xff].to_vec(alloc)?);
    push(alloc, &mut lines, &[1], Outcome::Bytes(bytes))?;
    push(
        alloc,
        &mut lines,
        &[1],
        Outcome::Bytes(Bytes::new(Vec::new(alloc))),
    )?;
    Ok(lines)
}

/// Lines that were refused, and lines with faults.
fn bad_lines(alloc: Global) -> Result<Vec<Line>, AllocError> {
    let mut lines = Vec::new(alloc);
    for refusal in [
        LineRefusal::Unknown,
        LineRefusal::Full,
        LineRefusal::StaticFull,
        LineRefusal::Permanent,
        LineRefusal::NotOpen,
        LineRefusal::Symbol,
        LineRefusal::Length,
    ] {
        push(alloc, &mut lines, &[0], Outcome::Refused(refusal))?;
    }
    for fault in [
        LineFault::Address,
        LineFault::Code,
        LineFault::Unloaded,
        LineFault::Steps,
    ] {
        push(alloc, &mut lines, &[1, 1, 2], Outcome::Fault(fault))?;
    }
    Ok(lines)
}

const WRITTEN: &str = "\
t1 l1 g0 = 000000000000002a
t1 l2 g1,1 = 0000010002000000
t1 l3 g12 opened 4095
t1 l4 g1 closed
t1 l5 g1 bytes 07ab00ff
t1 l6 g1 bytes
t2 l1 g0 refused unknown
t2 l2 g0 refused full
t2 l3 g0 refused static-full
t2 l4 g0 refused permanent
t2 l5 g0 refused not-open
t2 l6 g0 refused symbol
t2 l7 g0 refused length
t2 l8 g1,1,2 fault address
t2 l9 g1,1,2 fault code
t2 l10 g1,1,2 fault unloaded
t2 l11 g1,1,2 fault steps
";

#[test]
fn writes_threads(rt: HostRuntime) -> Result<(), Fail> {
    let text = text_of(rt.alloc(), good_lines(rt.alloc())?, bad_lines(rt.alloc())?)?;
    same(&rt, text.as_str(), WRITTEN, "outcomes");
    Ok(())
}

fn event(line: u32, opens: bool) -> Event
    ensures { result.image ≡ 2 }
{
    Event {
        thread: 1,
        line,
        opens,
        image: 2,
    }
}

#[test]
fn writes_events(rt: HostRuntime) -> Result<(), Fail> {
    let alloc = rt.alloc();
    let job = Job::read(alloc, b"image app exe a.o\nimage plug late p.o\n")?;
    assert!(rt; job.images().len() == 2);
    let mut transcript = Transcript::new(alloc);
    transcript.push_event(event(1, true))?;
    transcript.push_event(event(2, false))?;
    let mut text = vec![in alloc; b'>']?;
    transcript.text(&job, &mut text)?;
    assert!(rt; text.as_slice() == b">e0 t1 l1 open plug\ne1 t1 l2 close plug\n".as_slice());
    Ok(())
}
