//! Jobs and the answers that the grammar gives.

use crate::objects::same;
use job_text::{Job, JobFault};
use std::alloc::Global;
use std::test::Fail;

/// Jobs with a fault: the line, the kind, and the job's text with `|` for each end of line.
const FAULTS: &str = "\
0 NoExe: \n\
0 NoExe: |\n\
0 NoExe: # image app exe a.o\n\
0 NoExe: image m start a.o\n\
2 Number: image app exe a.o|1 call app f 0 0 zz\n\
1 NotText: image app exe a.o\t\n\
1 NotText: nothing \u{7f}\n\
1 NotText: image app exe\r a.o\n\
1 NotText: imag\t\n\
1 Word:  # no comment\n\
1 Word: images app exe a.o\n\
1 Word: Image app exe a.o\n\
1 Word: image app so a.o\n\
1 Word: image app so\n\
1 Word: 1 run app f\n\
1 Word: 1 Call app f\n\
1 Word: +1 open app\n\
1 Count: image\n\
1 Count: image app\n\
1 Count: image app exe\n\
1 Count: image a/b exe\n\
1 Count: threads\n\
1 Count: threads 1 2\n\
1 Count: fuel\n\
1 Count: order\n\
1 Count: 1\n\
1 Count: 0x\n\
1 Count: 1 open\n\
1 Count: 1 open a b\n\
1 Count: 1 call app f 0 0\n\
1 Count: 1 call app f 0 0 0 0\n\
1 Count: 1 peek app v\n\
1 Number: threads 0\n\
1 Number: threads 65\n\
1 Number: threads 08\n\
1 Number: threads -1\n\
1 Number: fuel 0\n\
1 Number: fuel 4294967296\n\
1 Number: fuel 0X10\n\
1 Number: fuel 0x\n\
1 Number: fuel 0x+1\n\
1 Number: fuel +5\n\
1 Number: order 2|threads 2\n\
2 Number: threads 2|order 1 3\n\
1 Number: order 0\n\
2 Number: image app exe a.o|2 open app\n\
2 Number: image app exe a.o|0 open app\n\
2 Number: image app exe a.o|1x open app\n\
2 Number: image app exe a.o|1 call app f 0 18446744073709551616 0\n\
2 Number: image app exe a.o|1 peek app v 4097\n\
1 Number: 1 peek app v 4097\n\
1 Name: image a/b exe a.o\n\
1 Name: 1 open app|image app exe a.o\n\
2 Name: image app exe a.o|1 open App\n\
1 Name: image a/b exe a.o|threads 0\n\
2 Name: image app exe a.o|image a/b exe b.o\n\
2 Twice: image app exe a.o|image app late b.o\n\
2 Twice: image app exe a.o|image app2 exe b.o\n\
2 Twice: image app exe a.o|image app2 pie b.o\n\
2 Twice: threads 2|threads 2\n\
2 Number: threads 2|threads 65\n\
2 Twice: fuel 1|fuel 1\n\
2 Twice: order 1|order 1\n\
5 Twice: image app exe a.o||#|fuel 1|  fuel   0x2  \n";

/// What is wrong with a job, as the command prints it; empty if nothing is.
fn fault_text(alloc: Global, job: &str) -> Result<String, Fail> {
    match Job::read(alloc, job.as_bytes()) {
        Ok(_) => Ok(String::new(alloc)),
        Err(JobFault::OutOfMemory) => Ok(String::from_str(alloc, "out of memory")?),
        Err(JobFault::At { line, kind }) => Ok(format!(in alloc; "{line} {kind}")?),
    }
}

/// The text of a job from its form on one line.
fn text_of(alloc: Global, row: &str) -> Result<String, Fail> {
    let mut text = String::new(alloc);
    for line in row.split('|') {
        text.push_str(line)?;
        text.push_str("\n")?;
    }
    Ok(text)
}

#[test]
fn finds_the_first_fault(rt: HostRuntime) -> Result<(), Fail> {
    let alloc = rt.alloc();
    for row in FAULTS.lines() {
        let (want, job) = row.split_once(": ").ok_or("a row")?;
        let job = text_of(alloc, job)?;
        let found = fault_text(alloc, job.as_str())?;
        same(&rt, found.as_str(), want, row);
    }
    Ok(())
}

/// `text`, repeated `count` times.
fn repeated(alloc: Global, text: &str, count: usize) -> Result<String, Fail> {
    let mut all = String::new(alloc);
    for _ in 0..count {
        all.push_str(text)?;
    }
    Ok(all)
}

/// A job of 65,538 lines, of which the last two do not count: an image and a comment.
fn long_job(alloc: Global, behind: &str) -> Result<String, Fail> {
    let mut lines = repeated(alloc, "\n", 65_535)?;
    lines.push_str("image app exe a.o\n\n# skipped lines may follow\n")?;
    lines.push_str(behind)?;
    Ok(lines)
}

#[test]
fn takes_65536_lines(rt: HostRuntime) -> Result<(), Fail> {
    for (behind, want) in [
        ("", ""),
        ("fuel 0", "65539 Count"),
        ("fuel 0 \t", "65539 NotText"),
    ] {
        let job = long_job(rt.alloc(), behind)?;
        let found = fault_text(rt.alloc(), job.as_str())?;
        same(&rt, found.as_str(), want, behind);
    }
    Ok(())
}

const GOOD: &str = "# each group in the order of the job\nimage plug late p.o q.o\n\
    image lib start l.o\nimage app pie a.o\n  threads 0x0002\nfuel 4294967295\norder 2 1 2\n\
    2 call lib f 1 0xFFFFFFFFFFFFFFff 0\n1 open plug\n1 peek plug v 4096\n1 close plug\n\
    image more late m.o\n2 open more\n0x1 call app main 0 0 0";

/// What that job says, as `Debug` prints it.
const GOOD_SAID: &str = "\
2 4294967295 [2, 1, 2]\n[3, 2, 1, 4]\n\
[\
Image { name: Name { text: \"app\" }, kind: Pie, objects: Names { items: [Name { text: \"a.o\" }] } }, \
Image { name: Name { text: \"lib\" }, kind: Start, objects: Names { items: [Name { text: \"l.o\" }] } }, \
Image { name: Name { text: \"plug\" }, kind: Late, objects: Names { items: [Name { text: \"p.o\" }, Name { text: \"q.o\" }] } }, \
Image { name: Name { text: \"more\" }, kind: Late, objects: Names { items: [Name { text: \"m.o\" }] } }]\n\
[\
ThreadLine { image: 3, action: Open }, \
ThreadLine { image: 3, action: Peek { symbol: Name { text: \"v\" }, length: 4096 } }, \
ThreadLine { image: 3, action: Close }, \
ThreadLine { image: 1, action: Call { symbol: Name { text: \"main\" }, a: 0, b: 0, c: 0 } }]\n\
[\
ThreadLine { image: 2, action: Call { symbol: Name { text: \"f\" }, a: 1, b: 18446744073709551615, c: 0 } }, \
ThreadLine { image: 4, action: Open }]\n";

const LITTLE_SAID: &str = "\
1 100000 []\n[1]\n\
[Image { name: Name { text: \"app\" }, kind: Exe, objects: Names { items: [Name { text: \"a.o\" }] } }]\n\
[ThreadLine { image: 1, action: Open }]\n[]\n";

/// What a job says, as one text: its threads, steps and order, its mentions, its images, and the lines of two threads.
fn said(alloc: Global, job: &str) -> Result<String, Fail> {
    let job = Job::read(alloc, job.as_bytes())?;
    let (threads, fuel, order) = (job.threads(), job.fuel(), job.order());
    let (mentions, images) = (job.mentions(), job.images());
    let (first, second) = (job.lines(1), job.lines(2));
    Ok(format!(in alloc;
        "{threads} {fuel} {order:?}\n{mentions:?}\n{images:?}\n{first:?}\n{second:?}\n"
    )?)
}

#[test]
fn reads_a_job(rt: HostRuntime) -> Result<(), Fail> {
    let found = said(rt.alloc(), GOOD)?;
    same(&rt, found.as_str(), GOOD_SAID, GOOD);
    // by default a job has one thread, 100,000 steps, and no order
    let found = said(rt.alloc(), "image app exe a.o\n1 open app\n")?;
    same(&rt, found.as_str(), LITTLE_SAID, "a small job");
    Ok(())
}
