//! Every command over one job: what each answers, and that the answers fit one another.

ghost use Rattle.std.specs.Prelude.{◌≡◌, ◌↔◌, IsTrue, OnOk};
ghost use Rattle.command_trials.specs.Agreement.{Agree, IsLinked, printed_in};

use crate::alarm::{Alarm, ensure};
use crate::bench::{Answer, Bench, Program};
use crate::causes::{DONE, JOB, LINK, OBJECT, STORE, UNCLEAN, USAGE};
use crate::samples::IMAGES;
use job_changes::Generator;
use std::alloc::AllocError;
use std::sync::Wait;
use std::thread::Threads;

/// What `link` may not change where it refuses.
const OLD: &[u8] = b"old";

/// Words of `gen` that it takes.
const COUNTS: [&str; 3] = ["1", "2", "3"];

/// Words that are no command, by chance.
fn no_command(generator: &mut Generator) -> &'static [&'static str] {
    match generator.below(8) {
        0 => &[""],
        1 => &["run"],
        2 => &["run", "job", "job"],
        3 => &["link", "job", "app"],
        4 => &["sites", "job"],
        5 => &["check", "job", "--no-relax"],
        6 => &["gen", "0"],
        _ => &["gen", "1001"],
    }
}

/// Whether an answer is that a job has no image of a name.
fn is_no_image<P: Program>(bench: &Bench<P>, answer: Answer) -> bool {
    answer.status == JOB && bench.text(answer) == "job 0 Name\n"
}

/// Whether a command about an image answers as `run` does: it is done where that is, or says the same of the input, or
/// that there is no such image.
fn follows<P: Program>(bench: &Bench<P>, run: Answer, answer: Answer) -> bool {
    if is_no_image(bench, answer) {
        return true;
    }
    if run.is_done() {
        answer.is_done()
    } else {
        bench.are_same(run, answer)
    }
}

/// Whether a job's images were asked to be linked.
fn is_linked(answer: Answer) -> bool
    ensures { IsTrue result ↔ IsLinked answer.status }
{
    answer.status == DONE || answer.status == LINK
}

/// Tests what `run` says in both settings, and `check`. All refuse the same, but for links, which may fail in one
/// setting. A clean job prints the same in both.
fn test_settings<P: Program>(
    bench: &Bench<P>,
    run: Answer,
    kept: Answer,
    check: Answer,
) -> Result<(), Alarm>
    ensures { OnOk result (Agree
        (record { status = run.status; text = printed_in bench.now.outputs.items run.number })
        (record { status = kept.status; text = printed_in bench.now.outputs.items kept.number })
        (record { status = check.status; text = printed_in bench.now.outputs.items check.number })) }
{
    let is_verdict = check.status == DONE || check.status == UNCLEAN;
    let is_checked = if run.is_done() {
        is_verdict
    } else {
        bench.are_same(check, run)
    };
    ensure(is_checked, "check refuses otherwise than run")?;
    let are_same = bench.are_same(kept, run);
    let are_linked = is_linked(run) && is_linked(kept);
    ensure(are_same || are_linked, "the settings refuse otherwise")?;
    let is_clean = check.is_done() && kept.is_done();
    ensure(
        are_same || !is_clean,
        "a clean job, and the settings differ",
    )
}

/// How many bytes the file has that `link` writes.
fn put_length<P: Program>(bench: &Bench<P>) -> usize {
    match bench.files.get("out") {
        Some(bytes) => bytes.len(),
        None => 0,
    }
}

/// Whether an answer is what `link` says of an image that has this length.
fn tells_length<P: Program>(
    bench: &Bench<P>,
    answer: Answer,
    image: &str,
    length: usize,
) -> Result<bool, AllocError> {
    let wanted = format!(in bench.alloc; "linked {image} {length}\n")?;
    Ok(bench.text(answer) == wanted.as_str())
}

/// Whether OUT is as it was before `link`.
fn is_kept<P: Program>(bench: &Bench<P>) -> bool {
    match bench.files.get("out") {
        Some(bytes) => bytes == OLD,
        None => false,
    }
}

/// Asks `show`, which must take the image that `link` put.
fn test_shown<R: Threads + Wait + Sync, P: Program>(
    rt: &R,
    bench: &mut Bench<P>,
) -> Result<(), Alarm> {
    let shown = bench.ask(rt, &["show", "out"])?;
    ensure(shown.is_done(), "what link put is no image")
}

/// Asks `link` by these words. It must put what it says, and nothing where it refuses; `show` must take what it put.
fn test_link<R: Threads + Wait + Sync, P: Program>(
    rt: &R,
    bench: &mut Bench<P>,
    run: Answer,
    image: &str,
    words: &[&str],
) -> Result<(), Alarm> {
    bench.files.add("out", OLD)?;
    let linked = bench.ask(rt, words)?;
    ensure(follows(bench, run, linked), "link refuses otherwise")?;
    if !linked.is_done() {
        return ensure(is_kept(bench), "link refuses, and changes OUT");
    }
    let is_told = tells_length(bench, linked, image, put_length(bench))?;
    ensure(is_told, "link says another length")?;
    test_shown(rt, bench)
}

/// Asks `sites` of an image.
fn test_sites<R: Threads + Wait + Sync, P: Program>(
    rt: &R,
    bench: &mut Bench<P>,
    run: Answer,
    image: &str,
) -> Result<(), Alarm> {
    let sites = bench.ask(rt, &["sites", "job", image])?;
    ensure(follows(bench, run, sites), "sites refuses otherwise")
}

/// Asks `sites` and `link` of an image, in both settings.
fn test_image<R: Threads + Wait + Sync, P: Program>(
    rt: &R,
    bench: &mut Bench<P>,
    run: Answer,
    kept: Answer,
    image: &str,
) -> Result<(), Alarm> {
    test_sites(rt, bench, run, image)?;
    test_link(rt, bench, run, image, &["link", "job", image, "out"])?;
    let words = ["link", "job", image, "out", "--no-relax"];
    test_link(rt, bench, kept, image, &words)
}

/// Whether a transcript has lines of thread 1 alone.
fn is_of_one_thread(transcript: &str) -> bool {
    !transcript
        .lines()
        .any(|line| line.starts_with('t') && !line.starts_with("t1 "))
}

/// Asks `race`: of one thread it prints what `run` prints, and it refuses data that threads write.
fn test_race<R: Threads + Wait + Sync, P: Program>(
    rt: &R,
    bench: &mut Bench<P>,
    run: Answer,
) -> Result<(), Alarm> {
    let race = bench.ask(rt, &["race", "job"])?;
    if race.status == OBJECT && bench.text(race).ends_with(" WritableData\n") {
        return Ok(());
    }
    let is_alike = if run.is_done() && !is_of_one_thread(bench.text(run)) {
        race.is_done()
    } else {
        bench.are_same(race, run)
    };
    ensure(is_alike, "race answers otherwise than run")
}

/// Asks `run` with a store that fails at a call.
fn test_store<R: Threads + Wait + Sync, P: Program>(
    rt: &R,
    bench: &mut Bench<P>,
    run: Answer,
    call: u64,
) -> Result<(), Alarm> {
    bench.files.fail_at(call);
    let failing = bench.ask(rt, &["run", "job"])?;
    bench.files.fail_at(0);
    let is_told = failing.status == STORE || bench.are_same(failing, run);
    ensure(is_told, "run hides that the store failed")
}

/// Asks what has nothing to do with the job.
fn test_words<R: Threads + Wait + Sync, P: Program>(
    rt: &R,
    bench: &mut Bench<P>,
    generator: &mut Generator,
) -> Result<(), Alarm> {
    let refused = bench.ask(rt, no_command(generator))?;
    ensure(refused.status == USAGE, "words of no command are taken")?;
    let made = bench.ask(rt, &["gen", generator.pick(&COUNTS).unwrap_or("1")])?;
    ensure(made.is_done(), "gen is refused")
}

/// Asks, once in a while, what is seldom asked.
fn test_seldom<R: Threads + Wait + Sync, P: Program>(
    rt: &R,
    bench: &mut Bench<P>,
    generator: &mut Generator,
    run: Answer,
) -> Result<(), Alarm> {
    if generator.is_one_in(16) {
        test_race(rt, bench, run)?;
    }
    if generator.is_one_in(32) {
        test_store(rt, bench, run, generator.below(4).saturating_add(1))?;
        bench.ask_cut(rt, &["run", "job"], run, generator.below(64))?;
    }
    if generator.is_one_in(128) {
        test_words(rt, bench, generator)?;
    }
    Ok(())
}

/// Asks every command about the bench's job, whose name is `job`.
pub(crate) fn try_job<R: Threads + Wait + Sync, P: Program>(
    rt: &R,
    bench: &mut Bench<P>,
    generator: &mut Generator,
) -> Result<(), Alarm> {
    let run = bench.ask_first(rt, &["run", "job"])?;
    let kept = bench.ask(rt, &["run", "job", "--no-relax"])?;
    let check = bench.ask(rt, &["check", "job"])?;
    test_settings(bench, run, kept, check)?;
    if run.is_done() {
        bench.count_lines(run)?;
    }
    let image = generator.pick(&IMAGES).unwrap_or("app");
    test_image(rt, bench, run, kept, image)?;
    test_seldom(rt, bench, generator, run)
}
