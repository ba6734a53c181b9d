//! So many changed inputs of a kind, one after another.

ghost use Rattle.std.specs.Prelude.{◌≡◌, Err, IfSome, None, OnOk, drop, false, is_some, true};
ghost use Rattle.command_trials.specs.declared.alarm.Ended.TheVariants.{Words};
ghost use Rattle.command_trials.specs.Words.{AreKinds, AreWords, Gives, IsNumber, IsPlan, is_kind};

use crate::alarm::{Alarm, Ended};
use crate::bench::{Bench, Program};
use crate::inputs::{
    lay_objects, linked_images, try_changed_image, try_changed_job, try_changed_object,
};
use crate::samples::Samples;
use crate::tally::Tally;
use job_changes::Generator;
use ports::Store;
use std::alloc::Global;
use std::sync::Wait;
use std::thread::Threads;

/// A kind of input.
#[derive(Clone, Copy)]
enum Kind {
    Jobs,
    Objects,
    Images,
}

/// How many inputs are tried, and from which seed.
#[derive(Clone, Copy)]
struct Plan {
    count: u64,
    seed: u64,
}

/// The decimal number that a word is.
fn number_in(word: &str) -> Option<u64>
    ensures some { IfSome result (λ number. Gives word.now number) }
    ensures none { result ≡ None → IsNumber word.now → ⊥ }
{
    word.parse().ok()
}

/// The words behind the count and the seed.
fn kinds_in(words: &[String]) -> &[String]
    ensures { result.now ≡ drop 2 words.now }
{
    words.get(2..).unwrap_or(&[])
}

/// The kind of that name.
fn kind_of(name: &str) -> Option<Kind>
    ensures { is_some result ≡ is_kind name.now }
{
    match name {
        "jobs" => Some(Kind::Jobs),
        "objects" => Some(Kind::Objects),
        "images" => Some(Kind::Images),
        _ => None,
    }
}

/// Whether each of these names is that of a kind.
fn are_kinds(names: &[String]) -> bool
    ensures kinds { result ≡ true → AreKinds names.now }
    ensures others { result ≡ false → AreKinds names.now → ⊥ }
{
    for name in names {
        if kind_of(name.as_str()).is_none() {
            return false;
        }
    }
    true
}

/// The count and the seed of these words, if they are a count, a seed and kinds.
fn plan_of(words: &[String]) -> Option<Plan>
    ensures plan { IfSome result (λ plan. IsPlan words.now plan.count plan.seed) }
    ensures words { IfSome result (λ plan. AreWords words.now) }
    ensures none { result ≡ None → AreWords words.now → ⊥ }
{
    let count = number_in(words.first()?.as_str())?;
    let seed = number_in(words.get(1)?.as_str())?;
    if are_kinds(kinds_in(words)) {
        Some(Plan { count, seed })
    } else {
        None
    }
}

/// Tries changed inputs of a kind. An alarm's input is printed.
fn try_inputs<R: Threads + Wait + Print + Sync, P: Program>(
    rt: &R,
    bench: &mut Bench<P>,
    samples: &Samples,
    kind: Kind,
    plan: Plan,
) -> Result<(), Alarm> {
    let seed = plan.seed;
    let mut generator = Generator::new(seed);
    let images = linked_images(rt, bench, samples)?;
    bench.tally = Tally::new(bench.alloc)?;
    for number in 0..plan.count {
        let tried = match kind {
            Kind::Jobs => try_changed_job(rt, bench, &mut generator, samples),
            Kind::Objects => try_changed_object(rt, bench, &mut generator, samples),
            Kind::Images => try_changed_image(rt, bench, &mut generator, &images),
        };
        if let Err(alarm) = tried {
            println!(rt; "input {number} of seed {seed}: {alarm}")?;
            return Err(alarm);
        }
    }
    Ok(())
}

/// Tries changed inputs of the kind, and prints the counts under its name.
fn try_kind<R: Threads + Wait + Print + Sync, P: Program>(
    rt: &R,
    bench: &mut Bench<P>,
    samples: &Samples,
    kind: Kind,
    name: &str,
    plan: Plan,
) -> Result<(), Alarm> {
    lay_objects(bench, samples)?;
    try_inputs(rt, bench, samples, kind, plan)?;
    bench.tally.print(rt, name)?;
    Ok(())
}

/// Tries changed inputs of each of the kinds of these names.
fn try_kinds<R: Threads + Wait + Print + Sync, P: Program>(
    rt: &R,
    bench: &mut Bench<P>,
    samples: &Samples,
    names: &[String],
    plan: Plan,
) -> Result<(), Alarm> {
    for name in names {
        if let Some(kind) = kind_of(name.as_str()) {
            try_kind(rt, bench, samples, kind, name.as_str(), plan)?;
        }
    }
    Ok(())
}

/// Fetches the samples, and tries changed inputs of the kinds of these names.
fn try_plan<R: Threads + Wait + Print + Sync, P: Program, S: Store>(
    rt: &R,
    alloc: Global,
    program: P,
    store: &mut S,
    names: &[String],
    plan: Plan,
) -> Result<(), Alarm>
    ensures { S.files store.new ≡ S.files store.old }
{
    let samples = Samples::fetch(alloc, store)?;
    let mut bench = Bench::new(alloc, program)?;
    let seed = plan.seed;
    println!(rt; "seed {seed}")?;
    try_kinds(rt, &mut bench, &samples, names, plan)
}

/// Tries changed inputs, by words: how many of each kind, a seed, and kinds, which are `jobs`, `objects` and `images`.
/// `store` has what is changed. Prints the counts of each kind. The error says that the words are otherwise, or what is
/// wrong with the first answer that is otherwise than it must be; then the line before it names the input.
pub fn try_words<R: Threads + Wait + Print + Sync, P: Program, S: Store>(
    rt: &R,
    alloc: Global,
    program: P,
    store: &mut S,
    words: &[String],
) -> Result<(), Ended>
    ensures files { S.files store.new ≡ S.files store.old }
    ensures words { OnOk result (AreWords words.now) }
    ensures usage { (AreWords words.now → ⊥) → result ≡ Err Words }
    ensures taken { result ≡ Err Words → AreWords words.now → ⊥ }
{
    let Some(plan) = plan_of(words) else {
        return Err(Ended::Words);
    };
    match try_plan(rt, alloc, program, store, kinds_in(words), plan) {
        Ok(()) => Ok(()),
        Err(alarm) => Err(Ended::Alarm { alarm }),
    }
}
