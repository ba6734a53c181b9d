//! Changes bytes of images, and checks how reading and writing the changed images ends.
//!
//! `image_fuzz COUNT FILE..` makes COUNT changed images from the files in turn, each with one to three bytes
//! changed, and reads each. Reading must end with an image, all of whose parts, symbols, names and relocations can
//! be read, or with a fault at an offset of the file or at its end. What the writer makes of an image is read again,
//! and from the given images the writer makes the same files. The changes follow a fixed sequence of numbers, so
//! each run makes the same ones.
//!
//! Its data are an executable, a program that may be loaded anywhere, and a module. Programs outside this repository
//! wrote them, and a reader outside it counted how many changed images are accepted.
#![tactic(auto)]

mod change;
mod outcome;
mod writing;

use anyhow::{Context, Result, ensure};
use change::change;
use image_file::read;
use job_changes::Generator;
use outcome::{Outcome, outcome_of};
use std::alloc::Global;
use std::{env, fs};
use writing::check_written;

/// The seed whose sequence begins with the state 1, as that of the reader outside does.
const SEED: u64 = 6_498_031_520_185_415_866;

/// An image to change.
#[derive(Drop)]
struct Sample {
    bytes: Vec<u8>,
    /// How many bytes its last part has, which holds the dynamic tables.
    tables: usize,
}

/// How many changed images were read as images, and how many were refused.
#[derive(Drop)]
struct Counts {
    accepted: u64,
    refused: u64,
}

/// The sample of a file. The writer must make this file from its image.
fn sample_of(alloc: Global, bytes: Vec<u8>) -> Result<Sample> {
    let image = read(alloc, bytes.as_slice())?;
    check_written(alloc, &image, bytes.as_slice())?;
    let last = image.part_count().checked_sub(1).context("no part")?;
    let tables = image.part(last).context("no last part")?.bytes.len();
    Ok(Sample { bytes, tables })
}

/// Changes each sample in turn, `count` times in all.
fn try_changes(alloc: Global, samples: &[Sample], count: u64) -> Result<Counts> {
    let mut generator = Generator::new(SEED);
    let mut counts = Counts {
        accepted: 0,
        refused: 0,
    };
    for number in 0..count {
        let which = number.checked_rem(samples.len() as u64);
        let sample = which.and_then(|which| samples.get(which as usize));
        let sample = sample.context("no image is given")?;
        let mut bytes = sample.bytes.clone()?;
        change(&mut generator, &mut bytes, sample.tables);
        match outcome_of(alloc, bytes.as_slice())? {
            Outcome::Accepted => counts.accepted = counts.accepted.saturating_add(1),
            Outcome::Refused => counts.refused = counts.refused.saturating_add(1),
        }
    }
    Ok(counts)
}

fn main(rt: HostRuntime) -> Result<()> {
    let mut words = env::args(&rt)?.skip(1);
    let count: u64 = words.next().context("how many changes")?.parse()?;
    let mut samples = Vec::new(rt.alloc());
    for name in words {
        let bytes = fs::read(&rt, name.as_str())?;
        samples.push(sample_of(rt.alloc(), bytes)?)?;
    }
    ensure!(!samples.is_empty(), "no image is given");
    let counts = try_changes(rt.alloc(), samples.as_slice(), count)?;
    let accepted = counts.accepted;
    let refused = counts.refused;
    println!(rt; "{count} changes: {accepted} accepted, {refused} refused")?;
    Ok(())
}
