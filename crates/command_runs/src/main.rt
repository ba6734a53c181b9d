//! Runs commands over files in memory, and compares the output and the status of each with the expected ones.
//!
//! This is the test of the whole program: of the examples, whose output stands next to them for readers, of the cases
//! by which the workbench tries other linkers, of cases that were worked out by hand, of malformed files, and of stores
//! and sinks that fail. It is a program and not a crate of test functions, since the runs are data: so the crate, which
//! uses all others, is proved once for any number of runs, and the runs use what each of the two compilers builds.
//!
//! The runs stand in lists among the crate's data. A list is read from top to bottom, a line at a time; a line is words
//! with single spaces between them:
//!
//! ```text
//! # a comment; so is an empty line
//! folder a late module             the lines below are about a new folder, in memory, in which there is no file yet
//! file job late_module/job         it has a file `job`, with the bytes of that file beside the list
//! file plug.o                      the same under one name
//! text wanted                      it has a file `wanted`, of the lines that follow
//! | t1 l1 g0 opened 2
//! pad plug.o 524288                the file gets zeros behind it, up to this length
//! run 0 wanted run job             a command: its status, the file with what it prints, and its words
//! row WHAT | CHANGE | COMMAND | STATUS LINE
//! absent out                       there is no file `out` now
//! same out wanted                  there is a file `out` now, with the bytes of `wanted`
//! holds out 4149 6448, 4389 c3     its bytes from these offsets on are these
//! ```
//!
//! A command is passed to [`commands::tlsld`] as the program `tlsld` does it, with a store in memory that has the files
//! of the folder so far, and a sink in memory. Each run that differs prints a line, and each list ends with a line of
//! counts. The status is 1 if any run differs, or if a list has an unknown line or names a file that does not exist.
//!
//! **Rows make tables.** A row says in words what it changes, then has the change itself, the command, and the status
//! with the one expected line, or `< wanted` for all lines of that file. Columns may have more spaces for looks. The
//! change holds only for the row's own run:
//!
//! ```text
//! row as it stands               | -                        | run job          | 0 t1 l1 g0 = 000000000000002a
//! row e_shstrndx is 8            | put a.o 62 08            | run job          | 6 object a.o section 0 entry 0 NotRelocatable
//! row x has other numbers        | put a.o 645 01, 653 ffff | run job          | 6 object a.o section 5 entry 2 SymbolRange
//! row the first {n} bytes        | cut image 0..64          | show image       | 8 image {n} Truncated
//! row the first object is not    | store 2                  | run job          | 3 store fault
//! row six bytes of the line are  | sink 6                   | link job app out | 4 linked app 12485
//! ```
//!
//! `put` overwrites a file with these bytes, in hexadecimal digits, from an offset on, or from several; at the file's
//! end they are appended. `cut` runs once for each length from the first up to, but without, the last, all of them
//! shorter than the file; `{n}` stands for the length. `store` makes the store fail at a call, counted from 1. `sink`
//! makes the sink fail after it took as many bytes as given; then only that prefix of the expected text is expected.
//!
//! **Words ask for trials** of changed inputs too: `command_runs COUNT SEED KIND..`, where KIND is `jobs`, `objects` or
//! `images`, makes COUNT inputs of each kind once the lists are done. Each is a sample among the crate's data with one
//! to three changes, drawn from the seed, so that each run with these words is the same. `command_trials` says what is
//! tested of the answers. The first that is otherwise ends the run with an error, and the line before it names the
//! input; else the counts are printed: how many inputs were accepted and refused, the greatest input's size, and a row
//! for each cause,
//!
//! ```text
//! 6 RelocRange 171 1204     status, cause, inputs of which `run` (of images `show`) said so, answers that said so
//! ```
//!
//! where the rows of status 0 are the commands, and those of the number 10 count what the lines of transcripts say.
//! tests/fuzz.py runs many slices with seeds of their own, adds their rows up, and measures time and memory. Without
//! words the lists are all that is run.
//!
//! The lists of the examples and of the workbench's cases, and the files next to them, are copies that
//! tests/example_data.py writes; it knows which file of an example belongs to which command. The others are written by
//! hand: `cases/README.md` and `lying/README.md` describe their objects and images.
#![tactic(auto)]

mod changed;
mod difference;
mod folder;
mod lines;
mod looks;
mod patches;
mod rows;
mod tally;
mod trials;

use anyhow::{Context, Result};
use changed::Commands;
use command_trials::try_words;
use folder::{Folder, fetched};
use lines::{Gift, Line, Test, line_of};
use looks::{is_other, is_there, is_unlike};
use ports::{HostStore, Store};
use std::alloc::Global;
use std::process::ExitCode;
use std::sync::Wait;
use std::thread::Threads;
use std::{env, str};
use tally::Tally;
use trials::run_row;

/// The lists of runs: each with its folder, the files that it names, and its name there.
const LISTS: [(&str, &str); 8] = [
    ("examples", "runs"),
    ("workbench", "runs"),
    ("cases", "commands"),
    ("cases", "turns"),
    ("cases", "verdicts"),
    ("cases", "failing"),
    ("lying", "objects"),
    ("lying", "images"),
];

/// Copies a file into a folder.
fn lay<S: Store>(
    store: &mut S,
    folder: &mut Folder,
    place: &str,
    name: &str,
    from: &str,
) -> Result<()> {
    let path = format!(in folder.alloc; "{place}/{from}")?;
    let bytes = fetched(folder.alloc, store, path.as_str())?;
    Ok(folder.put(name, bytes.as_slice())?)
}

/// Adds to a folder what a line of a list adds; the list's files are in `place`.
fn give<S: Store>(store: &mut S, folder: &mut Folder, place: &str, gift: Gift) -> Result<()> {
    match gift {
        Gift::File(name, from) => lay(store, folder, place, name, from)?,
        Gift::Text(name) => folder.begin_text(name)?,
        Gift::TextLine(text) => folder.push_line(text)?,
        Gift::Pad(name, length) => folder.pad(name, length)?,
    }
    Ok(())
}

/// Checks a folder as a line says, and counts the result.
fn test<R: Threads + Wait + Sync + Print>(
    rt: &R,
    folder: &mut Folder,
    test: Test,
    tally: &mut Tally,
) -> Result<()> {
    match test {
        Test::Row(row) => run_row(rt, folder, row, tally)?,
        Test::Absent(name) => tally.count_look(is_there(rt, folder, name)?),
        Test::Same(name, other) => tally.count_look(is_unlike(rt, folder, name, other)?),
        Test::Holds(name, places) => tally.count_look(is_other(rt, folder, name, places)?),
    }
    Ok(())
}

/// Carries out the lines of a list one after another; the list's files are in `place`.
fn run_list<R: Threads + Wait + Sync + Print, S: Store>(
    rt: &R,
    alloc: Global,
    store: &mut S,
    place: &str,
    list: &str,
) -> Result<Tally> {
    let mut folder = Folder::new(alloc, place)?;
    let mut tally = Tally::new();
    for line in list.lines() {
        match line_of(line).context(format_args!("no line of a list: {line}"))? {
            Line::Comment => {}
            Line::Folder(title) => {
                folder = Folder::new(alloc, title)?;
                tally.count_folder();
            }
            Line::Gift(gift) => give(store, &mut folder, place, gift)?,
            Line::Test(it) => test(rt, &mut folder, it, &mut tally)?,
        }
    }
    Ok(tally)
}

/// Carries out a list, and returns whether everything was as expected.
fn holds<R: Threads + Wait + Sync + Print, S: Store>(
    rt: &R,
    alloc: Global,
    store: &mut S,
    place: &str,
    name: &str,
) -> Result<bool> {
    let path = format!(in alloc; "{place}/{name}")?;
    let list = fetched(alloc, store, path.as_str())?;
    let tally = run_list(rt, alloc, store, place, str::from_utf8(list.as_slice())?)?;
    Ok(tally.conclude(rt, path.as_str())?)
}

/// Carries out all lists, and returns whether everything was as expected.
fn all_hold<R: Threads + Wait + Sync + Print, S: Store>(
    rt: &R,
    alloc: Global,
    store: &mut S,
) -> Result<bool> {
    let mut all_hold = true;
    for (place, name) in LISTS {
        all_hold &= holds(rt, alloc, store, place, name)?;
    }
    Ok(all_hold)
}

fn main(rt: HostRuntime) -> Result<ExitCode> {
    let alloc = rt.alloc();
    let words: Vec<String> = env::args(&rt)?.skip(1).collect(alloc)?;
    let mut store = HostStore::new(&rt, alloc);
    let all_hold = all_hold(&rt, alloc, &mut store)?;
    if !words.is_empty() {
        try_words(&rt, alloc, Commands, &mut store, &words)?;
    }
    Ok(if all_hold {
        ExitCode::SUCCESS
    } else {
        ExitCode::FAILURE
    })
}
