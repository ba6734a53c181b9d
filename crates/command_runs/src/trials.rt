//! Runs commands, and checks how each ends.

use crate::difference::{Difference, difference_of};
use crate::folder::Folder;
use crate::rows::{Change, Row};
use crate::tally::Tally;
use anyhow::{Context, Result};
use std::io;
use std::ops::Range;
use std::sync::Wait;
use std::thread::Threads;

/// Prints how the end of a command differs from the expected.
fn print_differing(
    rt: &impl Print,
    row: Row,
    status: u8,
    difference: Option<Difference>,
) -> io::Result<()> {
    let words = row.words;
    let wanted = row.status;
    print!(rt; "tlsld {words}: status {status}, wanted {wanted}")?;
    if let Some(difference) = difference {
        let line = difference.line;
        let found = difference.found;
        let wanted = difference.wanted;
        print!(rt; "; line {line}: {found:?}, wanted {wanted:?}")?;
    }
    println!(rt; "")
}

/// The prefix of a text that a sink takes.
fn front(text: &str, taken: Option<u64>) -> Option<&str> {
    match taken {
        Some(count) => text.get(..count as usize),
        None => Some(text),
    }
}

/// Runs a row's command, which must print this, and returns whether its end differs.
fn differs<R: Threads + Wait + Sync + Print>(
    rt: &R,
    folder: &mut Folder,
    row: Row,
    about: &str,
    wanted: &str,
) -> Result<bool> {
    let ended = folder.ended(rt, row.words, row.taken())?;
    let wanted = front(wanted, row.taken()).context("no such front")?;
    let difference = difference_of(ended.text()?, wanted);
    let differs = ended.status != row.status || difference.is_some();
    if differs {
        let title = folder.title.as_str();
        print!(rt; "{title}: {about}: ")?;
        print_differing(rt, row, ended.status, difference)?;
    }
    Ok(differs)
}

/// Runs a row's command over a file that was cut to this length; `{n}` in the row stands for the length.
fn differs_at<R: Threads + Wait + Sync + Print>(
    rt: &R,
    folder: &mut Folder,
    row: Row,
    length: usize,
) -> Result<bool> {
    let alloc = folder.alloc;
    let number = format!(in alloc; "{length}")?;
    let about = row.about.replace(alloc, "{n}", number.as_str())?;
    let wanted = folder.wanted(row.answer)?;
    let wanted = wanted.replace(alloc, "{n}", number.as_str())?;
    differs(rt, folder, row, about.as_str(), wanted.as_str())
}

/// Runs a row's command once.
fn run_once<R: Threads + Wait + Sync + Print>(
    rt: &R,
    folder: &mut Folder,
    row: Row,
    tally: &mut Tally,
) -> Result<()> {
    let wanted = folder.wanted(row.answer)?;
    tally.count_run(differs(rt, folder, row, row.about, wanted.as_str())?);
    Ok(())
}

/// Runs a row's command once for each length that it cuts a file to.
fn run_cut<R: Threads + Wait + Sync + Print>(
    rt: &R,
    folder: &mut Folder,
    row: Row,
    file: &str,
    lengths: Range<usize>,
    tally: &mut Tally,
) -> Result<()> {
    let whole = folder.copy(file)?;
    for length in lengths {
        folder.cut(file, whole.as_slice(), length)?;
        tally.count_run(differs_at(rt, folder, row, length)?);
    }
    Ok(folder.put(file, whole.as_slice())?)
}

/// Runs a row's command once, over a file with changed bytes.
fn run_patched<R: Threads + Wait + Sync + Print>(
    rt: &R,
    folder: &mut Folder,
    row: Row,
    file: &str,
    places: &str,
    tally: &mut Tally,
) -> Result<()> {
    let whole = folder.copy(file)?;
    folder.patch(file, places)?;
    run_once(rt, folder, row, tally)?;
    Ok(folder.put(file, whole.as_slice())?)
}

/// Runs a row's command once or more, each time with the row's change, and then undoes the change.
pub(crate) fn run_row<R: Threads + Wait + Sync + Print>(
    rt: &R,
    folder: &mut Folder,
    row: Row,
    tally: &mut Tally,
) -> Result<()> {
    match row.change {
        Change::Nothing | Change::SinkTakes(_) => run_once(rt, folder, row, tally)?,
        Change::Bytes { file, places } => run_patched(rt, folder, row, file, places, tally)?,
        Change::Lengths { file, first, end } => {
            run_cut(rt, folder, row, file, first..end, tally)?
        }
        Change::StoreFails(call) => {
            folder.fail_store(call);
            run_once(rt, folder, row, tally)?;
            folder.fail_store(0);
        }
    }
    Ok(())
}
