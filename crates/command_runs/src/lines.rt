//! The lines of a list of runs.

use crate::rows::{Row, row_of, run_of};

/// What a line adds to a folder.
#[derive(Clone, Copy)]
pub(crate) enum Gift<'a> {
    /// A file of the first name, with the bytes of the file of the second name.
    File(&'a str, &'a str),
    /// A file of this name, whose lines follow.
    Text(&'a str),
    /// A line of that file.
    TextLine(&'a str),
    /// Extends a file to this length with zeros.
    Pad(&'a str, usize),
}

/// What a line checks in a folder.
#[derive(Clone, Copy)]
pub(crate) enum Test<'a> {
    /// A command over its files ends this way.
    Row(Row<'a>),
    /// It has no file of this name.
    Absent(&'a str),
    /// It has a file of the first name, with the bytes of its file of the second name.
    Same(&'a str, &'a str),
    /// Its file of this name has these bytes at these places.
    Holds(&'a str, &'a str),
}

/// A line of a list.
#[derive(Clone, Copy)]
pub(crate) enum Line<'a> {
    /// It has no effect.
    Comment,
    /// The lines below are about a folder of this title, which has no file yet.
    Folder(&'a str),
    Gift(Gift<'a>),
    Test(Test<'a>),
}

/// A file, from the rest of a line: one name, or two.
fn file_of(text: &str) -> Gift<'_> {
    let (name, from) = text.split_once(' ').unwrap_or((text, text));
    Gift::File(name, from)
}

/// A file to extend, from the rest of a line.
fn pad_of(text: &str) -> Option<Gift<'_>> {
    let (name, length) = text.split_once(' ')?;
    Some(Gift::Pad(name, length.parse().ok()?))
}

/// What a line of this kind adds to a folder, if it adds something.
fn gift_of<'a>(kind: &str, rest: &'a str) -> Option<Gift<'a>> {
    match kind {
        "file" => Some(file_of(rest)),
        "text" => Some(Gift::Text(rest)),
        "|" => Some(Gift::TextLine(rest)),
        "pad" => pad_of(rest),
        _ => None,
    }
}

/// Two files, from the rest of a line.
fn same_of(text: &str) -> Option<Test<'_>> {
    let (name, other) = text.split_once(' ')?;
    Some(Test::Same(name, other))
}

/// A file and its bytes at some places, from the rest of a line.
fn holds_of(text: &str) -> Option<Test<'_>> {
    let (name, places) = text.split_once(' ')?;
    Some(Test::Holds(name, places))
}

/// What a line of this kind checks, if it checks something.
fn test_of<'a>(kind: &str, rest: &'a str) -> Option<Test<'a>> {
    match kind {
        "run" => Some(Test::Row(run_of(rest)?)),
        "row" => Some(Test::Row(row_of(rest)?)),
        "absent" => Some(Test::Absent(rest)),
        "same" => same_of(rest),
        "holds" => holds_of(rest),
        _ => None,
    }
}

/// The parsed line; `None` if it is not one.
pub(crate) fn line_of(text: &str) -> Option<Line<'_>> {
    if text.is_empty() || text.starts_with('#') {
        return Some(Line::Comment);
    }
    let (kind, rest) = text.split_once(' ').unwrap_or((text, ""));
    if kind == "folder" {
        return Some(Line::Folder(rest));
    }
    match gift_of(kind, rest) {
        Some(gift) => Some(Line::Gift(gift)),
        None => Some(Line::Test(test_of(kind, rest)?)),
    }
}
