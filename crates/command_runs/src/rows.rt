//! Rows: a change of a folder, a command, and its expected end.

/// What a row changes.
#[derive(Clone, Copy)]
pub(crate) enum Change<'a> {
    /// Nothing.
    Nothing,
    /// A file has other bytes at some places.
    Bytes {
        file: &'a str,
        places: &'a str,
    },
    /// A file is cut to each of these lengths in turn, without `end`.
    Lengths {
        file: &'a str,
        first: usize,
        end: usize,
    },
    /// The store fails at this call, counted from 1.
    StoreFails(u64),
    /// The sink takes this many bytes, and then fails.
    SinkTakes(u64),
}

/// The expected output of a command.
#[derive(Clone, Copy)]
pub(crate) enum Answer<'a> {
    /// This line.
    Line(&'a str),
    /// The text of the folder's file of this name.
    File(&'a str),
}

/// A row.
#[derive(Clone, Copy)]
pub(crate) struct Row<'a> {
    /// What it is about, in words.
    pub(crate) about: &'a str,
    pub(crate) change: Change<'a>,
    /// The command's words, with single spaces between.
    pub(crate) words: &'a str,
    /// The expected status.
    pub(crate) status: u8,
    pub(crate) answer: Answer<'a>,
}

impl Row<'_> {
    /// After how many bytes the sink fails, if it does.
    pub(crate) fn taken(&self) -> Option<u64> {
        match self.change {
            Change::SinkTakes(count) => Some(count),
            _ => None,
        }
    }
}

/// Lengths of a file, from the rest of a change.
fn lengths_of(text: &str) -> Option<Change<'_>> {
    let (file, range) = text.split_once(' ')?;
    let (first, end) = range.split_once("..")?;
    Some(Change::Lengths {
        file,
        first: first.parse().ok()?,
        end: end.parse().ok()?,
    })
}

/// A change, from a row's column.
fn change_of(text: &str) -> Option<Change<'_>> {
    let (kind, rest) = text.split_once(' ').unwrap_or((text, ""));
    match kind {
        "-" => Some(Change::Nothing),
        "put" => {
            let (file, places) = rest.split_once(' ')?;
            Some(Change::Bytes { file, places })
        }
        "cut" => lengths_of(rest),
        "store" => Some(Change::StoreFails(rest.parse().ok()?)),
        "sink" => Some(Change::SinkTakes(rest.parse().ok()?)),
        _ => None,
    }
}

/// An answer, from a row's column.
fn answer_of(text: &str) -> Answer<'_> {
    match text.strip_prefix("< ") {
        Some(name) => Answer::File(name),
        None => Answer::Line(text),
    }
}

/// A row, from the four columns of a line's rest.
pub(crate) fn row_of(text: &str) -> Option<Row<'_>> {
    let mut columns = text.splitn(4, '|');
    let about = columns.next()?.trim();
    let change = change_of(columns.next()?.trim())?;
    let words = columns.next()?.trim();
    let (status, answer) = columns.next()?.trim().split_once(' ')?;
    Some(Row {
        about,
        change,
        words,
        status: status.parse().ok()?,
        answer: answer_of(answer),
    })
}

/// A row without a change, from the rest of a shorter line.
pub(crate) fn run_of(text: &str) -> Option<Row<'_>> {
    let (status, rest) = text.split_once(' ')?;
    let (expected, words) = rest.split_once(' ')?;
    Some(Row {
        about: expected,
        change: Change::Nothing,
        words,
        status: status.parse().ok()?,
        answer: Answer::File(expected),
    })
}
