//! The causes that an answer may name: of each status the words that its line may have, in the order in which they are
//! asked.

/// Statuses: the output, and want of memory, words of no command, a store and a sink that fail, and what is refused of
/// a job, an object, a link, an image, and of a job that is checked.
pub(crate) const DONE: u8 = 0;

pub(crate) const USAGE: u8 = 2;

pub(crate) const STORE: u8 = 3;

pub(crate) const SINK: u8 = 4;

pub(crate) const JOB: u8 = 5;

pub(crate) const OBJECT: u8 = 6;

pub(crate) const LINK: u8 = 7;

pub(crate) const UNCLEAN: u8 = 9;

/// It stands in the place of a status for what came of lines of threads.
pub(crate) const LINES: u8 = 10;

/// How many statuses there are, `LINES` among them.
pub(crate) const STATUSES: u8 = 11;

/// How many causes a status has at most.
pub(crate) const MOST: usize = 32;

const OBJECT_CAUSES: &str =
    "Truncated NotElf NotRelocatable SectionName SectionKind SectionAlign TooLarge SymbolTable \
SymbolName SymbolSection SymbolRange SymbolKind RelocTarget RelocSymbol RelocKind RelocRange RelocOverlap WritableData \
Sequence StrayCall";

const LINK_CAUSES: &str =
    "Undefined Duplicate NotTls LocalExecInModule NarrowInModule TlsTooLarge ImageTooLarge NoTls \
Overflow";

const LINE_CAUSES: &str =
    "= opened closed bytes unknown full static-full permanent not-open symbol length address code \
unloaded steps";

/// The causes under a status, with spaces between. Those of status 0 are the commands.
pub(crate) fn causes_of(status: u8) -> &'static str {
    match status {
        0 => "run race link sites show check gen",
        1 => "memory",
        2 => "usage",
        3 => "store",
        4 => "sink",
        5 => "NotText Word Count Number Name Twice NoExe",
        6 => OBJECT_CAUSES,
        7 => LINK_CAUSES,
        8 => "Truncated Header Segment Dynamic Relocation TlsPlace",
        9 => "inside field linker undefined flags base desc answer steps",
        _ => LINE_CAUSES,
    }
}

/// The number of a cause under its status, if it is one.
pub(crate) fn number_of(status: u8, cause: &str) -> Option<usize> {
    causes_of(status)
        .split(' ')
        .position(|known| known == cause)
}

/// A word of a line that has so many words, of which this one is the first.
fn word_of<'a>(line: &'a str, first: &str, count: usize, number: usize) -> Option<&'a str> {
    if line.split(' ').next() != Some(first) || line.split(' ').count() != count {
        return None;
    }
    line.split(' ').nth(number)
}

/// The cause that a line names under a status above 0, if it is a line of that status.
fn cause_in(status: u8, line: &str) -> Option<&str> {
    match status {
        1 if line == "out of memory" => Some("memory"),
        2 if line == "usage" => Some("usage"),
        3 if line == "store fault" => Some("store"),
        5 => word_of(line, "job", 3, 2),
        6 => word_of(line, "object", 7, 6),
        7 => word_of(line, "link", 8, 2),
        8 => word_of(line, "image", 3, 2),
        9 => word_of(line, "unclean", 6, 5),
        _ => None,
    }
}

/// The number of the cause that an answer names, if it is one line of its status, and no more.
pub(crate) fn refusal_of(status: u8, text: &str) -> Option<usize> {
    let line = text.strip_suffix('\n')?;
    if line.contains('\n') {
        return None;
    }
    number_of(status, cause_in(status, line)?)
}

/// What a line of a transcript says, if it is one of a thread's line.
pub(crate) fn outcome_of(line: &str) -> Option<usize> {
    let mut words = line.split(' ').skip(3);
    let first = words.next()?;
    match first {
        "refused" | "fault" => number_of(LINES, words.next()?),
        _ => number_of(LINES, first),
    }
}
