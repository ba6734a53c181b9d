//! Where two texts differ.

/// The first line in which two texts differ, with that line of each, if the text has it.
#[derive(Drop)]
pub(crate) struct Difference<'a> {
    /// Lines are counted from 1.
    pub(crate) line: u64,
    pub(crate) found: Option<&'a str>,
    pub(crate) wanted: Option<&'a str>,
}

/// The first difference, unless the texts are the same.
pub(crate) fn difference_of<'a>(found: &'a str, wanted: &'a str) -> Option<Difference<'a>> {
    let mut others = found.split('\n');
    let mut line = 1u64;
    for wanted in wanted.split('\n') {
        let found = others.next();
        if found != Some(wanted) {
            return Some(Difference {
                line,
                found,
                wanted: Some(wanted),
            });
        }
        line = line.saturating_add(1);
    }
    let found = others.next()?;
    Some(Difference {
        line,
        found: Some(found),
        wanted: None,
    })
}
