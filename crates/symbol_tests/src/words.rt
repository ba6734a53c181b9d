//! Needs, entries and tables as the tests write them.

use got_pairs::{DynamicSymbol, Entry, GotPlan, Name, Need, Target, Word, plan};
use link_faults::{ImageKind, SymbolRef};
use std::alloc::{AllocError, Global};
use std::process::Abort;
use std::str;
use std::test::Fail;

/// Compares the found text with the expected one.
pub(crate) fn same(rt: &impl Abort, found: &str, want: &str, at: &str) {
    assert!(rt; found.trim_end() == want, "{found}: {at}");
}

/// A hexadecimal number; 0 if the word is not one.
pub(crate) fn number(word: &str) -> u64 {
    u64::from_str_radix(word, 16).unwrap_or(0)
}

/// The kind of image for a word.
pub(crate) fn kind_of(word: &str) -> ImageKind {
    match word {
        "exe" => ImageKind::Exe,
        "pie" => ImageKind::Pie,
        "start" => ImageKind::Start,
        _ => ImageKind::Late,
    }
}

/// A symbol of the first object.
fn symbol(number: u32) -> SymbolRef {
    SymbolRef {
        object: 0,
        symbol: number,
    }
}

/// A variable of the image itself, symbol 2, by its offset, or a variable of another image, by its name.
fn target_of(word: &str) -> Target<'_> {
    match u64::from_str_radix(word, 16) {
        Ok(offset) => Target::Here {
            symbol: symbol(2),
            offset,
        },
        Err(_) => Target::Import(Name::new(word.as_bytes())),
    }
}

/// The need for a word: `module`, `pair:`, `desc:` or `word:` and a variable, `addr:` and the address of a function,
/// symbol 1, or `runtime`.
pub(crate) fn need_of(word: &str) -> Need<'_> {
    let (kind, of) = word.split_once(':').unwrap_or((word, ""));
    match kind {
        "module" => Need::ModulePair,
        "pair" => Need::SymbolPair(target_of(of)),
        "desc" => Need::Descriptor(target_of(of)),
        "word" => Need::SymbolWord(target_of(of)),
        "addr" => Need::AddressWord {
            symbol: symbol(1),
            place: number(of),
        },
        _ => Need::RuntimeWord,
    }
}

/// The name of a symbol that a loader looks up.
fn name_of<'a>(symbol: &DynamicSymbol<'a>) -> &'a str {
    match symbol {
        DynamicSymbol::Image => "image",
        DynamicSymbol::Imported(name) => str::from_utf8(name.as_bytes()).unwrap_or("?"),
        DynamicSymbol::Runtime => "runtime",
    }
}

/// Appends a word: its number, and what a loader writes over it, if it does.
fn push_word(text: &mut String, word: &Word) -> Result<(), AllocError> {
    let number = word.number;
    write!(text, "{number:x}")?;
    if let Some(relocation) = &word.relocation {
        let (kind, addend) = (relocation.kind, relocation.addend);
        let name = name_of(&relocation.symbol);
        write!(text, " {kind:?} {name} {addend:x}")?;
    }
    Ok(())
}

/// Adds an entry.
pub(crate) fn push_entry(text: &mut String, entry: &Entry) -> Result<(), AllocError> {
    match entry {
        Entry::One(word) => push_word(text, word)?,
        Entry::Two(first, second) => {
            push_word(text, first)?;
            text.push_str(", ")?;
            push_word(text, second)?;
        }
    }
    text.push_str("; ")
}

/// The needs for words, without those after a `?`, which are only looked up.
fn needs_of(alloc: Global, words: &str) -> Result<Vec<Need<'_>>, AllocError> {
    let mut needs = Vec::new(alloc);
    for word in words.split(' ') {
        if !word.starts_with('?') {
            needs.push(need_of(word))?;
        }
    }
    Ok(needs)
}

/// Appends where the entry for each need begins.
fn push_starts<'a>(
    text: &mut String,
    table: &GotPlan<'a>,
    words: &'a str,
) -> Result<(), AllocError> {
    for word in words.split(' ') {
        match table.start(&need_of(word.trim_start_matches('?'))) {
            Some(start) => write!(text, "{start:x} ")?,
            None => text.push_str("- ")?,
        }
    }
    Ok(())
}

/// Adds the size and the entries of a table.
fn push_table(text: &mut String, table: &GotPlan) -> Result<(), AllocError> {
    let size = table.size();
    write!(text, "of {size:x}: ")?;
    for number in 0..table.entry_count() {
        if let Some(entry) = table.entry(number) {
            push_entry(text, &entry)?;
        }
    }
    Ok(())
}

/// The table for these needs: where the entry for each begins, the size, and the entries.
pub(crate) fn planned(
    alloc: Global,
    kind: ImageKind,
    block: u64,
    words: &str,
) -> Result<String, Fail> {
    let needs = needs_of(alloc, words)?;
    let table = plan(alloc, needs.as_slice(), kind, block)?;
    let mut text = String::new(alloc);
    push_starts(&mut text, &table, words)?;
    push_table(&mut text, &table)?;
    Ok(text)
}
