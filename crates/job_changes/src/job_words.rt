//! Words that a line of a job may get in place of one, and lines with other words.

use crate::generator::Generator;
use std::alloc::{AllocError, Global};

/// Numbers at limits, and words that are near to numbers.
const NUMBERS: [&str; 28] = [
    "0",
    "1",
    "2",
    "3",
    "4",
    "5",
    "8",
    "63",
    "64",
    "65",
    "255",
    "256",
    "1000",
    "4095",
    "4096",
    "4097",
    "65535",
    "65536",
    "4294967295",
    "4294967296",
    "18446744073709551615",
    "18446744073709551616",
    "0x10",
    "0xffffffffffffffff",
    "0x",
    "0X1",
    "01",
    "-1",
];

/// Words of the language, names that jobs have, and words that no line knows.
const WORDS: [&str; 32] = [
    "image", "threads", "fuel", "order", "call", "open", "close", "peek", "exe", "pie", "start",
    "late", "app", "lib", "plug", "other", "f", "g", "x", "v", "y", "n", "own", "shared", "#",
    "##", "imag", "calls", "a/b", "nowhere", "nothing", "$",
];

/// Names of images, and their kinds.
const NAMES: [&str; 4] = ["app", "lib", "plug", "other"];

const KINDS: [&str; 4] = ["exe", "pie", "start", "late"];

/// Lines that a job may get.
const LINES: [&str; 14] = [
    "threads 1",
    "threads 3",
    "threads 64",
    "order 1 2 1 2",
    "order 2 1",
    "1 open plug",
    "1 close plug",
    "2 open plug",
    "2 call plug f 1 0 0",
    "2 call app f 2 0 0",
    "1 call app f 5 0 0",
    "1 peek plug v 4",
    "2 peek app x 8",
    "# a remark",
];

/// A letter that makes long names, and how often: names of images have at most 64 bytes, and others 255.
const LONG: [u64; 6] = [63, 64, 65, 254, 255, 256];

/// Characters that no text has, or that part its lines and words otherwise.
const ODD: [char; 10] = [
    '\t', '\r', '\n', ' ', '#', '\u{7f}', '\u{e9}', '\u{0}', '0', 'x',
];

/// A name that is nearly too long, or is.
fn long_word(alloc: Global, generator: &mut Generator) -> Result<String, AllocError> {
    let mut word = String::new(alloc);
    for _ in 0..generator.pick(&LONG).unwrap_or(0) {
        word.push('a')?;
    }
    Ok(word)
}

/// A number by chance, or a word that is near to one.
fn any_number(generator: &mut Generator) -> &'static str {
    generator.pick(&NUMBERS).unwrap_or("0")
}

/// A word of the language by chance, or one that is near.
fn known_word(generator: &mut Generator) -> &'static str {
    generator.pick(&WORDS).unwrap_or("#")
}

/// The name of a file by chance.
fn any_file(generator: &mut Generator, files: &[&'static str]) -> &'static str {
    generator.pick(files).unwrap_or("nowhere")
}

/// A word by chance: a number, a word of the language, a file's name, or one of this line.
pub(crate) fn any_word(
    alloc: Global,
    generator: &mut Generator,
    files: &[&'static str],
    line: &str,
) -> Result<String, AllocError> {
    match generator.below(16) {
        0..=5 => String::from_str(alloc, any_number(generator)),
        6 | 7 => String::from_str(alloc, known_word(generator)),
        8 => long_word(alloc, generator),
        9..=11 => String::from_str(alloc, any_file(generator, files)),
        _ => {
            let number = generator.below(8) as usize;
            String::from_str(alloc, line.split(' ').nth(number).unwrap_or("0"))
        }
    }
}

/// A line by chance: of an image with one of these files, or of another kind.
pub(crate) fn any_line(
    alloc: Global,
    generator: &mut Generator,
    files: &[&'static str],
) -> Result<String, AllocError> {
    if !generator.is_one_in(4) {
        return String::from_str(alloc, generator.pick(&LINES).unwrap_or("#"));
    }
    let name = generator.pick(&NAMES).unwrap_or("other");
    let kind = any_kind(generator);
    let file = any_file(generator, files);
    format!(in alloc; "image {name} {kind} {file}")
}

/// A kind of image by chance.
pub(crate) fn any_kind(generator: &mut Generator) -> &'static str {
    generator.pick(&KINDS).unwrap_or("late")
}

/// How many words a line has.
pub(crate) fn count_of(line: &str) -> u64 {
    line.split(' ').count() as u64
}

/// A line with so many of a word in place of its word of this number, counted from 0.
pub(crate) fn with_words(
    alloc: Global,
    line: &str,
    number: u64,
    word: &str,
    count: u64,
) -> Result<String, AllocError> {
    let mut made = String::new(alloc);
    let mut at = 0u64;
    for old in line.split(' ') {
        let (new, times) = if at == number {
            (word, count)
        } else {
            (old, 1)
        };
        for _ in 0..times {
            if !made.is_empty() {
                made.push(' ')?;
            }
            made.push_str(new)?;
        }
        at = at.saturating_add(1);
    }
    Ok(made)
}

/// A line with an odd character in place of the one of this number, or before it.
pub(crate) fn with_odd(
    alloc: Global,
    generator: &mut Generator,
    line: &str,
) -> Result<String, AllocError> {
    let place = generator.below(line.len() as u64);
    let is_kept = generator.is_one_in(2);
    let odd = generator.pick(&ODD).unwrap_or(' ');
    let mut made = String::new(alloc);
    let mut at = 0u64;
    for old in line.chars() {
        if at == place {
            made.push(odd)?;
        }
        if at != place || is_kept {
            made.push(old)?;
        }
        at = at.saturating_add(1);
    }
    Ok(made)
}
