//! The lines of a job and their words.

ghost use Rattle.std.specs.Prelude.{◌≡◌, ◌==◌, IfSome, IfOk, drop, length, map, slice_index, is_some};
ghost use Rattle.job_text.specs.Words.{is_blank, is_skipped, is_text, words_of, word_at};

use std::alloc::{AllocError, Global};
use std::marker::Model;
use std::str;

/// Whether a line is skipped: it has no word, or is a comment.
pub(crate) fn is_skipped(line: &[u8]) -> bool
    ensures { result ≡ is_skipped line.now }
{
    begins_comment(line) || is_blank(line)
}

fn is_blank(line: &[u8]) -> bool
    ensures { result ≡ is_blank line.now }
{
    line.iter().all(|byte| *byte == b' ')
}

fn begins_comment(line: &[u8]) -> bool
    ensures { result ≡ (slice_index line.now 0 == 35) }
{
    match line {
        [first, ..] => *first == b'#',
        [] => false,
    }
}

/// A line as text, if each of its bytes is a printable ASCII character.
pub(crate) fn text_of(line: &[u8]) -> Option<&str>
    ensures found { is_some result ≡ is_text line.now }
    ensures text { IfSome result (λ text. text.now ≡ line.now) }
{
    if is_text(line) {
        str::from_utf8(line).ok()
    } else {
        None
    }
}

/// Whether each byte is a printable ASCII character.
fn is_text(line: &[u8]) -> bool
    ensures { result ≡ is_text line.now }
{
    line.iter().all(|byte| b' ' <= *byte && *byte <= b'~')
}

/// The words of a line: what stands between its spaces.
#[derive(Drop)]
pub(crate) struct Words<'a> {
    items: Vec<&'a str>,
}

impl<'a> Model for Words<'a> {
    ghost use Rattle.std.specs.Prelude.{ℕ, List, map};

    ghost Value = { List (List ℕ) };

    ghost view = { λ words. map (λ word. word.now) words.items.items };
}

impl<'a> Words<'a> {
    pub(crate) fn of(alloc: Global, line: &'a str) -> Result<Words<'a>, AllocError>
        ensures { IfOk result (λ words. words ≡ words_of line.now) }
    {
        let items = line
            .split(' ')
            .filter(|word| !word.is_empty())
            .collect(alloc)?;
        Ok(Words { items })
    }

    pub(crate) fn count(&self) -> usize
        ensures { result ≡ length self.now }
    {
        self.items.len()
    }

    /// The words from the fourth on: the objects of an image's line.
    pub(crate) fn objects(&self) -> &[&'a str]
        ensures { map (λ word. word.now) result.now ≡ drop 3 self.now }
    {
        match self.items.as_slice() {
            [_, _, _, objects @ ..] => objects,
            _ => &[],
        }
    }

    /// A word, counted from 0; past the last, the empty word.
    pub(crate) fn at(&self, index: usize) -> &'a str
        ensures { result.now ≡ word_at index self.now }
    {
        match self.items.get(index) {
            Some(word) => word,
            None => "",
        }
    }
}
