//! The kinds of lines, by their first words.

ghost use Rattle.std.specs.Prelude.{◌≡◌};
ghost use Rattle.job_text.specs.Grammar.{begins_with_digit, has_name_bytes, has_name_length, has_its_words};
ghost use Rattle.job_text.specs.Grammar.{heading_of, is_image_name, is_name_byte, is_short_name, kind_heading};
ghost use Rattle.job_text.specs.Grammar.{verb_heading};

use crate::words::Words;
use link_faults::ImageKind;

/// What a thread does on its line.
#[derive(Clone, Copy)]
pub(crate) enum Verb {
    Call,
    Open,
    Close,
    Peek,
}

/// What a line is, by its first words.
#[derive(Clone, Copy)]
pub(crate) enum Heading {
    /// `image NAME KIND OBJ..`
    Image(ImageKind),
    /// `threads N`
    Threads,
    /// `fuel N`
    Fuel,
    /// `order T T ..`
    Order,
    /// `T VERB IMAGE ..`
    Thread(Verb),
    /// An image without its kind, or a thread without its verb.
    Short,
}

/// The kind of a line. `None` if the first word begins no line, or if the kind of the image or the
/// verb is there and unknown.
#[tactic(auto, unfolding(crate::specs::Grammar::heading_of))]
pub(crate) fn heading_of(words: &Words) -> Option<Heading>
    ensures { result ≡ heading_of words.now }
{
    let first = words.at(0);
    if first == "image" {
        if words.count() < 3 {
            Some(Heading::Short)
        } else {
            kind_heading(words.at(2))
        }
    } else if first == "threads" {
        Some(Heading::Threads)
    } else if first == "fuel" {
        Some(Heading::Fuel)
    } else if first == "order" {
        Some(Heading::Order)
    } else if begins_with_digit(first) {
        if words.count() < 2 {
            Some(Heading::Short)
        } else {
            verb_heading(words.at(1))
        }
    } else {
        None
    }
}

fn begins_with_digit(word: &str) -> bool
    ensures { result ≡ begins_with_digit word.now }
{
    match word.as_bytes() {
        [first, ..] => b'0' <= *first && *first <= b'9',
        [] => false,
    }
}

#[tactic(auto, unfolding(crate::specs::Grammar::kind_heading))]
fn kind_heading(word: &str) -> Option<Heading>
    ensures { result ≡ kind_heading word.now }
{
    match word {
        "exe" => Some(Heading::Image(ImageKind::Exe)),
        "pie" => Some(Heading::Image(ImageKind::Pie)),
        "start" => Some(Heading::Image(ImageKind::Start)),
        "late" => Some(Heading::Image(ImageKind::Late)),
        _ => None,
    }
}

#[tactic(auto, unfolding(crate::specs::Grammar::verb_heading))]
fn verb_heading(word: &str) -> Option<Heading>
    ensures { result ≡ verb_heading word.now }
{
    match word {
        "call" => Some(Heading::Thread(Verb::Call)),
        "open" => Some(Heading::Thread(Verb::Open)),
        "close" => Some(Heading::Thread(Verb::Close)),
        "peek" => Some(Heading::Thread(Verb::Peek)),
        _ => None,
    }
}

/// Whether a line has the number of words that its kind takes.
pub(crate) fn has_its_words(heading: Heading, count: usize) -> bool
    ensures { result ≡ has_its_words heading count }
{
    match heading {
        Heading::Image(_) => 4 <= count,
        Heading::Threads | Heading::Fuel => count == 2,
        Heading::Order => 2 <= count,
        Heading::Thread(Verb::Call) => count == 7,
        Heading::Thread(Verb::Open | Verb::Close) => count == 3,
        Heading::Thread(Verb::Peek) => count == 5,
        Heading::Short => false,
    }
}

/// Whether a word may name an image: 1 to 64 letters, digits, `_`, `.` and `-`.
pub(crate) fn is_image_name(word: &str) -> bool
    ensures { result ≡ is_image_name word.now }
{
    has_name_length(word) && has_name_bytes(word)
}

fn has_name_length(word: &str) -> bool
    ensures { result ≡ has_name_length word.now }
{
    1 <= word.len() && word.len() <= 64
}

fn has_name_bytes(word: &str) -> bool
    ensures { result ≡ has_name_bytes word.now }
{
    word.as_bytes().iter().all(|byte| is_name_byte(*byte))
}

fn is_name_byte(byte: u8) -> bool
    ensures { result ≡ is_name_byte byte }
{
    byte.is_ascii_alphanumeric() || byte == b'_' || byte == b'.' || byte == b'-'
}

/// Whether a word may name an object or a symbol: it has at most 255 bytes.
pub(crate) fn is_short_name(word: &str) -> bool
    ensures { result ≡ is_short_name word.now }
{
    word.len() <= 255
}
