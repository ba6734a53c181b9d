//! How many objects to make.
ghost use Rattle.std.specs.Prelude.{◌≡◌, ◌≤◌, IfSome, IsTrue, ◌↔◌, slice_index};
ghost use Rattle.command_line.specs.Counts.{count_of, is_count};

/// The most objects of a generated program.
const COUNT_LIMIT: u32 = 1_000;

/// The count that a word writes, in decimal digits without a sign or a leading zero.
pub(crate) fn count_of(word: &str) -> Option<u32>
    ensures value { result ≡ count_of word.now }
    ensures low { IfSome result (λ count. 1 ≤ count) }
    ensures high { IfSome result (λ count. count ≤ 1000) }
{
    if !begins_with_digit(word) {
        return None;
    }
    match u32::from_str_radix(word, 10) {
        Ok(count) if is_count(count) => Some(count),
        _ => None,
    }
}

fn is_count(number: u32) -> bool
    ensures { result ≡ is_count number }
{
    1 <= number && number <= COUNT_LIMIT
}

/// Whether the first byte is a digit other than zero.
fn begins_with_digit(word: &str) -> bool
    ensures { IsTrue result ↔ ((49 ≤ slice_index word.now 0) × (slice_index word.now 0 ≤ 57)) }
{
    match word.as_bytes() {
        [first, ..] => b'1' <= *first && *first <= b'9',
        [] => false,
    }
}
