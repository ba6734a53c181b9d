//! Numbers, as the job writes them.

ghost use Rattle.std.specs.Prelude.{◌≡◌, ◌==◌, ◌≤◌, IfSome, slice_index};
ghost use Rattle.job_text.specs.Numbers.{has_leading_zero, number, number_within, numeral};

/// The number that a word writes: decimal digits without a leading zero, or `0x` and hexadecimal digits of either case.
/// `None` if it writes none, or one that does not fit in 64 bits.
#[tactic(auto, unfolding(crate::specs::Numbers::number))]
pub(crate) fn number(word: &str) -> Option<u64>
    ensures { result ≡ number word.now }
{
    match word.strip_prefix("0x") {
        Some(digits) => numeral(digits, 16),
        None => {
            if has_leading_zero(word) {
                None
            } else {
                numeral(word, 10)
            }
        }
    }
}

/// The number that digits in this base write.
fn numeral(digits: &str, base: u32) -> Option<u64>
    requires low { 2 ≤ base }
    requires high { base ≤ 36 }
    ensures { result ≡ numeral base digits.now }
{
    // A sign is not a digit.
    if begins_with_plus(digits) {
        return None;
    }
    u64::from_str_radix(digits, base).ok()
}

fn begins_with_plus(word: &str) -> bool
    ensures { result ≡ (slice_index word.now 0 == 43) }
{
    match word.as_bytes() {
        [first, ..] => *first == b'+',
        [] => false,
    }
}

fn has_leading_zero(word: &str) -> bool
    ensures { result ≡ has_leading_zero word.now }
{
    match word.as_bytes() {
        [first, _, ..] => *first == b'0',
        _ => false,
    }
}

/// The number that a word writes, if it is from `low` to `high`.
pub(crate) fn number_within(word: &str, low: u64, high: u64) -> Option<u64>
    ensures value { result ≡ number_within low high word.now }
    ensures low { IfSome result (λ value. low ≤ value) }
    ensures high { IfSome result (λ value. value ≤ high) }
{
    let value = number(word)?;
    if value < low || high < value {
        return None;
    }
    Some(value)
}
