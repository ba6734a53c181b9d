//! Plain numbers as values.

ghost use Rattle.std.specs.Prelude.{◌≡◌, ◌%◌, ◌^◌, ◌++◌};
ghost use Rattle.guest_arithmetic.specs.Four.{bytes_of};
ghost use Rattle.guest_arithmetic.specs.Plain.{plain_operations};
ghost use Rattle.guest_arithmetic.specs.PlainLaws.{plain_laws};
ghost use Rattle.guest_arithmetic.specs.Values.{number_from};

use crate::cause::Cause;
use crate::values::{Four, Values};

/// Plain numbers: no value is marked, and a flag that an instruction leaves undefined keeps its old value.
pub struct Plain;

/// The little-endian number that the bytes hold, modulo 2^64.
fn number(bytes: &[u8]) -> u64
    ensures { result ≡ number_from bytes.now % 2 ^ 64 }
{
    match bytes {
        [] => 0,
        [first, rest @ ..] => u64::from(*first).wrapping_add(number(rest).wrapping_mul(256)),
    }
}

impl Values for Plain {
    type Word = u64;

    type Flag = bool;

    type Byte = u8;

    ghost operations = { plain_operations };

    ghost lawful = { plain_laws };

    #[tactic(auto, unfolding(crate::specs::Plain::plain_operations))]
    fn word(number: u64) -> u64 {
        number
    }

    #[tactic(auto, unfolding(crate::specs::Plain::plain_operations))]
    fn number_of(word: u64) -> Result<u64, Cause> {
        Ok(word)
    }

    #[tactic(auto, unfolding(crate::specs::Plain::plain_operations))]
    fn unknown() -> u64 {
        0
    }

    #[tactic(auto, unfolding(crate::specs::Plain::plain_operations))]
    fn flag(truth: bool) -> bool {
        truth
    }

    #[tactic(auto, unfolding(crate::specs::Plain::plain_operations))]
    fn truth_of(flag: bool) -> Result<bool, Cause> {
        Ok(flag)
    }

    #[tactic(auto, unfolding(crate::specs::Plain::plain_operations))]
    fn unsettled(flag: bool) -> bool {
        flag
    }

    #[tactic(auto, unfolding(crate::specs::Plain::plain_operations))]
    fn moved(base: u64, field: u64, _place: u64) -> Result<u64, Cause> {
        Ok(base.wrapping_add(field))
    }

    #[tactic(auto, unfolding(crate::specs::Plain::plain_operations))]
    fn misused(number: u64) -> Result<u64, Cause> {
        Ok(number)
    }

    #[tactic(auto, unfolding(crate::specs::Plain::plain_operations))]
    fn byte(number: u8) -> u8 {
        number
    }

    #[tactic(auto, unfolding(crate::specs::Plain::plain_operations))]
    fn code(byte: u8) -> Option<u8> {
        Some(byte)
    }

    #[tactic(auto, unfolding(crate::specs::Plain::plain_operations))]
    fn joined_byte(byte: u8) -> u64 {
        number(&[byte])
    }

    #[tactic(auto, unfolding(crate::specs::Plain::plain_operations))]
    fn joined_long(bytes: Four<u8>) -> u64
        ensures { result ≡ plain_operations.joined (bytes_of bytes) }
    {
        number(&[bytes.first, bytes.second, bytes.third, bytes.fourth])
    }

    #[tactic(auto, unfolding(crate::specs::Plain::plain_operations))]
    fn joined_quad(low: Four<u8>, high: Four<u8>) -> u64
        ensures { result ≡ plain_operations.joined (bytes_of low ++ bytes_of high) }
    {
        number(&[
            low.first,
            low.second,
            low.third,
            low.fourth,
            high.first,
            high.second,
            high.third,
            high.fourth,
        ])
    }

    #[tactic(auto, unfolding(crate::specs::Plain::plain_operations))]
    fn byte_of(word: u64, index: u8) -> u8 {
        ((word >> (8 * index)) % 256) as u8
    }
}
