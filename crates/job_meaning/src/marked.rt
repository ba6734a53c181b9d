//! Marked values as the values of a machine.

ghost use Rattle.std.specs.Prelude.{◌≡◌, ◌+◌, ◌%◌, ◌^◌, ◌≤◌, ◌++◌, length};
ghost use Rattle.std.specs.Option.{option_map};
ghost use Rattle.address_map.specs.Map.{owner_at};
ghost use Rattle.guest_arithmetic.specs.Four.{bytes_of};
ghost use Rattle.guest_arithmetic.specs.Values.{number_from};
ghost use Rattle.job_meaning.specs.Marked.{marked_operations, is_same_block, is_same, cause_of, values_of, are_parts, whole, joined_as};
ghost use Rattle.job_meaning.specs.MarkedLaws.{marked_lawful};

use crate::values::{Block, Byte, Flag, Token, Word};
use address_map::owner;
use guest_arithmetic::{Cause, Four, Values};

/// Marked values, for a machine that decides whether a program is clean.
pub struct MarkedValues;

fn is_same_block(block: &Block, other: &Block) -> bool
    ensures { result ≡ is_same_block block.now other.now }
{
    block.thread == other.thread && block.instance == other.instance && block.start == other.start
}

fn is_same(token: &Token, other: &Token) -> bool
    ensures { result ≡ is_same token.now other.now }
{
    match (token, other) {
        (Token::Base(block), Token::Base(other)) => is_same_block(block, other),
        (Token::Descriptor(instance, symbol), Token::Descriptor(other_instance, other_symbol)) => {
            instance == other_instance && symbol == other_symbol
        }
        _ => false,
    }
}

/// Why a token is not a number.
fn cause(token: &Token) -> Cause
    ensures { result ≡ cause_of token.now }
{
    match token {
        Token::Base(_) => Cause::Base,
        Token::Descriptor(_, _) => Cause::Descriptor,
    }
}

/// The little-endian number in the bytes, modulo 2^64, if each of them is a value.
fn number(bytes: &[Byte]) -> Option<u64>
    ensures { result ≡ option_map (λ numbers. number_from numbers % 2 ^ 64) (values_of bytes.now) }
{
    match bytes {
        [] => Some(0),
        [Byte::Value(first), rest @ ..] => {
            let rest = number(rest)?;
            Some(u64::from(*first).wrapping_add(rest.wrapping_mul(256)))
        }
        _ => None,
    }
}

/// Whether the bytes are those of a token, from `index` up to its last, byte 7.
fn are_parts(token: &Token, index: u8, bytes: &[Byte]) -> bool
    requires { index + length bytes.now ≤ 8 }
    ensures { result ≡ are_parts token.now index bytes.now }
{
    match bytes {
        [] => index == 8,
        [Byte::Part(other, place), rest @ ..] => {
            is_same(token, other) && index == *place && are_parts(token, index + 1, rest)
        }
        _ => false,
    }
}

/// The token whose bytes 0 to 7 these are; unknown if there is none.
fn whole(bytes: &[Byte]) -> Word
    requires { length bytes.now ≤ 8 }
    ensures { result ≡ whole bytes.now }
{
    match bytes {
        [Byte::Part(token, _), ..] if are_parts(token, 0, bytes) => Word::Marked(*token),
        _ => Word::Undefined,
    }
}

/// The word that the bytes hold, the lowest first.
fn joined(bytes: &[Byte]) -> Word
    requires { length bytes.now ≤ 8 }
    ensures { result ≡ joined_as (values_of bytes.now) bytes.now }
{
    match number(bytes) {
        Some(number) => Word::Number(number),
        None => whole(bytes),
    }
}

impl Values for MarkedValues {
    type Word = Word;

    type Flag = Flag;

    type Byte = Byte;

    ghost operations = { marked_operations owner_at };

    ghost lawful = { marked_lawful owner_at };

    #[tactic(auto, unfolding(crate::specs::Marked::marked_operations))]
    fn word(number: u64) -> Word {
        Word::Number(number)
    }

    #[tactic(auto, unfolding(crate::specs::Marked::marked_operations))]
    fn number_of(word: Word) -> Result<u64, Cause> {
        match word {
            Word::Number(number) => Ok(number),
            Word::Undefined => Err(Cause::Undefined),
            Word::Marked(token) => Err(cause(&token)),
        }
    }

    #[tactic(auto, unfolding(crate::specs::Marked::marked_operations))]
    fn unknown() -> Word {
        Word::Undefined
    }

    #[tactic(auto, unfolding(crate::specs::Marked::marked_operations))]
    fn flag(truth: bool) -> Flag {
        Flag::Truth(truth)
    }

    #[tactic(auto, unfolding(crate::specs::Marked::marked_operations))]
    fn truth_of(flag: Flag) -> Result<bool, Cause> {
        match flag {
            Flag::Truth(truth) => Ok(truth),
            Flag::Unsettled => Err(Cause::Flags),
        }
    }

    #[tactic(auto, unfolding(crate::specs::Marked::marked_operations))]
    fn unsettled(_flag: Flag) -> Flag {
        Flag::Unsettled
    }

    #[tactic(auto, unfolding(crate::specs::Marked::marked_operations))]
    fn moved(base: Word, field: u64, place: u64) -> Result<u64, Cause> {
        match base {
            Word::Marked(Token::Base(block)) if block.instance == owner(place) => {
                Ok(block.start.wrapping_add(field))
            }
            _ => Err(Cause::Field),
        }
    }

    #[tactic(auto, unfolding(crate::specs::Marked::marked_operations))]
    fn misused(_number: u64) -> Result<u64, Cause> {
        Err(Cause::Field)
    }

    #[tactic(auto, unfolding(crate::specs::Marked::marked_operations))]
    fn byte(number: u8) -> Byte {
        Byte::Value(number)
    }

    #[tactic(auto, unfolding(crate::specs::Marked::marked_operations))]
    fn code(byte: Byte) -> Option<u8> {
        match byte {
            Byte::Value(number) => Some(number),
            Byte::Hidden | Byte::Part(_, _) => None,
        }
    }

    #[tactic(auto, unfolding(crate::specs::Marked::marked_operations))]
    fn joined_byte(byte: Byte) -> Word {
        joined(&[byte])
    }

    #[tactic(auto, unfolding(crate::specs::Marked::marked_operations))]
    fn joined_long(bytes: Four<Byte>) -> Word
        ensures { result ≡ (marked_operations owner_at).joined (bytes_of bytes) }
    {
        joined(&[bytes.first, bytes.second, bytes.third, bytes.fourth])
    }

    #[tactic(auto, unfolding(crate::specs::Marked::marked_operations))]
    fn joined_quad(low: Four<Byte>, high: Four<Byte>) -> Word
        ensures { result ≡ (marked_operations owner_at).joined (bytes_of low ++ bytes_of high) }
    {
        joined(&[
            low.first,
            low.second,
            low.third,
            low.fourth,
            high.first,
            high.second,
            high.third,
            high.fourth,
        ])
    }

    #[tactic(auto, unfolding(crate::specs::Marked::marked_operations))]
    fn byte_of(word: Word, index: u8) -> Byte {
        match word {
            Word::Number(number) => Byte::Value(((number >> (8 * index)) % 256) as u8),
            Word::Undefined => Byte::Hidden,
            Word::Marked(token) => Byte::Part(token, index),
        }
    }
}
