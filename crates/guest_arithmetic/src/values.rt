//! The values that a machine computes with, as a parameter.

ghost use Rattle.std.specs.Prelude.{◌≡◌, ◌<◌, [], ◌∷◌, ◌++◌};
ghost use Rattle.guest_arithmetic.specs.Values.{Operations, IsLawful};
ghost use Rattle.guest_arithmetic.specs.Four.{bytes_of};

use crate::cause::Cause;

/// Four bytes, the lowest address first. (With an array, each caller would have to prove the array's size.)
#[derive(Clone, Copy, Debug)]
pub struct Four<B> {
    pub first: B,
    pub second: B,
    pub third: B,
    pub fourth: B,
}

/// The values that a machine computes with. A word is moved as it is, and used as a number where an instruction needs
/// one.
pub trait Values {
    type Word: Copy;

    type Flag: Copy;

    type Byte: Copy;

    ghost operations: { Operations Self.Word Self.Flag Self.Byte };

    /// A number as a word.
    fn word(number: u64) -> Self::Word
        ensures { result ≡ operations.word number };

    /// The number that a word holds, or the cause why it has none.
    fn number_of(word: Self::Word) -> Result<u64, Cause>
        ensures { result ≡ operations.number_of word };

    /// The word of which nothing is known. A word that is not a number becomes this one if only a part of it is kept.
    fn unknown() -> Self::Word
        ensures { result ≡ operations.unknown };

    fn flag(truth: bool) -> Self::Flag
        ensures { result ≡ operations.flag truth };

    /// The value of a flag, or the cause why it can't be used.
    fn truth_of(flag: Self::Flag) -> Result<bool, Cause>
        ensures { result ≡ operations.truth_of flag };

    /// The flag after an instruction that leaves it undefined.
    fn unsettled(flag: Self::Flag) -> Self::Flag
        ensures { result ≡ operations.unsettled flag };

    /// The address that a base plus an offset field gives. `place` is the field's address.
    fn moved(base: Self::Word, field: u64, place: u64) -> Result<u64, Cause>
        ensures { result ≡ operations.moved base field place };

    /// The number of an offset field that is not added to a base.
    fn misused(number: u64) -> Result<u64, Cause>
        ensures { result ≡ operations.misused number };

    /// A number as a byte.
    fn byte(number: u8) -> Self::Byte
        ensures { result ≡ operations.byte number };

    /// A byte as a byte of code, if it may be fetched.
    fn code(byte: Self::Byte) -> Option<u8>
        ensures { result ≡ operations.code byte };

    /// The word that one byte holds.
    fn joined_byte(byte: Self::Byte) -> Self::Word
        ensures { result ≡ operations.joined (byte ∷ []) };

    /// The word that four bytes hold, the lowest first.
    fn joined_long(bytes: Four<Self::Byte>) -> Self::Word
        ensures { result ≡ operations.joined (bytes_of bytes) };

    /// The word that eight bytes hold, the lowest first.
    fn joined_quad(low: Four<Self::Byte>, high: Four<Self::Byte>) -> Self::Word
        ensures { result ≡ operations.joined (bytes_of low ++ bytes_of high) };

    /// The byte `index` of a word; byte 0 is the lowest.
    fn byte_of(word: Self::Word, index: u8) -> Self::Byte
        requires { index < 8 }
        ensures { result ≡ operations.byte_of word index };

    ghost lawful: { IsLawful operations };
}
