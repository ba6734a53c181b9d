//! A relocated field: the bytes that a relocation stores.

ghost use Rattle.std.specs.Prelude.{◌≡◌, ◌+◌, ◌≤◌, [], ◌∷◌, length};
ghost use Rattle.tls_relocs.specs.FieldLaws.{width_of, word_of, field_patch};
ghost use Rattle.tls_relocs.specs.Patches.{patched};

use byteorder::{ByteOrder, LittleEndian};

/// What a relocation stores in its field.
#[derive(Clone, Copy, PartialEq, Eq, Debug)]
pub enum Field {
    /// No bytes: the relocation only marks an instruction.
    Empty,
    /// A number of 4 bytes; a negative one in two's complement.
    Word32(u32),
    /// A number of 8 bytes; a negative one in two's complement.
    Word64(u64),
}

impl Field {
    /// How many bytes the field has: 0, 4 or 8.
    pub fn width(self) -> u64
        ensures { result ≡ width_of self }
    {
        match self {
            Field::Empty => 0,
            Field::Word32(_) => 4,
            Field::Word64(_) => 8,
        }
    }

    /// The number in its bytes; 0 if it has none.
    pub fn word(self) -> u64
        ensures { result ≡ word_of self }
    {
        match self {
            Field::Empty => 0,
            Field::Word32(word) => u64::from(word),
            Field::Word64(word) => word,
        }
    }
}

/// Writes the field at offset `at`, the lowest byte first, over the bytes that stand there.
#[inline(always)]
pub fn apply(field: Field, bytes: &mut [u8], at: usize)
    requires { at + width_of field ≤ length bytes.old }
    ensures { bytes.new ≡ patched (field_patch at field ∷ []) bytes.old }
{
    match field {
        Field::Empty => {}
        Field::Word32(word) => LittleEndian::write_u32(&mut bytes[at..], word),
        Field::Word64(word) => LittleEndian::write_u64(&mut bytes[at..], word),
    }
}
