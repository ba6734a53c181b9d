//! The numbers in an instruction's bytes, and how many bytes each has.

ghost use Rattle.std.specs.Prelude.{◌≡◌, ◌≤◌, length};
ghost use Rattle.amd64_words.specs.Number.{count_of, signed_of, signed_byte_of, signed_long_of};

/// How many bytes a displacement, a distance or an immediate has.
#[derive(Clone, Copy)]
pub enum Size {
    Zero,
    One,
    Four,
    Eight,
}

impl Size {
    /// The number of bytes: 0, 1, 4 or 8.
    pub fn count(self) -> u8
        ensures value { result ≡ count_of self }
        ensures bound { result ≤ 8 }
    {
        match self {
            Size::Zero => 0,
            Size::One => 1,
            Size::Four => 4,
            Size::Eight => 8,
        }
    }

    /// The little-endian number that `bytes` hold, sign-extended to 64 bits; 0 for `Size::Zero`.
    #[tactic(auto, unfolding(crate::specs::Number::signed_of))]
    pub fn signed(self, bytes: &[u8]) -> u64
        requires { length bytes.now ≡ count_of self }
        ensures { result ≡ signed_of self bytes.now }
    {
        match self {
            Size::Zero => 0,
            Size::One => signed_byte(bytes[0]),
            Size::Four => signed_long(u32::from_le_bytes([bytes[0], bytes[1], bytes[2], bytes[3]])),
            Size::Eight => u64::from_le_bytes([
                bytes[0], bytes[1], bytes[2], bytes[3], bytes[4], bytes[5], bytes[6], bytes[7],
            ]),
        }
    }
}

fn signed_byte(number: u8) -> u64
    ensures { result ≡ signed_byte_of number }
{
    let number = number as u64;
    if number < 0x80 {
        number
    } else {
        number + 0xffff_ffff_ffff_ff00
    }
}

fn signed_long(number: u32) -> u64
    ensures { result ≡ signed_long_of number }
{
    let number = number as u64;
    if number < 0x8000_0000 {
        number
    } else {
        number + 0xffff_ffff_0000_0000
    }
}
