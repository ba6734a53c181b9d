//! The general registers and their numbers.

ghost use Rattle.std.specs.Prelude.{◌≡◌, ◌<◌};
ghost use Rattle.amd64_words.specs.Register.{register_of, number_of, extended};

/// One of the sixteen general registers. Its index in this list is its number in an encoding: the
/// low three bits stand in an instruction's own bytes, the fourth in its REX prefix.
#[derive(Clone, Copy, PartialEq, Eq, Debug)]
pub enum Register {
    Rax,
    Rcx,
    Rdx,
    Rbx,
    Rsp,
    Rbp,
    Rsi,
    Rdi,
    R8,
    R9,
    R10,
    R11,
    R12,
    R13,
    R14,
    R15,
}

impl Register {
    /// The register with this number, from 0 to 15.
    #[tactic(auto, unfolding(crate::specs::Register::register_of))]
    pub fn numbered(number: u8) -> Register
        requires { number < 16 }
        ensures { result ≡ register_of number }
    {
        match number {
            0 => Register::Rax,
            1 => Register::Rcx,
            2 => Register::Rdx,
            3 => Register::Rbx,
            4 => Register::Rsp,
            5 => Register::Rbp,
            6 => Register::Rsi,
            7 => Register::Rdi,
            8 => Register::R8,
            9 => Register::R9,
            10 => Register::R10,
            11 => Register::R11,
            12 => Register::R12,
            13 => Register::R13,
            14 => Register::R14,
            _ => Register::R15,
        }
    }

    /// The register's number, from 0 to 15.
    #[tactic(auto, unfolding(crate::specs::Register::number_of))]
    pub fn number(self) -> u8
        ensures { result ≡ number_of self }
    {
        self as u8
    }

    /// The register whose number has these three low bits and, if `high`, the fourth bit (from REX).
    pub fn extended(low: u8, high: bool) -> Register
        requires { low < 8 }
        ensures { result ≡ extended low high }
    {
        Register::numbered(if high { low + 8 } else { low })
    }
}
