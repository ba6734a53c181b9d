//! The prefixes: FS, padding, and REX.

ghost use Rattle.std.specs.Prelude.{◌≡◌};
ghost use Rattle.amd64_subset.specs.Prefix.{rex_of, bits_of, takes_only_nops, has_none, least_opening, least_opcode};
ghost use Rattle.amd64_subset.specs.Prefix.{least_escaped, marks_at, rex_at, possible_at, prefixes_at};
ghost use Rattle.amd64_subset.specs.Reading.{Gives};

use crate::fault::Fault;

/// The four bits of a REX prefix: the width, and the fourth bits of the register numbers in ModRM's
/// reg field, in SIB's index field, and in ModRM's rm field, SIB's base field or the opcode.
#[derive(Clone, Copy)]
pub struct Rex {
    pub wide: bool,
    pub register: bool,
    pub index: bool,
    pub base: bool,
}

impl Rex {
    /// The bits of a byte from 0x40 to 0x4f.
    fn of(byte: u8) -> Rex
        ensures { result ≡ rex_of byte }
    {
        Rex {
            wide: byte / 8 % 2 == 1,
            register: byte / 4 % 2 == 1,
            index: byte / 2 % 2 == 1,
            base: byte % 2 == 1,
        }
    }
}

/// What stands before an opcode.
#[derive(Clone, Copy)]
pub struct Prefixes {
    /// 64, FS: the thread pointer is added to the address.
    pub thread_pointer: bool,
    /// 66, which only pads.
    pub operand_size: bool,
    /// 2e, which only pads.
    pub code_segment: bool,
    pub rex: Option<Rex>,
}

impl Prefixes {
    /// The bits of REX, all clear if there is no REX.
    pub(crate) fn bits(self) -> Rex
        ensures { result ≡ bits_of self }
    {
        self.rex.unwrap_or(Rex {
            wide: false,
            register: false,
            index: false,
            base: false,
        })
    }

    /// Nothing but a nop may follow: 2e stands here, or 66 without REX.W.
    pub(crate) fn takes_only_nops(self) -> bool
        ensures { result ≡ takes_only_nops self }
    {
        self.code_segment || self.operand_size && !self.bits().wide
    }

    /// No prefix at all.
    pub(crate) fn has_none(self) -> bool
        ensures { result ≡ has_none self }
    {
        !self.thread_pointer && !self.operand_size && !self.code_segment && self.rex.is_none()
    }

    /// The least number of bytes still missing where REX may still come.
    fn least_opening(self) -> u8
        ensures { result ≡ least_opening self }
    {
        match (self.thread_pointer, self.operand_size) {
            (true, true) => 3,
            (true, false) => 2,
            (false, _) => 1,
        }
    }

    /// The least number of bytes still missing where an opcode must come.
    pub(crate) fn least_opcode(self) -> u8
        ensures { result ≡ least_opcode self }
    {
        if self.takes_only_nops() {
            3
        } else if self.thread_pointer {
            2
        } else {
            1
        }
    }

    /// The least number of bytes still missing after 0f, the first byte of an opcode.
    pub(crate) fn least_escaped(self) -> u8
        ensures { result ≡ least_escaped self }
    {
        if self.takes_only_nops() || self.thread_pointer {
            2
        } else {
            1
        }
    }
}

/// Reads the prefixes before REX, and adds them to these.
fn read_marks(prefixes: Prefixes, bytes: &[u8]) -> Result<(Prefixes, &[u8]), Fault>
    ensures { Gives (λ x. (x.0, x.1.now)) result (marks_at prefixes bytes.now) }
{
    match bytes {
        [0x64, rest @ ..] => {
            if prefixes.thread_pointer || prefixes.code_segment {
                return Err(Fault::Wrong);
            }
            let prefixes = Prefixes {
                thread_pointer: true,
                ..prefixes
            };
            read_marks(prefixes, rest)
        }
        [0x66, rest @ ..] => {
            let prefixes = Prefixes {
                operand_size: true,
                ..prefixes
            };
            read_marks(prefixes, rest)
        }
        [0x2e, rest @ ..] => {
            if prefixes.thread_pointer {
                return Err(Fault::Wrong);
            }
            let prefixes = Prefixes {
                code_segment: true,
                ..prefixes
            };
            read_marks(prefixes, rest)
        }
        _ => Ok((prefixes, bytes)),
    }
}

/// Reads all prefixes. An opcode may follow.
#[tactic(auto, unfolding(crate::specs::Prefix::prefixes_at))]
pub(crate) fn read_prefixes(bytes: &[u8]) -> Result<(Prefixes, &[u8]), Fault>
    ensures { Gives (λ x. (x.0, x.1.now)) result (prefixes_at bytes.now) }
{
    let none = Prefixes {
        thread_pointer: false,
        operand_size: false,
        code_segment: false,
        rex: None,
    };
    let (marks, rest) = read_marks(none, bytes)?;
    read_rex(marks, rest)
}

/// Reads REX, if it stands here, and adds it to these prefixes.
#[tactic(auto, unfolding(crate::specs::Prefix::rex_at))]
fn read_rex(marks: Prefixes, bytes: &[u8]) -> Result<(Prefixes, &[u8]), Fault>
    ensures { Gives (λ x. (x.0, x.1.now)) result (rex_at marks bytes.now) }
{
    match bytes {
        [] => Err(Fault::Short(marks.least_opening())),
        [first, rest @ ..] => {
            if *first / 16 == 4 {
                possible(
                    Prefixes {
                        rex: Some(Rex::of(*first)),
                        ..marks
                    },
                    rest,
                )
            } else {
                possible(marks, bytes)
            }
        }
    }
}

/// These prefixes, unless no instruction may have them.
fn possible(prefixes: Prefixes, rest: &[u8]) -> Result<(Prefixes, &[u8]), Fault>
    ensures { Gives (λ x. (x.0, x.1.now)) result (possible_at prefixes rest.now) }
{
    if prefixes.thread_pointer && prefixes.takes_only_nops() {
        return Err(Fault::Wrong);
    }
    Ok((prefixes, rest))
}
