//! ModRM and SIB: which operands they select.

ghost use Rattle.std.specs.Prelude.{◌≡◌, ◌≤◌};
ghost use Rattle.amd64_subset.specs.Selectors.{has_sib, least_displacement, byte_register, allowed};
ghost use Rattle.amd64_subset.specs.Selectors.{displacement_size, register_in, base_in};
ghost use Rattle.amd64_subset.specs.Selectors.{index_of, memory_in, operand_in, sib_at, selectors_at};
ghost use Rattle.amd64_subset.specs.Reading.{Gives};

use crate::fault::Fault;
use crate::operand::{Base, Index, Memory, Operand, Scale};
use crate::prefix::Prefixes;
use crate::row::{Action, Row};
use amd64_words::{Register, Size};

/// The bytes that select an instruction's operands: ModRM, with a mode in its upper two bits, a
/// register or more of the opcode in the next three, a register or how memory is addressed in the
/// last three; and SIB, where ModRM asks for one, with a scale, an index and a base.
#[derive(Clone, Copy)]
pub struct Selectors {
    pub modrm: u8,
    pub sib: Option<u8>,
}

/// A SIB byte follows: the operand lies in memory, and 100 stands in place of a base.
fn has_sib(modrm: u8) -> bool
    ensures { result ≡ has_sib modrm }
{
    modrm / 64 != 3 && modrm % 8 == 4
}

/// The least number of displacement bytes that follow.
fn least_displacement(modrm: u8) -> u8
    ensures value { result ≡ least_displacement modrm }
    ensures bound { result ≤ 4 }
{
    match modrm / 64 {
        1 => 1,
        2 => 4,
        _ => 0,
    }
}

/// The low byte of the register with these three bits can be an operand: without REX, 4 to 7 would be %ah to %bh.
fn byte_register(prefixes: Prefixes, low: u8) -> bool
    ensures { result ≡ byte_register prefixes low }
{
    low < 4 || prefixes.rex.is_some()
}

/// The action may have these operands.
#[tactic(auto, unfolding(crate::specs::Selectors::allowed))]
fn allowed(action: Action, prefixes: Prefixes, modrm: u8) -> bool
    ensures { result ≡ allowed action prefixes modrm }
{
    if modrm / 64 == 3 {
        !prefixes.thread_pointer
            && match action {
                Action::StoreByte | Action::LoadAddress => false,
                Action::ExtendByte => byte_register(prefixes, modrm % 8),
                _ => true,
            }
    } else {
        match action {
            Action::StoreByte => byte_register(prefixes, modrm / 8 % 8),
            _ => true,
        }
    }
}

impl Selectors {
    /// The size of the displacement that follows.
    #[tactic(auto, unfolding(crate::specs::Selectors::displacement_size))]
    pub fn displacement_size(self) -> Size
        ensures { result ≡ displacement_size self }
    {
        match self.modrm / 64 {
            1 => Size::One,
            2 => Size::Four,
            3 => Size::Zero,
            _ => {
                if self.sib.unwrap_or(self.modrm) % 8 == 5 {
                    Size::Four
                } else {
                    Size::Zero
                }
            }
        }
    }

    /// The register in ModRM's reg field.
    pub(crate) fn register(self, prefixes: Prefixes) -> Register
        ensures { result ≡ register_in prefixes self }
    {
        Register::extended(self.modrm / 8 % 8, prefixes.bits().register)
    }

    /// The memory operand that modes 0 to 2 name.
    #[tactic(auto, unfolding(crate::specs::Selectors::memory_in))]
    pub(crate) fn memory(self, prefixes: Prefixes) -> Memory
        ensures { result ≡ memory_in prefixes self }
    {
        let rex = prefixes.bits();
        let index = match self.sib {
            None => None,
            Some(sib) => index(sib, rex.index),
        };
        Memory {
            from_thread_pointer: prefixes.thread_pointer,
            base: base(self.modrm, rex.base, self.sib),
            index,
        }
    }

    /// The register or the memory operand that ModRM's rm field names.
    pub(crate) fn operand(self, prefixes: Prefixes) -> Operand
        ensures { result ≡ operand_in prefixes self }
    {
        if self.modrm / 64 == 3 {
            Operand::Register(Register::extended(self.modrm % 8, prefixes.bits().base))
        } else {
            Operand::InMemory(self.memory(prefixes))
        }
    }
}

/// The base that ModRM names, or SIB if there is one. In mode 0, 101 means no register.
fn base(modrm: u8, high: bool, sib: Option<u8>) -> Base
    ensures { result ≡ base_in modrm high sib }
{
    match sib {
        None => {
            if modrm / 64 == 0 && modrm % 8 == 5 {
                Base::NextInstruction
            } else {
                Base::Register(Register::extended(modrm % 8, high))
            }
        }
        Some(sib) => {
            if modrm / 64 == 0 && sib % 8 == 5 {
                Base::Absolute
            } else {
                Base::Register(Register::extended(sib % 8, high))
            }
        }
    }
}

/// The index that a SIB byte names. 100 without REX.X means none.
fn index(sib: u8, high: bool) -> Option<Index>
    ensures { result ≡ index_of sib high }
{
    if sib / 8 % 8 == 4 && !high {
        return None;
    }
    let scale = match sib / 64 {
        0 => Scale::One,
        1 => Scale::Two,
        2 => Scale::Four,
        _ => Scale::Eight,
    };
    Some(Index {
        register: Register::extended(sib / 8 % 8, high),
        scale,
    })
}

/// Reads a SIB byte, if ModRM calls for one. At least `behind` bytes follow it, besides a displacement.
#[tactic(auto, unfolding(crate::specs::Selectors::sib_at))]
fn read_sib(modrm: u8, behind: Size, bytes: &[u8]) -> Result<(Option<u8>, &[u8]), Fault>
    ensures { Gives (λ x. (x.0, x.1.now)) result (sib_at modrm behind bytes.now) }
{
    if !has_sib(modrm) {
        return Ok((None, bytes));
    }
    match bytes {
        [] => Err(Fault::Short(1 + least_displacement(modrm) + behind.count())),
        [sib, rest @ ..] => Ok((Some(*sib), rest)),
    }
}

/// Reads ModRM, whose reg field may extend the opcode, and SIB. Refuses a byte that no instruction has here at once.
#[tactic(auto, unfolding(crate::specs::Selectors::selectors_at))]
pub(crate) fn read_selectors(
    prefixes: Prefixes,
    row: Row,
    behind: Size,
    bytes: &[u8],
) -> Result<((Action, Selectors), &[u8]), Fault>
    ensures { Gives (λ x. (x.0, x.1.now)) result (selectors_at prefixes row behind bytes.now) }
{
    match bytes {
        [] => Err(Fault::Short(1 + behind.count())),
        [modrm, rest @ ..] => {
            let modrm = *modrm;
            let Some(action) = row.action(modrm / 8 % 8) else {
                return Err(Fault::Wrong);
            };
            if !allowed(action, prefixes, modrm) {
                return Err(Fault::Wrong);
            }
            let (sib, rest) = read_sib(modrm, behind, rest)?;
            Ok(((action, Selectors { modrm, sib }), rest))
        }
    }
}
