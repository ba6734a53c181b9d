//! The bytes of an instruction in their order: prefixes, REX, opcode, ModRM, SIB, displacement and immediate.

ghost use Rattle.std.specs.Prelude.{◌≡◌, ◌≤◌, ◌<◌, ◌+◌, length, take, drop};
ghost use Rattle.std.specs.Option.{option_to_list};
ghost use Rattle.amd64_encoder.specs.Writing.{scale_number, sib_of, mode_of, needs_sib, address_of, selectors_of};
ghost use Rattle.amd64_encoder.specs.Writing.{high_base, high_index, has_segment, rex_bits, rex_byte, rex_in};
ghost use Rattle.amd64_encoder.specs.Writing.{mark_in, selectors_in, number_bytes, selector_bytes, form_bytes};
ghost use Rattle.amd64_encoder.specs.Writing.{spelling_of, spliced, packed, is_high, when};
ghost use Rattle.amd64_subset.specs.Number.{count_of};
ghost use Rattle.amd64_encoder.specs.Canonical.{IsSpellable, IsCanonical, ReadsAs};

use crate::form::{Fields, Form, choose, fits_byte};
use amd64_subset::encoding::{Rex, Selectors, Size};
use amd64_subset::{Base, Index, Instr, Operand, Register, Scale};

/// A byte made of fields of two, three and three bits.
fn packed(high: u8, middle: u8, low: u8) -> u8
    requires high { high < 4 }
    requires middle { middle < 8 }
    requires low { low < 8 }
    ensures { result ≡ packed high middle low }
{
    64 * high + 8 * middle + low
}

/// The fourth bit of a register's number.
fn is_high(register: Register) -> bool
    ensures { result ≡ is_high register }
{
    register.number() >= 8
}

fn scale_number(scale: Scale) -> u8
    ensures value { result ≡ scale_number scale }
    ensures bound { result < 4 }
{
    match scale {
        Scale::One => 0,
        Scale::Two => 1,
        Scale::Four => 2,
        Scale::Eight => 3,
    }
}

/// SIB with these three bits of a base. An index field of 100 means no index.
fn sib(index: Option<Index>, low: u8) -> u8
    requires { low < 8 }
    ensures { result ≡ sib_of index low }
{
    match index {
        None => packed(0, 4, low),
        Some(index) => packed(scale_number(index.scale), index.register.number() % 8, low),
    }
}

/// The mode for a base with these three bits: no displacement (which base 101 can't have), one byte, or four.
fn mode(displacement: u64, low: u8) -> u8
    ensures value { result ≡ mode_of displacement low }
    ensures bound { result < 3 }
{
    if displacement == 0 && low != 5 {
        0
    } else if fits_byte(displacement) {
        1
    } else {
        2
    }
}

/// ModRM and SIB of a memory operand, with `field` in the reg field.
fn address(field: u8, base: Base, index: Option<Index>, displacement: u64) -> Selectors
    requires { field < 8 }
    ensures { result ≡ address_of field base index displacement }
{
    match base {
        Base::NextInstruction => Selectors {
            modrm: packed(0, field, 5),
            sib: None,
        },
        Base::Absolute => Selectors {
            modrm: packed(0, field, 4),
            sib: Some(sib(index, 5)),
        },
        Base::Register(register) => {
            let low = register.number() % 8;
            let mode = mode(displacement, low);
            if index.is_some() || low == 4 {
                Selectors {
                    modrm: packed(mode, field, 4),
                    sib: Some(sib(index, low)),
                }
            } else {
                Selectors {
                    modrm: packed(mode, field, low),
                    sib: None,
                }
            }
        }
    }
}

/// ModRM and SIB of an operand, with `field` in the reg field.
#[tactic(auto, unfolding(crate::specs::Writing::selectors_of))]
fn selectors(field: u8, operand: Operand, displacement: u64) -> Selectors
    requires { field < 8 }
    ensures { result ≡ selectors_of field operand displacement }
{
    match operand {
        Operand::Register(register) => Selectors {
            modrm: packed(3, field, register.number() % 8),
            sib: None,
        },
        Operand::InMemory(memory) => address(field, memory.base, memory.index, displacement),
    }
}

fn high_base(operand: Operand) -> bool
    ensures { result ≡ high_base operand }
{
    match operand {
        Operand::Register(register) => is_high(register),
        Operand::InMemory(memory) => match memory.base {
            Base::Register(register) => is_high(register),
            Base::Absolute | Base::NextInstruction => false,
        },
    }
}

fn high_index(operand: Operand) -> bool
    ensures { result ≡ high_index operand }
{
    match operand {
        Operand::Register(_) => false,
        Operand::InMemory(memory) => match memory.index {
            Some(index) => is_high(index.register),
            None => false,
        },
    }
}

fn has_segment(operand: Operand) -> bool
    ensures { result ≡ has_segment operand }
{
    match operand {
        Operand::Register(_) => false,
        Operand::InMemory(memory) => memory.from_thread_pointer,
    }
}

/// The byte of a REX prefix.
fn rex_byte(bits: Rex) -> u8
    ensures { result ≡ rex_byte bits }
{
    let wide = if bits.wide { 8 } else { 0 };
    let register = if bits.register { 4 } else { 0 };
    let index = if bits.index { 2 } else { 0 };
    let base = if bits.base { 1 } else { 0 };
    0x40 + wide + register + index + base
}

impl Form {
    /// The bits of REX that the form needs.
    fn rex_bits(self) -> Rex
        ensures { result ≡ rex_bits self }
    {
        let (register, index, base) = match self.fields {
            Fields::Bare => (false, false, false),
            Fields::Low(register) => (false, false, is_high(register)),
            Fields::Selected { field, operand } => {
                (field >= 8, high_index(operand), high_base(operand))
            }
        };
        Rex {
            wide: self.wide,
            register,
            index,
            base,
        }
    }

    /// REX, if a bit of it is set or an 8-bit register needs it.
    #[tactic(auto, unfolding(crate::specs::Writing::rex_in))]
    fn rex(self) -> Option<u8>
        ensures { result ≡ rex_in self }
    {
        let bits = self.rex_bits();
        if self.low_byte || bits.wide || bits.register || bits.index || bits.base {
            Some(rex_byte(bits))
        } else {
            None
        }
    }

    /// The FS prefix, if the operand is addressed from the thread pointer.
    #[tactic(auto, unfolding(crate::specs::Writing::mark_in))]
    fn mark(self) -> Option<u8>
        ensures { result ≡ mark_in self.fields }
    {
        match self.fields {
            Fields::Selected { operand, .. } if has_segment(operand) => Some(0x64),
            _ => None,
        }
    }

    /// 0f, if the opcode is a two-byte one.
    fn escape(self) -> Option<u8>
        ensures { result ≡ when self.escaped 0x0f }
    {
        if self.escaped { Some(0x0f) } else { None }
    }

    /// ModRM and SIB, if the form has them.
    #[tactic(auto, unfolding(crate::specs::Writing::selectors_in))]
    fn selectors(self, displacement: u64) -> Option<Selectors>
        ensures { result ≡ selectors_in self.fields displacement }
    {
        match self.fields {
            Fields::Selected { field, operand } => {
                Some(selectors(field % 8, operand, displacement))
            }
            Fields::Bare | Fields::Low(_) => None,
        }
    }
}

/// Writes `part` at index `at`, and returns the index after it.
fn put_all(into: &mut [u8; 15], at: u8, part: &[u8]) -> u8
    requires { at + length part.now ≤ 15 }
    ensures written { into.new ≡ spliced at part.now into.old }
    ensures next { result ≡ at + length part.now }
{
    let end = at as usize + part.len();
    into[at as usize..end].copy_from_slice(part);
    end as u8
}

/// Writes `byte`, if there is one, and returns the next index.
fn put(into: &mut [u8; 15], at: u8, byte: Option<u8>) -> u8
    requires { at + length (option_to_list byte) ≤ 15 }
    ensures written { into.new ≡ spliced at (option_to_list byte) into.old }
    ensures next { result ≡ at + length (option_to_list byte) }
{
    match byte {
        None => put_all(into, at, &[]),
        Some(byte) => put_all(into, at, &[byte]),
    }
}

/// Writes `number` in `size` bytes, and returns the next index.
#[tactic(auto, unfolding(crate::specs::Writing::number_bytes))]
fn put_number(into: &mut [u8; 15], at: u8, size: Size, number: u64) -> u8
    requires { at + count_of size ≤ 15 }
    ensures written { into.new ≡ spliced at (number_bytes size number) into.old }
    ensures next { result ≡ at + count_of size }
{
    put_all(into, at, &number.to_le_bytes()[..size.count() as usize])
}

/// Writes the form with this displacement, and returns its length.
#[tactic(auto, unfolding(crate::specs::Writing::form_bytes))]
fn write(form: Form, displacement: u64, into: &mut [u8; 15]) -> u8
    requires { length (form_bytes form displacement) ≤ 15 }
    ensures written { into.new ≡ spliced 0 (form_bytes form displacement) into.old }
    ensures next { result ≡ length (form_bytes form displacement) }
{
    let at = put(into, 0, form.mark());
    let at = put(into, at, form.rex());
    let at = put(into, at, form.escape());
    let at = put(into, at, Some(form.opcode));
    let at = put_selectors(into, at, form.selectors(displacement), displacement);
    put_number(into, at, form.size, form.number)
}

/// Writes ModRM and SIB, if there are any, and the displacement that they call for.
fn put_selectors(into: &mut [u8; 15], at: u8, selectors: Option<Selectors>, displacement: u64) -> u8
    requires { at + length (selector_bytes selectors displacement) ≤ 15 }
    ensures written { into.new ≡ spliced at (selector_bytes selectors displacement) into.old }
    ensures next { result ≡ at + length (selector_bytes selectors displacement) }
{
    match selectors {
        None => put(into, at, None),
        Some(selectors) => {
            let at = put(into, at, Some(selectors.modrm));
            let at = put(into, at, selectors.sib);
            put_number(into, at, selectors.displacement_size(), displacement)
        }
    }
}

/// Writes an instruction at the front of `into`, and returns its length in bytes. Of its spellings `encode` takes one
/// with no redundant prefix, then the shortest, then the one in the first row of the opcode table. (A SIB byte without
/// an index could have any scale; it has scale 1.)
#[tactic(auto, unfolding(crate::specs::Writing::spelling_of))]
pub fn encode(instr: &Instr, into: &mut [u8; 15]) -> u8
    // The value is an instruction: some bytes spell it. Decoded ones always satisfy this.
    requires { IsSpellable instr.now }
    // The bytes spell it with no redundant prefix. No spelling of it is shorter, and no equally short one stands in an
    // earlier row.
    ensures canonical { IsCanonical instr.now (take result into.new) }
    // Decoding the bytes gives the instruction and its length again, whatever follows.
    ensures again { ReadsAs instr.now result (take result into.new) }
    // It has 1 to 15 bytes.
    ensures some { 0 < result }
    ensures most { result ≤ 15 }
    // The rest of the buffer is unchanged.
    ensures kept { drop result into.new ≡ drop result into.old }
    // The same as a function of the instruction.
    ensures exact { take result into.new ≡ spelling_of instr.now }
{
    let Instr {
        operation,
        displacement,
        immediate,
    } = *instr;
    write(choose(operation, immediate), displacement, into)
}
