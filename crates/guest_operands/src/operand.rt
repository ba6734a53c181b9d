//! Operands: addresses, and words that are moved.

ghost use Rattle.std.specs.Prelude.{◌≡◌, ◌<◌, ◌%◌, if◌then◌else◌};
ghost use Rattle.guest_operands.specs.Operand.{factor_of, size_for, charged, unmoved, moved_by, base_of, index_of, address_of, kept, kept_byte, carried_as, carried};
ghost use Rattle.guest_operands.specs.RangeLaws.{range_accesses};

use crate::frame::Frame;
use crate::space::{Size, Space};
use crate::state::{Registers, State, register};
use crate::stop::Stop;
use crate::uses::{load, used};
use amd64_subset::{Base, Index, Memory, Operand, Scale, Width};
use guest_arithmetic::{Cause, Values, both};

fn factor(scale: Scale) -> u64
    ensures { result ≡ factor_of scale }
{
    match scale {
        Scale::One => 1,
        Scale::Two => 2,
        Scale::Four => 4,
        Scale::Eight => 8,
    }
}

/// How many bytes an operand of this width has.
pub fn size(width: Width) -> Size
    ensures { result ≡ size_for width }
{
    match width {
        Width::Long => Size::Long,
        Width::Quad => Size::Quad,
    }
}

/// The answer; if the number is an offset field, any cause becomes a misuse of the field.
pub fn charged<A: Copy>(field: Option<u64>, answer: Result<A, Cause>) -> Result<A, Cause>
    ensures { result ≡ charged field answer }
{
    match (field, answer) {
        (Some(_), Err(_)) => Err(Cause::Field),
        (_, answer) => answer,
    }
}

/// A number in an instruction that is not added to a base.
pub fn unmoved<V: Values>(field: Option<u64>, number: u64) -> Result<u64, Cause>
    ensures { result ≡ unmoved V.operations field number }
{
    match field {
        None => Ok(number),
        Some(_) => V::misused(number),
    }
}

/// A base plus a number in the instruction.
fn moved_by<V: Values>(field: Option<u64>, number: u64, word: V::Word) -> Result<u64, Cause>
    ensures { result ≡ moved_by V.operations field number word }
{
    match field {
        None => Ok(number.wrapping_add(V::number_of(word)?)),
        Some(place) => V::moved(word, number, place),
    }
}

/// The base of an address plus the displacement.
#[tactic(auto, unfolding(crate::specs::Operand::base_of))]
fn base<V: Values>(frame: &Frame, registers: &Registers<V::Word>, base: Base) -> Result<u64, Cause>
    ensures { result ≡ base_of V.operations frame.now.displacement_field frame.now.displacement frame.now.next
        registers.now base }
{
    match base {
        Base::Absolute => unmoved::<V>(frame.displacement_field, frame.displacement),
        Base::Register(name) => moved_by::<V>(
            frame.displacement_field,
            frame.displacement,
            register(registers, name),
        ),
        Base::NextInstruction => {
            let number = unmoved::<V>(frame.displacement_field, frame.displacement)?;
            Ok(number.wrapping_add(frame.next))
        }
    }
}

/// The index of an address times its factor.
#[tactic(auto, unfolding(crate::specs::Operand::index_of))]
fn index<V: Values>(registers: &Registers<V::Word>, index: Option<Index>) -> Result<u64, Cause>
    ensures { result ≡ index_of V.operations registers.now index }
{
    match index {
        None => Ok(0),
        Some(index) => {
            let number = V::number_of(register(registers, index.register))?;
            Ok(number.wrapping_mul(factor(index.scale)))
        }
    }
}

/// Where a memory operand lies.
#[tactic(auto, unfolding(crate::specs::Operand::address_of))]
pub fn address<V: Values>(
    frame: &Frame,
    state: &State<V::Word, V::Flag>,
    memory: &Memory,
) -> Result<u64, Cause>
    ensures { result ≡ address_of V.operations frame.now state.now memory.now }
{
    let base = base::<V>(frame, &state.registers, memory.base);
    let index = index::<V>(&state.registers, memory.index);
    let segment = segment(memory.from_thread_pointer, state.thread_pointer);
    let (base, index) = charged(frame.displacement_field, both(base, index))?;
    Ok(base.wrapping_add(index).wrapping_add(segment))
}

/// What the FS prefix adds: the thread pointer, or 0 without the prefix.
fn segment(is_prefixed: bool, thread_pointer: u64) -> u64
    ensures { result ≡ (if is_prefixed then thread_pointer else 0) }
{
    if is_prefixed { thread_pointer } else { 0 }
}

/// A register's word, moved at a width.
#[tactic(auto, unfolding(crate::specs::Operand::kept))]
pub fn kept<V: Values>(width: Width, word: V::Word) -> V::Word
    ensures { result ≡ kept V.operations width word }
{
    match width {
        Width::Quad => word,
        Width::Long => low::<V>(word, 1 << 32),
    }
}

/// A word modulo a number; if the word is not a number, nothing is known of the result.
fn low<V: Values>(word: V::Word, modulus: u64) -> V::Word
    requires { 0 < modulus }
    ensures { result ≡ carried_as V.operations (λ number. number % modulus) (V.operations.number_of word) }
{
    match V::number_of(word) {
        Ok(number) => V::word(number % modulus),
        Err(_) => V::unknown(),
    }
}

/// A word's lowest byte, moved.
#[tactic(auto, unfolding(crate::specs::Operand::kept_byte))]
pub fn kept_byte<V: Values>(word: V::Word) -> V::Word
    ensures { result ≡ kept_byte V.operations word }
{
    low::<V>(word, 256)
}

/// The operand's word, to be moved and not used.
#[tactic(auto, unfolding(crate::specs::Operand::carried))]
pub fn carried<V: Values, S: Space<V>>(
    width: Width,
    frame: &Frame,
    state: &State<V::Word, V::Flag>,
    space: &S,
    operand: &Operand,
) -> Result<V::Word, Stop>
    ensures { result ≡ carried V.operations (range_accesses V.operations) width frame.now state.now
        (S.memory space.now) operand.now }
{
    match operand {
        Operand::Register(name) => Ok(kept::<V>(width, register(&state.registers, *name))),
        Operand::InMemory(memory) => {
            let place = used(state.place, address::<V>(frame, state, memory))?;
            load::<V, S>(space, state.place, place, size(width))
        }
    }
}
