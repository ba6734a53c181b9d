//! Operands that are used, and where results go.

ghost use Rattle.std.specs.Prelude.{◌≡◌, ◌<◌, IfOk};
ghost use Rattle.guest_arithmetic.specs.Arithmetic.{span_of};
ghost use Rattle.guest_operands.specs.Operand.{size_of, number_at, weighed, taken_at, taken, put};
ghost use Rattle.guest_operands.specs.Access.{load_of};
ghost use Rattle.guest_operands.specs.RangeLaws.{range_accesses};
ghost use Rattle.guest_arithmetic.specs.Cause.{cause_with};
ghost use Rattle.guest_operands.specs.UseLaws.{Does};

use crate::frame::Frame;
use crate::operand::{address, size};
use crate::space::Space;
use crate::state::{State, register, set_register};
use crate::stop::Stop;
use crate::uses::{store, used};
use amd64_subset::{Operand, Register, Width};
use guest_arithmetic::{Cause, Values, both, low};

/// The destination of a result.
#[derive(Clone, Copy, Debug)]
pub enum Slot {
    Register(Register),
    /// An address.
    Place(u64),
}

/// An operand's number and its slot, and the number of the other use.
#[derive(Clone, Copy, Debug)]
pub struct Taken {
    pub slot: Slot,
    pub number: u64,
    pub other: u64,
}

/// A word's number at a width.
#[tactic(auto, unfolding(crate::specs::Operand::number_at))]
pub fn number_at<V: Values>(width: Width, word: V::Word) -> Result<u64, Cause>
    ensures value { result ≡ number_at V.operations width word }
    ensures small { IfOk result (λ number. number < span_of width) }
{
    Ok(low(width, V::number_of(word)?))
}

/// The cause, or that of the other use if it comes first.
fn with(cause: Cause, other: Result<u64, Cause>) -> Cause
    ensures { result ≡ cause_with cause other }
{
    match other {
        Ok(_) => cause,
        Err(other) => cause.first(other),
    }
}

/// The number of a loaded word, with another use.
fn weighed<V: Values, S: Space<V>>(
    width: Width,
    here: u64,
    space: &S,
    place: u64,
    other: Result<u64, Cause>,
) -> Result<(u64, u64), Stop>
    ensures value { result ≡ weighed V.operations (range_accesses V.operations) width here
        (load_of V.operations (range_accesses V.operations) (S.memory space.now) place (size_of width)) other }
    ensures small { IfOk result (λ parts. parts.0 < span_of width) }
    ensures other { IfOk result (λ parts. other ≡ Ok parts.1) }
{
    match (space.load(place, size(width)), other) {
        (Some(word), other) => used(here, both(number_at::<V>(width, word), other)),
        (None, Ok(_)) => Err(Stop::Address(here)),
        (None, Err(cause)) => Err(Stop::Unclean(here, cause)),
    }
}

/// The number at an address, with another use.
#[tactic(auto, unfolding(crate::specs::Operand::taken_at))]
fn take_at<V: Values, S: Space<V>>(
    width: Width,
    here: u64,
    space: &S,
    address: Result<u64, Cause>,
    other: Result<u64, Cause>,
) -> Result<Taken, Stop>
    ensures value { result ≡ taken_at V.operations (range_accesses V.operations) width here (S.memory space.now)
        address other }
    ensures small { IfOk result (λ it. it.number < span_of width) }
    ensures other { IfOk result (λ it. other ≡ Ok it.other) }
{
    match address {
        Err(cause) => Err(Stop::Unclean(here, with(cause, other))),
        Ok(place) => {
            let (number, other) = weighed::<V, S>(width, here, space, place, other)?;
            Ok(Taken {
                slot: Slot::Place(place),
                number,
                other,
            })
        }
    }
}

/// The operand's number, with another use.
#[tactic(auto, unfolding(crate::specs::Operand::taken))]
pub fn take_operand<V: Values, S: Space<V>>(
    width: Width,
    frame: &Frame,
    state: &State<V::Word, V::Flag>,
    space: &S,
    operand: &Operand,
    other: Result<u64, Cause>,
) -> Result<Taken, Stop>
    ensures value { result ≡ taken V.operations (range_accesses V.operations) width frame.now state.now
        (S.memory space.now) operand.now other }
    ensures small { IfOk result (λ it. it.number < span_of width) }
    ensures other { IfOk result (λ it. other ≡ Ok it.other) }
{
    match operand {
        Operand::Register(name) => {
            let number = number_at::<V>(width, register(&state.registers, *name));
            let (number, other) = used(state.place, both(number, other))?;
            Ok(Taken {
                slot: Slot::Register(*name),
                number,
                other,
            })
        }
        Operand::InMemory(memory) => {
            let address = address::<V>(frame, state, memory);
            take_at::<V, S>(width, state.place, space, address, other)
        }
    }
}

/// Writes a result to its slot.
#[tactic(auto, unfolding(crate::specs::Operand::put))]
pub fn put<V: Values, S: Space<V>>(
    width: Width,
    slot: Slot,
    word: V::Word,
    state: &mut State<V::Word, V::Flag>,
    space: &mut S,
) -> Result<(), Stop>
    ensures does { Does V.operations result state.old (S.memory space.old) state.new (S.memory space.new)
        (λ ops acc s m. put ops acc width slot word s m) }
    ensures rest { S.rest space.new ≡ S.rest space.old }
{
    match slot {
        Slot::Register(name) => {
            set_register(&mut state.registers, name, word);
            Ok(())
        }
        Slot::Place(place) => store::<V, S>(space, state.place, place, size(width), word),
    }
}
