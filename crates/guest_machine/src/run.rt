//! Runs: steps up to a stop.

ghost use Rattle.std.specs.Prelude.{◌≡◌};
ghost use Rattle.guest_machine.specs.Run.{returned, is_look};
ghost use Rattle.guest_machine.specs.RunLaws.{Runs};

use crate::step::step;
use address_map::{DESCRIPTOR, GET_ADDRESS, RETURN};
use guest_arithmetic::{Cause, Values};
use guest_operands::{Space, State, Stop};

/// What a call returned, from %rax.
fn returned(answer: Result<u64, Cause>, place: u64) -> Stop
    ensures { result ≡ returned answer place }
{
    match answer {
        Ok(number) => Stop::Returned(number),
        Err(_) => Stop::Unclean(place, Cause::Answer),
    }
}

/// Whether the machine stops for a look at this address.
pub fn is_look(place: u64) -> bool
    ensures { result ≡ is_look place }
{
    place == GET_ADDRESS || place == DESCRIPTOR
}

/// Makes steps up to a stop, and counts them.
pub(crate) fn run<V: Values, S: Space<V>>(
    state: &mut State<V::Word, V::Flag>,
    taken: &mut u64,
    space: &mut S,
    limit: u64,
) -> Stop
    ensures runs { Runs V.operations limit result (record { state = state.old; taken = taken.old }) (S.memory space.old)
        (record { state = state.new; taken = taken.new }) (S.memory space.new) }
    ensures rest { S.rest space.new ≡ S.rest space.old }
{
    loop {
        if state.place == RETURN {
            return returned(V::number_of(state.registers.rax), state.place);
        }
        if *taken >= limit {
            return Stop::Steps(state.place);
        }
        if is_look(state.place) {
            return Stop::Look(state.place);
        }
        if let Err(stop) = step::<V, S>(state, space) {
            return stop;
        }
        *taken += 1;
    }
}
