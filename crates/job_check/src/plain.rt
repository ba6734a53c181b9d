//! The step of an instruction, where no sequence begins.

ghost use Rattle.std.specs.Prelude.{◌≡◌, List, [], None, IfOk, not};
ghost use Rattle.std.specs.List.{list_any};
ghost use Rattle.guest_machine.specs.declared.touch.Direction.TheVariants.{Store};
ghost use Rattle.guest_machine.specs.Touch.{places_from, refuses, touched, touched_then};
ghost use Rattle.guest_operands.specs.declared.stop.Stop.TheVariants.{Unclean};
ghost use Rattle.guest_operands.specs.Access.{bytes_in};
ghost use Rattle.guest_operands.specs.RangeLaws.{range_accesses};
ghost use Rattle.job_meaning.specs.Reading.{linker_with};
ghost use Rattle.module_table.specs.declared.events.Event.{Event};
ghost use Rattle.whole_meaning.specs.Fields.{lent_frame};
ghost use Rattle.whole_meaning.specs.Threads.{ops};
ghost use Rattle.marked_memory.specs.Kept.{HasSeen, memory_of, shut_in};
ghost use Rattle.job_check.specs.Stepping.{Makes, StepsAs, acted_in, done_in, linker_in, plain_next};

use crate::step::{Stepped, as_step};
use amd64_subset::{Decoded, decode};
use guest_arithmetic::Cause;
use guest_machine::{Direction, Touch, Touches, act};
use guest_memory::Bytes;
use guest_operands::{Frame, Space, State, Stop, load};
use job_meaning::{Flag, MarkedValues, Word};
use marked_memory::MarkedMemory;
use meant_steps::{address_at, hindrance, marked_frame, own_touches};
use std::alloc::AllocError;

/// Whether one of `size` bytes from `place` on is the linker's own.
fn is_any_shut(space: &MarkedMemory, place: u64, size: u8) -> bool
    ensures { result ≡ list_any (shut_in space.now) (places_from place size) }
{
    if size == 0 {
        return false;
    }
    space.is_shut(place) || is_any_shut(space, place.wrapping_add(1), size - 1)
}

/// Whether each of `size` bytes from `place` on may be written.
fn may_write_all(space: &MarkedMemory, place: u64, size: u8) -> bool
    ensures { result ≡ not (refuses (range_accesses ops) (memory_of space.now) Store place size) }
{
    if size == 0 {
        return true;
    }
    space.may_write(place) && may_write_all(space, place.wrapping_add(1), size - 1)
}

/// Whether an access is refused.
fn is_refused(space: &MarkedMemory, touch: &Touch) -> bool
    ensures { result ≡ refuses (range_accesses ops) (memory_of space.now) touch.now.direction touch.now.address
        (bytes_in touch.now.size) }
{
    match touch.direction {
        Direction::Load => {
            load::<MarkedValues, MarkedMemory>(
                space,
                touch.address,
                touch.address,
                touch.size,
            ).is_err()
        }
        Direction::Store => !may_write_all(space, touch.address, touch.size.bytes()),
    }
}

/// Whether a byte of an instruction's last access is the linker's own.
fn is_last_shut(space: &MarkedMemory, touch: Option<Touch>) -> bool
    ensures { result ≡ list_any (shut_in space.now) (touched_then (range_accesses ops) (memory_of space.now) touch []) }
{
    match touch {
        None => false,
        Some(touch) => is_any_shut(space, touch.address, touch.size.bytes()),
    }
}

/// Whether a byte that an instruction touches is the linker's own.
#[tactic(auto, unfolding(guest_machine::specs::Touch::touched))]
fn touches_linker(space: &MarkedMemory, touches: &Touches) -> bool
    ensures { result ≡ list_any (shut_in space.now) (touched (range_accesses ops) (memory_of space.now) touches.now) }
{
    match &touches.first {
        None => is_last_shut(space, touches.second),
        Some(first) => {
            is_any_shut(space, first.address, first.size.bytes())
                || (!is_refused(space, first) && is_last_shut(space, touches.second))
        }
    }
}

/// Whether an instruction begins at what is the linker's own, or touches a byte of it.
#[tactic(auto, unfolding(crate::specs::Stepping::linker_in))]
fn reaches_linker(space: &MarkedMemory, state: &State<Word, Flag>, it: &Option<Decoded>) -> bool
    ensures { result ≡ linker_in state.now space.now it.now }
{
    space.is_shut(state.place) || touches_linker(space, &own_touches(space, state, it))
}

/// The frame of an instruction whose operand is a word that is lent at address 0.
fn lent_frame(number: Option<u64>, frame: Frame) -> Frame
    ensures { result ≡ lent_frame number frame }
{
    match number {
        None => frame,
        Some(_) => Frame {
            next: frame.next,
            displacement: 0u64.wrapping_sub(frame.next),
            immediate: frame.immediate,
            displacement_field: frame.displacement_field,
            immediate_field: frame.immediate_field,
        },
    }
}

/// Does the instruction that was read at the thread's place.
fn do_instruction(
    it: &Decoded,
    state: &mut State<Word, Flag>,
    space: &mut MarkedMemory,
) -> Result<(), Stop>
    requires { space.old.lent ≡ None }
    ensures { Makes result state.old space.old state.new space.new (acted_in it.now state.old space.old) }
{
    let number = address_at(space, state.place, it.disp);
    let frame = lent_frame(number, marked_frame(space, state.place, it));
    space.lend(number);
    let result = act::<MarkedValues, MarkedMemory>(&frame, &it.instr.operation, state, space);
    space.lend(None);
    result
}

/// Does the instruction, unless none was read or something prevents it.
fn do_read(
    hindrance: Option<Cause>,
    it: &Option<Decoded>,
    state: &mut State<Word, Flag>,
    space: &mut MarkedMemory,
) -> Result<(), Stop>
    requires { space.old.lent ≡ None }
    ensures { Makes result state.old space.old state.new space.new (done_in hindrance it.now state.old space.old) }
{
    match (hindrance, it) {
        (Some(cause), _) => Err(Stop::Unclean(state.place, cause)),
        (None, None) => Err(Stop::Code(state.place)),
        (None, Some(it)) => do_instruction(it, state, space),
    }
}

/// The cause of a step that reaches the linker's own bytes: the cause that it has otherwise, if that comes first.
fn beside_linker(step: &Result<(), Stop>) -> Cause
    ensures { result ≡ linker_with step.now }
{
    match step {
        Err(Stop::Unclean(_, cause)) => cause.first(Cause::Linker),
        _ => Cause::Linker,
    }
}

/// The stop of a step that reaches the linker's own bytes. The step is tried in a copy of the memory.
fn stop_at_linker(
    hindrance: Option<Cause>,
    it: &Option<Decoded>,
    state: &State<Word, Flag>,
    space: &MarkedMemory,
) -> Result<Stop, AllocError>
    requires { space.now.lent ≡ None }
    ensures { IfOk result (λ stop. (seen : List Event) → HasSeen space.now seen
        → stop ≡ Unclean state.now.place (linker_with (done_in hindrance it.now state.now space.now seen))) }
{
    let mut state = *state;
    let place = state.place;
    let mut tried = space.copy()?;
    let result = do_read(hindrance, it, &mut state, &mut tried);
    Ok(Stop::Unclean(place, beside_linker(&result)))
}

/// The step of an instruction.
pub(crate) fn plain_step(
    state: &mut State<Word, Flag>,
    space: &mut MarkedMemory,
) -> Result<Stepped, AllocError>
    requires { space.old.lent ≡ None }
    ensures { IfOk result (λ stepped.
        StepsAs stepped state.old space.old state.new space.new (plain_next state.old space.old)) }
{
    let mut code = [0; 15];
    let count = space.fetch(state.place, &mut code);
    let code = &code[..usize::from(count)];
    let hindrance = hindrance(space, state, code);
    let it = decode(code);
    if reaches_linker(space, state, &it) {
        return Ok(Stepped::Ends(stop_at_linker(hindrance, &it, state, space)?));
    }
    Ok(as_step(do_read(hindrance, &it, state, space)))
}
