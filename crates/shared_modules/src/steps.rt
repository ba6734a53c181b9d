//! The lock, and the steps on the table, one function for each.
ghost use Rattle.std.specs.Prelude.{◌≡◌, ◌<◌, ◌++◌, ℕ, List, [], ◌∷◌, length, drop, Some, None, IfOk, OnErr};
ghost use Rattle.module_table.specs.declared.events.Event.{Event};
ghost use Rattle.module_table.specs.History.{History};
ghost use Rattle.shared_modules.specs.declared.board.Turn.TheVariants.{Away, Waits, Holds};
ghost use Rattle.shared_modules.specs.Views.{caught, away, drew, published};
ghost use Rattle.shared_modules.specs.Rule.{IsLearnt};
ghost use Rattle.shared_modules.specs.Plays.{IsAt, Draws, Takes, Loads, Begun, Entered, Ending, Adding};
ghost use Rattle.shared_modules.specs.Plays.{turned};

use crate::board::{GENERATION, Place, SERVING, Steps, TICKET};
use crate::plays::{Catch, Draw, Learn, Leave, Load, Publish, See};
use module_table::{Event, Registry};
use std::alloc::AllocError;
use std::sync::Wait;

/// Draws a ticket, modulo 2^64.
fn draw(steps: &Steps, seat: &mut Place) -> u64
    requires fits { IsAt seat.old.table_id steps.now.table_id }
    requires idle { seat.old.me.0.turn ≡ Away }
    requires speaks { 0 < length seat.old.me.0.threads }
    ensures table { seat.new.table_id ≡ seat.old.table_id }
    ensures drawn { Draws seat.old.me result seat.new.me }
{
    steps.fetch_add::<Draw>(seat, TICKET, 1)
}

/// Draws a ticket, and waits until it is being served.
fn take_turn<R: Wait>(rt: &R, steps: &Steps, seat: &mut Place)
    requires fits { IsAt seat.old.table_id steps.now.table_id }
    requires idle { seat.old.me.0.turn ≡ Away }
    requires speaks { 0 < length seat.old.me.0.threads }
    requires bare { seat.old.me.1 ≡ [] }
    ensures table { seat.new.table_id ≡ seat.old.table_id }
    ensures taken { (t : ℕ) × Takes t (drew t seat.old.me.0) seat.new.me }
{
    let ticket = draw(steps, seat);
    for _ in rt.forever() {
        let serving = steps.load::<See>(seat, SERVING);
        if serving == ticket {
            return;
        }
        steps.park(rt, SERVING, (serving % (1 << 32)) as u32);
    }
    unreachable!()
}

/// Takes the registry out of the slot in hand.
fn slot_out(steps: &Steps, seat: &mut Place) -> Registry
    requires table { seat.old.table_id ≡ steps.now.table_id }
    requires there { (registry : History) × (seat.old.me.1 ≡ (0, Some registry) ∷ []) }
    ensures table { seat.new.table_id ≡ seat.old.table_id }
    ensures was { seat.old.me.1 ≡ (0, Some result) ∷ [] }
    ensures empty { seat.new.me ≡ (seat.old.me.0, (0, None) ∷ []) }
{
    match steps.exchange(seat, 0, None) {
        Some(registry) => registry,
        None => unreachable!(),
    }
}

/// Puts the registry into the slot in hand.
fn slot_home(steps: &Steps, seat: &mut Place, registry: Registry)
    requires table { seat.old.table_id ≡ steps.now.table_id }
    requires empty { seat.old.me.1 ≡ (0, None) ∷ [] }
    ensures table { seat.new.table_id ≡ seat.old.table_id }
    ensures there { seat.new.me ≡ (seat.old.me.0, (0, Some registry) ∷ []) }
{
    let None = steps.exchange(seat, 0, Some(registry)) else {
        unreachable!()
    };
}

/// Loads the length of the history.
pub(crate) fn load_generation(steps: &Steps, seat: &mut Place) -> u64
    requires fits { IsAt seat.old.table_id steps.now.table_id }
    requires speaks { 0 < length seat.old.me.0.threads }
    ensures table { seat.new.table_id ≡ seat.old.table_id }
    ensures loaded { Loads seat.old.me result seat.new.me }
{
    steps.load::<Load>(seat, GENERATION)
}

/// Loads the length of the history with the registry in hand, so that all of it is seen.
pub(crate) fn read_generation(steps: &Steps, seat: &mut Place) -> u64
    requires fits { IsAt seat.old.table_id steps.now.table_id }
    requires holds { (ticket : ℕ) × (note : List Event) × (seat.old.me.0.turn ≡ Holds ticket note) }
    requires speaks { 0 < length seat.old.me.0.threads }
    ensures table { seat.new.table_id ≡ seat.old.table_id }
    ensures caught { (ticket : ℕ) (note : List Event) → seat.old.me.0.turn ≡ Holds ticket note
        → (result ≡ length note) × (seat.new.me ≡ (caught note seat.old.me.0, seat.old.me.1)) }
{
    steps.load::<Catch>(seat, GENERATION)
}

/// Makes the history longer by one event, which the registry in the slot has.
fn publish(steps: &Steps, seat: &mut Place)
    requires fits { IsAt seat.old.table_id steps.now.table_id }
    requires adds { (h : History) × (event : Event)
        × (seat.old.me.1 ≡ (0, Some h) ∷ []) × Adding h event (seat.old.me.0, (0, None) ∷ []) }
    ensures table { seat.new.table_id ≡ seat.old.table_id }
    ensures published { (h : History) → seat.old.me.1 ≡ (0, Some h) ∷ []
        → seat.new.me ≡ (published h.events seat.old.me.0, seat.old.me.1) }
{
    steps.fetch_add::<Publish>(seat, GENERATION, 1);
}

/// Puts the registry back, and serves the next ticket. Its holder may be asleep.
fn leave(steps: &Steps, seat: &mut Place)
    requires fits { IsAt seat.old.table_id steps.now.table_id }
    requires ends { (h : History) × (seat.old.me.1 ≡ (0, Some h) ∷ []) × Ending h (seat.old.me.0, (0, None) ∷ []) }
    ensures table { seat.new.table_id ≡ seat.old.table_id }
    ensures left { seat.new.me ≡ (away seat.old.me.0, []) }
{
    let served = steps.fetch_add::<Leave>(seat, SERVING, 1);
    if steps.peek(TICKET) != served.wrapping_add(1) {
        steps.wake_all(SERVING);
    }
}

/// Tells what two seats learned of each other when they were joined: a step of its own, since a
/// join itself tells nothing.
pub(crate) fn learn(steps: &Steps, seat: &mut Place)
    requires fits { IsAt seat.old.table_id steps.now.table_id }
    ensures table { seat.new.table_id ≡ seat.old.table_id }
    ensures same { seat.new.me ≡ seat.old.me }
    ensures learnt { IsLearnt seat.old.me.0.lesson }
{
    steps.load::<Learn>(seat, SERVING);
}

/// Takes a turn at the registry.
pub(crate) fn begin<R: Wait>(rt: &R, steps: &Steps, seat: &mut Place) -> Registry
    requires fits { IsAt seat.old.table_id steps.now.table_id }
    requires idle { seat.old.me.0.turn ≡ Away }
    requires speaks { 0 < length seat.old.me.0.threads }
    requires bare { seat.old.me.1 ≡ [] }
    ensures table { seat.new.table_id ≡ seat.old.table_id }
    ensures begun { Begun seat.old.me.0 result seat.new.me }
{
    take_turn(rt, steps, seat);
    slot_out(steps, seat)
}

/// Ends the turn, with the history as it was.
pub(crate) fn end(steps: &Steps, seat: &mut Place, registry: Registry)
    requires fits { IsAt seat.old.table_id steps.now.table_id }
    requires ends { Ending registry seat.old.me }
    ensures table { seat.new.table_id ≡ seat.old.table_id }
    ensures left { seat.new.me ≡ (away seat.old.me.0, []) }
{
    slot_home(steps, seat, registry);
    leave(steps, seat);
}

/// Ends the turn with one more event, which is published while the registry is still in hand.
pub(crate) fn end_with(steps: &Steps, seat: &mut Place, registry: Registry)
    requires fits { IsAt seat.old.table_id steps.now.table_id }
    requires adds { (event : Event) × Adding registry event seat.old.me }
    ensures table { seat.new.table_id ≡ seat.old.table_id }
    ensures left { seat.new.me ≡ (away (published registry.events seat.old.me.0), []) }
{
    slot_home(steps, seat, registry);
    publish(steps, seat);
    leave(steps, seat);
}

/// Takes a turn that may add an event: afterwards there is memory for it, the list has the events that the seat had not
/// seen, and the seat has seen the whole history. If memory runs out, the turn is over.
pub(crate) fn enter<R: Wait>(
    rt: &R,
    steps: &Steps,
    seat: &mut Place,
    seen: u64,
    into: &mut Vec<Event>,
) -> Result<Registry, AllocError>
    requires fits { IsAt seat.old.table_id steps.now.table_id }
    requires idle { seat.old.me.0.turn ≡ Away }
    requires speaks { 0 < length seat.old.me.0.threads }
    requires bare { seat.old.me.1 ≡ [] }
    requires seen { seen ≡ length seat.old.me.0.seen }
    ensures table { seat.new.table_id ≡ seat.old.table_id }
    ensures entered { IfOk result (λ registry. Entered seat.old.me.0 registry seat.new.me) }
    ensures lacked { IfOk result (λ registry. into.new.items ≡ into.old.items ++ drop seen registry.events) }
    ensures memory { OnErr result ((seat.new.me ≡ (turned seat.old.me.0, [])) × (into.new.items ≡ into.old.items)) }
{
    let mut registry = begin(rt, steps, seat);
    if registry.reserve().is_err() {
        end(steps, seat, registry);
        return Err(AllocError);
    }
    if into.extend_from_slice(registry.since(seen)).is_err() {
        end(steps, seat, registry);
        return Err(AllocError);
    }
    read_generation(steps, seat);
    Ok(registry)
}
