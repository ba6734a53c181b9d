//! The first look of a thread's line.

ghost use Rattle.std.specs.Prelude.{◌≡◌, ◌≤◌, ◌<◌, ◌+◌, ◌^◌, ℕ, IfOk, OnOk, if◌then◌else◌, is_some, length};
ghost use Rattle.job_meaning.specs.Marked.{values_of};
ghost use Rattle.module_table.specs.Past.{accepts, module_of};
ghost use Rattle.thread_blocks.specs.Held.{block_bytes};
ghost use Rattle.thread_blocks.specs.Instances.{block_start, instances_in, loaded_instance};
ghost use Rattle.thread_blocks.specs.MachineTurns.{call_start};
ghost use Rattle.whole_meaning.specs.Threads.{ops};
ghost use Rattle.job_check.specs.Histories.{infos_of};
ghost use Rattle.job_check.specs.Lines.{BeginsCall, BeginsPeek, CanBegin, LoadsNew, Starts, byte_cause, is_for, shown_step, step_in, unclean_bytes, unclean_for};

use crate::live::{live_instance, see};
use crate::verdict::unclean_stop;
use address_map::{stack_end, thread_pointer};
use guest_arithmetic::Cause;
use guest_operands::{State, Stop, start};
use job_meaning::{Byte, Flag, MarkedValues, Token, Word};
use job_text::{Action, ThreadLine};
use loaded_modules::Instance;
use marked_memory::{MarkedMemory, block_start};
use module_table::{Event, ModuleTable};
use std::alloc::{AllocError, Global};
use thread_turns::Arguments;
use whole_meaning::UncleanStep;

/// What a line does at its first look: it is over, with its unclean step if it shows bytes that are not numbers, or a
/// call begins, with these registers.
pub(crate) type Started = thread_turns::Started<Option<UncleanStep>, State<Word, Flag>>;

/// A line that is over and clean.
const CLEAN: Started = Started::Says(None);

// ** calls

/// The registers before a call of the function at `place`.
fn registers_at(thread: u32, place: u64, given: Arguments) -> State<Word, Flag>
    requires { thread ≤ 64 }
    ensures { result ≡ call_start ops thread place given.a given.b given.c }
{
    let stack = stack_end(thread) - 8;
    let mut state = start::<MarkedValues>(
        place,
        stack,
        Word::Number(given.a),
        Word::Number(given.b),
        Word::Number(given.c),
    );
    state.thread_pointer = thread_pointer(thread);
    state
}

/// Begins a call of a function by its name, in the live instance of the line's image. The call finds a fresh stack, and
/// the blocks as the last line left them.
fn call(
    space: &mut MarkedMemory,
    table: &ModuleTable,
    line: &ThreadLine,
    symbol: &[u8],
    given: Arguments,
) -> Result<Started, AllocError>
    requires { space.old.live ≡ instances_in (infos_of space.old.images) table.now }
    ensures { IfOk result (λ started. (number : ℕ)
        → BeginsCall (record { number = number; told = line.now }) symbol.now given.a given.b given.c
        table.now space.old started table.now space.new) }
{
    let Some(instance) = live_instance(space.images(), table, line.image) else {
        return Ok(CLEAN);
    };
    let Some(place) = space.images().function(&instance, symbol) else {
        return Ok(CLEAN);
    };
    space.renew_stack()?;
    Ok(Started::Calls(registers_at(space.thread(), place, given)))
}

// ** opens and closes

/// Whether the history accepts the event.
#[tactic(auto, unfolding(module_table::specs::Past::accepts))]
fn is_accepted(table: &ModuleTable, event: Event) -> bool
    ensures { result ≡ accepts table.now event }
{
    if event.opens {
        table.open_refusal(event.image).is_none()
    } else {
        table.close_refusal(event.image).is_none()
    }
}

/// Fills the data of an image, unless it was loaded before.
fn load_new(
    space: &mut MarkedMemory,
    table: &ModuleTable,
    was: bool,
    image: u32,
) -> Result<(), AllocError>
    ensures { OnOk result (LoadsNew was
        (loaded_instance (infos_of space.old.images) image (module_of table.now image)) space.old space.new) }
{
    if !was {
        if let Some(instance) = live_instance(space.images(), table, image) {
            space.load(instance.number)?;
        }
    }
    Ok(())
}

/// Opens or closes the line's image. If the history accepts the event, the thread sees it at once, and a load fills the
/// data of the instance.
fn open_or_close(
    alloc: Global,
    space: &mut MarkedMemory,
    table: &mut ModuleTable,
    number: u32,
    line: &ThreadLine,
    opens: bool,
) -> Result<Started, AllocError>
    requires asks { line.now.action ≡ (if opens then Action.Open else Action.Close) }
    requires ready { CanBegin space.old table.old }
    ensures { IfOk result (λ started.
        Starts (record { number = number; told = line.now }) table.old space.old started table.new space.new) }
{
    let event = Event {
        thread: space.thread(),
        line: number,
        opens,
        image: line.image,
    };
    if !is_accepted(table, event) {
        return Ok(CLEAN);
    }
    let was = table.module(line.image).is_loaded();
    table.accept(event);
    see(alloc, space, table, Vec::new(alloc))?;
    load_new(space, table, was, line.image)?;
    Ok(CLEAN)
}

// ** peeks

/// Why a byte is not a number.
fn byte_cause(byte: Byte) -> Option<Cause>
    ensures { result ≡ byte_cause byte }
{
    match byte {
        Byte::Value(_) => None,
        Byte::Hidden => Some(Cause::Undefined),
        Byte::Part(Token::Base(_), _) => Some(Cause::Base),
        Byte::Part(Token::Descriptor(_, _), _) => Some(Cause::Descriptor),
    }
}

/// Whether this cause is why a byte is not a number.
fn is_for(cause: Cause, byte: Byte) -> bool
    ensures { result ≡ is_for cause (byte_cause byte) }
{
    match byte_cause(byte) {
        Some(other) => cause == other,
        None => false,
    }
}

/// The stop at the lowest byte that is not a number for this cause.
fn unclean_for(address: u64, bytes: &[Byte], cause: Cause) -> Option<Stop>
    requires { address + length bytes.now < 2 ^ 64 }
    ensures { result ≡ unclean_for address bytes.now cause }
{
    for (index, byte) in bytes.iter().enumerate() {
        if is_for(cause, *byte) {
            return Some(Stop::Unclean(address + index as u64, cause));
        }
    }
    None
}

/// The stop for the first cause that some byte has, wherever the byte is.
fn unclean_bytes(address: u64, bytes: &[Byte]) -> Stop
    requires { address + length bytes.now < 2 ^ 64 }
    ensures { result ≡ unclean_bytes address bytes.now }
{
    unclean_for(address, bytes, Cause::Undefined)
        .or(unclean_for(address, bytes, Cause::Base).or(unclean_for(
            address,
            bytes,
            Cause::Descriptor,
        )))
        .unwrap_or(Stop::Unclean(address, Cause::Undefined))
}

/// Whether each byte is a number.
fn are_numbers(bytes: &[Byte]) -> bool
    ensures { result ≡ is_some (values_of bytes.now) }
{
    for byte in bytes {
        match byte {
            Byte::Value(_) => {}
            Byte::Hidden | Byte::Part(_, _) => return false,
        }
    }
    true
}

/// The unclean step of a line that shows bytes from an address on, if some of them are not numbers.
fn shown_step(thread: u32, line: u32, address: u64, bytes: &[Byte]) -> Option<UncleanStep>
    requires { address + length bytes.now < 2 ^ 64 }
    ensures { result ≡ shown_step thread line address bytes.now (values_of bytes.now) }
{
    if are_numbers(bytes) {
        return None;
    }
    unclean_stop(thread, line, unclean_bytes(address, bytes))
}

/// The unclean step of a line that shows `size` bytes of the thread's block of an instance, from `offset`, if it has
/// one.
fn step_in(
    space: &MarkedMemory,
    instance: &Instance,
    line: u32,
    offset: u64,
    size: u32,
) -> Result<Option<UncleanStep>, AllocError>
    ensures { IfOk result (λ step. step ≡ step_in space.now.thread line (block_start space.now.thread instance.now)
        size offset (block_bytes instance.now.number space.now.own)) }
{
    let Some(bytes) = space.part(instance.number, offset, size)? else {
        return Ok(None);
    };
    let thread = space.thread();
    let address = block_start(thread, instance) + offset;
    Ok(shown_step(thread, line, address, &bytes))
}

/// Shows bytes of a variable, from the thread's block of the live instance of the line's image. The block is made even
/// if the line is then refused.
fn peek(
    space: &mut MarkedMemory,
    table: &ModuleTable,
    number: u32,
    line: &ThreadLine,
    symbol: &[u8],
    size: u32,
) -> Result<Started, AllocError>
    requires { space.old.live ≡ instances_in (infos_of space.old.images) table.now }
    ensures { IfOk result (λ started. BeginsPeek (record { number = number; told = line.now }) symbol.now size
        table.now space.old started table.now space.new) }
{
    let Some(instance) = live_instance(space.images(), table, line.image) else {
        return Ok(CLEAN);
    };
    space.reach(instance.number)?;
    let Some(offset) = space.images().variable(line.image, symbol) else {
        return Ok(CLEAN);
    };
    Ok(Started::Says(step_in(space, &instance, number, offset, size)?))
}

// ** lines

/// Takes the first look of a line, which has this number from 1, for a thread that has seen all events. An accepted
/// open or close enters the history. Fails only when memory runs out; no clause says what is then left of the thread.
pub(crate) fn begin(
    alloc: Global,
    space: &mut MarkedMemory,
    table: &mut ModuleTable,
    number: u32,
    line: &ThreadLine,
) -> Result<Started, AllocError>
    requires ready { CanBegin space.old table.old }
    ensures { IfOk result (λ started.
        Starts (record { number = number; told = line.now }) table.old space.old started table.new space.new) }
{
    match &line.action {
        Action::Call { symbol, a, b, c } => call(
            space,
            table,
            line,
            symbol.as_str().as_bytes(),
            Arguments {
                a: *a,
                b: *b,
                c: *c,
            },
        ),
        Action::Open => open_or_close(alloc, space, table, number, line, true),
        Action::Close => open_or_close(alloc, space, table, number, line, false),
        Action::Peek { symbol, length } => peek(
            space,
            table,
            number,
            line,
            symbol.as_str().as_bytes(),
            *length,
        ),
    }
}
