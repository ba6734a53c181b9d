//! The first look of a thread's line.

ghost use Rattle.std.specs.Prelude.{◌≡◌, ◌≤◌, ◌<◌, ◌+◌, ◌-◌, ◌^◌, ℕ, true, None, Some, Result, IfOk, OnErr, OnOk};
ghost use Rattle.guest_arithmetic.specs.Plain.{plain_operations};
ghost use Rattle.loaded_modules.specs.Images.{infos};
ghost use Rattle.module_table.specs.Past.{accepts, close_refusal, module_of, open_refusal, opened};
ghost use Rattle.thread_blocks.specs.Instances.{loaded_instance};
ghost use Rattle.thread_blocks.specs.Lines.{event_at};
ghost use Rattle.thread_blocks.specs.MachineTurns.{call_start};
ghost use Rattle.job_turns.specs.Asking.{answer_to, ask_by};
ghost use Rattle.thread_space.specs.Live.{IsLive};
ghost use Rattle.job_turns.specs.Starting.{BeginsCall, BeginsClose, BeginsOpen, BeginsPeek, LoadsNew, ReachesLive, Sees, Starts};
ghost use Rattle.job_turns.specs.Starting.{part_shown, shown_of};
ghost use Rattle.job_turns.specs.Taking.{CanBegin, KeepsJob};
ghost use Rattle.thread_turns.specs.declared.parts.Started.TheVariants.{Says};
ghost use Rattle.thread_vector.specs.Vectors.{held};

use crate::asking::LineAnswer;
use address_map::{stack_end, thread_pointer};
use guest_arithmetic::Plain;
use guest_machine::Machine;
use job_text::{Action, ThreadLine};
use loaded_modules::Instance;
use module_table::{Closed, Event, Opened};
use std::alloc::{AllocError, Global};
use thread_space::{JobNames, ThreadSpace};
use thread_turns::Arguments;
use transcript_text::{Bytes, LineRefusal, Outcome};

/// The result of a line's first look.
pub(crate) type Started = thread_turns::Started<Outcome, Machine<Plain>>;

fn refused(refusal: LineRefusal) -> Started
    ensures { result ≡ Says (Outcome.Refused refusal) }
{
    Started::Says(Outcome::Refused(refusal))
}

// ** calls

/// A machine before a call of the function at this address.
fn machine_at(thread: u32, place: u64, given: Arguments) -> Machine<Plain>
    requires { thread ≤ 64 }
    ensures state { result.state ≡ call_start plain_operations thread place given.a given.b given.c }
    ensures fresh { result.taken ≡ 0 }
{
    let stack = stack_end(thread) - 8;
    let mut machine = Machine::<Plain>::start(place, stack, given.a, given.b, given.c);
    machine.set_thread_pointer(thread_pointer(thread));
    machine
}

/// Begins a call of the function with a name, in the live instance of an image. The call has a fresh stack, and the
/// blocks as the line before left them.
fn call(
    space: &mut ThreadSpace,
    names: &JobNames,
    image: u32,
    symbol: &[u8],
    given: Arguments,
) -> Result<Started, AllocError>
    requires { names.now ≡ space.old.vector.images }
    ensures begins { IfOk result
        (λ started. BeginsCall image symbol.now given.a given.b given.c space.old started space.new) }
    ensures err { OnErr result (space.new ≡ space.old) }
{
    let Some(instance) = space.instance(image) else {
        return Ok(refused(LineRefusal::NotOpen));
    };
    let Some(place) = names.function(&instance, symbol) else {
        return Ok(refused(LineRefusal::Symbol));
    };
    space.renew_stack()?;
    Ok(Started::Calls(machine_at(space.thread(), place, given)))
}

// ** opens and closes

/// Shows a thread its own event at once: its line opens or closes an image.
fn see(
    space: &mut ThreadSpace,
    number: u32,
    line: &ThreadLine,
    opens: bool,
) -> Result<(), AllocError>
    requires accepted { accepts space.old.vector.past
        (event_at space.old.vector.thread number opens line.now.image) ≡ true }
    requires room { space.old.vector.past.seen + 1 < 2 ^ 62 }
    ensures sees { OnOk result
        (Sees space.old (event_at space.old.vector.thread number opens line.now.image) space.new) }
    ensures err { OnErr result (space.new ≡ space.old) }
{
    let event = Event {
        thread: space.thread(),
        line: number,
        opens,
        image: line.image,
    };
    space.history_is_lawful();
    space.look(&[event])?;
    space.history_is_lawful();
    Ok(())
}

/// Fills the data of an image, unless it was loaded before.
fn load_new(space: &mut ThreadSpace, was: bool, image: u32) -> Result<(), AllocError>
    ensures loads { OnOk result (LoadsNew was
        (loaded_instance (infos space.old.vector.images) image (module_of space.old.vector.past image))
        space.old space.new) }
    ensures err { OnErr result (space.new ≡ space.old) }
{
    if !was {
        if let Some(instance) = space.instance(image) {
            space.load(&instance)?;
        }
    }
    Ok(())
}

/// Does an open that was accepted: the thread sees it, and a load fills the data of the instance.
fn open(
    space: &mut ThreadSpace,
    number: u32,
    line: &ThreadLine,
    instance: u32,
) -> Result<Started, AllocError>
    requires accepted { open_refusal space.old.vector.past line.now.image ≡ None }
    requires instance { instance ≡ (module_of (opened space.old.vector.past line.now.image) line.now.image).instance }
    requires ready { CanBegin space.old }
    ensures begins { IfOk result
        (λ started. BeginsOpen (record { number = number; told = line.now }) space.old started space.new) }
    ensures err { OnErr result (KeepsJob space.old space.new) }
{
    let was = space.instance(line.image).is_some();
    see(space, number, line, true)?;
    load_new(space, was, line.image)?;
    Ok(Started::Says(Outcome::Opened(instance)))
}

/// Does a close that was accepted.
fn close(space: &mut ThreadSpace, number: u32, line: &ThreadLine) -> Result<Started, AllocError>
    requires accepted { close_refusal space.old.vector.past line.now.image ≡ None }
    requires ready { CanBegin space.old }
    ensures begins { IfOk result
        (λ started. BeginsClose (record { number = number; told = line.now }) space.old started space.new) }
    ensures err { OnErr result (space.new ≡ space.old) }
{
    see(space, number, line, false)?;
    Ok(Started::Says(Outcome::Closed))
}

// ** peeks

/// Reaches the block of a live instance.
fn reach(space: &mut ThreadSpace, instance: &Instance) -> Result<(), AllocError>
    requires { IsLive space.old.vector.images space.old.vector.past instance.now }
    ensures ok { OnOk result (ReachesLive space.old instance.now space.new) }
    ensures err { OnErr result (space.new ≡ space.old) }
{
    space.history_is_lawful();
    space.reach(instance.number)?;
    space.history_is_lawful();
    Ok(())
}

/// The `size` bytes of a block from `offset` on, if it holds them all.
fn part_shown(alloc: Global, block: &[u8], size: u32, offset: u64) -> Result<Outcome, AllocError>
    ensures { IfOk result (λ outcome. outcome ≡ part_shown block.now size offset) }
{
    match offset.checked_add(u64::from(size)) {
        Some(end) if end <= block.len() as u64 => {
            let bytes = Vec::from_slice(alloc, &block[offset as usize..end as usize])?;
            Ok(Outcome::Bytes(Bytes::new(bytes)))
        }
        _ => Ok(Outcome::Refused(LineRefusal::Length)),
    }
}

/// The bytes of the thread's block of an instance, as the line shows them.
fn shown(
    space: &ThreadSpace,
    instance: u32,
    size: u32,
    variable: Option<u64>,
) -> Result<Outcome, AllocError>
    ensures { IfOk result (λ outcome. outcome ≡ shown_of (held space.now.vector instance) size variable) }
{
    let Some(offset) = variable else {
        return Ok(Outcome::Refused(LineRefusal::Symbol));
    };
    match space.block(instance) {
        Some(block) => part_shown(space.alloc(), block, size, offset),
        None => Ok(Outcome::Refused(LineRefusal::Length)),
    }
}

/// Shows bytes of a variable, from the block of the live instance of the line's image. The block is reached even if
/// the line is then refused.
fn peek(
    space: &mut ThreadSpace,
    names: &JobNames,
    line: &ThreadLine,
    symbol: &[u8],
    size: u32,
) -> Result<Started, AllocError>
    requires { names.now ≡ space.old.vector.images }
    ensures begins { IfOk result (λ started. (number : ℕ)
        → BeginsPeek (record { number = number; told = line.now }) symbol.now size space.old started space.new) }
    ensures err { OnErr result (KeepsJob space.old space.new) }
{
    let Some(instance) = space.instance(line.image) else {
        return Ok(refused(LineRefusal::NotOpen));
    };
    reach(space, &instance)?;
    let variable = names.variable(line.image, symbol);
    let outcome = shown(space, instance.number, size, variable)?;
    Ok(Started::Says(outcome))
}

// ** lines

/// The registry's answer to an open.
fn open_answer(answer: Option<LineAnswer>) -> Result<Opened, LineRefusal>
    ensures { (said : Result Opened LineRefusal) → answer ≡ Some (LineAnswer.Opened said) → result ≡ said }
{
    match answer {
        Some(LineAnswer::Opened(said)) => said,
        _ => Err(LineRefusal::Unknown),
    }
}

/// The registry's answer to a close.
fn close_answer(answer: Option<LineAnswer>) -> Result<Closed, LineRefusal>
    ensures { (said : Result Closed LineRefusal) → answer ≡ Some (LineAnswer.Closed said) → result ≡ said }
{
    match answer {
        Some(LineAnswer::Closed(said)) => said,
        _ => Err(LineRefusal::NotOpen),
    }
}

/// The first look of the line with number `number`, from 1, of a thread that has seen all events. A registry has
/// already answered an open or a close of the image, and holds its event; here the thread sees that event.
pub(crate) fn begin(
    space: &mut ThreadSpace,
    names: &JobNames,
    number: u32,
    line: &ThreadLine,
    answer: Option<LineAnswer>,
) -> Result<Started, AllocError>
    requires names { names.now ≡ space.old.vector.images }
    requires answer { answer ≡ answer_to space.old.vector.past (ask_by number line.now.image line.now.action) }
    requires ready { CanBegin space.old }
    ensures starts { IfOk result
        (λ started. Starts (record { number = number; told = line.now }) space.old started space.new) }
    ensures err { OnErr result (KeepsJob space.old space.new) }
{
    match &line.action {
        Action::Call { symbol, a, b, c } => call(
            space,
            names,
            line.image,
            symbol.as_str().as_bytes(),
            Arguments {
                a: *a,
                b: *b,
                c: *c,
            },
        ),
        Action::Open => match open_answer(answer) {
            Ok(opened) => open(space, number, line, opened.instance),
            Err(refusal) => Ok(refused(refusal)),
        },
        Action::Close => match close_answer(answer) {
            Ok(_) => close(space, number, line),
            Err(refusal) => Ok(refused(refusal)),
        },
        Action::Peek { symbol, length } => peek(
            space,
            names,
            line,
            symbol.as_str().as_bytes(),
            *length,
        ),
    }
}
