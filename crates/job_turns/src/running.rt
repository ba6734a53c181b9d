//! Runs of a thread's machine between two looks.

ghost use Rattle.std.specs.Prelude.{◌≡◌, ◌≤◌, ◌<◌, ◌+◌, ◌-◌, ◌*◌, ◌^◌, ◌&&◌, IfOk, IfSome, OnErr, nat_lt, ok_or, if◌then◌else◌};
ghost use Rattle.guest_arithmetic.specs.Plain.{plain_operations};
ghost use Rattle.guest_machine.specs.Machine.{Answers, answer_of};
ghost use Rattle.guest_machine.specs.Run.{is_look};
ghost use Rattle.guest_operands.specs.Access.{Refused};
ghost use Rattle.guest_operands.specs.RangeLaws.{range_accesses};
ghost use Rattle.thread_blocks.specs.JobLoads.{job_loads};
ghost use Rattle.thread_blocks.specs.RunTime.{answer_word};
ghost use Rattle.thread_space.specs.Kept.{memory_of, shape_of};
ghost use Rattle.job_turns.specs.Running.{AnswersLook, Resumes, RunsOn, RunsPart, asked_in, asked_words, word_in};

use address_map::thread_pointer;
use guest_arithmetic::Plain;
use guest_machine::laws::plain_is_clean;
use guest_machine::{DESCRIPTOR, Machine, Stop, is_look};
use guest_memory::Bytes;
use loaded_modules::Instance;
use std::alloc::AllocError;
use thread_blocks::Asked;
use thread_space::ThreadSpace;
use thread_turns::{Ended, Resumed};

/// The numbers of the registers that may hold the address of the words that ask.
const RAX: u8 = 0;

const RDI: u8 = 7;

/// How a run of a thread's machine ended: the call is over or stopped, or it asks for a block and needs a look.
pub(crate) type Ran = Ended<Stop, Asked>;

// ** questions

/// The little-endian number in `count` bytes at `address`, unless one of them may not be read.
fn number_at(space: &ThreadSpace, address: u64, count: u8) -> Option<u64>
    requires { count ≤ 8 }
    ensures value { ok_or result Refused ≡ word_in space.now address count }
    ensures small { IfSome result (λ number. number < 2 ^ (8 * count)) }
{
    if count == 0 {
        return Some(0);
    }
    let byte = <ThreadSpace as Bytes<Plain>>::read(space, address)?;
    let rest = number_at(space, address.wrapping_add(1), count - 1)?;
    Some(u64::from(byte) + 256 * rest)
}

/// The question that the two words at an address ask. A descriptor has both numbers in its second word.
fn asked_words(
    space: &ThreadSpace,
    asking: &Instance,
    is_descriptor: bool,
    address: u64,
) -> Option<Asked>
    requires { address + 16 ≤ 2 ^ 64 }
    ensures { result ≡ asked_words space.now asking.now is_descriptor address }
{
    let first = number_at(space, address, 8)?;
    let second = number_at(space, address + 8, 8)?;
    let (id, offset) = if is_descriptor {
        (second / (1 << 32), second % (1 << 32))
    } else {
        (first, second)
    };
    Some(Asked {
        asking: asking.number,
        id,
        offset,
        is_descriptor,
    })
}

/// The address of the words that ask: %rax holds it for a descriptor, and otherwise %rdi.
#[tactic(auto, unfolding(guest_operands::specs::State::register_of, amd64_words::specs::Register::register_of))]
fn asked_address(machine: &Machine<Plain>, is_descriptor: bool) -> u64
    ensures { result ≡
        (if is_descriptor then machine.now.state.registers.rax else machine.now.state.registers.rdi) }
{
    if is_descriptor {
        machine.register(RAX)
    } else {
        machine.register(RDI)
    }
}

/// The machine's question to the run time, if a live instance asks.
fn asked_at(space: &ThreadSpace, machine: &Machine<Plain>) -> Option<Asked>
    ensures { result ≡ asked_in space.now machine.now.state }
{
    let is_descriptor = machine.place() == DESCRIPTOR;
    let address = asked_address(machine, is_descriptor);
    let asking = space.asker(address)?;
    asked_words(space, &asking, is_descriptor, address)
}

// ** answers

/// The word that answers: the byte's address, or for a descriptor its distance from the thread pointer.
fn answer_word(space: &ThreadSpace, asked: Asked, instance: &Instance) -> u64
    ensures { result ≡ answer_word (job_loads space.now.vector.images) space.now.vector.thread asked instance.now }
{
    let address = space.block_start(instance).wrapping_add(asked.offset);
    if asked.is_descriptor {
        address.wrapping_sub(thread_pointer(space.thread()))
    } else {
        address
    }
}

/// Answers the question with the thread's block of an instance, in one step, unless the machine can't return.
fn answer(
    space: &mut ThreadSpace,
    machine: &mut Machine<Plain>,
    asked: Asked,
    instance: &Instance,
) -> bool
    requires { machine.old.taken < 2 ^ 64 - 1 }
    ensures answers { Answers result machine.old (memory_of space.old) machine.new (memory_of space.new)
        (answer_of plain_operations (range_accesses plain_operations)
        (answer_word (job_loads space.old.vector.images) space.old.vector.thread asked instance.now)
        machine.old.state (memory_of space.old)) }
    ensures shape { shape_of space.new ≡ shape_of space.old }
{
    let word = answer_word(space, asked, instance);
    machine.answer(space, word)
}

/// Answers a question about a startup image, or says how the run ends.
fn answer_at_once(space: &mut ThreadSpace, machine: &mut Machine<Plain>) -> Option<Ran>
    requires { machine.old.taken < 2 ^ 64 - 1 }
    ensures { AnswersLook machine.old space.old result machine.new space.new }
{
    let refused = Ran::Over(Stop::Address(machine.place()));
    let Some(asked) = asked_at(space, machine) else {
        return Some(refused);
    };
    if !space.is_startup(asked.id) {
        return Some(Ran::Waits(asked));
    }
    let Some(instance) = space.with_id(asked.id) else {
        return Some(refused);
    };
    if answer(space, machine, asked, &instance) {
        None
    } else {
        Some(refused)
    }
}

// ** runs

/// Whether the machine asks the run time, and a step is left for the answer.
fn is_asking(machine: &Machine<Plain>, limit: u64) -> bool
    ensures { result ≡ (is_look machine.now.state.place && nat_lt machine.now.taken limit) }
{
    is_look(machine.place()) && machine.taken() < limit
}

/// Runs up to a stop, and answers it if that needs no look.
fn run_part(space: &mut ThreadSpace, machine: &mut Machine<Plain>, limit: u64) -> Option<Ran>
    requires { machine.old.taken ≤ limit }
    ensures { RunsPart limit machine.old space.old result machine.new space.new }
{
    plain_is_clean();
    let stop = machine.run(space, limit);
    if is_asking(machine, limit) {
        answer_at_once(space, machine)
    } else {
        Some(Ran::Over(stop))
    }
}

/// Runs a thread's machine for at most `limit` steps, up to its end or to its next look. Questions about startup
/// images are answered on the way.
pub(crate) fn run_on(space: &mut ThreadSpace, machine: &mut Machine<Plain>, limit: u64) -> Ran
    requires { machine.old.taken ≤ limit }
    ensures { RunsOn limit machine.old space.old result machine.new space.new }
{
    loop {
        if let Some(ran) = run_part(space, machine, limit) {
            return ran;
        }
    }
}

// ** after a look

/// Answers the question after a look, with the thread's block of the instance that has the id now. If there is no
/// memory for the block, nothing has changed.
pub(crate) fn answer_asked(
    space: &mut ThreadSpace,
    machine: &mut Machine<Plain>,
    asked: Asked,
) -> Result<Resumed, AllocError>
    requires { machine.old.taken < 2 ^ 64 - 1 }
    ensures ok { IfOk result (λ resumed. Resumes machine.old space.old asked resumed machine.new space.new) }
    ensures err { OnErr result ((space.new ≡ space.old) × (machine.new ≡ machine.old)) }
{
    space.history_is_lawful();
    if space.numbered(asked.asking).is_none() {
        return Ok(Resumed::Unloaded);
    }
    let refused = Resumed::Stops(Stop::Address(machine.place()));
    let Some(instance) = space.with_id(asked.id) else {
        return Ok(refused);
    };
    space.reach(instance.number)?;
    Ok(if answer(space, machine, asked, &instance) {
        Resumed::Goes
    } else {
        refused
    })
}
