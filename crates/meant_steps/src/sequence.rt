//! Sequences: what each does to a thread's registers, and how much stack it needs.

ghost use Rattle.std.specs.Prelude.{◌≡◌, ℕ};
ghost use Rattle.std.specs.List.{list_all};
ghost use Rattle.guest_machine.specs.Touch.{places_from};
ghost use Rattle.guest_operands.specs.State.{at_place, with_word};
ghost use Rattle.guest_operands.specs.Use.{clean, left};
ghost use Rattle.guest_operands.specs.UseLaws.{Leaves};
ghost use Rattle.job_meaning.specs.declared.values.Token.TheVariants.{Base};
ghost use Rattle.job_meaning.specs.declared.values.Word.TheVariants.{Marked};
ghost use Rattle.whole_meaning.specs.Sequences.{asks, after_call, called_with, added, descriptor_called, descriptor_use, sequence_result, stack_use, variable_address, variable_distance, without_flags};
ghost use Rattle.meant_steps.specs.Stacks.{stack_from, stop_of};

use crate::stack::CallStack;
use amd64_words::Register;
use guest_arithmetic::{Cause, Flags, Values, both};
use guest_operands::{State, Stop, register, set_register, used};
use job_meaning::{Block, Flag, MarkedValues, Token, Word};
use sequence_forms::Form;
use whole_meaning::Sequence;

/// Whether the form calls the run time, and looks if its variable's instance is not a startup one.
pub fn asks(form: Form) -> bool
    ensures { result ≡ asks form }
{
    match form {
        Form::Gd | Form::GdInd | Form::Ld | Form::LdInd | Form::DescCall => true,
        Form::IeMov | Form::IeAdd | Form::DescLea => false,
    }
}

/// Whether `size` bytes from `place` on all lie on the stack.
fn holds_all<S: CallStack>(stack: &S, place: u64, size: u8) -> bool
    ensures { result ≡ list_all ((stack_from (S.start stack.now)).holds (S.memory stack.now)) (places_from place size) }
{
    size == 0 || (stack.holds(place) && holds_all(stack, place.wrapping_add(1), size - 1))
}

/// %rsp, with eight bytes of stack below it for a return address.
#[tactic(auto, unfolding(job_meaning::specs::Marked::marked_operations))]
fn stack_use<S: CallStack>(state: &State<Word, Flag>, stack: &S) -> Result<u64, Cause>
    ensures { result ≡ stack_use (stack_from (S.start stack.now)) state.now (S.memory stack.now) }
{
    let below = MarkedValues::number_of(state.registers.rsp)?;
    if holds_all(stack, below.wrapping_sub(8), 8) {
        return Ok(below);
    }
    Err(Cause::Undefined)
}

/// Checks that %rax holds the descriptor of this instance and symbol.
fn descriptor_use(sequence: &Sequence, word: Word) -> Result<(), Cause>
    ensures { result ≡ descriptor_use sequence.now word }
{
    match word {
        Word::Number(_) => Err(Cause::Descriptor),
        Word::Undefined => Err(Cause::Undefined),
        Word::Marked(Token::Base(_)) => Err(Cause::Base),
        Word::Marked(Token::Descriptor(instance, symbol)) => {
            if instance == sequence.instance && symbol == sequence.symbol {
                Ok(())
            } else {
                Err(Cause::Descriptor)
            }
        }
    }
}

/// Makes the flags unknown.
fn forget_flags(state: &mut State<Word, Flag>)
    ensures { state.new ≡ without_flags state.old }
{
    state.flags = Flags {
        zero: Flag::Unsettled,
        sign: Flag::Unsettled,
        carry: Flag::Unsettled,
        overflow: Flag::Unsettled,
    };
}

/// Makes the registers unknown that a call leaves so to its caller (psABI, "Registers and the Stack Frame"), and the
/// flags.
fn forget_after_call(state: &mut State<Word, Flag>)
    ensures { state.new ≡ after_call state.old }
{
    let registers = &mut state.registers;
    registers.rcx = Word::Undefined;
    registers.rdx = Word::Undefined;
    registers.rsi = Word::Undefined;
    registers.rdi = Word::Undefined;
    registers.r8 = Word::Undefined;
    registers.r9 = Word::Undefined;
    registers.r10 = Word::Undefined;
    registers.r11 = Word::Undefined;
    forget_flags(state);
}

/// The variable's address, if the thread's block begins at `start`.
fn variable_address(sequence: &Sequence, start: u64) -> u64
    ensures { result ≡ variable_address sequence.now start }
{
    start.wrapping_add(sequence.offset)
}

/// The variable's distance from the thread pointer.
fn variable_distance(sequence: &Sequence, start: u64, pointer: u64) -> u64
    ensures { result ≡ variable_distance sequence.now start pointer }
{
    variable_address(sequence, start).wrapping_sub(pointer)
}

/// The base of the thread's block of the code's own instance.
fn own_base(sequence: &Sequence, thread: u64, start: u64) -> Word
    ensures { result ≡ Marked (Base (record { thread = thread; instance = sequence.now.instance; start = start })) }
{
    Word::Marked(Token::Base(Block {
        thread,
        instance: sequence.instance,
        start,
    }))
}

/// Does a call that returns the word.
fn called_with<S: CallStack>(
    sequence: &Sequence,
    word: Word,
    state: &mut State<Word, Flag>,
    stack: &mut S,
) -> Result<(), Stop>
    ensures does { (thread start : ℕ) → Leaves result (left state.old (S.memory stack.old))
        (left state.new (S.memory stack.new))
        (called_with (stack_from (S.start stack.old)) sequence.now thread start word state.old (S.memory stack.old)) }
    ensures start { S.start stack.new ≡ S.start stack.old }
    ensures rest { S.rest stack.new ≡ S.rest stack.old }
{
    let below = used(state.place, stack_use(state, stack))?;
    stack.forget(below);
    forget_after_call(state);
    state.registers.rax = word;
    state.place = sequence.next;
    Ok(())
}

/// Does the call of a descriptor, which returns the distance.
fn descriptor_called<S: CallStack>(
    sequence: &Sequence,
    start: u64,
    state: &mut State<Word, Flag>,
    stack: &mut S,
) -> Result<(), Stop>
    ensures does { (thread : ℕ) → Leaves result (left state.old (S.memory stack.old))
        (left state.new (S.memory stack.new))
        (descriptor_called (stack_from (S.start stack.old)) sequence.now thread start state.old (S.memory stack.old)) }
    ensures start { S.start stack.new ≡ S.start stack.old }
    ensures rest { S.rest stack.new ≡ S.rest stack.old }
{
    let uses = both(
        descriptor_use(sequence, state.registers.rax),
        stack_use(state, stack),
    );
    let ((), below) = used(state.place, uses)?;
    stack.forget(below);
    forget_flags(state);
    state.registers.rax = Word::Number(variable_distance(sequence, start, state.thread_pointer));
    state.place = sequence.next;
    Ok(())
}

/// Adds the distance to a register.
#[tactic(auto, unfolding(job_meaning::specs::Marked::marked_operations))]
fn add_distance<S: CallStack>(
    sequence: &Sequence,
    start: u64,
    state: &mut State<Word, Flag>,
    stack: &S,
) -> Result<(), Stop>
    ensures { (thread : ℕ) → Leaves result (left state.old (S.memory stack.now)) (left state.new (S.memory stack.now))
        (added (stack_from (S.start stack.now)) sequence.now thread start state.old (S.memory stack.now)) }
{
    let number = used(
        state.place,
        MarkedValues::number_of(register(&state.registers, sequence.register)),
    )?;
    let distance = variable_distance(sequence, start, state.thread_pointer);
    set_register(
        &mut state.registers,
        sequence.register,
        Word::Number(number.wrapping_add(distance)),
    );
    forget_flags(state); // a linker may make it lea, which sets no flag
    state.place = sequence.next;
    Ok(())
}

/// Loads a register with a word.
fn put(state: &mut State<Word, Flag>, register: Register, word: Word, next: u64)
    ensures { state.new ≡ at_place (with_word state.old register word) next }
{
    set_register(&mut state.registers, register, word);
    state.place = next;
}

/// Does a sequence to a thread's registers and stack, without a look.
///
/// `thread` is the thread's number, and `start` is the address of its block of the target's instance. An error is the
/// stop of a sequence that has no meaning here; it changes nothing.
#[tactic(auto, unfolding(whole_meaning::specs::Sequences::sequence_result, guest_operands::specs::State::with_register))]
pub fn does<S: CallStack>(
    sequence: &Sequence,
    thread: u64,
    start: u64,
    state: &mut State<Word, Flag>,
    stack: &mut S,
) -> Result<(), Stop>
    ensures does { Leaves result (left state.old (S.memory stack.old)) (left state.new (S.memory stack.new))
        (sequence_result (stack_from (S.start stack.old)) sequence.now thread start state.old (S.memory stack.old)) }
    ensures start { S.start stack.new ≡ S.start stack.old }
    ensures rest { S.rest stack.new ≡ S.rest stack.old }
{
    let distance = Word::Number(variable_distance(sequence, start, state.thread_pointer));
    match sequence.form {
        Form::Gd | Form::GdInd => {
            let address = variable_address(sequence, start);
            called_with(sequence, Word::Number(address), state, stack)
        }
        Form::Ld | Form::LdInd => {
            let base = own_base(sequence, thread, start);
            called_with(sequence, base, state, stack)
        }
        Form::IeMov => {
            put(state, sequence.register, distance, sequence.next);
            Ok(())
        }
        Form::IeAdd => add_distance(sequence, start, state, stack),
        Form::DescLea => {
            let descriptor = Token::Descriptor(sequence.instance, sequence.symbol);
            put(
                state,
                Register::Rax,
                Word::Marked(descriptor),
                sequence.next,
            );
            Ok(())
        }
        Form::DescCall => descriptor_called(sequence, start, state, stack),
    }
}

/// The stop of a use by the instruction at an address, if the use fails.
fn stop_at<A: Copy>(here: u64, answer: Result<A, Cause>) -> Option<Stop>
    ensures { result ≡ stop_of (clean here answer) }
{
    match answer {
        Ok(_) => None,
        Err(why) => Some(Stop::Unclean(here, why)),
    }
}

/// Why a sequence has no meaning where the thread is, if it has none: the error that [`does`] would return. A look is
/// made only if there is none, and changes nothing.
#[tactic(auto, unfolding(whole_meaning::specs::Sequences::sequence_result, job_meaning::specs::Marked::marked_operations))]
pub fn stops<S: CallStack>(
    sequence: &Sequence,
    state: &State<Word, Flag>,
    stack: &S,
) -> Option<Stop>
    ensures { (thread start : ℕ) → result ≡ stop_of
        (sequence_result (stack_from (S.start stack.now)) sequence.now thread start state.now (S.memory stack.now)) }
{
    match sequence.form {
        Form::Gd | Form::GdInd | Form::Ld | Form::LdInd => {
            stop_at(state.place, stack_use(state, stack))
        }
        Form::IeAdd => {
            let number = MarkedValues::number_of(register(&state.registers, sequence.register));
            stop_at(state.place, number)
        }
        Form::DescCall => {
            let descriptor = descriptor_use(sequence, state.registers.rax);
            stop_at(state.place, both(descriptor, stack_use(state, stack)))
        }
        Form::IeMov | Form::DescLea => None,
    }
}
