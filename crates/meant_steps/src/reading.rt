//! Why bytes may not be decoded as an instruction, and which data an instruction touches.

ghost use Rattle.std.specs.Prelude.{◌≡◌, ℕ, ◌≤◌, ◌<◌, ◌-◌, ◌^◌, true, false, length, take, unwrap_or, if◌then◌else◌};
ghost use Rattle.amd64_subset.specs.Beginning.{begins_of};
ghost use Rattle.guest_arithmetic.specs.declared.cause.Cause.TheVariants.{Field};
ghost use Rattle.guest_operands.specs.Use.{plus};
ghost use Rattle.job_meaning.specs.Reading.{completed};
ghost use Rattle.whole_meaning.specs.Fields.{without_operand};
ghost use Rattle.whole_meaning.specs.Reading.{hindrance_of, first_hindrance, hindrance, own_touches};
ghost use Rattle.whole_meaning.specs.Threads.{ops};
ghost use Rattle.meant_steps.specs.Walks.{end_of, first_from, is_usual};

use crate::fields::{address_at, marked_frame, takes_address, takes_offset};
use crate::marks::Marks;
use amd64_subset::{Decoded, begins, decode};
use guest_arithmetic::Cause;
use guest_machine::{Touches, touches_of};
use guest_operands::State;
use job_meaning::{Flag, MarkedValues, Word};
use whole_meaning::Mark;

fn unless_taken(taken: bool) -> Option<Cause>
    ensures { result ≡ (if taken then None else Some Field) }
{
    if taken { None } else { Some(Cause::Field) }
}

fn is_usual(mark: Mark) -> bool
    ensures { result ≡ is_usual mark }
{
    match mark {
        Mark::Usual => true,
        Mark::Offset(_, _) | Mark::Address(_, _, _) | Mark::Inside => false,
    }
}

/// Why byte k of an instruction, which has this mark, may not be read.
fn hindrance_of<M: Marks>(
    marks: &M,
    state: &State<Word, Flag>,
    it: &Option<Decoded>,
    k: u8,
    mark: Mark,
) -> Option<Cause>
    ensures { result ≡ hindrance_of ops (M.mark marks.now) state.now it.now k mark }
{
    match (mark, it) {
        (Mark::Usual, _) => None,
        (Mark::Inside, _) => Some(Cause::Inside),
        (Mark::Offset(_, byte), Some(it)) => {
            unless_taken(byte <= k && takes_offset(marks, state, k - byte, it))
        }
        (Mark::Address(_, addend, byte), Some(it)) => {
            unless_taken(byte <= k && takes_address(addend, k - byte, it))
        }
        (Mark::Offset(_, _) | Mark::Address(_, _, _), None) => Some(Cause::Field),
    }
}

/// The instruction that the bytes spell, with zeros for missing ones.
#[tactic(auto, unfolding(job_meaning::specs::Reading::completed))]
fn completed(bytes: &[u8]) -> Option<Decoded>
    requires { length bytes.now ≤ 15 }
    ensures { result ≡ completed bytes.now }
{
    let mut whole = [0; 30];
    whole[..bytes.len()].copy_from_slice(bytes);
    decode(&whole[..bytes.len() + 15])
}

/// The offset of the first address with a mark that is not usual, among `count` from `place` on.
fn first_marked<M: Marks>(marks: &M, place: u64, count: u8) -> Option<u8>
    ensures usual { (j : ℕ) → j < unwrap_or result count → is_usual (M.mark marks.now (plus place j)) ≡ true }
    ensures marked { (k : ℕ) → result ≡ Some k → (k < count) × (is_usual (M.mark marks.now (plus place k)) ≡ false) }
{
    for k in 0..count {
        let mark = marks.mark(place.wrapping_add(u64::from(k)));
        if !is_usual(mark) {
            return Some(k);
        }
    }
    None
}

/// The first hindrance from byte k on, if the bytes spell an instruction: only its own bytes are read.
fn first_in<M: Marks>(
    marks: &M,
    state: &State<Word, Flag>,
    it: &Option<Decoded>,
    k: u8,
    end: u8,
) -> Option<Cause>
    ensures { result ≡ first_from (λ j. hindrance_of ops (M.mark marks.now) state.now it.now j
        (M.mark marks.now (plus state.now.place j))) k (end - k) }
{
    for at in k..end {
        let mark = marks.mark(state.place.wrapping_add(u64::from(at)));
        let why = hindrance_of(marks, state, it, at, mark);
        if why.is_some() {
            return why;
        }
    }
    None
}

/// The first hindrance from byte k on, which may be read and has a mark that is not usual.
fn hindrance_from<M: Marks>(
    marks: &M,
    state: &State<Word, Flag>,
    bytes: &[u8],
    k: u8,
) -> Option<Cause>
    requires few { length bytes.now ≤ 15 }
    requires low { state.now.place < 2 ^ 64 }
    requires at { k ≤ length bytes.now }
    requires begins { begins_of (take k bytes.now) ≡ true }
    requires marked { is_usual (M.mark marks.now (plus state.now.place k)) ≡ false }
    ensures { result ≡ first_hindrance ops (M.mark marks.now) state.now bytes.now k (length bytes.now - k) }
{
    let it = completed(bytes);
    let end = end_of(&it, k).min(bytes.len() as u8 + 1);
    first_in(marks, state, &it, k, end)
}

/// The end of the instruction. If there is none, byte k is the last one that is read.
fn end_of(it: &Option<Decoded>, k: u8) -> u8
    requires { k ≤ 15 }
    ensures { result ≡ end_of it.now k }
{
    match it {
        None => k + 1,
        Some(it) => it.len,
    }
}

/// The address of the thread's next instruction.
fn place_of(state: &State<Word, Flag>) -> u64
    ensures { result ≡ state.now.place }
{
    state.place
}

/// Why the bytes fetched at the thread's place may not be decoded as an instruction: the cause of the first byte, of
/// these or the one after them, that lies in a sequence, or in a field that the instruction may not cover.
#[tactic(auto, unfolding(whole_meaning::specs::Reading::hindrance))]
pub fn hindrance<M: Marks>(marks: &M, state: &State<Word, Flag>, bytes: &[u8]) -> Option<Cause>
    requires { length bytes.now ≤ 15 }
    ensures { result ≡ hindrance ops (M.mark marks.now) state.now bytes.now }
{
    let place = place_of(state);
    let k = first_marked(marks, place, bytes.len() as u8 + 1)?;
    if begins(&bytes[..usize::from(k)]) {
        return hindrance_from(marks, state, bytes, k);
    }
    None
}

/// The data accesses of the decoded instruction at the thread's place, except that to the operand which its address
/// field stands for.
pub fn own_touches<M: Marks>(marks: &M, state: &State<Word, Flag>, it: &Option<Decoded>) -> Touches
    ensures { result ≡ own_touches ops (M.mark marks.now) state.now it.now }
{
    match it {
        None => Touches {
            first: None,
            second: None,
        },
        Some(it) => {
            let frame = marked_frame(marks, state.place, it);
            let touches = touches_of::<MarkedValues>(&frame, state, &it.instr.operation);
            without_operand(address_at(marks, state.place, it.disp), touches)
        }
    }
}

fn without_operand(lent: Option<u64>, touches: Touches) -> Touches
    ensures { result ≡ without_operand lent touches }
{
    match lent {
        None => touches,
        Some(_) => Touches {
            first: None,
            second: touches.second,
        },
    }
}
