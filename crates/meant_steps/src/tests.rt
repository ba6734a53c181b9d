//! Public calls on concrete bytes.

ghost use Rattle.std.specs.Prelude.{◌+◌, ◌-◌, ◌&&◌, [], nat_le, nat_lt, if◌then◌else◌};
ghost use Rattle.whole_meaning.specs.declared.marks.Mark.TheVariants.{Address, Offset, Usual};

use crate::{CallStack, Marks, asks, does, hide, hindrance, is_in_stack, own_touches, stops};
use amd64_subset::{Register, decode};
use guest_arithmetic::Cause;
use guest_machine::{Direction, Size, Touch};
use guest_operands::{State, Stop, start};
use job_meaning::{Block, Byte, Flag, MarkedValues, Token, Word};
use sequence_forms::Form;
use whole_meaning::{Mark, Sequence};

/// The address of instance 2's code.
const CODE: u64 = 0x1_0800_0000;

/// An offset field at an address, with the number 0x10.
#[derive(Drop)]
struct OffsetField {
    at: u64,
}

impl Marks for OffsetField {
    ghost mark = { λ s place.
        if nat_le s.at place && nat_lt (place - s.at) 4 then Offset 16 (place - s.at) else Usual };

    fn mark(&self, place: u64) -> Mark {
        if self.at <= place && place - self.at < 4 {
            return Mark::Offset(0x10, (place - self.at) as u8);
        }
        Mark::Usual
    }
}

/// An address field at an address, for a function at 0x401000, with an addend.
#[derive(Drop)]
struct AddressField {
    at: u64,
    addend: i64,
}

impl Marks for AddressField {
    ghost mark = { λ s place. if nat_le s.at place && nat_lt (place - s.at) 4
        then Address 0x401000 s.addend (place - s.at)
        else Usual };

    fn mark(&self, place: u64) -> Mark {
        if self.at <= place && place - self.at < 4 {
            return Mark::Address(0x40_1000, self.addend, (place - self.at) as u8);
        }
        Mark::Usual
    }
}

/// The base of thread 1's block of an instance, at 0x7000.
fn base(instance: u64) -> Word {
    Word::Marked(Token::Base(Block {
        thread: 1,
        instance,
        start: 0x7000,
    }))
}

/// A thread in instance 2's code, with its stack at 0x8010.
fn state(rax: Word) -> State<Word, Flag> {
    let none = Word::Number(0);
    let mut state = start::<MarkedValues>(CODE, 0x8010, none, none, none);
    state.registers.rax = rax;
    state.thread_pointer = 0x9000;
    state
}

#[test]
fn an_offset_field_is_added_to_a_base_of_the_codes_instance(rt: HostRuntime) {
    // lea x@dtpoff(%rax), %rdi; ret
    let lea = [0x48, 0x8d, 0xb8, 0, 0, 0, 0, 0xc3];
    for (rax, at, why) in [
        (base(2), 3, None),
        (base(3), 3, Some(Cause::Field)),
        (Word::Number(0x7000), 3, Some(Cause::Field)),
        (base(2), 2, Some(Cause::Field)),
        (base(2), 4, Some(Cause::Field)),
        (base(2), 8, None),
    ] {
        let marks = OffsetField { at: CODE + at };
        assert!(rt; hindrance(&marks, &state(rax), &lea) == why, "at {at}");
    }
    // add $x@dtpoff, %rbx, where %rbx holds 0
    let add = [0x48, 0x81, 0xc3, 0, 0, 0, 0];
    let marks = OffsetField { at: CODE + 3 };
    assert!(rt; hindrance(&marks, &state(base(2)), &add) == Some(Cause::Field));
}

#[test]
fn an_address_field_is_the_operand_that_is_read(rt: HostRuntime) {
    let at = CODE + 3;
    for (bytes, addend, why) in [
        // mov f@gotpcrel(%rip), %rax
        ([0x48, 0x8b, 5, 0, 0, 0, 0], -4, None),
        ([0x48, 0x8b, 5, 0, 0, 0, 0], 0, Some(Cause::Field)),
        // mov %rax, f@gotpcrel(%rip)
        ([0x48, 0x89, 5, 0, 0, 0, 0], -4, Some(Cause::Field)),
        // lea f@gotpcrel(%rip), %rax
        ([0x48, 0x8d, 5, 0, 0, 0, 0], -4, Some(Cause::Field)),
    ] {
        let marks = AddressField { at, addend };
        assert!(rt; hindrance(&marks, &state(base(2)), &bytes) == why);
    }
}

#[test]
fn a_call_by_an_address_field_pushes_and_loads_nothing(rt: HostRuntime) {
    // call *f@gotpcrel(%rip)
    let marks = AddressField {
        at: CODE + 2,
        addend: -4,
    };
    let touches = own_touches(&marks, &state(base(2)), &decode(&[0xff, 0x15, 0, 0, 0, 0]));
    let pushed = Touch {
        direction: Direction::Store,
        size: Size::Quad,
        address: 0x8008,
    };
    assert!(rt; touches.first.is_none());
    assert!(rt; touches.second == Some(pushed));
}

/// A stack of sixteen bytes from 0x8000 on.
#[derive(Drop)]
struct SmallStack {
    bytes: [Byte; 16],
}

impl CallStack for SmallStack {
    type Rest = ();

    ghost memory = { λ s. record { seen = []; stack = s.bytes; own = [] } };

    ghost start = { λ s. 0x8000 };

    ghost rest = { λ s. tt };

    fn holds(&self, place: u64) -> bool {
        is_in_stack(0x8000, &self.bytes, place)
    }

    fn forget(&mut self, place: u64) {
        hide(&mut self.bytes, place.saturating_sub(0x8000) as usize);
    }
}

/// A sequence for a variable at 0x20 in blocks of instance 2.
fn sequence(form: Form) -> Sequence {
    Sequence {
        form,
        next: CODE + 16,
        register: Register::Rcx,
        instance: 2,
        symbol: 7,
        target: 2,
        offset: 0x20,
    }
}

#[test]
fn sequences_find_their_variable(rt: HostRuntime) {
    for (form, rax, found) in [
        (Form::Gd, Word::Undefined, Word::Number(0x7020)),
        (Form::Ld, Word::Undefined, base(2)),
        // 0x7020 - 0x9000
        (
            Form::DescCall,
            Word::Marked(Token::Descriptor(2, 7)),
            Word::Number(0xffff_ffff_ffff_e020),
        ),
        (
            Form::DescLea,
            Word::Undefined,
            Word::Marked(Token::Descriptor(2, 7)),
        ),
    ] {
        let mut state = state(rax);
        let mut stack = SmallStack {
            bytes: [Byte::Value(1); 16],
        };
        let done = does(&sequence(form), 1, 0x7000, &mut state, &mut stack);
        assert!(rt; done.is_ok());
        assert!(rt; state.registers.rax == found);
        assert!(rt; state.place == CODE + 16);
        assert!(rt; (state.flags.zero == Flag::Unsettled) == asks(form));
        assert!(rt; (stack.bytes[15] == Byte::Hidden) == asks(form));
    }
}

#[test]
fn a_sum_leaves_flags_unknown(rt: HostRuntime) {
    let mut state = state(Word::Undefined);
    state.registers.rcx = Word::Number(0x9000);
    let mut stack = SmallStack {
        bytes: [Byte::Value(1); 16],
    };
    let done = does(&sequence(Form::IeAdd), 1, 0x7000, &mut state, &mut stack);
    assert!(rt; done.is_ok());
    assert!(rt; state.registers.rcx == Word::Number(0x7020));
    assert!(rt; state.flags.carry == Flag::Unsettled);
}

#[test]
fn a_sequence_with_no_meaning_stops(rt: HostRuntime) {
    for (form, rax, stack_pointer, why) in [
        (
            Form::DescCall,
            Word::Marked(Token::Descriptor(2, 8)),
            0x8010,
            Cause::Descriptor,
        ),
        (Form::DescCall, base(2), 0x8010, Cause::Base),
        (Form::Gd, Word::Undefined, 0x8007, Cause::Undefined),
        (Form::Gd, Word::Undefined, 0x8011, Cause::Undefined),
    ] {
        let mut state = state(rax);
        state.registers.rsp = Word::Number(stack_pointer);
        let mut stack = SmallStack {
            bytes: [Byte::Value(1); 16],
        };
        assert!(rt; stops(&sequence(form), &state, &stack) == Some(Stop::Unclean(CODE, why)));
        let done = does(&sequence(form), 1, 0x7000, &mut state, &mut stack);
        assert!(rt; done == Err(Stop::Unclean(CODE, why)));
    }
}
