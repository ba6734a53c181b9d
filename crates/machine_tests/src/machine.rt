//! Calls that the machine runs over a memory of ranges, and how they stop.

mod processor;
mod rows;

use guest_arithmetic::Plain;
use guest_machine::{GET_ADDRESS, Machine, RETURN, Space, Stop};
use guest_memory::{GuestMemory, GuestRange, Rights};
use std::alloc::Global;
use std::process::Abort;
use std::test::Fail;

const CODE: u64 = 0x40_0000;

const STACK: u64 = 0x7f_0000;

const RUNNABLE: Rights = Rights {
    readable: true,
    writable: false,
    runnable: true,
};

const WRITABLE: Rights = Rights {
    readable: true,
    writable: true,
    runnable: false,
};

fn add(memory: &mut GuestMemory<u8>, range: GuestRange<u8>) -> Result<(), &'static str> {
    memory.add_range(range).ok().ok_or("memory")
}

/// A memory with code, and a stack that holds the return address 0x2000, a word after it and room below it.
fn with_code(alloc: Global, code: Vec<u8>) -> Result<GuestMemory<u8>, Fail> {
    let mut memory = GuestMemory::new(alloc);
    add(&mut memory, GuestRange::new(CODE, code, RUNNABLE))?;
    let stack = [0, 0x20, 0, 0, 0, 0, 0, 0, 0xe9, 1, 2, 3, 4, 5, 6, 7].to_vec(alloc)?;
    add(&mut memory, GuestRange::new(STACK, stack, WRITABLE))?;
    let below = [0; 8].to_vec(alloc)?;
    add(&mut memory, GuestRange::new(STACK - 8, below, WRITABLE))?;
    Ok(memory)
}

/// Each line: code, its address, its first two arguments (the third is 7) and its limit of steps; then how it stops,
/// and after how many steps. The thread pointer is the stack's address.
const RUNS: &str = "\
// mov %fs:8, %rax; ret: the word 0x7060504030201e9
64488b042508000000c3 400000 3 5 4: Returned(506097522914230761) after 2
// xor %eax, %eax; 1: add %rdi, %rax; sub $1, %rdi; jne 1b; ret: 4 + 3 + 2 + 1, in 1 + 3 * 4 + 1 steps
31c04801f84883ef0175f7c3 400000 4 0 c: Steps(4194313) after 12
31c04801f84883ef0175f7c3 400000 4 0 e: Returned(10) after 14
// mov (%rdi), %rax; mov %rax, (%rdi); ud2: an address that can't be read, one that can't be written, no instruction,
// no code
488b074889070f0b 400000 7f0009 0 9: Address(4194304) after 0
488b074889070f0b 400000 400000 0 9: Address(4194307) after 1
488b074889070f0b 400000 7f0000 0 9: Code(4194310) after 2
488b074889070f0b 7f0000 0 0 9: Code(8323072) after 0
";

/// The number that a word spells in hexadecimal digits, or 0 if there is none.
fn number(word: Option<&str>) -> u64 {
    u64::from_str_radix(word.unwrap_or(""), 16).unwrap_or(0)
}

/// A memory with the code of these hexadecimal digits.
fn with_digits(alloc: Global, digits: Option<&str>) -> Result<GuestMemory<u8>, Fail> {
    let digits = digits.ok_or("digits")?;
    with_code(alloc, hex::decode(alloc, digits).ok().ok_or("digits")?)
}

/// How a call stops, in the words of the table.
fn stopped(alloc: Global, call: &str) -> Result<String, Fail> {
    let mut words = call.split(' ');
    let mut memory = with_digits(alloc, words.next())?;
    let start = number(words.next());
    let first = number(words.next());
    let mut machine: Machine<Plain> = Machine::start(start, STACK, first, number(words.next()), 7);
    machine.set_thread_pointer(STACK);
    let stop = machine.run(&mut memory, number(words.next()).min(100));
    let taken = machine.taken();
    Ok(format!(in alloc; "{stop:?} after {taken}")?)
}

/// Checks that a test finds what it wants.
fn same(rt: &impl Abort, found: &str, want: &str, at: &str) {
    assert!(rt; found == want, "{found}: {at}");
}

/// What a row asks: the accesses of an instruction, or how a call stops.
fn answer(alloc: Global, row: &str) -> Result<String, Fail> {
    match row.strip_prefix("touches ") {
        Some(digits) => touched(alloc, digits),
        None => stopped(alloc, row),
    }
}

/// Checks each row of a table but its comments.
fn check(rt: &impl Abort, alloc: Global, table: &str) -> Result<(), Fail> {
    for line in table.lines() {
        if !line.starts_with("//") {
            let (row, want) = line.split_once(": ").ok_or("an answer")?;
            same(rt, answer(alloc, row)?.as_str(), want, line);
        }
    }
    Ok(())
}

#[test]
fn calls_stop(rt: HostRuntime) -> Result<(), Fail> {
    check(&rt, rt.alloc(), RUNS)
}

#[test]
fn a_look_and_its_answer(rt: HostRuntime) -> Result<(), Fail> {
    // call 0x1000 from 0x400000; ret
    let mut memory = with_digits(rt.alloc(), Some("e8fb0fc0ffc3"))?;
    let mut machine: Machine<Plain> = Machine::start(CODE, STACK, 0, 0, 0);
    assert!(rt; machine.run(&mut memory, 9) == Stop::Look(GET_ADDRESS));
    assert!(rt; machine.answer(&mut memory, 0x77));
    assert!(rt; machine.run(&mut memory, 9) == Stop::Returned(0x77));
    assert!(rt; [machine.taken(), machine.place()] == [3, RETURN]);
    Ok(())
}

#[test]
fn fields_are_told(rt: HostRuntime) -> Result<(), Fail> {
    let mut memory: GuestMemory<u8> = GuestMemory::new(rt.alloc());
    memory.add_field(CODE + 3).ok().ok_or("memory")?;
    assert!(rt; <GuestMemory<u8> as Space<Plain>>::is_field(&memory, CODE + 3));
    assert!(rt; !<GuestMemory<u8> as Space<Plain>>::is_field(&memory, CODE + 4));
    Ok(())
}

/// The accesses of the instruction with these digits, in a call with 3, 5 and 7.
fn touched(alloc: Global, digits: &str) -> Result<String, Fail> {
    let memory = with_digits(alloc, Some(digits))?;
    let machine: Machine<Plain> = Machine::start(CODE, STACK, 3, 5, 7);
    let touches = machine.touches(&memory);
    Ok(format!(in alloc; "{touches:?}")?)
}

/// Each line: an instruction, and its accesses in a call with 3, 5 and 7.
const TOUCHED: &str = "\
// call *8(%rdi): its target is loaded, then the return address is pushed
touches ff5708: Touches { first: Some(Touch { direction: Load, size: Quad, address: 11 }), second: Some(Touch { direction: Store, size: Quad, address: 8323064 }) }
// mov %ecx, (%rsi)
touches 890e: Touches { first: Some(Touch { direction: Store, size: Long, address: 5 }), second: None }
// lea (%rsi), %rax, and no instruction
touches 488d06: Touches { first: None, second: None }
touches 0fffff: Touches { first: None, second: None }
";

#[test]
fn what_is_touched(rt: HostRuntime) -> Result<(), Fail> {
    check(&rt, rt.alloc(), TOUCHED)
}
