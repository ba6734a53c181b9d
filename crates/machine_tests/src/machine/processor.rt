//! The machine against the processor.

use super::rows::{ROWS_1, ROWS_2, ROWS_3, ROWS_4};
use super::{RUNNABLE, WRITABLE, add};
use guest_arithmetic::Plain;
use guest_machine::{Machine, RETURN, Size, Space, Stop};
use guest_memory::{GuestMemory, GuestRange};
use std::alloc::{AllocError, Global};
use std::process::Abort;
use std::test::Fail;

const CODE: u64 = 0x1000_0000;

const DATA: u64 = 0x2000_0000;

const STACK: u64 = 0x3000_0000;

const TOP: u64 = STACK + 4096 - 64;

/// A digit's value; a text that is no number gives some number.
fn digit(byte: u8) -> u8 {
    match byte {
        b'0'..=b'9' => byte - b'0',
        b'a'..=b'f' => byte - b'a' + 10,
        _ => 0,
    }
}

fn number(word: Option<&str>) -> u64 {
    let mut number = 0u64;
    for byte in word.unwrap_or("").as_bytes() {
        number = number
            .wrapping_mul(16)
            .wrapping_add(u64::from(digit(*byte)));
    }
    number
}

fn bytes(alloc: Global, word: Option<&str>) -> Result<Vec<u8>, AllocError> {
    let mut bytes = Vec::new(alloc);
    for pair in word.unwrap_or("").as_bytes().chunks(2) {
        let mut byte = 0u8;
        for half in pair {
            byte = byte.wrapping_mul(16).wrapping_add(digit(*half));
        }
        bytes.push(byte)?;
    }
    Ok(bytes)
}

/// A memory as the program that made the rows has it.
fn memory(alloc: Global, code: Vec<u8>, word: u64) -> Result<GuestMemory<u8>, &'static str> {
    let mut memory = GuestMemory::new(alloc);
    let data = word.to_le_bytes().to_vec(alloc).ok().ok_or("memory")?;
    let mut stack = vec![in alloc; 0u8; 4096].ok().ok_or("memory")?;
    stack[4096 - 64 + 1] = 0x20;
    add(&mut memory, GuestRange::new(CODE, code, RUNNABLE))?;
    add(&mut memory, GuestRange::new(DATA, data, WRITABLE))?;
    add(&mut memory, GuestRange::new(STACK, stack, WRITABLE))?;
    Ok(memory)
}

/// A machine as the program that made the rows starts it.
fn machine(rax: u64, rcx: u64, flags: u64) -> Machine<Plain> {
    let mut machine = Machine::start(CODE, TOP, 0, 0, 0);
    for register in 0..16 {
        machine.set_register(register, 0x0101_0101_0101_0101 * u64::from(register));
    }
    machine.set_register(0, rax);
    machine.set_register(1, rcx);
    machine.set_register(3, DATA);
    machine.set_register(4, TOP);
    machine.set_flags(
        flags & 2 != 0,
        flags & 4 != 0,
        flags & 1 != 0,
        flags & 8 != 0,
    );
    machine
}

fn few(machine: &Machine<Plain>) -> u64 {
    let flags = machine.flags();
    u64::from(flags.carry)
        + 2 * u64::from(flags.zero)
        + 4 * u64::from(flags.sign)
        + 8 * u64::from(flags.overflow)
}

/// What a call leaves of what rows change: %rax as it is returned, %rcx, %rdx, the word of memory, and these flags.
fn left(
    machine: &Machine<Plain>,
    memory: &GuestMemory<u8>,
    stop: Stop,
    defined: u64,
) -> Option<[u64; 5]> {
    let Stop::Returned(rax) = stop else {
        return None;
    };
    let word = <GuestMemory<u8> as Space<Plain>>::load(memory, DATA, Size::Quad)?;
    Some([
        rax,
        machine.register(1),
        machine.register(2),
        word,
        few(machine) & defined,
    ])
}

/// Whether the registers that no row changes are kept, and %rsp is 8 above.
fn others_kept(machine: &Machine<Plain>) -> bool {
    let mut kept = [machine.place(), machine.register(3), machine.register(4)]
        == [RETURN, DATA, TOP + 8];
    for register in 5..16 {
        kept = kept && machine.register(register) == 0x0101_0101_0101_0101 * u64::from(register);
    }
    kept
}

/// The numbers of a line: behind its code the registers %rax and %rcx, the word of memory, the flags, and which flags
/// are defined; then what the call leaves of the same, with %rdx behind %rcx.
fn numbers(line: &str) -> [u64; 11] {
    let mut numbers = [0; 11];
    for (index, word) in line.split_whitespace().enumerate() {
        if index < 11 {
            numbers[index] = number(Some(word));
        }
    }
    numbers
}

/// One line: whether its code, run from what stands before, leaves what stands behind.
fn runs(alloc: Global, line: &str) -> Result<bool, Fail> {
    let row = numbers(line);
    let code = bytes(alloc, line.split_whitespace().next())?;
    let mut memory = memory(alloc, code, row[3])?;
    let mut machine = machine(row[1], row[2], row[4]);
    let stop = machine.run(&mut memory, 64);
    let wanted = [row[6], row[7], row[8], row[9], row[10] & row[5]];
    Ok(left(&machine, &memory, stop, row[5]) == Some(wanted) && others_kept(&machine))
}

/// One line of a jump: whether it is taken in those of the sixteen states of the flags that the line says.
fn jumps(alloc: Global, line: &str) -> Result<bool, Fail> {
    let mut words = line.split_whitespace().skip(1);
    let code = words.next();
    let taken = number(words.next());
    let mut all = true;
    for flags in 0..16u64 {
        let mut memory = memory(alloc, bytes(alloc, code)?, 0)?;
        let stop = machine(0, 0, flags).run(&mut memory, 64);
        all = all && stop == Stop::Returned((taken >> flags) & 1);
    }
    Ok(all)
}

/// Whether a line is as the processor left it.
fn holds(alloc: Global, line: &str) -> Result<bool, Fail> {
    if line.starts_with("taken") {
        jumps(alloc, line)
    } else if line.is_empty() {
        Ok(true)
    } else {
        runs(alloc, line)
    }
}

fn run_rows(rt: &impl Abort, alloc: Global, rows: &str) -> Result<(), Fail> {
    for line in rows.lines() {
        assert!(rt; holds(alloc, line)?, "{line}");
    }
    Ok(())
}

#[test]
fn rows_as_the_processor(rt: HostRuntime) -> Result<(), Fail> {
    for rows in [ROWS_1, ROWS_2, ROWS_3, ROWS_4] {
        run_rows(&rt, rt.alloc(), rows)?;
    }
    Ok(())
}
