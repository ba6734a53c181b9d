//! Reads an instruction from left to right, and says whether bytes too few for one may become one.

ghost use Rattle.std.specs.Prelude.{◌≡◌, ◌≤◌, ◌↔◌, ℕ, Some, IfSome, IsTrue, take, length};
ghost use Rattle.amd64_subset.specs.Reading.{Gives};
ghost use Rattle.amd64_subset.specs.declared.instr.Decoded.{Decoded};
ghost use Rattle.amd64_subset.specs.Beginning.{begins_of};
ghost use Rattle.amd64_subset.specs.BeginningLaws.{BeginsSpelling};
ghost use Rattle.amd64_subset.specs.Spelling.{Spells, IsPlaced};
ghost use Rattle.amd64_subset.specs.Decoding.{accepted_at, end_branch_at, escaped_at, row_at, operated_at, body_at};
ghost use Rattle.amd64_subset.specs.Decoding.{instruction_at, before, decoded};

use crate::fault::Fault;
use crate::instr::{Decoded, Operation};
use crate::meaning::{Body, alone_body, numbered_body, operand_body, width};
use crate::numbers::read_numbers;
use crate::prefix::{Prefixes, read_prefixes};
use crate::row::{Row, escaped_row, opcode_row};
use crate::selectors::read_selectors;
use amd64_words::Size;

/// The row that an opcode names, if it may follow these prefixes.
fn accepted(prefixes: Prefixes, row: Option<Row>, rest: &[u8]) -> Result<(Row, &[u8]), Fault>
    ensures { Gives (λ x. (x.0, x.1.now)) result (accepted_at prefixes row rest.now) }
{
    match row {
        Some(row) if row.takes(prefixes) => Ok((row, rest)),
        _ => Err(Fault::Wrong),
    }
}

/// Reads the three bytes after f3 in endbr64.
#[tactic(auto, unfolding(crate::specs::Decoding::end_branch_at))]
fn read_end_branch(prefixes: Prefixes, bytes: &[u8]) -> Result<(Row, &[u8]), Fault>
    ensures { Gives (λ x. (x.0, x.1.now)) result (end_branch_at prefixes bytes.now) }
{
    if !Row::EndBranch.takes(prefixes) {
        return Err(Fault::Wrong);
    }
    match bytes {
        [] => Err(Fault::Short(3)),
        [0x0f] => Err(Fault::Short(2)),
        [0x0f, 0x1e] => Err(Fault::Short(1)),
        [0x0f, 0x1e, 0xfa, rest @ ..] => Ok((Row::EndBranch, rest)),
        _ => Err(Fault::Wrong),
    }
}

/// Reads an opcode's byte after 0f.
#[tactic(auto, unfolding(crate::specs::Decoding::escaped_at))]
fn read_escaped(prefixes: Prefixes, bytes: &[u8]) -> Result<(Row, &[u8]), Fault>
    ensures { Gives (λ x. (x.0, x.1.now)) result (escaped_at prefixes bytes.now) }
{
    match bytes {
        [] => Err(Fault::Short(prefixes.least_escaped())),
        [opcode, rest @ ..] => accepted(prefixes, escaped_row(*opcode), rest),
    }
}

/// Reads an opcode, except for the part of it that ModRM holds.
#[tactic(auto, unfolding(crate::specs::Decoding::row_at))]
fn read_row(prefixes: Prefixes, bytes: &[u8]) -> Result<(Row, &[u8]), Fault>
    ensures { Gives (λ x. (x.0, x.1.now)) result (row_at prefixes bytes.now) }
{
    match bytes {
        [] => Err(Fault::Short(prefixes.least_opcode())),
        [0x0f, rest @ ..] => read_escaped(prefixes, rest),
        [0xf3, rest @ ..] => read_end_branch(prefixes, rest),
        [opcode, rest @ ..] => accepted(prefixes, opcode_row(prefixes.bits(), *opcode), rest),
    }
}

/// Reads ModRM and what follows it.
#[tactic(auto, unfolding(crate::specs::Decoding::operated_at))]
fn read_operated(
    prefixes: Prefixes,
    row: Row,
    size: Size,
    bytes: &[u8],
) -> Result<(Body, &[u8]), Fault>
    ensures { Gives (λ x. (x.0, x.1.now)) result (operated_at prefixes row size bytes.now) }
{
    let ((action, selectors), rest) = read_selectors(prefixes, row, size, bytes)?;
    let (numbers, rest) = read_numbers(selectors.displacement_size(), size, rest)?;
    Ok((
        operand_body(action, prefixes, selectors, size, numbers),
        rest,
    ))
}

/// Reads what follows an opcode.
#[tactic(auto, unfolding(crate::specs::Decoding::body_at))]
fn read_body(prefixes: Prefixes, row: Row, bytes: &[u8]) -> Result<(Body, &[u8]), Fault>
    ensures { Gives (λ x. (x.0, x.1.now)) result (body_at prefixes row bytes.now) }
{
    match row {
        Row::Alone(operation) => Ok((alone_body(operation), bytes)),
        Row::Nop | Row::EndBranch => { Ok((alone_body(Operation::Nop { operand: None }), bytes)) }
        Row::Number(action, size) => {
            let (numbers, rest) = read_numbers(Size::Zero, size, bytes)?;
            let body = numbered_body(action, width(prefixes), size, numbers.immediate);
            Ok((body, rest))
        }
        Row::Register(_) => read_operated(prefixes, row, Size::Zero, bytes),
        Row::Group(_, size) => read_operated(prefixes, row, size, bytes),
    }
}

/// Reads one instruction, of any length.
#[tactic(auto, unfolding(crate::specs::Decoding::instruction_at))]
fn read_instruction(bytes: &[u8]) -> Result<(Body, &[u8]), Fault>
    ensures { Gives (λ x. (x.0, x.1.now)) result (instruction_at bytes.now) }
{
    let (prefixes, rest) = read_prefixes(bytes)?;
    let (row, rest) = read_row(prefixes, rest)?;
    read_body(prefixes, row, rest)
}

/// The first 15 bytes: no instruction is longer.
fn longest(bytes: &[u8]) -> &[u8]
    ensures value { result.now ≡ take 15 bytes.now }
    ensures bound { length result.now ≤ 15 }
{
    if bytes.len() > 15 {
        &bytes[..15]
    } else {
        bytes
    }
}

/// Where a field begins that starts `back` bytes before `end`.
fn before(end: u8, back: Option<u8>) -> Option<u8>
    ensures { result ≡ before end back }
{
    match back {
        None => None,
        Some(back) => Some(end.saturating_sub(back)),
    }
}

/// Reads the instruction at the front of the bytes.
#[tactic(auto, unfolding(crate::specs::Decoding::decoded))]
fn read(bytes: &[u8]) -> Option<Decoded>
    ensures { result ≡ decoded bytes.now }
{
    let bytes = longest(bytes);
    match read_instruction(bytes) {
        Err(_) => None,
        Ok((body, rest)) => {
            let len = bytes.len().saturating_sub(rest.len()) as u8;
            Some(Decoded {
                instr: body.instr,
                len,
                disp: before(len, body.disp),
                imm: before(len, body.imm),
            })
        }
    }
}

/// Decodes the instruction at the front of the bytes. `None` exactly if no spelling of one stands there.
pub fn decode(bytes: &[u8]) -> Option<Decoded>
    // The bytes that it takes spell it.
    ensures found { IfSome result (λ d. Spells (take d.len bytes.now) d) }
    // If a front of the bytes spells an instruction, that one is decoded.
    ensures only { (n : ℕ) (d : Decoded) → Spells (take n bytes.now) d → result ≡ Some d }
    // It has 1 to 15 bytes, all of them present, and its fields lie in them.
    ensures length { IfSome result (λ d. d.len ≤ length bytes.now) }
    ensures inside { IfSome result IsPlaced }
    // The same as a function of the list.
    ensures exact { result ≡ decoded bytes.now }
{
    read(bytes)
}

/// Whether the bytes are too few for an instruction, and some more would complete one.
#[tactic(auto, unfolding(crate::specs::Beginning::begins_of))]
fn lacks_some(bytes: &[u8]) -> bool
    ensures { result ≡ begins_of bytes.now }
{
    if bytes.len() >= 15 {
        return false;
    }
    match read_instruction(bytes) {
        Err(Fault::Short(missing)) => bytes.len() + missing as usize <= 15,
        _ => false,
    }
}

/// Whether the bytes are a proper prefix of a spelling.
pub fn begins(bytes: &[u8]) -> bool
    // Some more bytes complete a spelling.
    ensures exactly { IsTrue result ↔ BeginsSpelling bytes.now }
    // The same as a function of the list.
    ensures exact { result ≡ begins_of bytes.now }
{
    lacks_some(bytes)
}
