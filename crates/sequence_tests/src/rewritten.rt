//! Each row of the table of new bytes, in each register.
//!
//! A line has a register's number, the address of the site, that of the variable's word in the GOT (0 if none is
//! read), the site's bytes as GNU as 2.40 makes them from the psABI's text, and the bytes that GNU ld 2.40 leaves
//! there: for the program's own variable at offset 8 of a block of 20 bytes aligned to 8, so that it is at offset 8 -
//! 24 = -16 from the thread pointer, in digits f0 ff ff ff; or for a variable of a module.

use crate::sites::{Case, HERE, STARTUP, bytes, relink};
use link_faults::Binding;
use relax_sites::Choice;
use sequence_match::Form;
use std::alloc::{AllocError, Global};
use std::process::Abort;
use std::test::Fail;

/// The bytes around a site, which stay.
const AROUND: &[u8] = &[0x0f, 0x0b, 0x0f];

fn number(digits: Option<&str>) -> Result<u64, Fail> {
    let digits = digits.ok_or("a number")?;
    Ok(u64::from_str_radix(digits, 16).ok().ok_or("its digits")?)
}

/// A form, its symbol's binding, the choice, and lines of bytes.
type Row = (Form, Binding, Choice, &'static str);

/// A parsed line: the register, where the sequence and the entry of its variable lie, and its bytes before and after.
#[derive(Drop)]
struct Linked {
    reg: u64,
    address: u64,
    got: u64,
    before: Vec<u8>,
    after: Vec<u8>,
}

/// Parses a line.
fn linked_of(alloc: Global, line: &str) -> Result<Linked, Fail> {
    let mut columns = line.split_whitespace();
    let reg = number(columns.next())?;
    let address = number(columns.next())?;
    let got = number(columns.next())?;
    let before = bytes(alloc, columns.next().ok_or("the bytes of as")?)?;
    let after = bytes(alloc, columns.next().ok_or("the bytes of ld")?)?;
    Ok(Linked {
        reg,
        address,
        got,
        before,
        after,
    })
}

/// The bytes with other bytes around them.
fn framed(alloc: Global, bytes: &[u8]) -> Result<Vec<u8>, AllocError> {
    let mut framed = AROUND.to_vec(alloc)?;
    framed.extend_from_slice(bytes)?;
    framed.extend_from_slice(AROUND)?;
    Ok(framed)
}

/// Checks what the sequence of a line becomes.
fn line_becomes(rt: &impl Abort, alloc: Global, row: &Row, line: &str) -> Result<(), Fail> {
    let (form, binding, chosen, _) = *row;
    let linked = linked_of(alloc, line)?;
    let reg = linked.reg;
    assert!(rt; reg < 16, "{line}");
    let mut code = framed(alloc, linked.before.as_slice())?;
    let wanted = framed(alloc, linked.after.as_slice())?;
    let start = AROUND.len() as u64;
    let case = Case {
        form,
        binding,
        reg: reg as u8,
        start,
        address: linked.address.wrapping_sub(start),
        got: linked.got,
    };
    assert_eq!(rt; relink(rt, &mut code, case), chosen, "{line}");
    assert_eq!(rt; code.as_slice(), wanted.as_slice(), "{line}");
    Ok(())
}

/// Each line's bytes become what the line says, by the row's choice, and the bytes around them stay.
fn becomes(rt: &impl Abort, alloc: Global, row: &Row) -> Result<(), Fail> {
    for line in row.3.trim().lines() {
        line_becomes(rt, alloc, row, line)?;
    }
    Ok(())
}

/// The registers of mov x@gottpoff(%rip), %r, which becomes mov $x@tpoff, %r.
const MOVED: &str = "
0 401050 0 488b0500000000 48c7c0f0ffffff
1 401057 0 488b0d00000000 48c7c1f0ffffff
2 40105e 0 488b1500000000 48c7c2f0ffffff
3 401065 0 488b1d00000000 48c7c3f0ffffff
4 40106c 0 488b2500000000 48c7c4f0ffffff
5 401073 0 488b2d00000000 48c7c5f0ffffff
6 40107a 0 488b3500000000 48c7c6f0ffffff
7 401081 0 488b3d00000000 48c7c7f0ffffff
8 401088 0 4c8b0500000000 49c7c0f0ffffff
9 40108f 0 4c8b0d00000000 49c7c1f0ffffff
a 401096 0 4c8b1500000000 49c7c2f0ffffff
b 40109d 0 4c8b1d00000000 49c7c3f0ffffff
c 4010a4 0 4c8b2500000000 49c7c4f0ffffff
d 4010ab 0 4c8b2d00000000 49c7c5f0ffffff
e 4010b2 0 4c8b3500000000 49c7c6f0ffffff
f 4010b9 0 4c8b3d00000000 49c7c7f0ffffff
";

/// The registers of add x@gottpoff(%rip), %r, which becomes lea x@tpoff(%r), %r, or for %rsp and %r12 add $x@tpoff, %r.
const ADDED: &str = "
0 4010c0 0 48030500000000 488d80f0ffffff
1 4010c7 0 48030d00000000 488d89f0ffffff
2 4010ce 0 48031500000000 488d92f0ffffff
3 4010d5 0 48031d00000000 488d9bf0ffffff
4 4010dc 0 48032500000000 4881c4f0ffffff
5 4010e3 0 48032d00000000 488dadf0ffffff
6 4010ea 0 48033500000000 488db6f0ffffff
7 4010f1 0 48033d00000000 488dbff0ffffff
8 4010f8 0 4c030500000000 4d8d80f0ffffff
9 4010ff 0 4c030d00000000 4d8d89f0ffffff
a 401106 0 4c031500000000 4d8d92f0ffffff
b 40110d 0 4c031d00000000 4d8d9bf0ffffff
c 401114 0 4c032500000000 4981c4f0ffffff
d 40111b 0 4c032d00000000 4d8dadf0ffffff
e 401122 0 4c033500000000 4d8db6f0ffffff
f 401129 0 4c033d00000000 4d8dbff0ffffff
";

// mov %fs:0, %rax; lea x@tpoff(%rax), %rax
const OWN: &str = "0 401000 0 66488d3d00000000666648e800000000 64488b042500000000488d80f0ffffff";

const OWN_INDIRECT: &str =
    "0 401010 0 66488d3d000000006648ff1500000000 64488b042500000000488d80f0ffffff";

// mov %fs:0, %rax; add x@gottpoff(%rip), %rax
const MODULES: &str =
    "0 401130 402fe0 66488d3d00000000666648e800000000 64488b042500000000480305a01e0000";

const MODULES_INDIRECT: &str =
    "0 401140 402fe0 66488d3d000000006648ff1500000000 64488b042500000000480305901e0000";

// mov %fs:0, %rax
const BLOCK: &str = "0 401020 0 488d3d00000000e800000000 66666664488b042500000000";

const BLOCK_INDIRECT: &str = "0 401033 0 488d3d00000000ff1500000000 6666666664488b042500000000";

// mov $x@tpoff, %rax; mov x@gottpoff(%rip), %rax; xchg %ax, %ax
const OWN_DESCRIPTOR: &str = "0 401047 0 488d0500000000 48c7c0f0ffffff";

const MODULES_DESCRIPTOR: &str = "0 401150 402fe0 488d0500000000 488b05891e0000";

const CALL: &str = "0 40104e 0 ff10 6690";

#[test]
fn sites_become_what_ld_writes(rt: HostRuntime) -> Result<(), Fail> {
    let rows: [Row; 12] = [
        (Form::IeMov, HERE, Choice::IeLe, MOVED),
        (Form::IeAdd, HERE, Choice::IeLe, ADDED),
        (Form::Gd, HERE, Choice::GdLe, OWN),
        (Form::GdInd, HERE, Choice::GdLe, OWN_INDIRECT),
        (Form::Gd, STARTUP, Choice::GdIe, MODULES),
        (Form::GdInd, STARTUP, Choice::GdIe, MODULES_INDIRECT),
        (Form::Ld, HERE, Choice::LdLe, BLOCK),
        (Form::LdInd, HERE, Choice::LdLe, BLOCK_INDIRECT),
        (Form::DescLea, HERE, Choice::DescLe, OWN_DESCRIPTOR),
        (Form::DescLea, STARTUP, Choice::DescIe, MODULES_DESCRIPTOR),
        (Form::DescCall, HERE, Choice::DescLe, CALL),
        (Form::DescCall, STARTUP, Choice::DescIe, CALL),
    ];
    for row in &rows {
        becomes(&rt, rt.alloc(), row)?;
    }
    Ok(())
}
