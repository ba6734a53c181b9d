//! What a linker does at one site.

use elf_object::RelocationKind;
use link_faults::{Binding, ImageKind, SymbolRef};
use relax_sites::{Choice, choice, new_field, rewrite};
use sequence_match::{Form, Site};
use std::alloc::Global;
use std::process::Abort;
use std::test::Fail;

/// A variable of the program itself.
pub(super) const HERE: Binding = Binding::Here(SymbolRef {
    object: 0,
    symbol: 2,
});

/// A variable of the first module that is loaded with the program.
pub(super) const STARTUP: Binding = Binding::Startup(2);

/// The variable's offset in the program's block.
const OFFSET: u64 = 8;

/// How far below the thread pointer that block begins: its 20 bytes, rounded up to its alignment, 8.
const BLOCK: u64 = 24;

/// A site of code, and what is needed to write its field.
#[derive(Clone, Copy)]
pub(super) struct Case {
    pub form: Form,
    /// What its symbol is bound to.
    pub binding: Binding,
    /// Its register, if its form names one.
    pub reg: u8,
    /// Its offset in the code.
    pub start: u64,
    /// The address at which the code stands.
    pub address: u64,
    /// The address of the word in the GOT that holds the variable's offset from the thread pointer.
    pub got: u64,
}

/// Bytes from their hexadecimal digits, in groups.
pub(super) fn bytes(alloc: Global, groups: &str) -> Result<Vec<u8>, Fail> {
    let mut bytes = Vec::new(alloc);
    for group in groups.split_whitespace() {
        let part = hex::decode(alloc, group).ok().ok_or("hexadecimal digits")?;
        bytes.extend_from_slice(&part)?;
    }
    Ok(bytes)
}

/// Rewrites a site of a program's code as chosen, and writes the field in its new bytes.
pub(super) fn relink(rt: &impl Abort, code: &mut [u8], case: Case) -> Choice {
    let chosen = choice(case.form, case.binding, ImageKind::Exe, true);
    let len = case.form.row().cells.len() as u64;
    let site = Site {
        section: 1,
        start: case.start,
        len,
        form: case.form,
        symbol: 2,
        reg: case.reg,
    };
    assert!(rt; site.reg < 16);
    assert!(rt; len <= code.len() as u64 && site.start <= code.len() as u64 - len);
    rewrite(code, &site, chosen);
    if let Some(field) = new_field(case.form, chosen) {
        let at = case.start.wrapping_add(field.at);
        let value = match field.kind {
            // the variable's offset, minus the block's distance
            RelocationKind::TpOff32 => OFFSET.wrapping_sub(BLOCK),
            // the word's address, minus the field's
            _ => case.got.wrapping_sub(case.address.wrapping_add(at)),
        };
        let value = value.wrapping_add_signed(field.addend);
        assert!(rt; at < code.len() as u64 && 4 <= code.len() as u64 - at);
        let at = at as usize;
        code[at..at + 4].copy_from_slice(&value.to_le_bytes()[..4]);
    }
    chosen
}
