//! What an object notes of its relocations.

use crate::objects::same;
use elf_object::Object;
use elf_records::relocation::{
    R_X86_64_32, R_X86_64_64, R_X86_64_DTPOFF32, R_X86_64_GOTTPOFF, R_X86_64_NONE, R_X86_64_PC32,
    R_X86_64_TLSLD, R_X86_64_TPOFF32,
};
use elf_records::symbol::{STT_FUNC, STT_TLS};
use object_builder::{Section, Symbol, object_of, rela};
use std::alloc::{AllocError, Global};
use std::string::String;
use std::test::Fail;

/// Room for any field.
const CODE: &[u8] = &[0; 32];

/// A letter for each that holds, a dash for each that doesn't.
fn letters(alloc: Global, all: &[(bool, char)]) -> Result<String, AllocError> {
    let mut said = String::new(alloc);
    for (holds, letter) in all {
        said.push(if *holds { *letter } else { '-' })?;
    }
    Ok(said)
}

/// `o`rdinary, o`w`n variable, `a`ny variable.
fn roles_of(alloc: Global, object: &Object, symbol: u32) -> Result<String, Fail> {
    if object.symbol_count() <= symbol {
        return Err("a symbol".into());
    }
    let roles = object.roles(symbol);
    let own = (roles.own_variable, 'w');
    let any = (roles.any_variable, 'a');
    Ok(letters(alloc, &[(roles.ordinary, 'o'), own, any])?)
}

/// In `m`odule, where mo`v`ed, reaches `s`torage, wi`d`e.
fn traits_of(alloc: Global, object: &Object) -> Result<String, AllocError> {
    let traits = object.traits();
    let refused = [(traits.in_module, 'm'), (traits.where_moved, 'v')];
    let others = [(traits.reaches_storage, 's'), (traits.is_wide, 'd')];
    let mut said = letters(alloc, &refused)?;
    said.push_str(letters(alloc, &others)?.as_str())?;
    Ok(said)
}

/// An object of 32 bytes of code, a function, a variable and this relocation.
fn object_with(alloc: Global, kind: u32, symbol: u32, addend: i64) -> Result<Vec<u8>, AllocError> {
    let relocations = [rela(4, kind, symbol, addend)];
    let sections = [
        Section::code(CODE).with(&relocations),
        Section::variables(b"\x2a\0\0\0"),
    ];
    let symbols = [
        Symbol::global(b"f", STT_FUNC, 1, 0, 9),
        Symbol::global(b"x", STT_TLS, 3, 0, 4),
    ];
    object_of(alloc, &sections, &symbols)
}

/// What is noted of it: the roles of the function and of the variable, and the traits.
fn noted(alloc: Global, kind: u32, symbol: u32, addend: i64) -> Result<String, Fail> {
    let bytes = object_with(alloc, kind, symbol, addend)?;
    let object = Object::read(alloc, &bytes)?;
    let (function, variable) = (roles_of(alloc, &object, 1)?, roles_of(alloc, &object, 2)?);
    let traits = traits_of(alloc, &object)?;
    Ok(format!(in alloc; "{function} {variable} {traits}")?)
}

#[test]
fn notes_roles_and_traits(rt: HostRuntime) -> Result<(), Fail> {
    let alloc = rt.alloc();
    let far = 1 << 30;
    let rows = [
        (R_X86_64_NONE, 9, far, "--- --- ----"),
        (R_X86_64_64, 1, far, "o-- --- ----"),
        (R_X86_64_PC32, 1, far - 1, "o-- --- ----"),
        (R_X86_64_PC32, 1, far, "o-- --- ---d"),
        (R_X86_64_PC32, 1, -far, "o-- --- ----"),
        (R_X86_64_PC32, 1, -far - 1, "o-- --- ---d"),
        (R_X86_64_32, 1, far - 1, "o-- --- -v--"),
        (R_X86_64_32, 1, -1, "o-- --- -v-d"),
        (R_X86_64_TPOFF32, 2, 0, "--- -w- m---"),
        (R_X86_64_DTPOFF32, 2, 0, "--- -w- ----"),
        (R_X86_64_TLSLD, 2, -4, "--- -w- --s-"),
        (R_X86_64_GOTTPOFF, 2, -4, "--- --a --s-"),
    ];
    for (kind, symbol, addend, want) in rows {
        same(
            &rt,
            noted(alloc, kind, symbol, addend)?.as_str(),
            want,
            want,
        );
    }
    Ok(())
}
