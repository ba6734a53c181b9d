//! Every type by its number in the psABI's table, at both ends of its range and one past each. Values are computed by
//! hand from that table; the letters that a type does not use are odd numbers, which must not matter.

use elf_object::RelocationKind;
use std::alloc::{AllocError, Global};
use std::process::Abort;
use std::test::Fail;
use tls_relocs::{Field, Overflow, value};

/// Each line: types, separated by commas, and the letters S, A, P and G (A in decimal, the others in
/// hexadecimal); then what is stored.
const VALUES: &str = "\
// S + A - P: PC32 and PLT32
2,4 80000003 -4 0 4d = Some(Ok(Word32(2147483647)))
2,4 80000004 -4 0 4d = Some(Err(Overflow))
2,4 0 -4 7ffffffc 4d = Some(Ok(Word32(2147483648)))
2,4 0 -4 7ffffffd 4d = Some(Err(Overflow))
// G + A - P: GOTPCREL, TLSGD, TLSLD, GOTTPOFF, GOTPC32_TLSDESC, GOTPCRELX and REX_GOTPCRELX
9,19,20,22,34,41,42 4d -4 0 80000003 = Some(Ok(Word32(2147483647)))
9,19,20,22,34,41,42 4d -4 0 80000004 = Some(Err(Overflow))
9,19,20,22,34,41,42 4d -4 7ffffffc 0 = Some(Ok(Word32(2147483648)))
9,19,20,22,34,41,42 4d -4 7ffffffd 0 = Some(Err(Overflow))
// O + A - b: DTPOFF32 and TPOFF32
21,23 8 2147483647 4d 8 = Some(Ok(Word32(2147483647)))
21,23 9 2147483647 4d 8 = Some(Err(Overflow))
21,23 8 0 4d 80000008 = Some(Ok(Word32(2147483648)))
21,23 8 0 4d 80000009 = Some(Err(Overflow))
// S + A, signed: 32S
11 400000 2143289343 4d 4d = Some(Ok(Word32(2147483647)))
11 400000 2143289344 4d 4d = Some(Err(Overflow))
11 1 -2147483649 4d 4d = Some(Ok(Word32(2147483648)))
11 0 -2147483649 4d 4d = Some(Err(Overflow))
// S + A, unsigned: 32
10 fffffffe 1 4d 4d = Some(Ok(Word32(4294967295)))
10 ffffffff 1 4d 4d = Some(Err(Overflow))
10 1 -1 4d 4d = Some(Ok(Word32(0)))
10 0 -1 4d 4d = Some(Err(Overflow))
// S + A modulo 2^64: 64
1 0 -1 4d 4d = Some(Ok(Word64(18446744073709551615)))
1 ffffffffffffffff 2 4d 4d = Some(Ok(Word64(1)))
// nothing: NONE and TLSDESC_CALL
0,35 ffffffffffffffff 77 4d 4d = Some(Ok(Empty))
// no type has this number
3 4d 77 4d 4d = None
";

/// A hexadecimal number; 0 if the word is not one.
fn number(word: Option<&str>) -> u64 {
    u64::from_str_radix(word.unwrap_or(""), 16).unwrap_or(0)
}

/// What a relocation stores, by the number of its type; `None` if the number is not a type.
fn numbered(number: u32, s: u64, a: i64, p: u64, g: u64) -> Option<Result<Field, Overflow>> {
    let kind = RelocationKind::numbered(number)?;
    Some(value(kind, s, a, p, g))
}

/// What a relocation of a type stores, given the letters of a line.
fn stored(alloc: Global, kind: &str, letters: &str) -> Result<String, AllocError> {
    let mut words = letters.split(' ');
    let s = number(words.next());
    let a = words.next().unwrap_or("").parse().unwrap_or(0);
    let p = number(words.next());
    let stored = numbered(kind.parse().unwrap_or(0), s, a, p, number(words.next()));
    format!(in alloc; "{stored:?}")
}

/// Compares the found text with the expected one.
pub(crate) fn same(rt: &impl Abort, found: &str, want: &str, at: &str) {
    assert!(rt; found == want, "{found}: {at}");
}

/// Checks what relocations of the types of a line store.
fn check(rt: &impl Abort, alloc: Global, line: &str) -> Result<(), Fail> {
    let (row, want) = line.split_once(" = ").ok_or("what is stored")?;
    let (kinds, letters) = row.split_once(' ').ok_or("letters")?;
    for kind in kinds.split(',') {
        same(rt, stored(alloc, kind, letters)?.as_str(), want, line);
    }
    Ok(())
}

#[test]
fn values_of_relocations(rt: HostRuntime) -> Result<(), Fail> {
    for line in VALUES.lines() {
        if !line.starts_with("//") {
            check(&rt, rt.alloc(), line)?;
        }
    }
    Ok(())
}
