//! Entries of the global offset table, and a table of them. The relocations of a module and their addends are those
//! that GNU ld 2.40 writes (`ld -shared`). Those of a program follow from them, since a program is module 1 and knows
//! where its block is.

use crate::words::{kind_of, need_of, planned, push_entry, same};
use got_pairs::entry_of;
use link_faults::ImageKind;
use std::alloc::{AllocError, Global};
use std::process::Abort;
use std::test::Fail;

/// How far below the thread pointer the program's block begins: a TLS segment of 20 bytes at alignment 8 has 24.
const BLOCK: u64 = 0x18;

/// Each line: the kinds of image, a need, and the entry. 8 - 0x18 = -0x10.
const ROWS: &str = "\
exe pie module = 1, 0;
start late module = 0 DtpMod64 image 0, 0;
exe pie pair:8 = 1, 8;
start late pair:8 = 0 DtpMod64 image 0, 8;
exe pie start late pair:x = 0 DtpMod64 x 0, 0 DtpOff64 x 0;
exe pie start late desc:8 = 0 TlsDesc image 8, 0;
exe pie start late desc:x = 0 TlsDesc x 0, 0;
exe pie word:8 = fffffffffffffff0;
start late word:8 = 0 TpOff64 image 8;
exe pie start late word:x = 0 TpOff64 x 0;
exe addr:108b = 108b;
pie start late addr:108b = 108b Relative image 108b;
exe pie start late runtime = 0 JumpSlot runtime 0;
";

/// The entry for a need in an image of a kind.
fn said(alloc: Global, kind: ImageKind, need: &str) -> Result<String, AllocError> {
    let entry = entry_of(kind, BLOCK, &need_of(need));
    let mut text = String::new(alloc);
    push_entry(&mut text, &entry)?;
    Ok(text)
}

/// Checks the entry of a row in each of its kinds of image.
fn check(rt: &impl Abort, alloc: Global, line: &str) -> Result<(), Fail> {
    let (row, want) = line.split_once(" = ").ok_or("an entry")?;
    let (kinds, need) = row.rsplit_once(' ').ok_or("a need")?;
    for kind in kinds.split(' ') {
        same(rt, said(alloc, kind_of(kind), need)?.as_str(), want, line);
    }
    Ok(())
}

/// The needs of a program that may be loaded anywhere. Those after a `?` are looked up, but not needed.
const NEEDS: &str = "runtime addr:400020 word:4 pair:4 desc:x pair:x module addr:400010 pair:4 \
    addr:400020 desc:x runtime ?pair:y ?word:x";

/// Where each entry begins, the size of the table, and its entries: the groups in their order, in each group by first
/// need, and equal needs share an entry. Three entries of 16 bytes begin at 0, 0x10, 0x20 and the descriptor at 0x30;
/// words of 8 bytes at 0x40, 0x48, 0x50 and 0x58. 4 - 0x18 = -0x14.
const TABLE: &str = "58 48 40 10 30 20 0 50 10 48 30 58 - - of 60: 1, 0; 1, 4; \
    0 DtpMod64 x 0, 0 DtpOff64 x 0; 0 TlsDesc x 0, 0; ffffffffffffffec; 400020 Relative image 400020; \
    400010 Relative image 400010; 0 JumpSlot runtime 0;";

#[test]
fn entries_are_as_written(rt: HostRuntime) -> Result<(), Fail> {
    for line in ROWS.lines() {
        check(&rt, rt.alloc(), line)?;
    }
    let found = planned(rt.alloc(), ImageKind::Pie, BLOCK, NEEDS)?;
    same(&rt, found.as_str(), TABLE, NEEDS);
    Ok(())
}
