//! Images. An image lies at 400000, or at 0 if it may lie anywhere; each class of sections begins a page, and so do
//! the global offset table, the stub and then the dynamic tables. These are an array of 16 for each entry, a hash
//! table of 12 and 4 for each symbol, up to a multiple of 8, 24 for each symbol and each relocation, and the names,
//! the empty one of symbol 0 included. Types of relocations: 7 a jump slot, 8 RELATIVE, 16 DTPMOD64, 17 DTPOFF64,
//! 18 TPOFF64, 36 TLSDESC.

use crate::cases::check_all;
use std::test::Fail;

/// The worked example of the essay of `link_core`.
const WORKED: &str = "
// x is at 8 of a block that begins 24 below the thread pointer, 20 rounded up to 8, so at -16. Tables: an array of 6
// and 3 symbols, 96 + 24 + 72 + 5 = 197
* exe f=c0 x=v8 v:0000000000000000 v:2a000000 v:0000000000000000 gd:x c:c3 ->
kind exe part x 400000 17 part r 401000 20 part r 402000 197 tls 401000 20 20 8 symbol 400000 2 f symbol 000008 6 x
choices / GdLe # 64488b0425 00000000 488d80 f0ffffff c3; - 2a000000 -;
// x's pair and the word of the run time; fields: 402000 - 400008 = 1ff8, 403000 - 400010 = 2ff0, 402010 - 403006 =
// -ff6. Tables: an array of 9, 4 symbols and a relocation, 144 + 28 + 4 + 96 + 24 + 20 = 316
* exe-kept f=c0 x=v8 v:0000000000000000 v:2a000000 v:0000000000000000 gd:x c:c3 ->
kind exe part x 400000 17 part r 401000 20 part rw 402000 24 part x 403000 6 part r 404000 316 tls 401000 20 20 8 relro
402000 24 symbol 400000 2 f symbol 000008 6 x symbol 000000 0 import __tls_get_addr reloc 402010 7 3 0 choices / Keep
# 66488d3d f81f0000 666648e8 f02f0000 c3; - 2a000000 -; 0100000000000000 0800000000000000 -; ff25 0af0ffff;
";

/// Each kind of entry of the table in each kind of image. Code begins at 0, 7, e, 15, 1c, 23, 33 and 43, where f is,
/// and has 4f bytes, 79. Kept it needs, group by group, in each by the places of sequences, the block's pair at 0 of
/// the table, the pairs of y and x at 10 and 20, the descriptors of w and x at 30 and 40, the words of errno and x at
/// 50 and 58, f's address at 60 and the word of the run time at 68. Imports by their first places: errno is symbol 3, w
/// 4, y 5; __tls_get_addr is 6. The fields: 402060 - 400007 = 2059, then 402050 - 40000e, 402058 - 400015, 402030 -
/// 40001c, 402040 - 400023, 402010 - 40002b, 402020 - 40003b, 402000 - 40004a; of the calls 403000 - 400033, 403000 -
/// 400043 and 403000 - 40004f; of the stub 402068 - 403006 = -f9e.
const ENTRIES: &str = "
// Tables: 144 + 40 + 168 + 144 + 30 = 526
* exe-kept f=c43 x=v8 v:00000000000000002a0000000000000000000000 word:f mov:errno mov:x lea:w lea:x gd:y gd:x ld:x ->
kind exe part x 400000 79 part r 401000 20 part rw 402000 112 part x 403000 6 part r 404000 526 tls 401000 20 20 8 relro
402000 112 symbol 400043 2 f symbol 000008 6 x symbol 000000 6 import errno symbol 000000 6 import w symbol 000000 6
import y symbol 000000 0 import __tls_get_addr reloc 402010 16 5 0 reloc 402018 17 5 0 reloc 402030 36 4 0 reloc 402040
36 0 8 reloc 402050 18 3 0 reloc 402068 7 6 0 choices / Keep Keep Keep Keep Keep Keep Keep
# 488b05 59200000 488b05 42200000 488b05 43200000 488d05 14200000 488d05 1d200000 66488d3d e51f0000 666648e8 cd2f0000
66488d3d e51f0000 666648e8 bd2f0000 488d3d b61f0000 e8 b12f0000; - 2a000000 -; 0100000000000000 - - - 0100000000000000
0800000000000000 - - - - - f0ffffffffffffff 4300400000000000 -; ff25 62f0ffff;
// f's address, 67, is counted from the start. Tables, with an entry of DF_1_PIE: 160 + 40 + 168 + 168 + 30 = 566
* pie-kept f=c43 x=v8 v:00000000000000002a0000000000000000000000 word:f mov:errno mov:x lea:w lea:x gd:y gd:x ld:x ->
kind pie part x 000000 79 part r 001000 20 part rw 002000 112 part x 003000 6 part r 004000 566 tls 001000 20 20 8 relro
002000 112 symbol 000043 2 f symbol 000008 6 x symbol 000000 6 import errno symbol 000000 6 import w symbol 000000 6
import y symbol 000000 0 import __tls_get_addr reloc 002010 16 5 0 reloc 002018 17 5 0 reloc 002030 36 4 0 reloc 002040
36 0 8 reloc 002050 18 3 0 reloc 002060 8 0 67 reloc 002068 7 6 0 choices / Keep Keep Keep Keep Keep Keep Keep
# 488b05 59200000 488b05 42200000 488b05 43200000 488d05 14200000 488d05 1d200000 66488d3d e51f0000 666648e8 cd2f0000
66488d3d e51f0000 666648e8 bd2f0000 488d3d b61f0000 e8 b12f0000; - 2a000000 -; 0100000000000000 - - - 0100000000000000
0800000000000000 - - - - - f0ffffffffffffff 4300000000000000 -; ff25 62f0ffff;
// A module knows neither its number nor where its block lies; symbol 0 stands for the module. It reads words with
// offsets, so an entry has DF_STATIC_TLS. Tables: 160 + 40 + 168 + 240 + 30 = 638
* start/late f=c43 x=v8 v:00000000000000002a0000000000000000000000 word:f mov:errno mov:x lea:w lea:x gd:y gd:x ld:x ->
kind module part x 000000 79 part r 001000 20 part rw 002000 112 part x 003000 6 part r 004000 638 tls 001000 20 20 8
relro 002000 112 symbol 000043 2 f symbol 000008 6 x symbol 000000 6 import errno symbol 000000 6 import w symbol 000000
6 import y symbol 000000 0 import __tls_get_addr reloc 002000 16 0 0 reloc 002010 16 5 0 reloc 002018 17 5 0 reloc
002020 16 0 0 reloc 002030 36 4 0 reloc 002040 36 0 8 reloc 002050 18 3 0 reloc 002058 18 0 8 reloc 002060 8 0 67 reloc
002068 7 6 0 static-tls choices / Keep Keep Keep Keep Keep Keep Keep
# 488b05 59200000 488b05 42200000 488b05 43200000 488d05 14200000 488d05 1d200000 66488d3d e51f0000 666648e8 cd2f0000
66488d3d e51f0000 666648e8 bd2f0000 488d3d b61f0000 e8 b12f0000; - 2a000000 -; - - - - - 0800000000000000 - - - - - -
4300000000000000 -; ff25 62f0ffff;
// Rewritten the program needs the words of errno, w and y and f's address: 402018 - 400007 = 2011, 402000 - 40000e =
// 1ff2, 402008 - 40001c = 1fec, 402010 - 400033 = 1fdd; x is at 8 - 24 = -16. Tables: 144 + 36 + 4 + 144 + 72 + 15 =
// 415
* exe f=c43 x=v8 v:00000000000000002a0000000000000000000000 word:f mov:errno mov:x lea:w lea:x gd:y gd:x ld:x ->
kind exe part x 400000 79 part r 401000 20 part rw 402000 32 part r 403000 415 tls 401000 20 20 8 relro 402000 32 symbol
400043 2 f symbol 000008 6 x symbol 000000 6 import errno symbol 000000 6 import w symbol 000000 6 import y reloc 402000
18 3 0 reloc 402008 18 4 0 reloc 402010 18 5 0 choices / Keep IeLe DescIe DescLe GdIe GdLe LdLe
# 488b05 11200000 488b05 f21f0000 48c7c0 f0ffffff 488b05 ec1f0000 48c7c0 f0ffffff 64488b0425 00000000 480305 dd1f0000
64488b0425 00000000 488d80 f0ffffff 66666664488b0425 00000000; - 2a000000 -; - - - 4300400000000000;
// Calls through the run time's word need no stub: 401000 - 400008 = ff8, 401010 - 400010 = 1000
* exe-kept gdi:y -> links # 66488d3d f80f0000 6648ff15 00100000; - - -;
";

/// Several objects: the order of symbols and relocations, and how the code of one changes another.
const OBJECTS: &str = "
// Imports are in the order of their first sequences, w, y, errno. Tables: 144 + 28 + 4 + 96 + 72 + 11 = 355
* exe mov:w mov:y | mov:y mov:errno mov:w ->
kind exe part x 400000 35 part rw 401000 24 part r 402000 355 relro 401000 24 symbol 000000 6 import w symbol 000000 6
import y symbol 000000 6 import errno reloc 401000 18 1 0 reloc 401008 18 2 0 reloc 401010 18 3 0 choices / Keep Keep /
Keep Keep Keep
// An object twice has its LOCAL variable twice, 4 bytes at 0 and at 8. Tables: 160 + 16 + 24 + 48 + 1 = 249. A GLOBAL
// one is a Duplicate
* start .x=v0 v:2a000000 mov:x | .x=v0 v:2a000000 mov:x ->
kind module part x 000000 14 part r 001000 12 part rw 002000 16 part r 003000 249 tls 001000 12 12 8 relro 002000 16
reloc 002000 18 0 0 reloc 002008 18 0 8 static-tls choices / Keep / Keep
* start x=v0 v:2a000000 mov:x | x=v0 v:2a000000 mov:x -> Duplicate at object Some(1) section 6 entry 1
// x is bound to the GLOBAL definition, at 8 - 16 = -8, and its symbol has the place of the WEAK one, which comes first.
// Tables: 96 + 24 + 72 + 5
* exe ~x=v0 f=c0 v:01000000 mov:x | x=v0 v:02000000 ->
kind exe part x 400000 7 part r 401000 12 part r 402000 197 tls 401000 12 12 8 symbol 000008 6 x symbol 400000 2 f
choices / IeLe / # 48c7c0 f8ffffff; 01000000 00000000 02000000;
// Zeros lie after all initial images, 1 byte at 0 and at 8: x is at 9 and z at d of a block of 24.
// Tables: 96 + 24 + 72 + 5
* exe x=z0 v:01 z:4 le:x | z=z0 v:02 z:4 mov:z d:03 b:10,1 ->
kind exe part x 400000 16 part r 401000 9 part rw 402000 17 part r 403000 197 tls 401000 9 17 8 symbol 000009 6 x symbol
00000d 6 z choices / / IeLe # 64488b0425 f1ffffff 48c7c0 f5ffffff; 01 00000000000000 02; 03 - -;
// The first code has 9 bytes, so g's address is at b; at 1000 stand those of f, which is at 1, with 0, -2 and 10 added,
// and at 2000 f's word: 2000 - 9 = 1ff7. Tables: 160 + 24 + 72 + 120 + 5 = 381, in a module 16 less
* pie f=c1 c:c390 word:f d:000000000000000000000000000000000000000000000000 q:f,10,10 q:f,0,0 q:f,-2,8 | g=c0 wide:g ->
kind pie part x 000000 19 part rw 001000 24 part rw 002000 8 part r 003000 381 relro 002000 8 symbol 000001 2 f symbol
000009 2 g reloc 00000b 8 0 9 reloc 001000 8 0 1 reloc 001008 8 0 -1 reloc 001010 8 0 17 reloc 002000 8 0 1 choices / /
# c390 488b05 f71f0000 48b8 0900000000000000; 0100000000000000 ffffffffffffffff 1100000000000000; 0100000000000000;
* late f=c1 c:c390 word:f d:000000000000000000000000000000000000000000000000 q:f,10,10 q:f,0,0 q:f,-2,8 | g=c0 wide:g ->
kind module part x 000000 19 part rw 001000 24 part rw 002000 8 part r 003000 365 relro 002000 8 symbol 000001 2 f
symbol 000009 2 g reloc 00000b 8 0 9 reloc 001000 8 0 1 reloc 001008 8 0 -1 reloc 001010 8 0 17 reloc 002000 8 0 1
choices / /
# c390 488b05 f71f0000 48b8 0900000000000000; 0100000000000000 ffffffffffffffff 1100000000000000; 0100000000000000;
* exe f=c1 c:c390 word:f d:000000000000000000000000000000000000000000000000 q:f,10,10 q:f,0,0 q:f,-2,8 | g=c0 wide:g ->
links
# c390 488b05 f71f0000 48b8 0900400000000000; 0100400000000000 ffff3f0000000000 1100400000000000; 0100400000000000;
// No word of an offset, so no DF_STATIC_TLS; with one in any object there is. Tables: 144 + 28 + 4 + 96 + 96 + 20 =
// 388, 160 + 20 + 4 + 48 + 24 + 3 = 259
* start x=v0 v:2a000000 gd:x | ldi:x lea:y tlscall:y off:x ->
kind module part x 000000 45 part r 001000 4 part rw 002000 56 part x 003000 6 part r 004000 388 tls 001000 4 4 8 relro
002000 56 symbol 000000 6 x symbol 000000 6 import y symbol 000000 0 import __tls_get_addr reloc 002000 16 0 0 reloc
002010 16 0 0 reloc 002020 36 2 0 reloc 002030 7 3 0 choices / Keep / Keep Keep Keep
* late c:c3 | add:y ->
kind module part x 000000 8 part rw 001000 8 part r 002000 259 relro 001000 8 symbol 000000 6 import y reloc 001000 18 1
0 static-tls choices / / Keep
// Offsets in the block with addends: 8 + 7fffffff is above 2^31 - 1, and 8 - 80000000 - 24 below -2^31. Offsets count
// from the thread pointer, 24 past the block, where any object has local dynamic code that is rewritten
* exe-kept x=v8 v:0000000000000000 v:2a000000 v:0000000000000000 ld:x off:x,7fffffff ->
Overflow at object Some(0) section 4 entry 2
* exe x=v8 v:0000000000000000 v:2a000000 v:0000000000000000 ld:x off:x,7fffffff ->
links # 66666664488b0425 00000000 488d80 efffff7f; - 2a000000 -;
* exe x=v8 v:0000000000000000 v:2a000000 v:0000000000000000 off:x,-80000000 | ld:x ->
Overflow at object Some(0) section 4 entry 0
* exe x=v8 v:0000000000000000 v:2a000000 v:0000000000000000 off:x,-80000000 | gd:x ->
links # 488d80 08000080 64488b0425 00000000 488d80 f0ffffff; - 2a000000 -;
";

#[test]
fn worked(rt: HostRuntime) -> Result<(), Fail> {
    check_all(&rt, rt.alloc(), WORKED)
}

#[test]
fn entries(rt: HostRuntime) -> Result<(), Fail> {
    check_all(&rt, rt.alloc(), ENTRIES)
}

#[test]
fn objects(rt: HostRuntime) -> Result<(), Fail> {
    check_all(&rt, rt.alloc(), OBJECTS)
}
