//! Laws of the layout of an image, said a second time: each section at the least place that those before it leave. No
//! code runs here.
//!
//! The meaning of a job and its linked images share one definition of where sections go (`tls_layout`). It walks along
//! the sections and carries the end of those so far. Were that wrong, data before code say, both would be wrong alike.
//! Here the rule is a relation between sections and any places at all, with no walk in it.
//!
//! **Places** (`specs/Layout.antt`). Classes stand in the order code, constants, initial image of thread-local storage,
//! data; in a class what has bytes in the file stands before zeros, and each of the two in the order of objects and
//! then of sections. A class begins at the least multiple of 4,096 past all sections of earlier classes. A section lies
//! at the least multiple of its alignment past the start of its class and past all sections that stand before it there.
//! An empty section counts as any other does. The law: the addresses of a layout are such places, and no others are; so
//! are the offsets in the TLS segment, where thread-local sections alone take part, from 0 on.
//!
//! ```text
//! code       17, aligned to 16    0x400000    base
//!            0, aligned to 64     0x400040    an empty one moves the next
//! constants  none
//! .tdata     20, aligned to 8     0x401000    the first page past 0x400040
//! ```
//!
//! The segment has the least size that holds its sections, and the greatest alignment that one of them asks for. The
//! room begins on the first page past all sections. Blocks of startup modules begin below a thread pointer, each at the
//! least multiple of its alignment with room for it past the block before.
#![tactic(auto)]

pub mod laws;
