//! Laws of lines: what each prints, why it is refused, and how many steps it takes, said a second time. No code runs
//! here.
//!
//! The meaning of a job and its machine share one definition of lines and turns (`thread_blocks`) and one of histories
//! (`module_table`). Where such a definition is wrong both are wrong alike, and no theorem that compares them sees it.
//! So the rules stand here once more, in other words: as relations, and by counting. A law says that both agree.
//!
//! **Histories** (`specs/Histories.antt`). The definition walks along the events and keeps a record of each image. Here
//! an image is live if it starts with the program, or has more opens than closes; an open of any other one loads it.
//! An *account* of a history has how many instances there were after each event, and how far blocks of the static
//! surplus reached. An open is refused `unknown` exactly if the image does not come late. Else, if it is not live, it
//! is refused `full` if 4,095 instances were made, else `static-full` if its next block would begin past the surplus.
//!
//! ```text
//! event        a is live    made    reach
//!              no           1       0x40
//! open a       yes          2       0x80      its block has 0x30 bytes, aligned to 0x40
//! open a       yes          2       0x80      one open more
//! close a      yes          2       0x80      two opens, one close
//! close a      no           2       0x80      what was given is not given back
//! open a       yes          3       0xc0
//! ```
//!
//! **First looks** (`specs/Printed.antt`). An open and a close print the registry's answer, and add their event exactly
//! if it is accepted. A call is refused `not-open` exactly if its image has no current instance, else `symbol`; a peek
//! so too, else `length` if not all bytes lie in the block that the thread holds, or would get.
//!
//! **Steps and points** (`specs/Counted.antt`). A relation counts: each step is one, and so is the answer of the run
//! time to a look. A call of the machine ends with `steps` exactly where it has taken four times `fuel` steps and is
//! not over; in the meaning the cause `steps` stands exactly after `fuel` steps, where the next one has no other cause.
//! A line has a point for its first look, and one more for each look in its middle.
#![tactic(auto)]

pub mod laws;
