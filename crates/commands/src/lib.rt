//! The commands of `tlsld`, from the words to the output: run, race, check, link, sites, show and gen.
//!
//! `tlsld` is a static linker for thread-local storage on x86-64, with a run time that shows what the linked images do.
//!
//! A thread-local variable has one name and a copy for each thread. The compiler cannot know where a thread's copy
//! stands, so it leaves a field in the instruction, and a relocation says what belongs there. For a variable of the
//! executable itself that is a constant, its offset from the thread pointer, because each thread's block of the
//! executable ends right at the thread pointer (variant II of Drepper's "ELF Handling For Thread-Local Storage"):
//!
//!     64 8b 04 25 00 00 00 00    mov %fs:x@tpoff, %eax      as the compiler left it
//!     64 8b 04 25 fc ff ff ff    mov %fs:-4, %eax           linked: x begins 4 bytes below the thread pointer
//!
//! A wrong byte there gives one thread another thread's data, and no test of the program may show it. So a contract
//! says what this program does with its input: the clauses of `tlsld` and `tlsld_plain`, in `top`.
//!
//! Read a command from top to bottom in `command`. `show` fetches the file, reads it as an image, and writes its text.
//! The others are about a job, and one chain of steps (`told`) refuses it for the same reasons, in the same order: it
//! fetches and reads the job; finds the image that `link` or `sites` name; fetches and reads the objects of all its
//! images; and links all images. No byte of an image is laid until then. Only then does a command go its own way
//! (`endings`): `run` (`runs`) writes all images, reads them back, runs the job's threads over them and prints the
//! transcript; `check` (`checks`) says whether what they do is decided by the objects alone, or depends on what a
//! linker chooses; `sites` (`site_lines`) prints what stands in the place of each sequence; and `link` (`links`) puts
//! its image into the store, which asks for the bytes piece by piece. `gen` (`generated`) is `run` of a job that it
//! makes instead of fetching it. `race` (`races`) is `run` without an order: each thread of the job in a thread of its
//! own (`race_runs`). Only `race` may wait, so its steps stand next to those of the others, which are tasks.
//!
//! `run` and `check` are tied: if `check` says `clean`, `run` prints what the objects mean, event by event and line by
//! line, whether sequences were rewritten or not (`specs/Runs`, `HasRun`, by the laws of `linked_jobs`). And each image
//! that is put, or loaded to be run, holds a sequence's rewritten form exactly where the table gives it, and else the
//! objects' own bytes, fields aside (`HoldsTheTable`, by the law of `standing_sequences`).
//!
//!     link a.job app app.elf      linked app 12417          and the store's file app.elf has the image's 12,417 bytes
//!     sites a.job app             main.o 1 0000000000000000 gd gd-le x
//!     run a.job                   t1 l1 g0 = 000000000000002a
//!     check a.job                 clean                     or, with status 9, the first unclean step and its cause
//!
//! Each step may end the command, with a `CommandFault`; a `Reply` holds its status and its line, which reach the
//! sink in one piece (`command_replies`).
//!
//! Only `link` changes the store's files, and only by one put, of a whole file, behind which no step of it can fail: a
//! command that gives no output leaves the files as they were, and one that reports success has put the whole file.
#![tactic(auto)]

mod checks;
mod command;
mod endings;
mod generated;
mod laws;
mod links;
mod purpose;
mod race_runs;
mod races;
mod runs;
mod site_lines;
mod telling;
mod told;
mod top;

pub use laws::checked_links_are_run;
pub use top::{tlsld, tlsld_plain};
