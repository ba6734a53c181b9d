//! Small jobs, computed by the prover from their objects' bytes to their output, in both worlds.
//!
//! A job is run by a machine over its linked images (`thread_blocks`), and it has a meaning, taken from its objects
//! before anything is linked (`whole_meaning`). `tied_meaning` relates the two in many small definitions. Are they the
//! right ones? A wrong one, such as a base that counts from the wrong end, may look right for a long time, and show at
//! last as a law that can't be proved. Here such definitions meet numbers: **each side is computed from one list of
//! links, and the expected result is written down**. No code runs here: definitions, and laws that the prover
//! computes.
//!
//! ```text
//! f: lea x@tlsld(%rip), %rdi          links                      thread 1 calls f        5
//!    call __tls_get_addr@PLT    ----> image, rewritten  ---->    thread 1 calls g        -4
//!    mov x@dtpoff(%rax), %eax   ----> image, kept       ---->    the same two lines
//!    ret                        ----> meaning           ---->    the same two lines
//! ```
//!
//! - `specs/Worlds.antt`: both worlds print the same for a list of links (`BothSay`);
//! - `specs/LocalCode.antt`: the job of the picture, with its object as the bytes that an assembler wrote;
//! - `specs/LocalSites.antt`: its sequences and its offset field, and what the linker chose for them in each setting;
//! - `specs/Reopened.antt`: a late module that another thread closes in the middle of a call, and that is opened again;
//! - `specs/Tables.antt`: a program, a startup module and a late one, with an entry of each kind in their tables.
//!
//! Two laws run both worlds ([`laws::local_code_says_the_same`], [`laws::reopened_says_the_same`]). One takes the
//! image of the picture apart ([`laws::local_code_is_tied`]): the code in place of a sequence does what it means, and
//! the offset field moves the base of each thread's block to one address. The fourth goes through all that is loaded
//! of that job ([`laws::local_job_is_tied`]): each byte of code and of the initial image, each name, all addresses,
//! and which instances there are. So the premise of the laws of whole jobs (`AreTied`) is true of one job. The last
//! has the words of three tables as numbers, both as they are loaded and as the definition of each entry gives them
//! ([`laws::tables_hold_their_words`]).
//!
//! The links are computed too, byte for byte. The image of a module that is loaded twice is also written down, so that
//! it is linked once.
#![tactic(auto)]

pub mod laws;
