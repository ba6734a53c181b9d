//! What a loader, and threads that run at once, may rely on in images that are linked together: laws, and no code.
//!
//! A loader takes the images of a job, and needs facts that no single image shows (`loaded_modules`, `AreModules`):
//! that a name that one image imports is shared by another, and that a late image, which comes when the blocks below
//! the thread pointer are laid out, needs no block there. That condition names no linker: whoever makes images may
//! prove it. This crate proves it for the linker (`link_core`).
//!
//! Links are **linked together** (`AreTogether`, `specs/Together`) if each links, and each gets the exports of the
//! startup images among them. The rule of the crate: **what is linked together is loaded together**. For such links'
//! images, with the kinds that a job gives them:
//!
//! - each thread-local variable that a relocation names is shared by an image that starts with the program: a symbol
//!   is imported if it is bound to an export of a startup image; and what an image exports (the definition of a name,
//!   thread-local and with default or protected visibility) is among its dynamic symbols as such (gABI, "Symbol
//!   Table");
//! - a late image without DF_STATIC_TLS has no TPOFF64 at all (gABI, "Dynamic Section"; Drepper, "ELF Handling For
//!   Thread-Local Storage", section 4): in a module, only an initial exec sequence leaves such a word, and it sets
//!   the flag.
//!
//! For example, a program that defines `total`, 4 bytes into its segment, and a late module that reaches it by general
//! dynamic code:
//!
//! ```text
//! program   symbols   total  TLS  GLOBAL  DEFAULT  defined  4
//! module    symbols   total  TLS  GLOBAL  DEFAULT  undefined
//!           GOT       DTPMOD64 total
//!                     DTPOFF64 total
//! ```
//!
//! The module's two relocations name `total`, which the loader finds in the program. If it were HIDDEN there, the
//! program would not export it, and the module would not link.
//!
//! The other law is about **data that threads share**. Two kinds of parts are writable: the class of writable
//! sections (gABI, "Section Attributes": SHF_ALLOC and SHF_WRITE), which all threads write, and the global offset
//! table, which only the loader writes. So if no object has a byte in such a section, in the file or in memory
//! (`IsDataless`, `specs/Dataless`), that class is empty in each image and only the table is left (`ShareNoData`):
//! threads write only to their blocks and stacks, which each has to itself. For example, in a program with `.text`,
//! `.tdata` and an empty `.data`:
//!
//! ```text
//! part 0   executable   .text
//! part 1   read-only    .tdata, which each thread's block begins as
//! part 2   writable     the global offset table: no data
//! ```
#![tactic(auto)]

pub mod laws;
