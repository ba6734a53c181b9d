//! The limits of linking, each next to its number.

use link_faults::EXE_BASE;
use tls_layout::PAGE;

const _: () = prove!(EXE_BASE == 0x40_0000);

const _: () = prove!(PAGE == 4096);
