//! The limits of the run time, each next to its number.

use module_table::{MOST_IDS, MOST_INSTANCES, SURPLUS};

const _: () = prove!(MOST_INSTANCES == 4_095);

const _: () = prove!(MOST_IDS == 64);

const _: () = prove!(SURPLUS == 4_096);
