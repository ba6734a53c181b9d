//! The addresses at which the machine stops for the run time, each beside its number in the guide.

use guest_machine::{DESCRIPTOR, GET_ADDRESS, RETURN};

const _: () = prove!(GET_ADDRESS == 0x1000);

const _: () = prove!(DESCRIPTOR == 0x1800);

const _: () = prove!(RETURN == 0x2000);
