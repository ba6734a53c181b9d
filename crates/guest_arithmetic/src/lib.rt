//! What a guest machine computes with: values, arithmetic, flags and conditions.
//!
//! **Arithmetic** works on plain numbers at a width of 32 or 64 bits, as in Intel's manual (volume 1, section 3.4.3.1,
//! and volume 2). It gives a result and the changes of CF, ZF, SF and OF. `01 c8`, add %ecx, %eax, of 0xffffffff and 1
//! gives 0, sets CF and ZF and clears SF and OF. Some flags are left undefined, such as ZF after imul
//! (`Change::Unsettled`).
//!
//! **Values are a parameter** (`Values`): what a register, a flag and a byte of memory hold. A word may be moved as it
//! is. An instruction that uses a word as a number asks for one; a word without a number gives a `Cause` instead.
//! `Plain` words are numbers and always have one. If two uses at one instruction fail, the cause that comes first is
//! reported (`both`).
#![tactic(auto)]

mod arithmetic;
mod cause;
mod effect;
mod flags;
mod plain;
mod values;

pub use arithmetic::{compute, low, product, shift};
pub use cause::{Cause, both};
pub use effect::{Change, Changes, Effect};
pub use flags::{Flags, condition, with_changes};
pub use plain::Plain;
pub use values::{Four, Values};
