//! The fault of a rule that an entry breaks.

ghost use Rattle.std.specs.Prelude.{◌≡◌};
ghost use Rattle.image_faults.specs.Faults.{IsFirst, IsFault, offset_of};

use image_rules::{ImageFault, Rule};

/// The fault, if `entry` is the first to break the rule and all earlier rules are kept. `offset` is its offset in the
/// file; only the clauses use `_bytes` and `_entry`.
pub fn fault_at(rule: Rule, _bytes: &[u8], _entry: u64, offset: u64) -> ImageFault
    requires first { IsFirst _bytes.now rule _entry }
    requires offset { offset ≡ offset_of rule _bytes.now _entry }
    ensures { IsFault _bytes.now result }
{
    ImageFault::At {
        offset,
        kind: rule.kind(),
    }
}
