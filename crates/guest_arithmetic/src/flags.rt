//! The four flags: how they change, and when a condition holds.

ghost use Rattle.std.specs.Prelude.{◌≡◌};
ghost use Rattle.guest_arithmetic.specs.Flags.{changed, with_changes, is_less, is_less_or_equal, is_below_or_equal, condition_of};

use crate::arithmetic::differ;
use crate::cause::{Cause, both};
use crate::effect::{Change, Changes};
use crate::values::Values;
use amd64_subset::Condition;

/// The flags that instructions of the subset set and read.
#[derive(Clone, Copy, Debug)]
pub struct Flags<F> {
    pub zero: F,
    pub sign: F,
    pub carry: F,
    pub overflow: F,
}

fn changed<V: Values>(change: Change, flag: V::Flag) -> V::Flag
    ensures { result ≡ changed V.operations change flag }
{
    match change {
        Change::Set(truth) => V::flag(truth),
        Change::Unsettled => V::unsettled(flag),
        Change::Kept => flag,
    }
}

/// The flags after an instruction.
#[tactic(auto, unfolding(crate::specs::Flags::with_changes))]
pub fn with_changes<V: Values>(changes: &Changes, flags: &Flags<V::Flag>) -> Flags<V::Flag>
    ensures { result ≡ with_changes V.operations changes.now flags.now }
{
    Flags {
        zero: changed::<V>(changes.zero, flags.zero),
        sign: changed::<V>(changes.sign, flags.sign),
        carry: changed::<V>(changes.carry, flags.carry),
        overflow: changed::<V>(changes.overflow, flags.overflow),
    }
}

/// Whether SF and OF differ.
#[tactic(auto, unfolding(crate::specs::Flags::is_less))]
fn is_less<V: Values>(flags: &Flags<V::Flag>) -> Result<bool, Cause>
    ensures { result ≡ is_less V.operations flags.now }
{
    let (sign, overflow) = both(V::truth_of(flags.sign), V::truth_of(flags.overflow))?;
    Ok(differ(sign, overflow))
}

/// Whether CF or ZF is set.
#[tactic(auto, unfolding(crate::specs::Flags::is_below_or_equal))]
fn is_below_or_equal<V: Values>(flags: &Flags<V::Flag>) -> Result<bool, Cause>
    ensures { result ≡ is_below_or_equal V.operations flags.now }
{
    let (carry, zero) = both(V::truth_of(flags.carry), V::truth_of(flags.zero))?;
    Ok(carry || zero)
}

/// Whether ZF is set, or SF and OF differ.
#[tactic(auto, unfolding(crate::specs::Flags::is_less_or_equal))]
fn is_less_or_equal<V: Values>(flags: &Flags<V::Flag>) -> Result<bool, Cause>
    ensures { result ≡ is_less_or_equal V.operations flags.now }
{
    let (zero, less) = both(V::truth_of(flags.zero), is_less::<V>(flags))?;
    Ok(zero || less)
}

/// Whether a condition holds.
#[tactic(auto, unfolding(crate::specs::Flags::condition_of))]
pub fn condition<V: Values>(condition: Condition, flags: &Flags<V::Flag>) -> Result<bool, Cause>
    ensures { result ≡ condition_of V.operations condition flags.now }
{
    match condition {
        Condition::Overflow => V::truth_of(flags.overflow),
        Condition::NotOverflow => Ok(!V::truth_of(flags.overflow)?),
        Condition::Below => V::truth_of(flags.carry),
        Condition::NotBelow => Ok(!V::truth_of(flags.carry)?),
        Condition::Equal => V::truth_of(flags.zero),
        Condition::NotEqual => Ok(!V::truth_of(flags.zero)?),
        Condition::BelowOrEqual => is_below_or_equal::<V>(flags),
        Condition::Above => Ok(!is_below_or_equal::<V>(flags)?),
        Condition::Sign => V::truth_of(flags.sign),
        Condition::NotSign => Ok(!V::truth_of(flags.sign)?),
        Condition::Less => is_less::<V>(flags),
        Condition::NotLess => Ok(!is_less::<V>(flags)?),
        Condition::LessOrEqual => is_less_or_equal::<V>(flags),
        Condition::Greater => Ok(!is_less_or_equal::<V>(flags)?),
    }
}
