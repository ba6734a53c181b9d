//! Arithmetic on plain numbers at a width: results and flags.

ghost use Rattle.std.specs.Prelude.{◌≡◌, ◌<◌, ◌≤◌, ◌%◌, ◌^◌, ◌==◌, if◌then◌else◌, ◌-◌};
ghost use Rattle.amd64_subset.specs.declared.instr.Shift.TheVariants.{RightSigned};
ghost use Rattle.guest_arithmetic.specs.declared.effect.Change.TheVariants.{Set, Unsettled};
ghost use Rattle.guest_arithmetic.specs.Arithmetic.{bits_of, span_of, half_of, is_negative, differ, biased, sum_overflows, difference_overflows, sum_effect, difference_effect, logic_effect, compute_effect, magnitude, product_fits, product_effect, shifted, bit_out, shift_overflows, shift_effect};

use crate::effect::{Change, Changes, Effect, by_result};
use amd64_subset::{Arithmetic, Shift, Width};

pub(crate) fn differ(left: bool, right: bool) -> bool
    ensures { result ≡ differ left right }
{
    if left { !right } else { right }
}

/// The number modulo 2^32 or 2^64, by the width.
pub fn low(width: Width, number: u64) -> u64
    ensures value { result ≡ number % span_of width }
    ensures small { result < span_of width }
{
    match width {
        Width::Long => number % (1 << 32),
        Width::Quad => number,
    }
}

/// The least number whose top bit is set: 2^31 or 2^63.
fn half(width: Width) -> u64
    ensures value { result ≡ half_of width }
    ensures small { result ≤ 2 ^ 63 }
{
    match width {
        Width::Long => 1 << 31,
        Width::Quad => 1 << 63,
    }
}

fn bits(width: Width) -> u8
    ensures { result ≡ bits_of width }
{
    match width {
        Width::Long => 32,
        Width::Quad => 64,
    }
}

/// Whether the top bit is set.
pub(crate) fn is_negative(width: Width, number: u64) -> bool
    ensures { result ≡ is_negative width number }
{
    half(width) <= number
}

/// The signed number plus half the span, so that it is not negative.
#[tactic(auto, using(crate::proofs::Residues::low_again))]
fn biased(width: Width, number: u64) -> u64
    ensures { result ≡ biased width number }
{
    low(width, number.wrapping_add(half(width)))
}

/// OF of a sum.
#[tactic(auto, unfolding(crate::specs::Arithmetic::sum_overflows))]
fn sum_overflows(width: Width, left: u64, right: u64) -> bool
    ensures { result ≡ sum_overflows width left right }
{
    let half = u128::from(half(width));
    let sum = u128::from(biased(width, left)) + u128::from(biased(width, right));
    sum < half || 3 * half <= sum
}

/// OF of a difference.
#[tactic(auto, unfolding(crate::specs::Arithmetic::difference_overflows))]
fn difference_overflows(width: Width, left: u64, right: u64) -> bool
    ensures { result ≡ difference_overflows width left right }
{
    let half = u128::from(half(width));
    let left = u128::from(biased(width, left));
    let right = u128::from(biased(width, right));
    left + half < right || right + half <= left
}

#[tactic(auto, unfolding(crate::specs::Arithmetic::sum_effect), using(crate::proofs::Residues::low_again))]
fn sum(width: Width, left: u64, right: u64) -> Effect
    ensures { result ≡ sum_effect width left right }
{
    let number = low(width, left.wrapping_add(right));
    let carry = span(width) <= u128::from(left) + u128::from(right);
    let overflow = sum_overflows(width, left, right);
    by_result(width, number, Change::Set(carry), Change::Set(overflow))
}

/// How many numbers the width has: 2^32 or 2^64.
fn span(width: Width) -> u128
    ensures { result ≡ span_of width }
{
    match width {
        Width::Long => 1 << 32,
        Width::Quad => 1 << 64,
    }
}

#[tactic(auto, unfolding(crate::specs::Arithmetic::difference_effect), using(crate::proofs::Residues::low_difference))]
fn difference(width: Width, left: u64, right: u64) -> Effect
    requires { right < span_of width }
    ensures { result ≡ difference_effect width left right }
{
    let number = low(width, left.wrapping_sub(right));
    let overflow = difference_overflows(width, left, right);
    by_result(
        width,
        number,
        Change::Set(left < right),
        Change::Set(overflow),
    )
}

#[tactic(auto, unfolding(crate::specs::Arithmetic::logic_effect))]
fn logic(width: Width, number: u64) -> Effect
    ensures { result ≡ logic_effect width number }
{
    by_result(width, number, Change::Set(false), Change::Set(false))
}

/// add, or, and, sub, xor, cmp
#[tactic(auto, unfolding(crate::specs::Arithmetic::compute_effect))]
pub fn compute(arithmetic: Arithmetic, width: Width, left: u64, right: u64) -> Effect
    requires { right < span_of width }
    ensures { result ≡ compute_effect arithmetic width left right }
{
    match arithmetic {
        Arithmetic::Add => sum(width, left, right),
        Arithmetic::Or => logic(width, left | right),
        Arithmetic::And => logic(width, left & right),
        Arithmetic::Sub => difference(width, left, right),
        Arithmetic::Xor => logic(width, left ^ right),
        Arithmetic::Compare => difference(width, left, right),
    }
}

/// The magnitude of a signed number.
fn size(width: Width, number: u64) -> u128
    requires { number < span_of width }
    ensures value { result ≡ magnitude width number }
    ensures small { result ≤ 2 ^ 63 }
{
    if is_negative(width, number) {
        return span(width) - u128::from(number);
    }
    u128::from(number)
}

/// Whether the signed product fits the width.
#[tactic(auto, unfolding(crate::specs::Arithmetic::product_fits))]
fn product_fits(width: Width, left: u64, right: u64) -> bool
    requires left { left < span_of width }
    requires right { right < span_of width }
    ensures { result ≡ product_fits width left right }
{
    let product = size(width, left) * size(width, right);
    let half = u128::from(half(width));
    if differ(is_negative(width, left), is_negative(width, right)) {
        return product <= half;
    }
    product < half
}

/// imul
#[tactic(auto, unfolding(crate::specs::Arithmetic::product_effect), using(crate::proofs::Residues::low_again))]
pub fn product(width: Width, left: u64, right: u64) -> Effect
    requires left { left < span_of width }
    requires right { right < span_of width }
    ensures { result ≡ product_effect width left right }
{
    let lost = Change::Set(!product_fits(width, left, right));
    Effect {
        number: low(width, left.wrapping_mul(right)),
        changes: Changes {
            carry: lost,
            overflow: lost,
            ..Changes::each(Change::Unsettled)
        },
    }
}

/// The greatest number of the width.
fn greatest(width: Width) -> u64
    ensures { result ≡ span_of width - 1 }
{
    match width {
        Width::Long => 0xffff_ffff,
        Width::Quad => u64::MAX,
    }
}

/// A shift by a count below the number of bits.
#[tactic(auto, unfolding(crate::specs::Arithmetic::shifted), using(crate::proofs::Residues::low_again))]
fn shifted(shift: Shift, width: Width, number: u64, count: u8) -> u64
    requires count { count < 64 }
    requires number { number < span_of width }
    ensures { result ≡ shifted shift width number count }
{
    match shift {
        Shift::Left => low(width, number << count),
        Shift::Right => number >> count,
        Shift::RightSigned => shifted_signed(width, number, count),
    }
}

/// sar: copies of the sign bit are shifted in.
#[tactic(auto, unfolding(crate::specs::Arithmetic::shifted))]
fn shifted_signed(width: Width, number: u64, count: u8) -> u64
    requires count { count < 64 }
    requires number { number < span_of width }
    ensures { result ≡ shifted RightSigned width number count }
{
    let low = number >> count;
    if is_negative(width, number) {
        return low + (greatest(width) - (greatest(width) >> count));
    }
    low
}

/// The last bit that was shifted out.
#[tactic(auto, unfolding(crate::specs::Arithmetic::bit_out))]
fn bit_out(shift: Shift, width: Width, number: u64, count: u8) -> bool
    requires some { 0 < count }
    requires less { count < bits_of width }
    ensures { result ≡ bit_out shift width number count }
{
    match shift {
        Shift::Left => (number >> (bits(width) - count)) % 2 == 1,
        Shift::Right => (number >> (count - 1)) % 2 == 1,
        Shift::RightSigned => (number >> (count - 1)) % 2 == 1,
    }
}

/// OF of a shift by 1.
#[tactic(auto, unfolding(crate::specs::Arithmetic::shift_overflows))]
fn shift_overflows(shift: Shift, width: Width, number: u64) -> bool
    requires { number < span_of width }
    ensures { result ≡ shift_overflows shift width number }
{
    match shift {
        Shift::Left => {
            let sign = is_negative(width, shifted(shift, width, number, 1));
            differ(sign, bit_out(shift, width, number, 1))
        }
        Shift::Right => is_negative(width, number),
        Shift::RightSigned => false,
    }
}

/// How a shift changes OF.
fn shift_overflow(shift: Shift, width: Width, number: u64, count: u8) -> Change
    requires { number < span_of width }
    ensures { result ≡ (if count == 1 then Set (shift_overflows shift width number) else Unsettled) }
{
    if count == 1 {
        return Change::Set(shift_overflows(shift, width, number));
    }
    Change::Unsettled
}

/// shl, shr, sar by a count below the number of bits.
#[tactic(auto, unfolding(crate::specs::Arithmetic::shift_effect))]
fn shift_by(shift: Shift, width: Width, number: u64, count: u8) -> Effect
    requires count { count < bits_of width }
    requires number { number < span_of width }
    ensures { result ≡ shift_effect shift width number count }
{
    if count == 0 {
        return Effect {
            number,
            changes: Changes::each(Change::Kept),
        };
    }
    let carry = Change::Set(bit_out(shift, width, number, count));
    by_result(
        width,
        shifted(shift, width, number, count),
        carry,
        shift_overflow(shift, width, number, count),
    )
}

/// shl, shr, sar. The count is taken modulo the width's number of bits.
pub fn shift(shift: Shift, width: Width, number: u64, count: u8) -> Effect
    requires { number < span_of width }
    ensures { result ≡ shift_effect shift width number (count % bits_of width) }
{
    shift_by(shift, width, number, count % bits(width))
}
