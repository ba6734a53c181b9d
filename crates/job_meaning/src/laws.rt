//! The law of marked values. The function does nothing; what it ensures is the law.

ghost use Rattle.std.specs.Prelude.{ℕ};
ghost use Rattle.guest_arithmetic.specs.Values.{IsLawful};
ghost use Rattle.job_meaning.specs.Marked.{marked_operations};

/// Marked values keep the laws of values: a number behaves as a number, and only a number may be used as one.
pub fn is_lawful()
    ensures { (owner : ℕ → ℕ) → IsLawful (marked_operations owner) }
{}
