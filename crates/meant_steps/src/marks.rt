//! The marks of code, as a trait.

ghost use Rattle.std.specs.Prelude.{◌≡◌, ℕ};
ghost use Rattle.whole_meaning.specs.declared.marks.Mark.{Mark};

use whole_meaning::Mark;

/// Knows the mark of each address of code.
pub trait Marks {
    /// The mark of each address of code.
    ghost mark: { Self → ℕ → Mark };

    /// The mark of an address of code.
    fn mark(&self, place: u64) -> Mark
        ensures { result ≡ mark self.now place };
}
