//! The names that an image exports.

use std::marker::Model;

/// The names that an image exports. Contracts see their list, in the order of their definitions.
#[derive(Drop)]
pub struct Exports<'a> {
    names: Vec<&'a [u8]>,
}

impl<'a> Model for Exports<'a> {
    ghost use Rattle.std.specs.Prelude.{ℕ, List, map};

    ghost Value = { List (List ℕ) };

    ghost view = { λ e. map (λ name. name.now) e.names.items };
}

ghost use Rattle.std.specs.Prelude.{◌≡◌, ◌^◌, ◌<◌, length, map};

impl<'a> Exports<'a> {
    /// A list of exported names.
    pub fn of(names: Vec<&'a [u8]>) -> Exports<'a>
        ensures { result ≡ map (λ name. name.now) names.entry.items }
    {
        Exports { names }
    }

    /// The names.
    pub fn names(&self) -> &[&'a [u8]]
        ensures names { map (λ name. name.now) result.now ≡ self.now }
        ensures len { length result.now ≡ length self.now }
    {
        &self.names
    }
}
