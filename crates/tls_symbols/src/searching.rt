//! The first relocation that a question is about: each fault of a relocation is found so.

ghost use Rattle.std.specs.Prelude.{◌≡◌, ◌<◌, ◌+◌, ℕ, List, MatchBool, MatchOption, false, length};
ghost use Rattle.elf_object.specs.Object.{section_count};
ghost use Rattle.tls_symbols.specs.declared.uses.Use.{Use};
ghost use Rattle.tls_symbols.specs.Bindings.{object_at};
ghost use Rattle.tls_symbols.specs.Searches.{IsFoundUpTo, MayAsk, MayAskIn, NoneIn, NoneUsed};
ghost use Rattle.tls_symbols.specs.Walks.{IsFirstUsed, NoneBefore};

use crate::uses::Use;
use elf_object::Object;
use link_faults::Place;

/// A question about the relocations of objects.
pub trait Question {
    // what it asks of a relocation
    ghost about: { Self → Use → Type 0 };

    // which relocations it may be asked about
    ghost may_ask: { Self → Use → Type 0 };

    // which objects it may be asked about, by number and bytes
    ghost may_ask_in: { Self → ℕ → List ℕ → Type 0 };

    /// Whether it may be about a relocation of an object, by what is noted of it.
    fn may_be_in(&self, number: usize, object: &Object) -> bool
        requires { may_ask_in self.now number object.now }
        ensures { result ≡ false → NoneIn (about self.now) number object.now };

    /// Whether it is about a relocation.
    fn is_about(&self, found: &Use) -> bool
        requires { may_ask self.now found.now }
        ensures { MatchBool result (about self.now found.now) (about self.now found.now → ⊥) };
}

/// The first relocation that a question is about, of those that a section of an object holds. `table` is the section's
/// number.
fn first_held<Q: Question>(
    question: &Q,
    objects: &[Object],
    number: usize,
    table: u32,
) -> Option<Place>
    requires number { number < length objects.now }
    requires table { (0 < table) × (table < section_count (object_at objects.now number)) }
    requires asked { MayAsk (Q.may_ask question.now) objects.now }
    requires before { NoneBefore (Q.about question.now) objects.now number table 0 }
    ensures { IsFoundUpTo (Q.about question.now) objects.now number (table + 1) result }
{
    let object = &objects[number];
    let Some(section) = object.relocation_target(table) else {
        return None;
    };
    let relocs = object.relocs(section);
    for entry in 0..relocs.len() {
        let found = Use {
            place: Place {
                object: number as u64,
                section: u64::from(table),
                entry,
            },
            section,
            relocation: relocs.at(entry),
        };
        if question.is_about(&found) {
            return Some(found.place);
        }
    }
    None
}

/// The first relocation that a question is about, of an object.
fn first_in<Q: Question>(question: &Q, objects: &[Object], number: usize) -> Option<Place>
    requires number { number < length objects.now }
    requires asked { MayAsk (Q.may_ask question.now) objects.now }
    requires asked_in { MayAskIn (Q.may_ask_in question.now) objects.now }
    requires before { NoneBefore (Q.about question.now) objects.now number 1 0 }
    ensures { IsFoundUpTo (Q.about question.now) objects.now (number + 1) 1 result }
{
    let object = &objects[number];
    let count = object.section_count();
    if !question.may_be_in(number, object) {
        return None;
    }
    for table in 1..count {
        if let Some(place) = first_held(question, objects, number, table) {
            return Some(place);
        }
    }
    None
}

/// The first relocation that a question is about, by object, by the section that holds it, and by its number there.
/// Those of sections that linking drops are left out. Relocations are walked only in objects that may have one.
pub fn first_use<Q: Question>(question: &Q, objects: &[Object]) -> Option<Place>
    requires asked { MayAsk (Q.may_ask question.now) objects.now }
    requires asked_in { MayAskIn (Q.may_ask_in question.now) objects.now }
    ensures { MatchOption result (NoneUsed (Q.about question.now) objects.now)
        (λ place. IsFirstUsed (Q.about question.now) objects.now place.object place.section place.entry) }
{
    for number in 0..objects.len() {
        if let Some(place) = first_in(question, objects, number) {
            return Some(place);
        }
    }
    None
}
