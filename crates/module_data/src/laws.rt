//! Laws of loads and writes: each function's contract is the law, and its body is empty.

ghost use Rattle.std.specs.Prelude.{◌≡◌, ◌≤◌, ◌<◌, ℕ, List, Some, None, true, false, length};
ghost use Rattle.loaded_modules.specs.declared.instance.Instance.{Instance};
ghost use Rattle.loaded_modules.specs.Images.{JobImages};
ghost use Rattle.module_data.specs.Parts.{fresh_data};
ghost use Rattle.module_data.specs.Pieces.{Piece, data_of, first_data, first_instance, loaded, starts_at};
ghost use Rattle.module_data.specs.Laws.{Write, ReadsLast, after_writes};

use crate::data::Data;

/// Each image that starts with the program begins with the data that the loader left.
#[tactic(auto, using(crate::proofs::Written::begins_fresh))]
pub fn programs_begin_fresh()
    ensures { (m : JobImages) (number : ℕ) → number ≤ length m.images → starts_at m number ≡ true
        → data_of (first_data m) number number ≡ Some (fresh_data m (first_instance m number)) }
{}

/// A late image has no data before it is loaded.
#[tactic(auto, using(crate::proofs::Written::begins_without))]
pub fn late_images_begin_without()
    ensures { (m : JobImages) (instance number : ℕ) → number ≤ length m.images → starts_at m number ≡ false
        → data_of (first_data m) instance number ≡ None }
{}

/// A byte that a thread reads is the one that was last written there, by any thread, or else the fresh one.
#[tactic(auto, using(crate::proofs::Written::reads_last))]
pub fn reads_give_what_was_last_written()
    ensures { (m : JobImages) (x : Instance) (d : List Piece) (writes : List Write) (at : ℕ) → 1 ≤ x.number
        → x.image < length d → at < length (fresh_data m x) → ReadsLast m x d writes at }
{}

/// A load changes no data of other images.
#[tactic(auto, using(crate::proofs::Written::loads_leave_others))]
pub fn loads_leave_other_images()
    ensures { (m : JobImages) (x : Instance) (d : List Piece) (instance image : ℕ) → (image ≡ x.image → ⊥)
        → data_of (loaded m x d) instance image ≡ data_of d instance image }
{}

/// After a load an image has no data of any other instance: a write to a closed one cannot come back.
#[tactic(auto, using(crate::proofs::Written::loads_end_others))]
pub fn loads_end_other_instances()
    ensures { (m : JobImages) (x : Instance) (d : List Piece) (instance : ℕ) → (instance ≡ x.number → ⊥)
        → x.image < length d → data_of (loaded m x d) instance x.image ≡ None }
{}

/// Writes change no data of other images.
#[tactic(auto, using(crate::proofs::Written::writes_leave_others))]
pub fn writes_leave_other_images()
    ensures { (d : List Piece) (writes : List Write) (instance image other : ℕ) → (other ≡ image → ⊥)
        → data_of (after_writes image d writes) instance other ≡ data_of d instance other }
{}

/// Checks that threads may move and share a type's values.
fn crosses_threads<T: Send + Sync>() {}

/// Threads may move and share the data.
pub fn data_cross_threads() {
    crosses_threads::<Data>();
}
