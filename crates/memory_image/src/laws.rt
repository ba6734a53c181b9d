//! Laws of the tables. The functions do nothing; each `ensures` a law.

ghost use Rattle.std.specs.Prelude.{◌≡◌, ℕ, true};
ghost use Rattle.link_core.specs.Faults.{IsSound};
ghost use Rattle.link_core.specs.Laws.{HasNoStray};
ghost use Rattle.link_faults.specs.ImageKinds.{is_moved};
ghost use Rattle.link_needs.specs.Given.{IsGiven};
ghost use Rattle.link_needs.specs.Linking.{Linking};
ghost use Rattle.link_needs.specs.Refusals.{FitsKind};
ghost use Rattle.tls_symbols.specs.Faults.{AreResolved};
ghost use Rattle.memory_image.specs.Tables.{IsMovable, Keeps};
ghost use Rattle.whole_meaning.specs.Spots.{bias_of};

/// Fields that hold no address hold the same in each instance of an image.
#[tactic(auto, using(crate::proofs::Keeping::keeps_instance))]
pub fn instances_keep_fields()
    ensures { (l : Linking) (number : ℕ) → (is_moved l.kind ≡ true → IsMovable l) → Keeps l (bias_of l.kind number) }
{}

/// Objects that can be linked make an image that may be moved, if its kind is moved.
#[tactic(auto, using(crate::proofs::Movable::movable))]
pub fn linked_images_are_movable()
    ensures { (l : Linking) → IsGiven l → FitsKind l.objects l.kind → AreResolved l.objects l.startup
        → HasNoStray l → is_moved l.kind ≡ true → IsMovable l }
{}

/// So each instance of an image that is linked keeps these fields.
#[tactic(auto, using(crate::proofs::Movable::keeps_linked))]
pub fn linked_instances_keep_fields()
    ensures { (l : Linking) (number : ℕ) → IsGiven l → IsSound l → HasNoStray l → Keeps l (bias_of l.kind number) }
{}
