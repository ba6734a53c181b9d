//! Laws of every layout: each function's contract is the law, and its body is empty.

ghost use Rattle.std.specs.Prelude.{ℕ, ◌+◌, ◌<◌, ◌≤◌, List, All, length};
ghost use Rattle.link_faults.specs.declared.image_kind.ImageKind.{ImageKind};
ghost use Rattle.tls_layout.specs.declared.statics.TlsSize.{TlsSize};
ghost use Rattle.tls_layout.specs.Rounding.{round_up, IsLeastMultiple};
ghost use Rattle.tls_layout.specs.Sections.{Layout};
ghost use Rattle.tls_layout.specs.Places.{IsLawful};
ghost use Rattle.tls_layout.specs.Laws.{FindsSections, LieInTheirClasses, HaveAddresses, AddressesAreApart};
ghost use Rattle.tls_layout.specs.Laws.{ClassesFollow, LieInTheSegment, HaveOffsets, OffsetsAreApart, AlignmentSuits};
ghost use Rattle.tls_layout.specs.Laws.{IsFrontOfSegment, BlocksAreApart, IsBelowThreadPointer};
ghost use Rattle.tls_layout.specs.Statics.{IsTlsSize};

/// A layout holds of each section what its object says.
#[tactic(auto, using(crate::proofs::LawsOfSections::finds_sections))]
pub fn sections_are_found()
    ensures { (kind : ImageKind) (objects : List (List ℕ)) → FindsSections kind objects }
{}

/// Rounding up gives the least multiple of the alignment at or above a number.
#[tactic(auto, using(crate::proofs::Rounds::least_multiple))]
pub fn rounding_is_least()
    ensures { (n alignment : ℕ) → 0 < alignment → IsLeastMultiple n alignment (round_up n alignment) }
{}

/// A section lies at a multiple of its alignment, in its class, at or above the base and below the room.
pub fn sections_lie_in_their_classes()
    ensures { (p : Layout) → IsLawful p → LieInTheirClasses p }
{}

/// Every section that linking keeps has an address, except thread-local sections without bytes in the file.
#[tactic(auto, using(crate::proofs::LawsOfPlaces::have_addresses))]
pub fn sections_have_addresses()
    ensures { (p : Layout) → HaveAddresses p }
{}

/// No two sections overlap in an image.
#[tactic(auto, using(crate::proofs::LawsOfPlaces::addresses_apart))]
pub fn addresses_are_apart()
    ensures { (p : Layout) → AddressesAreApart p }
{}

/// Each class begins on a page, at or after the end of the class before it, and so does the room.
pub fn classes_follow_each_other()
    ensures { (p : Layout) → ClassesFollow p }
{}

/// A thread-local section lies at a multiple of its alignment, inside the TLS segment.
#[tactic(auto, using(crate::proofs::LawsOfTls::lie_in_segment))]
pub fn thread_local_sections_lie_in_the_segment()
    ensures { (p : Layout) → IsLawful p → LieInTheSegment p }
{}

/// Every thread-local section has an offset.
#[tactic(auto, using(crate::proofs::LawsOfTls::have_offsets))]
pub fn thread_local_sections_have_offsets()
    ensures { (p : Layout) → HaveOffsets p }
{}

/// No two thread-local sections overlap in a block.
#[tactic(auto, using(crate::proofs::LawsOfTls::offsets_apart))]
pub fn offsets_are_apart()
    ensures { (p : Layout) → OffsetsAreApart p }
{}

/// If a TLS segment keeps its alignment, so does each of its sections.
pub fn alignment_suits_all_sections()
    ensures { (p : Layout) → IsLawful p → AlignmentSuits p }
{}

/// The initial image has in the image the same layout as its copy in a block.
pub fn initial_image_is_the_front_of_the_segment()
    ensures { (p : Layout) → IsLawful p → IsFrontOfSegment p }
{}

/// No byte below a thread pointer belongs to the blocks of two modules.
pub fn blocks_are_apart()
    ensures { (sizes : List TlsSize) → BlocksAreApart sizes }
{}

/// A module's block ends at or below the thread pointer, and begins a multiple of its alignment below it.
#[tactic(auto, using(crate::proofs::LawsOfBlocks::below_thread_pointer))]
pub fn blocks_lie_below_the_thread_pointer()
    ensures { (sizes : List TlsSize) (m : ℕ) → All IsTlsSize sizes → m < length sizes → IsBelowThreadPointer sizes m }
{}
