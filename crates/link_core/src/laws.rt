//! Laws of linked images. The functions do nothing; each `ensures` a law.

ghost use Rattle.link_core.specs.Laws.{BytesAreMeant, BytesAreMeantByPlace, EntriesStand, FieldsGoWithTheirSites};
ghost use Rattle.link_core.specs.Laws.{GapsAreZero, ImagesAreFramed, ImagesHoldTls, NewFieldsFit};
ghost use Rattle.link_core.specs.Laws.{ReplacedFieldsLieInSites, StubsAreParts, StubsStand, TablesAreParts};

/// An image can be written: its TLS segment begins at or before the end of its last part.
pub fn images_hold_tls()
    ensures { ImagesHoldTls }
{}

/// Each byte of a section is at its place, as the section, its relocations and its sequences mean it.
pub fn bytes_are_meant()
    ensures { BytesAreMeant }
{}

/// Each entry of the global offset table is at its place, with the numbers of its row.
pub fn entries_stand()
    ensures { EntriesStand }
{}

/// The stub is at its place, and jumps through the word of `__tls_get_addr`.
pub fn stubs_stand()
    ensures { StubsStand }
{}

/// The field of a relocation is outside all rewritten sequences; a relocation with no field is inside one.
pub fn fields_go_with_their_sites()
    ensures { FieldsGoWithTheirSites }
{}

/// So a relocation has no field exactly if its place is in a rewritten sequence.
pub fn replaced_fields_lie_in_sites()
    ensures { ReplacedFieldsLieInSites }
{}

/// What a byte means depends only on its place: it is in a rewritten sequence, else in a field, else the section's own.
pub fn bytes_are_meant_by_place()
    ensures { BytesAreMeantByPlace }
{}

/// The new field of a rewritten sequence holds its value, so it is written.
pub fn new_fields_fit()
    ensures { NewFieldsFit }
{}

/// Parts of sections are zero where no section has a byte.
pub fn gaps_are_zero()
    ensures { GapsAreZero }
{}

/// The part that only the loader writes is the whole global offset table.
pub fn tables_are_parts()
    ensures { TablesAreParts }
{}

/// The stub is a part with code.
pub fn stubs_are_parts()
    ensures { StubsAreParts }
{}

/// A draft of the link has a frame, in which the link's file is that of its image.
pub fn images_are_framed()
    ensures { ImagesAreFramed }
{}
