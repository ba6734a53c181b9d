//! Laws of files of sections, whatever stands in them. The functions do nothing: what they ensure is the law.

ghost use Rattle.placed_sections.specs.Laws.{FilesEnd, SectionsStand, SectionsFit, GapsAreZero};

/// The file ends where the last class with bytes ends.
pub fn files_end()
    ensures { FilesEnd }
{}

/// Each byte of a section is at its place.
pub fn sections_stand()
    ensures { SectionsStand }
{}

/// A section with bytes lies in the file.
pub fn sections_fit()
    ensures { SectionsFit }
{}

/// All bytes outside sections are zero.
pub fn gaps_are_zero()
    ensures { GapsAreZero }
{}
