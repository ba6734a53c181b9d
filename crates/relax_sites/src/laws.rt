//! Laws of the two tables. The functions do nothing: what they ensure is the law.

ghost use Rattle.relax_sites.specs.Laws.{ChoicesAreOfTheirForms, RowsHaveTheirFormsLength, RowsEndInTheirFields};
ghost use Rattle.relax_sites.specs.Laws.{RewritingStaysInTheSite, FieldsStandInTheirRows};

/// The choice for a form is one of that form's choices.
pub fn choices_are_of_their_forms()
    ensures { ChoicesAreOfTheirForms }
{}

/// The new bytes are as many as those of the sequence that they replace.
pub fn rows_have_their_forms_length()
    ensures { RowsHaveTheirFormsLength }
{}

/// The field of the new bytes is their last four, which are zero.
pub fn rows_end_in_their_fields()
    ensures { RowsEndInTheirFields }
{}

/// A rewritten site has the new bytes in its place, and all bytes before and after it stay.
pub fn rewriting_stays_in_the_site()
    ensures { RewritingStaysInTheSite }
{}

/// Bytes that are written to the field of new bytes, after a site was rewritten, stand in these new bytes.
pub fn fields_stand_in_their_rows()
    ensures { FieldsStandInTheirRows }
{}
