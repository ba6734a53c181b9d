//! Refutations. Each function does nothing but to call the laws that fix the right definitions.

ghost use Rattle.refuted_definitions.specs.Causes.{CausesAreRefuted};
ghost use Rattle.refuted_definitions.specs.Fields.{FieldsAreRefuted};
ghost use Rattle.refuted_definitions.specs.Histories.{HistoriesAreRefuted};
ghost use Rattle.refuted_definitions.specs.Instructions.{InstructionsAreRefuted};
ghost use Rattle.refuted_definitions.specs.Layout.{LayoutsAreRefuted};
ghost use Rattle.refuted_definitions.specs.Lines.{LinesAreRefuted};
ghost use Rattle.refuted_definitions.specs.Names.{NamesAreRefuted};
ghost use Rattle.refuted_definitions.specs.Places.{PlacesAreRefuted};
ghost use Rattle.refuted_definitions.specs.Texts.{TextsAreRefuted};

/// What a field holds.
pub fn fields_are_refuted()
    ensures { FieldsAreRefuted }
{
    field_laws::fields_are_stored();
}

/// What a name is bound to.
pub fn names_are_refuted()
    ensures { NamesAreRefuted }
{
    binding_laws::bindings_are_only();
}

/// Where sections and blocks lie.
pub fn layouts_are_refuted()
    ensures { LayoutsAreRefuted }
{
    layout_laws::laws::addresses_are_only();
    layout_laws::laws::offsets_are_only();
    layout_laws::laws::blocks_are_only();
}

/// What a job's words and a transcript say.
pub fn texts_are_refuted()
    ensures { TextsAreRefuted }
{
    job_grammar_laws::laws::numbers_are_written();
}

/// What instructions compute.
pub fn instructions_are_refuted()
    ensures { InstructionsAreRefuted }
{
    instruction_laws::laws::words_are_signed();
    instruction_laws::laws::computations_are_the_manuals();
    instruction_laws::laws::products_are_the_manuals();
    instruction_laws::laws::shifts_are_the_manuals();
    instruction_laws::laws::flags_change();
    instruction_laws::laws::conditions_are_the_manuals();
}

/// Which opens and closes are refused.
pub fn histories_are_refuted()
    ensures { HistoriesAreRefuted }
{
    line_laws::laws::histories_have_accounts();
    line_laws::laws::opens_are_ruled();
    line_laws::laws::closes_are_ruled();
}

/// What lines print, and how many steps they take.
pub fn lines_are_refuted()
    ensures { LinesAreRefuted }
{}

/// Whose an address is, and what a fresh block holds.
pub fn places_are_refuted()
    ensures { PlacesAreRefuted }
{}

/// Which steps are unclean, and why.
pub fn causes_are_refuted()
    ensures { CausesAreRefuted }
{
    cause_laws::laws::causes_are_answered();
}
