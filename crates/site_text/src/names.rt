//! The names of forms and choices.

ghost use Rattle.std.specs.Prelude.{◌≡◌};
ghost use Rattle.site_text.specs.Names.{choice_name, form_name};

use relax_sites::Choice;
use sequence_match::Form;

/// The name of a form, as it is printed.
pub fn form_name(form: Form) -> &'static str
    ensures { result.now ≡ form_name form }
{
    match form {
        Form::Gd => "gd",
        Form::Ld => "ld",
        Form::IeMov => "ie-mov",
        Form::IeAdd => "ie-add",
        Form::GdInd => "gd-ind",
        Form::LdInd => "ld-ind",
        Form::DescLea => "desc-lea",
        Form::DescCall => "desc-call",
    }
}

/// The name of a choice, as it is printed.
pub fn choice_name(choice: Choice) -> &'static str
    ensures { result.now ≡ choice_name choice }
{
    match choice {
        Choice::Keep => "keep",
        Choice::GdLe => "gd-le",
        Choice::GdIe => "gd-ie",
        Choice::LdLe => "ld-le",
        Choice::IeLe => "ie-le",
        Choice::DescLe => "desc-le",
        Choice::DescIe => "desc-ie",
    }
}
