//! The table of choices.

ghost use Rattle.std.specs.Prelude.{◌≡◌};
ghost use Rattle.relax_sites.specs.Choices.{choice_of, program_choice};
ghost use Rattle.relax_sites.specs.ChoiceLaws.{IsChoiceOf};

use crate::choices::Choice;
use link_faults::{Binding, ImageKind};
use sequence_forms::Form;

/// The sequence in the place of a site of this form, whose symbol has this binding, in an image of this kind. `relax`
/// is false if the user asks for no rewriting.
pub fn choice(form: Form, binding: Binding, kind: ImageKind, relax: bool) -> Choice
    ensures table { result ≡ choice_of form binding kind relax }
    ensures own { IsChoiceOf form result }
{
    match kind {
        ImageKind::Exe | ImageKind::Pie if relax => program_choice(form, binding),
        _ => Choice::Keep,
    }
}

/// The choices of a program that is linked with rewriting.
fn program_choice(form: Form, binding: Binding) -> Choice
    ensures table { result ≡ program_choice form binding }
    ensures own { IsChoiceOf form result }
{
    match (form, binding) {
        (Form::Gd | Form::GdInd, Binding::Here(_)) => Choice::GdLe,
        (Form::Gd | Form::GdInd, Binding::Startup(_)) => Choice::GdIe,
        (Form::Ld | Form::LdInd, _) => Choice::LdLe,
        (Form::IeMov | Form::IeAdd, Binding::Here(_)) => Choice::IeLe,
        (Form::DescLea | Form::DescCall, Binding::Here(_)) => Choice::DescLe,
        (Form::DescLea | Form::DescCall, Binding::Startup(_)) => Choice::DescIe,
        (_, Binding::Startup(_) | Binding::Runtime) => Choice::Keep,
    }
}
