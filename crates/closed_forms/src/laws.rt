//! Laws of single jobs. Each function does nothing; what it ensures is the law.

ghost use Rattle.closed_forms.specs.Laws.{EachFormSaysTheSame, HandedOverSaysTheSame, LateDataSaysTheSame};
ghost use Rattle.closed_forms.specs.Laws.{StackIsAskedFirst};

/// Each job of `specs/EachForm.antt` prints the same in the meaning and in the machine, rewritten and kept.
#[tactic(auto, using(crate::proofs::EachForm::says_the_same))]
pub fn each_form_says_the_same()
    ensures { EachFormSaysTheSame }
{}

/// The two jobs of `specs/HandedOver.antt` print the same in the meaning and in the machine, rewritten and kept.
#[tactic(auto, using(crate::proofs::HandedOver::says_the_same))]
pub fn handed_over_says_the_same()
    ensures { HandedOverSaysTheSame }
{}

/// The job of `specs/LateData.antt` prints the same in the meaning and in the machine, in both settings.
#[tactic(auto, using(crate::proofs::LateData::says_the_same))]
pub fn late_data_says_the_same()
    ensures { LateDataSaysTheSame }
{}

/// In the job of `specs/NoStack.antt` a sequence without stack is unclean, and no look is made for its variable.
#[tactic(auto, using(crate::proofs::NoStack::asks_first))]
pub fn stack_is_asked_first()
    ensures { StackIsAskedFirst }
{}
