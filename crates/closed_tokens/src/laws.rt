//! Laws of single jobs. Each function does nothing; what it ensures is the law.

ghost use Rattle.closed_tokens.specs.Laws.{NewDescriptorSaysTheSame, OldDescriptorIsUnclean, PeekIsUnclean};
ghost use Rattle.closed_tokens.specs.Laws.{PeekSaysTheSame};

/// Lines of the first job of `specs/Peeked.antt` show the same bytes in the meaning and in the machine, rewritten and
/// kept.
#[tactic(auto, using(crate::proofs::Peeked::says_the_same))]
pub fn peek_says_the_same()
    ensures { PeekSaysTheSame }
{}

/// In the second, lines that show a descriptor or a base are unclean, and the machine shows what its linker chose.
#[tactic(auto, using(crate::proofs::Peeked::unclean))]
pub fn peek_is_unclean()
    ensures { PeekIsUnclean }
{}

/// The first job of `specs/OldDescriptor.antt` prints the same in the meaning and in the machine, in both settings:
/// the descriptor of a closed instance is moved, and one of the next instance is called.
#[tactic(auto, using(crate::proofs::OldDescriptor::says_the_same))]
pub fn new_descriptor_says_the_same()
    ensures { NewDescriptorSaysTheSame }
{}

/// In the second, code of the next instance calls the old descriptor: that is unclean, and the machine finds no table
/// there.
#[tactic(auto, using(crate::proofs::OldDescriptor::unclean))]
pub fn old_descriptor_is_unclean()
    ensures { OldDescriptorIsUnclean }
{}
