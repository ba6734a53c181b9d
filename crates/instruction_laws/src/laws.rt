//! The laws. The functions do nothing: what they ensure is the law.

ghost use Rattle.instruction_laws.specs.Laws.{ComparisonsDecide, ComputationsAreTheManuals, ConditionsAreTheManuals, FlagsChange, ProductsAreTheManuals, ShiftsAreTheManuals, StepsAreOnly, StepsAreTheManuals, WordsAreSigned};
ghost use Rattle.instruction_laws.specs.Opcodes.{DigitsAreTheManuals, OpcodesAreTheManuals};

/// Each word is a signed integer, and only one.
pub fn words_are_signed()
    ensures { WordsAreSigned }
{}

/// The results and flags of add, or, and, sub, xor and cmp.
pub fn computations_are_the_manuals()
    ensures { ComputationsAreTheManuals }
{}

/// Those of imul.
pub fn products_are_the_manuals()
    ensures { ProductsAreTheManuals }
{}

/// Those of shl, shr and sar, by a masked count.
pub fn shifts_are_the_manuals()
    ensures { ShiftsAreTheManuals }
{}

/// What becomes of the flags.
pub fn flags_change()
    ensures { FlagsChange }
{}

/// The conditions by the flags.
pub fn conditions_are_the_manuals()
    ensures { ConditionsAreTheManuals }
{}

/// The conditions after cmp, by the numbers that were compared.
pub fn comparisons_decide()
    ensures { ComparisonsDecide }
{}

/// What the manual says that an instruction does, the machine does, where accesses are allowed.
pub fn steps_are_the_manuals()
    ensures { StepsAreTheManuals }
{}

/// What the machine does, the manual says, where memory holds bytes: so it says one thing.
pub fn steps_are_only()
    ensures { StepsAreOnly }
{}

/// The opcodes by their bytes.
pub fn opcodes_are_the_manuals()
    ensures { OpcodesAreTheManuals }
{}

/// What the digit in ModRM's reg field makes of an opcode that it completes.
pub fn digits_are_the_manuals()
    ensures { DigitsAreTheManuals }
{}
