//! Laws of names. Each function does nothing; what it ensures is the law.

ghost use Rattle.loaded_names.specs.Laws.{FunctionsAreLoaded, FunctionsAreMeant, ImportsAreFound, InfosAreLoaded};
ghost use Rattle.loaded_names.specs.Laws.{InfosAreMeant, VariablesAreLoaded, VariablesAreMeant};

/// Sizes and alignments of blocks, and the images that need the surplus, are those of the objects' sections and
/// sequences.
pub fn infos_are_loaded()
    ensures { InfosAreLoaded }
{}

/// The function with a name is at the address where the objects define it, if that is a byte of their code.
pub fn functions_are_loaded()
    ensures { FunctionsAreLoaded }
{}

/// The variable with a name is at the offset where the objects define it.
pub fn variables_are_loaded()
    ensures { VariablesAreLoaded }
{}

/// A name that a sequence takes from a startup image is found in the image that it is bound to, by its definition
/// there.
pub fn imports_are_found()
    ensures { ImportsAreFound }
{}

/// Functions of each instance are found as in the job's meaning.
pub fn functions_are_meant()
    ensures { FunctionsAreMeant }
{}

/// So are variables of each image.
pub fn variables_are_meant()
    ensures { VariablesAreMeant }
{}

/// So are the sizes and alignments of all blocks.
pub fn infos_are_meant()
    ensures { InfosAreMeant }
{}
