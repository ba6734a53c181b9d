//! Laws of what a thread reads. Each function does nothing; what it ensures is the law.

ghost use Rattle.tied_memory.specs.Laws.{InstructionsAreFetched, PointersAreLoaded, WordsAreLoaded};

/// A thread fetches the instruction that a live instance has at an address.
pub fn instructions_are_fetched()
    ensures { InstructionsAreFetched }
{}

/// A thread loads the word that a live instance has at an address.
pub fn words_are_loaded()
    ensures { WordsAreLoaded }
{}

/// The word at a thread pointer is the thread pointer.
pub fn pointers_are_loaded()
    ensures { PointersAreLoaded }
{}
