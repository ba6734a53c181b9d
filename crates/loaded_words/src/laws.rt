//! Laws of loaded words. Each function does nothing; what it ensures is the law.

ghost use Rattle.loaded_words.specs.Laws.{InstancesArePlaced, StubIsLoaded, TablesHold, WordsAreLoaded};

/// In each history of a job the program's instance is module 1, and its blocks begin right below the thread pointer.
pub fn instances_are_placed()
    ensures { InstancesArePlaced }
{}

/// Each word of a loaded table is the one that the kind of its entry defines.
pub fn words_are_loaded()
    ensures { WordsAreLoaded }
{}

/// Both words of a pair or of a descriptor lie in a range of the instance from which the run time reads them.
pub fn tables_hold()
    ensures { TablesHold }
{}

/// The stub is run as it is in the file, since no relocation writes in it: a jump through the run time's word.
pub fn stub_is_loaded()
    ensures { StubIsLoaded }
{}
