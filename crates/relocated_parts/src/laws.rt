//! Laws of relocated parts. Each function does nothing; what it ensures is the law.

ghost use Rattle.relocated_parts.specs.Laws.{BlocksAreLeft, LoadedBytesAreCovered, LoadedPartsAreLeft, PartsAreLeft};

/// The bytes of a part after loading, if no two of its relocations share a byte.
pub fn parts_are_left()
    ensures { PartsAreLeft }
{}

/// This holds for each part of an image that a linker makes, in each of its instances.
pub fn loaded_parts_are_left()
    ensures { LoadedPartsAreLeft }
{}

/// A byte of such a part is written by the relocation that covers it; if none does, it is the part's own.
pub fn loaded_bytes_are_covered()
    ensures { LoadedBytesAreCovered }
{}

/// The same for the block that each thread begins with.
pub fn blocks_are_left()
    ensures { BlocksAreLeft }
{}
