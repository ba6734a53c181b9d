//! Laws of loaded bytes. Each function does nothing; what it ensures is the law.

ghost use Rattle.loaded_bytes.specs.Apart.{InstancesLieApart, NoneRunsOn};
ghost use Rattle.loaded_bytes.specs.Laws.{BlocksAreLoaded, BytesAreMeant, CodeIsLoaded, ConstantsAreLoaded, DataIsLoaded};
ghost use Rattle.loaded_bytes.specs.Meant.{BlocksAreMeant, DataIsMeant, ReadsAreMeant};
ghost use Rattle.loaded_bytes.specs.Places.{AllElseIsInTheRoom, PlacesAreOwn};
ghost use Rattle.loaded_bytes.specs.Sections.{SectionsStandAsLoaded};
ghost use Rattle.loaded_bytes.specs.Small.{BytesAreSmall};

/// The byte that can be run at an address of an instance's code is the one that its objects define there.
pub fn code_is_loaded()
    ensures { CodeIsLoaded }
{}

/// So is the byte that can be read of constants, and of the TLS initial image.
pub fn constants_are_loaded()
    ensures { ConstantsAreLoaded }
{}

/// An image with data has one range that threads write, and its bytes are those that the objects define.
pub fn data_is_loaded()
    ensures { DataIsLoaded }
{}

/// A thread's block begins with the initial image, as the instance has it, followed by zeros.
pub fn blocks_are_loaded()
    ensures { BlocksAreLoaded }
{}

/// A section's loaded bytes lie one after another from its address on.
pub fn sections_stand()
    ensures { SectionsStandAsLoaded }
{}

/// Outside code such a byte is that of the job's meaning.
pub fn bytes_are_meant()
    ensures { BytesAreMeant }
{}

/// All that is loaded of an instance lies at its own addresses, and the data that threads write lies apart from all
/// else.
pub fn places_are_own()
    ensures { PlacesAreOwn }
{}

/// Nothing else can be read or run of an instance, except in the room, where all lies that a linker adds to the
/// sections.
pub fn all_else_is_in_the_room()
    ensures { AllElseIsInTheRoom }
{}

/// What can be read of an instance outside the room is what the job's meaning has there.
pub fn reads_are_meant()
    ensures { ReadsAreMeant }
{}

/// So are its data, as a load fills them.
pub fn data_is_meant()
    ensures { DataIsMeant }
{}

/// So is the block that each thread begins with.
pub fn blocks_are_meant()
    ensures { BlocksAreMeant }
{}

/// If objects are lists of bytes, each byte at an address of a class is below 256.
pub fn bytes_are_small()
    ensures { BytesAreSmall }
{}

/// What is loaded of two instances lies apart, unless both are programs at fixed addresses.
pub fn instances_lie_apart()
    ensures { InstancesLieApart }
{}

/// No instruction that begins outside the room has a byte in it.
pub fn none_runs_on()
    ensures { NoneRunsOn }
{}
