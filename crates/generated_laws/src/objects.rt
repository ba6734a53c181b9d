//! Laws of one object. Each function does nothing; what it ensures is the law.

ghost use Rattle.generated_laws.specs.Reading.{ShapesAreRead};
ghost use Rattle.generated_laws.specs.Sound.{GeneratedObjectsAreFaultless};

/// The bytes of a shape's object are read as the shape: its sections, its symbols and its relocations.
pub fn shapes_are_read()
    ensures { ShapesAreRead }
{}

/// Each object of a generated job, and the module's, has no fault of any kind, and all its TLS accesses are sequences.
pub fn generated_objects_are_faultless()
    ensures { GeneratedObjectsAreFaultless }
{}
