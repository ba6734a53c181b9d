//! The law that generated objects link. The function does nothing; what it ensures is the law.

ghost use Rattle.generated_laws.specs.Linked.{GeneratedObjectsLink};

/// The objects of a generated program link together, and the module's object links, whatever names startup images
/// export.
pub fn generated_objects_link()
    ensures { GeneratedObjectsLink }
{}
