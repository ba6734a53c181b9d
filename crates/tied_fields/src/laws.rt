//! Laws of fields. Each function does nothing; what it ensures is the law.

ghost use Rattle.tied_fields.specs.Jobs.{JobsAreTied};
ghost use Rattle.tied_fields.specs.Laws.{AddressFieldsAreTied, CodeIsTied, DescriptorsHaveOneNumber};
ghost use Rattle.tied_fields.specs.Laws.{FieldsHaveTheirBeginning, InstancesAreTied, OffsetFieldsAreTied};
ghost use Rattle.tied_fields.specs.Laws.{PlacesAreTied};
ghost use Rattle.tied_fields.specs.Laws.{RoomsHaveNoCode};

/// An address outside the room has the byte that the meaning marks there: the same one, or one of a field or of a
/// sequence.
pub fn code_is_tied()
    ensures { CodeIsTied }
{}

/// In the room the meaning has no code.
pub fn rooms_have_no_code()
    ensures { RoomsHaveNoCode }
{}

/// A byte of a field has the field's first byte before it.
pub fn fields_have_their_beginning()
    ensures { FieldsHaveTheirBeginning }
{}

/// An offset field moves the base of each thread's block to the meaning's address.
pub fn offset_fields_are_tied()
    ensures { OffsetFieldsAreTied }
{}

/// An address field leads to a word that holds the meaning's address.
pub fn address_fields_are_tied()
    ensures { AddressFieldsAreTied }
{}

/// All sequences of an image that make a symbol's descriptor, or call it, have one number for it.
pub fn descriptors_have_one_number()
    ensures { DescriptorsHaveOneNumber }
{}

/// All that is loaded of an instance lies at addresses with its number in them.
pub fn places_are_tied()
    ensures { PlacesAreTied }
{}

/// An instance is tied, if the code in place of its sequences does what they mean.
pub fn instances_are_tied()
    ensures { InstancesAreTied }
{}

/// So are all instances of a job.
pub fn jobs_are_tied()
    ensures { JobsAreTied }
{}
