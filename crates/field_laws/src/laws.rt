//! The laws. The functions do nothing: what they ensure is the law.

ghost use Rattle.field_laws.specs.Laws.{FieldsAreStored, TypesAreListed};
ghost use Rattle.field_laws.specs.Links.{LettersAreThere, LinksStoreFields, ResolvedLinksStoreFields};

/// The numbers of the table are those of the types that linking takes, and no others.
pub fn types_are_listed()
    ensures { TypesAreListed }
{}

/// What a relocation stores is the only field that meets its row, and nothing exactly where no number that meets it
/// fits.
pub fn fields_are_stored()
    ensures { FieldsAreStored }
{}

/// A link stores what the row says of the letters that its symbol, its field and its table have.
pub fn links_store_fields()
    ensures { LinksStoreFields }
{}

/// Each relocation has its letters.
pub fn letters_are_there()
    ensures { LettersAreThere }
{}

/// If names have no fault, that is so of each relocation that linking keeps.
pub fn resolved_links_store_fields()
    ensures { ResolvedLinksStoreFields }
{}
