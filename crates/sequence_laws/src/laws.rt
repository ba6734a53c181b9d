//! The laws. The functions do nothing: what they ensure is the law.

ghost use Rattle.sequence_laws.specs.Laws.{RewrittenSitesAreRead, KeptSitesAreRead};
ghost use Rattle.sequence_laws.specs.Laws.{KeptSitesAreWhole, RewrittenSitesAreWhole};

/// At a row's bytes, with any four in their field, a processor reads the instructions of the row.
pub fn rewritten_sites_are_read()
    ensures { RewrittenSitesAreRead }
{}

/// At a form's bytes, with any in their fields, a processor reads the instructions of the form.
pub fn kept_sites_are_read()
    ensures { KeptSitesAreRead }
{}

/// The instructions of a form have as many bytes as the form.
pub fn kept_sites_are_whole()
    ensures { KeptSitesAreWhole }
{}

/// The instructions of a row have as many bytes as the row.
pub fn rewritten_sites_are_whole()
    ensures { RewrittenSitesAreWhole }
{}
