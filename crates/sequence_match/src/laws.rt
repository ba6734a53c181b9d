//! Laws of sites. The functions do nothing: what they ensure is the law.

ghost use Rattle.sequence_match.specs.Laws.{SitesAreApart};

/// Two sites of an object share no byte.
pub fn sites_are_apart()
    ensures { SitesAreApart }
{}
