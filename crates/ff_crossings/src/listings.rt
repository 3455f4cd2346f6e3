//! Laws of listings.
ghost use Rattle.ff_crossings.specs.Listings.{ListedExactly, PartsAreListed, TriplesSuffice};

/// Faces can be listed bottom to top exactly where no three of them go round.
pub fn listed_exactly()
    ensures { ListedExactly }
{}

/// For this only the values of three faces in the order of their numbers need be asked.
pub fn triples_suffice()
    ensures { TriplesSuffice }
{}

/// A part of what can be listed can be listed.
pub fn parts_are_listed()
    ensures { PartsAreListed }
{}
