//! What the case of a folded sheet says of its stackings, and that a sheet has one case.
ghost use Rattle.ff_borders.specs.Folded.{OfEachFolded};
ghost use Rattle.ff_crossings.specs.CaseLaws.{CasesAreAlike, CasesAreTrue};
ghost use Rattle.ff_crossings.specs.Pins.{PinsAreHeld};

/// The case of a folded sheet is true to it: an assignment meets its constraints exactly where its set of pairs is a
/// geometric stacking, and holds its starts exactly where that keeps the creases; each geometric stacking is the set of
/// an assignment.
pub fn cases_are_true()
    ensures { OfEachFolded CasesAreTrue }
{}

/// Two cases of a folded sheet differ at most in the places of their cites.
pub fn cases_are_alike()
    ensures { OfEachFolded CasesAreAlike }
{}

/// Pins on listed pairs are givens: an assignment holds the starts of a case followed by the facts of the pins exactly where
/// its set of pairs keeps the creases and the pins.
pub fn pins_are_held()
    ensures { PinsAreHeld }
{}
