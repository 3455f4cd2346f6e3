//! Laws of faces and refusals.
ghost use Rattle.ff_planar.specs.Laws.{FacesAreOne, FaceRefusalsAreOne, GivenAreNotRefused, GivenOrRefused};

/// A drawing has at most one list of faces.
pub fn faces_are_one()
    ensures { FacesAreOne }
{}

/// Where the faces of a pattern are given, nothing is refused.
pub fn given_faces_are_not_refused()
    ensures { GivenAreNotRefused }
{}

/// The faces of a pattern are given or refused: it can't be that there are none and nothing is refused.
pub fn faces_are_given_or_refused()
    ensures { GivenOrRefused }
{}

/// The faces of a pattern are refused for one reason: the first of its kind, and no other.
pub fn refusals_of_faces_are_one()
    ensures { FaceRefusalsAreOne }
{}
