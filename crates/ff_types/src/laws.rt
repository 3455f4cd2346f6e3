//! Laws of the smallest sheets. The functions do nothing, and their contracts are the laws.
ghost use Rattle.ff_types.specs.PlainSheets.{PlainRingsAreDrawings, PlainSheetsHaveOneFace, PlainSheetsFoldToThemselves, OneFaceStacksAlone};
ghost use Rattle.ff_types.specs.OneCrease.{CreasedRingsAreDrawings, CreasedRingsHaveTwoFaces, FoldedFacesOverlap, FlatFacesLieApart, TwoFacesStackTwice};

/// A convex ring whose edges are all border edges is a drawing. It has the one face of all its corners, which lies as
/// it was drawn, and the one geometric stacking that has no pair.
pub fn plain_sheets_lie_flat()
    ensures drawing { PlainRingsAreDrawings }
    ensures face { PlainSheetsHaveOneFace }
    ensures folding { PlainSheetsFoldToThemselves }
    ensures stacking { OneFaceStacksAlone }
{}

/// A convex ring with one more edge across it is a drawing. It has the two faces on the two sides of that edge. Folded
/// along it they overlap, and have exactly two geometric stackings; where it is flat they don't overlap.
pub fn one_crease_has_two_faces()
    ensures drawing { CreasedRingsAreDrawings }
    ensures faces { CreasedRingsHaveTwoFaces }
    ensures overlap { FoldedFacesOverlap }
    ensures apart { FlatFacesLieApart }
    ensures stackings { TwoFacesStackTwice }
{}
