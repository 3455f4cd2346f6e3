//! Laws of folding.
ghost use Rattle.ff_reflect.specs.Laws.{FoldOrRefused, HaveOneFolding, HaveOneRefusal, RefusedDontFold};

/// A law: a list of faces has at most one folding.
pub fn faces_have_one_folding()
    ensures { HaveOneFolding }
{}

/// A law: faces that are refused don't fold. Where they would have to lie alike and not alike, or don't meet at a vertex,
/// they fold at no scale; where a coordinate is too large, they have no folding with near points.
pub fn refused_faces_dont_fold()
    ensures { RefusedDontFold }
{}

/// A law: faces have at most one refusal.
pub fn faces_have_one_refusal()
    ensures { HaveOneRefusal }
{}

/// A law: faces fold with near points or are refused: it can't be that they don't and nothing is refused.
pub fn faces_fold_or_are_refused()
    ensures { FoldOrRefused }
{}
