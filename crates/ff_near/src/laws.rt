//! Laws of distances.
ghost use Rattle.ff_near.specs.Laws.{DistancesAreSums, LeastSumsAreBest, NearestAreBest, WishesAreWanted};

/// The distance of a stacking that keeps the creases is the share of the decided pairs and the costs of its choice.
pub fn distances_are_sums()
    ensures { DistancesAreSums }
{}

/// Choices of least sum are those that take a best solution of each part, and theirs are the nearest stackings.
pub fn least_sums_are_best()
    ensures sums { LeastSumsAreBest }
    ensures nearest { NearestAreBest }
{}

/// Given orders that are wanted of a case are given orders of overlapping faces of its sheet, each pair at most once.
pub fn wishes_are_wanted()
    ensures { WishesAreWanted }
{}
