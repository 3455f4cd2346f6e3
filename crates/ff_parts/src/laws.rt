//! What stands of parts, whoever found them, and of givens whose closure clashes.
ghost use Rattle.ff_parts.specs.Factors.{ClashAllowsNone};
ghost use Rattle.ff_parts.specs.PartLaws.{ConstraintsTouchOnePart, PartsAreApart, PartsFactor, PartsShareOut};

/// A law: where the closure of the givens clashes, no assignment meets the constraints and holds the givens.
pub fn clash_allows_none()
    ensures { ClashAllowsNone }
{}

/// A law: choices of one solution of each part correspond one-to-one to the assignments that meet the constraints and hold the
/// givens, for whichever givens the values are the closure. Where a part has no solution there is no such assignment.
pub fn parts_factor()
    ensures { PartsFactor }
{}

/// A law: the undecided variables are those of the parts. Each is of exactly one: two parts have no variable in common.
pub fn parts_share_out()
    ensures share { PartsShareOut }
    ensures apart { PartsAreApart }
{}

/// A law: no constraint touches two parts.
pub fn constraints_touch_one_part()
    ensures { ConstraintsTouchOnePart }
{}
