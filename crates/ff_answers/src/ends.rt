//! That each system with givens comes to a clash, or to a closure with parts and their decision trees.
ghost use Rattle.ff_answers.specs.Ends.{EachSystemEnds};

/// It can't be that the closure of givens doesn't clash and has no parts with decision trees.
pub fn each_system_ends()
    ensures { EachSystemEnds }
{}
