//! Laws of what a pattern comes to.
ghost use Rattle.ff_problem.specs.Laws.{ProblemIsOne, ProblemsAreNotRefused, ProblemRefusalIsOne};

/// A pattern comes to the same faces and folding, and to one case but for the places of its cites.
pub fn problem_is_one()
    ensures { ProblemIsOne }
{}

/// A pattern that comes to a case isn't refused, and another has at most one refusal.
pub fn refusal_is_one()
    ensures given { ProblemsAreNotRefused }
    ensures one { ProblemRefusalIsOne }
{}
