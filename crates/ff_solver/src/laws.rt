//! What the nodes of a decision tree tell of solutions.
ghost use Rattle.ff_solver.specs.SolutionLaws.{DecidedNodesAreSolutions};

/// A law: where the closure of a board and of tried values doesn't clash and decides all of a part, what it decides is a solution
/// of the part.
pub fn decided_nodes_are_solutions()
    ensures { DecidedNodesAreSolutions }
{}
