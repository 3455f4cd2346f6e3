//! What closures hold, and what the fact rule implies.
ghost use Rattle.ff_propagate.specs.ClosureLaws.{QuietFactsAreTheClosure, DeadFactsClash, ContradictionsClash, AssignmentsHoldTheClosure};
ghost use Rattle.ff_propagate.specs.RuleLaws.{FactsAreInside, FactsGrow};

/// A law: facts that meet the fact rule are in the closure of their givens.
pub fn facts_are_in_the_closure()
    ensures { FactsAreInside }
{}

/// A law: further facts leave the rule of the earlier ones true.
pub fn further_facts_keep_the_rule()
    ensures { FactsGrow }
{}

/// A law: facts that meet the fact rule and hold the givens, and from which no constraint forces more, are exactly the closure.
pub fn quiet_facts_are_the_closure()
    ensures { QuietFactsAreTheClosure }
{}

/// A law: the closure clashes where a constraint is dead in facts that meet the fact rule.
pub fn dead_facts_clash()
    ensures { DeadFactsClash }
{}

/// A law: the closure clashes where two givens contradict each other.
pub fn contradictions_clash()
    ensures { ContradictionsClash }
{}

/// A law: an assignment that meets the constraints and holds the givens has the values of the closure.
pub fn assignments_hold_the_closure()
    ensures { AssignmentsHoldTheClosure }
{}
