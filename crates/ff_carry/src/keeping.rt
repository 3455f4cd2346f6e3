//! Keeps the old facts that still stand, by level.
ghost use Rattle.std.specs.Prelude.{◌≡◌, ℕ, ◌+◌, ◌<◌, ◌≤◌, IsTrue, length, slice_get, Some, None};
ghost use Rattle.ff_tables.specs.Systems.{AreFit};
ghost use Rattle.ff_propagate.specs.declared.facts.Fact.{Fact as FactSpec};
ghost use Rattle.ff_propagate.specs.Facts.{fact_at};
ghost use Rattle.ff_carry.specs.Keeping.{HaveReasons, Keeps, IsKeeping, AreKept};
ghost use Rattle.ff_carry.specs.Placing.{IsOrder};

use crate::forcing::forces;
use crate::placing::Placed;
use ff_propagate::{Fact, Facts, Reason};
use ff_tables::Constraint;

#[inline(always)]
fn constraint(constraints: &[Constraint], c: u32) -> &Constraint
    requires { c < length constraints.now }
    ensures { slice_get constraints.now c ≡ Some result.now }
{
    &constraints[c as usize]
}

// Keeps the old fact of the variable, where it has no fact yet and its constraint still forces it.
fn keep_fact(
    facts: &mut [Option<Fact>],
    constraints: &[Constraint],
    old: &Facts,
    fact: Fact,
    var: u32,
)
    requires wide { length facts.old ≡ length old.now }
    requires fit { AreFit (length old.now) constraints.now }
    requires rule { HaveReasons constraints.now old.now }
    requires fact { fact_at old.now var ≡ Some fact }
    requires var { var < length old.now }
    ensures { Keeps constraints.now old.now facts.old var facts.new }
{
    // the old facts are named by the contract alone
    let _ = old;
    if let Some(_) = facts[var as usize] {
        return;
    }
    let Reason::Forced(c) = fact.reason else {
        return;
    };
    let con = constraint(constraints, c);
    if !forces(con, facts, fact.level, var, fact.value) {
        return;
    }
    facts[var as usize] = Some(fact);
}

// The same, where the variable has an old fact.
fn keep_one(facts: &mut [Option<Fact>], constraints: &[Constraint], old: &Facts, var: u32)
    requires wide { length facts.old ≡ length old.now }
    requires fit { AreFit (length old.now) constraints.now }
    requires rule { HaveReasons constraints.now old.now }
    requires var { var < length old.now }
    ensures { Keeps constraints.now old.now facts.old var facts.new }
{
    let Some(fact) = old.fact(var) else {
        return;
    };
    keep_fact(facts, constraints, old, fact, var);
}

/// Keeps the old facts that still stand, of those in the order.
pub(crate) fn keep_all(
    facts: &mut [Option<Fact>],
    constraints: &[Constraint],
    old: &Facts,
    order: &[Placed],
)
    requires wide { length facts.old ≡ length old.now }
    requires fit { AreFit (length old.now) constraints.now }
    requires rule { HaveReasons constraints.now old.now }
    requires order { IsOrder old.now order.now }
    ensures { AreKept constraints.now facts.old old.now facts.new }
{
    for n in 0..order.len() {
        keep_one(facts, constraints, old, order[n].var);
    }
}
