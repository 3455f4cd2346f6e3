//! Which constraints are to be examined.
ghost use Rattle.std.specs.Prelude.{◌≡◌, ℕ, ◌+◌, ◌<◌, ◌≤◌, ◌^◌, IsTrue, length, slice_get, Some, IfOk};
ghost use Rattle.ff_tables.specs.Forces.{AreKnown};
ghost use Rattle.ff_tables.specs.Orders.{term_at};
ghost use Rattle.ff_tables.specs.Systems.{IsFit, AreFit};
ghost use Rattle.ff_propagate.specs.Facts.{value_at};
ghost use Rattle.ff_board.specs.Due.{IsSettledBy, AreDue};

use ff_propagate::Facts;
use ff_tables::{Constraint, Forced, NoMemory, Term, forced};
use std::alloc::Global;

// Whether the facts give each term a value.
fn are_known(facts: &Facts, terms: &[Term]) -> bool
    requires { (j : ℕ) → j < length terms.now → (term_at terms.now j).var < length facts.now }
    ensures { IsTrue result → AreKnown terms.now (value_at facts.now) (length terms.now) }
{
    for j in 0..terms.len() {
        let Some(fact) = facts.fact(terms[j].var) else {
            return false;
        };
        let _ = fact;
    }
    true
}

// Whether the facts settle the constraint.
fn is_settled(facts: &Facts, con: &Constraint) -> bool
    requires { IsFit (length facts.now) con.now }
    ensures { IsTrue result → IsSettledBy facts.now con.now }
{
    if !are_known(facts, con.terms.as_slice()) {
        return false;
    }
    matches!(forced(con, facts), Forced::Nothing)
}

#[inline(always)]
fn constraint(constraints: &[Constraint], c: u32) -> &Constraint
    requires { c < length constraints.now }
    ensures { slice_get constraints.now c ≡ Some result.now }
{
    &constraints[c as usize]
}

// Puts the number of the constraint at the end of the list, unless the facts settle it.
fn put_due(
    list: &mut Vec<u32>,
    constraints: &[Constraint],
    facts: &Facts,
    c: u32,
) -> Result<(), NoMemory>
    requires fits { AreFit (length facts.now) constraints.now }
    requires c { c < length constraints.now }
    requires due { AreDue constraints.now facts.now c list.old.items }
    ensures { IfOk result (λ _. AreDue constraints.now facts.now (c + 1) list.new.items) }
{
    if !is_settled(facts, constraint(constraints, c)) {
        list.push(c)?;
    }
    Ok(())
}

/// The constraints that the facts don't settle, in increasing order.
pub(crate) fn due_of(
    alloc: Global,
    constraints: &[Constraint],
    facts: &Facts,
) -> Result<Vec<u32>, NoMemory>
    requires fits { AreFit (length facts.now) constraints.now }
    requires few { length constraints.now < 2 ^ 32 }
    ensures { IfOk result (λ list. AreDue constraints.now facts.now (length constraints.now) list.items) }
{
    let mut list = Vec::new(alloc);
    for c in 0..constraints.len() as u32 {
        put_due(&mut list, constraints, facts, c)?;
    }
    Ok(list)
}
