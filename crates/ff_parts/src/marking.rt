//! The part of each constraint.
ghost use Rattle.std.specs.Prelude.{◌≡◌, ℕ, ◌<◌, ◌≤◌, IfOk, length, slice_get, Some, None};
ghost use Rattle.ff_tables.specs.Orders.{term_at};
ghost use Rattle.ff_propagate.specs.Facts.{value_at};
ghost use Rattle.ff_parts.specs.Marks.{IsMark, AreMarks};

use ff_propagate::Facts;
use ff_tables::{Constraint, NoMemory, System};
use std::alloc::Global;

// The label of the constraint's first undecided variable, 0 where each is decided.
fn mark(part_of: &[u32], facts: &Facts, con: &Constraint) -> u32
    requires within { (j : ℕ) → j < length con.now.terms → (term_at con.now.terms j).var < length facts.now }
    requires wide { length part_of.now ≡ length facts.now }
    ensures { IsMark (value_at facts.now) part_of.now con.now result }
{
    let terms = con.terms.as_slice();
    for j in 0..terms.len() {
        let var = terms[j].var;
        if facts.fact(var).is_none() {
            return part_of[var as usize];
        }
    }
    0
}

/// For each constraint the label of the part that it touches, 0 where it touches none: all undecided variables of a constraint are
/// of one part, so one of them tells it.
pub(crate) fn marks(
    alloc: Global,
    system: &System,
    facts: &Facts,
    part_of: &[u32],
) -> Result<Vec<u32>, NoMemory>
    requires facts { length facts.now ≡ system.now.vars }
    requires wide { length part_of.now ≡ system.now.vars }
    ensures { IfOk result (λ marks. AreMarks (value_at facts.now) part_of.now system.now.constraints marks.items) }
{
    let constraints = system.constraints.as_slice();
    let mut marks = Vec::with_capacity(alloc, constraints.len())?;
    for c in 0..constraints.len() {
        marks.push_reserved(mark(part_of, facts, &constraints[c]));
    }
    Ok(marks)
}
