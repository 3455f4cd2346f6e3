//! The facts that the steps of a trail tell.
ghost use Rattle.std.specs.Prelude.{◌≡◌, ℕ, ◌+◌, ◌<◌, ◌≤◌, ◌^◌, IfOk, length, map, None, Some, slice_get};
ghost use Rattle.ff_propagate.specs.Facts.{seen};
ghost use Rattle.ff_propagate.specs.Trails.{IsTrail, IsForcedAt, AreForced};
ghost use Rattle.ff_propagate.specs.RuleLaws.{HasFacts};
ghost use Rattle.ff_propagate.specs.Telling.{AreTold};

use crate::facts::{Fact, Reason};
use crate::levels::level_over;
use crate::trail::Trail;
use ff_tables::{Given, Known, NoMemory, Order, System};
use std::alloc::Global;

/// The values that the facts give.
pub(crate) fn values_of(
    alloc: Global,
    facts: &[Option<Fact>],
) -> Result<Vec<Option<Order>>, NoMemory>
    ensures { IfOk result (λ values. values.items ≡ map seen facts.now) }
{
    let mut values = Vec::with_capacity(alloc, facts.len())?;
    for v in 0..facts.len() {
        values.push_reserved(facts[v].map(|fact| fact.value));
    }
    Ok(values)
}

// Notes the fact of the step with this number.
fn tell_one(
    facts: &mut [Option<Fact>],
    system: &System,
    givens: &[Given],
    trail: &Trail,
    number: u32,
)
    requires trail { IsTrail system.now.vars trail.now }
    requires number { number < length trail.now.steps.items }
    requires forced { IsForcedAt system.now.constraints trail.now number }
    requires told { AreTold system.now.vars system.now.constraints givens.now trail.now number facts.old }
    ensures told { AreTold system.now.vars system.now.constraints givens.now trail.now (number + 1) facts.new }
    ensures more { HasFacts facts.new facts.old }
{
    let _ = givens.len();
    let step = trail.step(number as usize);
    match step.by {
        None => {}
        Some(c) => match trail.value(step.var) {
            None => {}
            Some(value) => {
                let terms = system.constraints.as_slice()[c as usize].terms.as_slice();
                let level = level_over(facts, terms, number);
                facts[step.var as usize] = Some(Fact {
                    value,
                    level,
                    reason: Reason::Forced(c),
                });
            }
        },
    }
}

/// Notes the facts of all steps.
pub(crate) fn tell(facts: &mut [Option<Fact>], system: &System, givens: &[Given], trail: &Trail)
    requires trail { IsTrail system.now.vars trail.now }
    requires forced { AreForced system.now.constraints 0 trail.now }
    requires told { AreTold system.now.vars system.now.constraints givens.now trail.now 0 facts.old }
    ensures told { AreTold system.now.vars system.now.constraints givens.now trail.now (length trail.now.steps.items) facts.new }
    ensures more { HasFacts facts.new facts.old }
{
    for number in 0..trail.len() as u32 {
        tell_one(facts, system, givens, trail, number);
    }
}
