//! The best solutions of a part.
ghost use Rattle.std.specs.Prelude.{◌≡◌, ℕ, ◌+◌, ◌*◌, ◌≤◌, ◌<◌, ◌^◌, [], IfOk, length, List, Option};
ghost use Rattle.ff_tables.specs.declared.orders.Order.{Order as OrderSpec};
ghost use Rattle.ff_types.specs.declared.cases.Case.{Case as CaseSpec};
ghost use Rattle.ff_types.specs.declared.pins.Pin.{Pin as PinSpec};
ghost use Rattle.ff_propagate.specs.Solutions.{solutions_of};
ghost use Rattle.ff_solve.specs.Outcomes.{EndsWithin};
ghost use Rattle.ff_near.specs.Distance.{cost};
ghost use Rattle.ff_near.specs.Progress.{HasLeast};
ghost use Rattle.ff_propagate.specs.Boards.{IsBoardOf};
ghost use Rattle.ff_propagate.specs.Facts.{value_at};
ghost use Rattle.ff_propagate.specs.Parts.{IsPart, AreTouching};
ghost use Rattle.ff_near.specs.Weights.{AreWeights};
ghost use Rattle.ff_near.specs.Wishes.{AreWishes};
ghost use Rattle.ff_near.specs.Best.{ComesTo};

use crate::least::Least;
use crate::parts::{PartBest, PartNear};
use crate::weighing::Weights;
use ff_propagate::{Facts, Part};
use ff_solver::{Advance, start};
use ff_tables::{Items, NoMemory};
use ff_types::{Case, Pin};
use std::alloc::Global;

// The tree has ended.
fn finished(least: Least) -> PartNear
    ensures { (case : CaseSpec) (list : List PinSpec) (value : ℕ → Option OrderSpec) (budget : ℕ) (part : List ℕ) → EndsWithin case.system.constraints value budget part
        → HasLeast (cost case.pairs list part) (solutions_of case.system.constraints value part) least.count least.cost least.best.items least.first
        → ComesTo case list value budget part result }
{
    if least.count == 0 {
        return PartNear::None;
    }
    let best = PartBest {
        cost: least.cost,
        best: Items::of(least.best),
    };
    PartNear::Best(best, least.first)
}

/// What the search of a part comes to within the budget.
pub(crate) fn search_part(
    alloc: Global,
    case: &Case,
    facts: &Facts,
    part: &Part,
    list: &[Pin],
    weights: &Weights,
    budget: u64,
) -> Result<PartNear, NoMemory>
    requires board { IsBoardOf case.now.system.vars case.now.system.constraints facts.now }
    requires part { IsPart case.now.system.vars case.now.system.constraints (value_at facts.now) part.now.vars }
    requires touching { AreTouching case.now.system.constraints part.now.vars part.now.touching }
    requires few { length case.now.system.constraints < 2 ^ 32 }
    requires weights { AreWeights case.now.pairs list.now weights.now.below.items weights.now.above.items }
    requires few_items { length list.now < 2 ^ 32 }
    requires budget { budget < 2 ^ 32 }
    ensures { IfOk result (ComesTo case.now list.now (value_at facts.now) budget part.now.vars) }
{
    let mut search = start(alloc, case, facts, part)?;
    let mut least = Least::none(alloc);
    'search: loop {
        match search.advance(alloc, case, budget - search.used())? {
            Advance::Found(values) => {
                let cost = weights.cost(case, list, part.vars.as_slice(), values.as_slice());
                least.note(cost, values)?;
            }
            Advance::Finished => return Ok(finished(least)),
            Advance::Spent => return Ok(PartNear::Unfinished),
        }
    }
}
