//! What the search of each part comes to.
ghost use Rattle.std.specs.Prelude.{◌≡◌, ℕ, ◌<◌, ◌≤◌, ◌^◌, ◌↔◌, IfOk, Some, length, slice_get, IsTrue};
ghost use Rattle.std.specs.List.{list_any};
ghost use Rattle.ff_propagate.specs.Facts.{value_at};
ghost use Rattle.ff_propagate.specs.Boards.{IsBoardOf};
ghost use Rattle.ff_propagate.specs.Parts.{IsPart, AreTouching};
ghost use Rattle.ff_propagate.specs.declared.parts.Part.{Part as PartSpec};
ghost use Rattle.ff_report.specs.Lines.{last_of, is_none, is_unfinished};
ghost use Rattle.ff_propagate.specs.FactRule.{MeetsFactRule};
ghost use Rattle.ff_propagate.specs.Solutions.{solutions_of};
ghost use Rattle.ff_solve.specs.Outcomes.{AreOutcomes, EndsWithin, IsOutcome};

use crate::refuting::part_log;
use ff_propagate::{Facts, Part};
use ff_report::{Last, PartOutcome};
use ff_solver::{Advance, start};
use ff_tables::{Items, NoMemory, Order};
use ff_types::Case;
use std::alloc::Global;

// What a part comes to whose tree has ended, with these solutions.
fn finished(
    alloc: Global,
    case: &Case,
    facts: &Facts,
    part: &Part,
    budget: u64,
    solutions: Vec<Items<Order>>,
) -> Result<PartOutcome, NoMemory>
    requires rule { MeetsFactRule case.now.system.vars case.now.system.constraints case.now.starts facts.now }
    requires board { IsBoardOf case.now.system.vars case.now.system.constraints facts.now }
    requires part { IsPart case.now.system.vars case.now.system.constraints (value_at facts.now) part.now.vars }
    requires touching { AreTouching case.now.system.constraints part.now.vars part.now.touching }
    requires few { length case.now.system.constraints < 2 ^ 32 }
    requires ends { EndsWithin case.now.system.constraints (value_at facts.now) budget part.now.vars }
    requires all { solutions.items ≡ solutions_of case.now.system.constraints (value_at facts.now) part.now.vars }
    ensures { IfOk result (IsOutcome case.now (value_at facts.now) budget part.now.vars) }
{
    let _ = budget;
    if solutions.is_empty() {
        return Ok(PartOutcome::None(part_log(alloc, case, facts, part)?));
    }
    Ok(PartOutcome::Solutions(Items::of(solutions)))
}

// What the search of a part comes to within the budget.
fn outcome_of(
    alloc: Global,
    case: &Case,
    facts: &Facts,
    part: &Part,
    budget: u64,
) -> Result<PartOutcome, NoMemory>
    requires rule { MeetsFactRule case.now.system.vars case.now.system.constraints case.now.starts facts.now }
    requires board { IsBoardOf case.now.system.vars case.now.system.constraints facts.now }
    requires part { IsPart case.now.system.vars case.now.system.constraints (value_at facts.now) part.now.vars }
    requires touching { AreTouching case.now.system.constraints part.now.vars part.now.touching }
    requires few { length case.now.system.constraints < 2 ^ 32 }
    ensures { IfOk result (IsOutcome case.now (value_at facts.now) budget part.now.vars) }
{
    let mut search = start(alloc, case, facts, part)?;
    let mut solutions = Vec::new(alloc);
    'search: loop {
        match search.advance(alloc, case, budget - search.used())? {
            Advance::Found(values) => solutions.push(values)?,
            Advance::Finished => return finished(alloc, case, facts, part, budget, solutions),
            Advance::Spent => return Ok(PartOutcome::Unfinished),
        }
    }
}

// What the searches of all parts come to.
pub(crate) fn outcomes_of(
    alloc: Global,
    case: &Case,
    facts: &Facts,
    parts: &[Part],
    budget: u64,
) -> Result<Items<PartOutcome>, NoMemory>
    requires rule { MeetsFactRule case.now.system.vars case.now.system.constraints case.now.starts facts.now }
    requires board { IsBoardOf case.now.system.vars case.now.system.constraints facts.now }
    requires parts { (k : ℕ) (part : PartSpec) → slice_get parts.now k ≡ Some part
        → IsPart case.now.system.vars case.now.system.constraints (value_at facts.now) part.vars }
    requires touching { (k : ℕ) (part : PartSpec) → slice_get parts.now k ≡ Some part
        → AreTouching case.now.system.constraints part.vars part.touching }
    requires few { length case.now.system.constraints < 2 ^ 32 }
    ensures { IfOk result (AreOutcomes case.now (value_at facts.now) budget parts.now) }
{
    let mut outcomes = Vec::new(alloc);
    for k in 0..parts.len() {
        outcomes.push(outcome_of(alloc, case, facts, &parts[k], budget)?)?;
    }
    Ok(Items::of(outcomes))
}

fn has_no_solution(outcome: &PartOutcome) -> bool
    ensures { result ≡ is_none outcome.now }
{
    matches!(outcome, PartOutcome::None(_))
}

fn isnt_finished(outcome: &PartOutcome) -> bool
    ensures { result ≡ is_unfinished outcome.now }
{
    matches!(outcome, PartOutcome::Unfinished)
}

fn some_without(outcomes: &[PartOutcome]) -> bool
    ensures { result ≡ list_any is_none outcomes.now }
{
    outcomes.iter().any(|outcome| has_no_solution(outcome))
}

fn some_unfinished(outcomes: &[PartOutcome]) -> bool
    ensures { result ≡ list_any is_unfinished outcomes.now }
{
    outcomes.iter().any(|outcome| isnt_finished(outcome))
}

// How the report ends.
pub(crate) fn ending(outcomes: &[PartOutcome]) -> Last
    ensures { result ≡ last_of outcomes.now }
{
    if some_without(outcomes) {
        return Last::Impossible;
    }
    if some_unfinished(outcomes) {
        return Last::Unfinished;
    }
    Last::Done
}
