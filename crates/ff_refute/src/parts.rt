//! The log of a part without solutions.
ghost use Rattle.std.specs.Prelude.{◌≡◌, ℕ, ◌<◌, ◌+◌, ◌^◌, IfOk, length, drop, slice_get, Some, None, [], ◌∷◌, List, Bool, Option};
ghost use Rattle.ff_tables.specs.declared.orders.Order.{Order as OrderSpec};
ghost use Rattle.ff_propagate.specs.FactRule.{MeetsFactRule};
ghost use Rattle.ff_types.specs.declared.pins.Pin.{Pin};
ghost use Rattle.ff_propagate.specs.Boards.{IsBoardOf};
ghost use Rattle.ff_propagate.specs.Parts.{IsPart, AreTouching};
ghost use Rattle.ff_propagate.specs.Solutions.{solutions_of};
ghost use Rattle.ff_propagate.specs.Facts.{value_at};
ghost use Rattle.ff_log.specs.declared.claims.Claim.{Claim};
ghost use Rattle.ff_log.specs.Logs.{Closes};
ghost use Rattle.ff_log.specs.Grounds.{IsAcceptedIn};
ghost use Rattle.ff_refute.specs.Givens.{AreGivens, SayPins, pin_claims};
ghost use Rattle.ff_refute.specs.Making.{ground_of};
ghost use Rattle.ff_refute.specs.Marks.{IsOrderOf, AreClosed, HasMarks, IsRoot};
ghost use Rattle.ff_solver.specs.Steps.{Runs};
ghost use Rattle.ff_refute.specs.Telling.{AreRoots, IsAtSteps, HaveConstraints, HaveVariables, by_of, var_of};

use crate::clashes::Source;
use crate::making::Maker;
use crate::marking::{mark_bases, mark_terms};
use crate::ordering::{Ordered, by_levels};
use crate::trimming::trimmed;
use ff_log::Log;
use ff_propagate::{Facts, Part};
use ff_solver::{Step, refutation};
use ff_tables::{Given, Items, NoMemory, Order, System};
use ff_types::Case;
use std::alloc::Global;

// Marks the variables of the constraint.
fn mark_by(marks: &mut [bool], system: &System, by: u32)
    requires wide { length marks.old ≡ system.now.vars }
    requires by { by < length system.now.constraints }
    ensures wide { length marks.new ≡ length marks.old }
    ensures has { HasMarks marks.new marks.old }
    ensures root { IsRoot system.now.constraints marks.new by }
{
    mark_terms(marks, &system.constraints.as_slice()[by as usize]);
}

// Marks the variables of the step's constraint.
fn mark_step(marks: &mut [bool], system: &System, step: Step)
    requires wide { length marks.old ≡ system.now.vars }
    requires there { (c : ℕ) → by_of step ≡ Some c → c < length system.now.constraints }
    ensures wide { length marks.new ≡ length marks.old }
    ensures has { HasMarks marks.new marks.old }
    ensures root { (c : ℕ) → by_of step ≡ Some c → IsRoot system.now.constraints marks.new c }
{
    match step {
        Step::Try(_) => (),
        Step::Set { by, .. } => mark_by(marks, system, by),
        Step::Dead(by) => mark_by(marks, system, by),
    }
}

// Marks the variables of all steps' constraints.
fn mark_steps(marks: &mut [bool], system: &System, steps: &[Step])
    requires wide { length marks.old ≡ system.now.vars }
    requires there { HaveConstraints system.now.constraints steps.now }
    ensures wide { length marks.new ≡ length marks.old }
    ensures roots { AreRoots system.now.constraints steps.now (length steps.now) marks.new }
{
    for i in 0..steps.len() {
        mark_step(marks, system, steps[i]);
    }
}

impl Maker {
    // Writes the step.
    fn write_step(&mut self, case: &Case, step: Step) -> Result<(), NoMemory>
        requires there { (c : ℕ) → by_of step ≡ Some c → c < length case.now.system.constraints }
        requires var { (v : ℕ) → var_of step ≡ Some v → v < case.now.system.vars }
        ensures { IfOk result (λ _. (pins : List Claim) (value : ℕ → Option OrderSpec) (marks : List Bool) (rest : List _)
            → ((c : ℕ) → by_of step ≡ Some c → IsRoot case.now.system.constraints marks c)
            → IsAtSteps case.now pins value marks (step ∷ rest) self.old → IsAtSteps case.now pins value marks rest self.new) }
    {
        match step {
            Step::Try(var) => self.try_value(case, var, Order::Below),
            Step::Set { var, value, by } => self.force(case, var, value, by),
            Step::Dead(by) => self.dead(case, by),
        }
    }
}

impl Maker {
    // Writes the steps.
    fn write_steps(
        &mut self,
        source: &Source,
        marks: &[bool],
        steps: &[Step],
    ) -> Result<(), NoMemory>
        requires there { HaveConstraints source.now.case.now.system.constraints steps.now }
        requires vars { HaveVariables source.now.case.now.system.vars steps.now }
        requires roots { AreRoots source.now.case.now.system.constraints steps.now (length steps.now) marks.now }
        requires at { IsAtSteps source.now.case.now (pin_claims source.now.case.now source.now.givens.now) (value_at source.now.facts.now) marks.now steps.now self.old }
        ensures { IfOk result (λ _. IsAtSteps source.now.case.now (pin_claims source.now.case.now source.now.givens.now) (value_at source.now.facts.now) marks.now [] self.new) }
    {
        for i in 0..steps.len() {
            self.write_step(source.case, steps[i])?;
        }
        Ok(())
    }
}

// What the steps rest on.
fn marks_of_steps(
    alloc: Global,
    source: &Source,
    order: &[Ordered],
    steps: &[Step],
) -> Result<Vec<bool>, NoMemory>
    requires rule { MeetsFactRule source.now.case.now.system.vars source.now.case.now.system.constraints source.now.givens.now source.now.facts.now }
    requires order { IsOrderOf source.now.facts.now order.now }
    requires there { HaveConstraints source.now.case.now.system.constraints steps.now }
    ensures wide { IfOk result (λ marks. length marks.items ≡ length source.now.facts.now) }
    ensures closed { IfOk result (λ marks. AreClosed source.now.case.now.system.constraints source.now.facts.now marks.items) }
    ensures roots { IfOk result (λ marks. AreRoots source.now.case.now.system.constraints steps.now (length steps.now) marks.items) }
{
    let system = &source.case.system;
    let mut marks = vec![in alloc; false; system.vars as usize]?;
    mark_all(marks.as_mut_slice(), source, order, steps);
    Ok(marks)
}

// Marks the variables of all steps' constraints, and what the facts of these rest on.
fn mark_all(marks: &mut [bool], source: &Source, order: &[Ordered], steps: &[Step])
    requires rule { MeetsFactRule source.now.case.now.system.vars source.now.case.now.system.constraints source.now.givens.now source.now.facts.now }
    requires order { IsOrderOf source.now.facts.now order.now }
    requires there { HaveConstraints source.now.case.now.system.constraints steps.now }
    requires wide { length marks.old ≡ source.now.case.now.system.vars }
    ensures wide { length marks.new ≡ length marks.old }
    ensures closed { AreClosed source.now.case.now.system.constraints source.now.facts.now marks.new }
    ensures roots { AreRoots source.now.case.now.system.constraints steps.now (length steps.now) marks.new }
{
    mark_steps(marks, &source.case.system, steps);
    mark_bases(marks, &source.case.system, source.facts, order);
}

// The lines of a log, of steps that refute a part: first the facts that they rest on, in the order of their levels.
fn lines_of_steps(alloc: Global, source: &Source, steps: &[Step]) -> Result<Maker, NoMemory>
    requires givens { AreGivens source.now.case.now source.now.givens.now }
    requires rule { MeetsFactRule source.now.case.now.system.vars source.now.case.now.system.constraints source.now.givens.now source.now.facts.now }
    requires runs { Runs source.now.case.now.system.vars source.now.case.now.system.constraints (value_at source.now.facts.now) [] [] steps.now }
    ensures { IfOk result (λ m. Closes (ground_of source.now.case.now (pin_claims source.now.case.now source.now.givens.now)) m.lines.items) }
{
    let order = by_levels(alloc, source.facts, source.case.system.vars)?;
    let marks = marks_of_steps(alloc, source, order.as_slice(), steps)?;
    let mut maker = Maker::new(alloc, source.case);
    maker.write_facts(source, order.as_slice(), marks.as_slice())?;
    maker.write_steps(source, marks.as_slice(), steps)?;
    Ok(maker)
}

/// A log that is accepted for the case and the pins among the givens, of a part of a board that has no solution: the facts that its
/// refutation rests on, in the order of their levels, and the refutation by tried values, without those values that nothing of it rests on.
pub fn log_of_part(
    alloc: Global,
    case: &Case,
    givens: &Items<Given>,
    facts: &Facts,
    part: &Part,
) -> Result<Log, NoMemory>
    requires givens { AreGivens case.now givens.now }
    requires rule { MeetsFactRule case.now.system.vars case.now.system.constraints givens.now facts.now }
    requires board { IsBoardOf case.now.system.vars case.now.system.constraints facts.now }
    requires part { IsPart case.now.system.vars case.now.system.constraints (value_at facts.now) part.now.vars }
    requires touching { AreTouching case.now.system.constraints part.now.vars part.now.touching }
    requires few { length case.now.system.constraints < 2 ^ 32 }
    requires none { solutions_of case.now.system.constraints (value_at facts.now) part.now.vars ≡ [] }
    ensures { IfOk result (λ log. (pins : List Pin) → SayPins case.now givens.now pins → IsAcceptedIn case.now pins log.lines) }
{
    let steps = refutation(alloc, case, facts, part)?;
    let source = Source {
        case,
        givens,
        facts,
    };
    let mut kept = trimmed(alloc, &case.system, steps.as_slice())?;
    let maker = lines_of_steps(alloc, &source, kept.make_contiguous())?;
    Ok(Log {
        lines: Items::of(maker.lines),
    })
}
