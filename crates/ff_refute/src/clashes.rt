//! The log of a clash.
ghost use Rattle.std.specs.Prelude.{◌≡◌, ℕ, ◌<◌, ◌+◌, ◌^◌, IfOk, length, slice_get, Some, List, []};
ghost use Rattle.ff_propagate.specs.FactRule.{MeetsFactRule};
ghost use Rattle.ff_propagate.specs.Closing.{IsDeadIn};
ghost use Rattle.ff_propagate.specs.declared.facts.ClashAt.TheVariants.{Givens};
ghost use Rattle.ff_log.specs.Logs.{Closes};
ghost use Rattle.ff_log.specs.Grounds.{IsAcceptedIn};
ghost use Rattle.ff_types.specs.declared.pins.Pin.{Pin};
ghost use Rattle.ff_refute.specs.Givens.{AreGivens, SayPins, IsClash, pin_claims};
ghost use Rattle.ff_refute.specs.Making.{IsMaking, ground_of};
ghost use Rattle.ff_refute.specs.Marks.{IsOrderOf, IsMarked, AreClosed, IsWritten, IsRoot};

use crate::making::Maker;
use crate::marking::mark_root;
use crate::ordering::{Ordered, by_levels};
use ff_log::{Log, LogLine};
use ff_propagate::{ClashAt, Facts, Reason};
use ff_tables::{Given, Items, NoMemory};
use ff_types::Case;
use std::alloc::Global;

// What the lines of a log are made from.
#[derive(Drop)]
pub(crate) struct Source<'a> {
    pub(crate) case: &'a Case,
    pub(crate) givens: &'a Items<Given>,
    pub(crate) facts: &'a Facts,
}

impl Maker {
    // The fact of the variable holds.
    fn write_fact(
        &mut self,
        source: &Source,
        order: &[Ordered],
        marks: &[bool],
        n: usize,
    ) -> Result<(), NoMemory>
        requires givens { AreGivens source.now.case.now source.now.givens.now }
        requires rule { MeetsFactRule source.now.case.now.system.vars source.now.case.now.system.constraints source.now.givens.now source.now.facts.now }
        requires order { IsOrderOf source.now.facts.now order.now }
        requires wide { length marks.now ≡ length source.now.facts.now }
        requires closed { AreClosed source.now.case.now.system.constraints source.now.facts.now marks.now }
        requires n { n < length order.now }
        requires written { IsWritten source.now.case.now (pin_claims source.now.case.now source.now.givens.now) source.now.facts.now order.now marks.now n self.old }
        ensures { IfOk result (λ _. IsWritten source.now.case.now (pin_claims source.now.case.now source.now.givens.now) source.now.facts.now order.now marks.now (n + 1) self.new) }
    {
        let var = order[n].var;
        if !marks[var as usize] {
            return Ok(());
        }
        if let Some(fact) = source.facts.fact(var) {
            match fact.reason {
                Reason::Given(i) => self.give(source.case, source.givens, i)?,
                Reason::Forced(c) => self.force(source.case, var, fact.value, c)?,
            }
        }
        Ok(())
    }
}

// Marks what a dead constraint rests on.
fn marks_of(
    alloc: Global,
    source: &Source,
    order: &[Ordered],
    c: u32,
) -> Result<Vec<bool>, NoMemory>
    requires rule { MeetsFactRule source.now.case.now.system.vars source.now.case.now.system.constraints source.now.givens.now source.now.facts.now }
    requires order { IsOrderOf source.now.facts.now order.now }
    requires c { c < length source.now.case.now.system.constraints }
    ensures wide { IfOk result (λ marks. length marks.items ≡ length source.now.facts.now) }
    ensures closed { IfOk result (λ marks. AreClosed source.now.case.now.system.constraints source.now.facts.now marks.items) }
    ensures root { IfOk result (λ marks. IsRoot source.now.case.now.system.constraints marks.items c) }
{
    let system = &source.case.system;
    let mut marks = vec![in alloc; false; system.vars as usize]?;
    mark_root(marks.as_mut_slice(), system, source.facts, order, c);
    Ok(marks)
}

impl Maker {
    // The marked facts hold.
    pub(crate) fn write_facts(
        &mut self,
        source: &Source,
        order: &[Ordered],
        marks: &[bool],
    ) -> Result<(), NoMemory>
        requires givens { AreGivens source.now.case.now source.now.givens.now }
        requires rule { MeetsFactRule source.now.case.now.system.vars source.now.case.now.system.constraints source.now.givens.now source.now.facts.now }
        requires order { IsOrderOf source.now.facts.now order.now }
        requires wide { length marks.now ≡ length source.now.facts.now }
        requires closed { AreClosed source.now.case.now.system.constraints source.now.facts.now marks.now }
        requires making { IsMaking source.now.case.now (pin_claims source.now.case.now source.now.givens.now) [] [] self.old }
        ensures { IfOk result (λ _. IsWritten source.now.case.now (pin_claims source.now.case.now source.now.givens.now) source.now.facts.now order.now marks.now (length order.now) self.new) }
    {
        for n in 0..order.len() {
            self.write_fact(source, order, marks, n)?;
        }
        Ok(())
    }
}

// The log of a dead constraint.
fn log_of_dead(alloc: Global, source: &Source, c: u32) -> Result<Maker, NoMemory>
    requires givens { AreGivens source.now.case.now source.now.givens.now }
    requires rule { MeetsFactRule source.now.case.now.system.vars source.now.case.now.system.constraints source.now.givens.now source.now.facts.now }
    requires dead { IsDeadIn source.now.case.now.system.constraints source.now.facts.now c }
    ensures { IfOk result (λ m. Closes (ground_of source.now.case.now (pin_claims source.now.case.now source.now.givens.now)) m.lines.items) }
{
    let order = by_levels(alloc, source.facts, source.case.system.vars)?;
    let marks = marks_of(alloc, source, order.as_slice(), c)?;
    let mut maker = Maker::new(alloc, source.case);
    maker.write_facts(source, order.as_slice(), marks.as_slice())?;
    maker.dead(source.case, c)?;
    Ok(maker)
}

// The log of two givens that contradict each other.
fn log_of_givens(alloc: Global, source: &Source, first: u32, second: u32) -> Result<Maker, NoMemory>
    requires givens { AreGivens source.now.case.now source.now.givens.now }
    requires clash { IsClash source.now.case.now.system.constraints source.now.givens.now source.now.facts.now (Givens first second) }
    ensures { IfOk result (λ m. Closes (ground_of source.now.case.now (pin_claims source.now.case.now source.now.givens.now)) m.lines.items) }
{
    let mut maker = Maker::new(alloc, source.case);
    maker.give(source.case, source.givens, first)?;
    maker.give(source.case, source.givens, second)?;
    maker.clash(source.case, source.givens.as_slice()[first as usize].var)?;
    Ok(maker)
}

// The log of a clash.
fn maker_of(alloc: Global, source: &Source, at: ClashAt) -> Result<Maker, NoMemory>
    requires givens { AreGivens source.now.case.now source.now.givens.now }
    requires rule { MeetsFactRule source.now.case.now.system.vars source.now.case.now.system.constraints source.now.givens.now source.now.facts.now }
    requires clash { IsClash source.now.case.now.system.constraints source.now.givens.now source.now.facts.now at }
    ensures { IfOk result (λ m. Closes (ground_of source.now.case.now (pin_claims source.now.case.now source.now.givens.now)) m.lines.items) }
{
    match at {
        ClashAt::Givens { first, second } => log_of_givens(alloc, source, first, second),
        ClashAt::Dead(c) => log_of_dead(alloc, source, c),
    }
}

/// A log that is accepted for the case and the pins among the givens, of where the closure of the givens clashes: the facts that the
/// clash rests on, in the order of their levels, each after the constraint that forces it.
pub fn log_of_clash(
    alloc: Global,
    case: &Case,
    givens: &Items<Given>,
    facts: &Facts,
    at: ClashAt,
) -> Result<Log, NoMemory>
    requires givens { AreGivens case.now givens.now }
    requires rule { MeetsFactRule case.now.system.vars case.now.system.constraints givens.now facts.now }
    requires clash { IsClash case.now.system.constraints givens.now facts.now at }
    ensures { IfOk result (λ log. (pins : List Pin) → SayPins case.now givens.now pins → IsAcceptedIn case.now pins log.lines) }
{
    let source = Source {
        case,
        givens,
        facts,
    };
    let maker = maker_of(alloc, &source, at)?;
    Ok(Log {
        lines: Items::of(maker.lines),
    })
}
