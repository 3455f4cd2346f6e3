//! What an epoch's givens force, deduced by level.
ghost use Rattle.std.specs.Prelude.{◌≡◌, ◌+◌, ◌<◌, OnOk, length};
ghost use Rattle.ff_propagate.specs.FactRule.{MeetsFactRule};
ghost use Rattle.ff_propagate.specs.Closure.{HoldsGivens};
ghost use Rattle.ff_propagate.specs.Facts.{value_at};
ghost use Rattle.ff_carry.specs.Placing.{IsOrder};
ghost use Rattle.ff_core.specs.States.{StandsFor};
ghost use Rattle.ff_journal.specs.Epochs.{givens_of, last_begun};
ghost use Rattle.ff_journal.specs.Publications.{published};
ghost use Rattle.ff_serve.specs.Reaching.{HasRoom, AreFounded, HaveBegun, HaveReached, HaveAll, WorksOnSuch, IsSameButWork, IsOpened, IsQuiet};

use crate::happening::happen;
use ff_carry::{Placed, order_of};
use ff_core::{Core, Event};
use ff_propagate::{ClashAt, Closed, Facts, close, facts_are_in_the_closure};
use ff_tables::{Given, Items, NoMemory};
use ff_types::Case;
use std::alloc::Global;

// Deduces the fact of the n-th place.
fn deduce_one(
    alloc: Global,
    case: &Case,
    core: &mut Core,
    facts: &Facts,
    order: &[Placed],
    n: usize,
) -> Result<(), NoMemory>
    requires stands { StandsFor case.now core.old }
    requires room { HasRoom case.now core.old.journal }
    requires founded { AreFounded case.now.system.constraints facts.now }
    requires wide { length facts.now ≡ case.now.system.vars }
    requires order { IsOrder facts.now order.now }
    requires n { n < length order.now }
    requires reached { WorksOnSuch (HaveReached facts.now order.now n) core.old }
    ensures stands { StandsFor case.now core.new }
    ensures same { OnOk result (IsSameButWork core.old core.new) }
    ensures reached { OnOk result (WorksOnSuch (HaveReached facts.now order.now (n + 1)) core.new) }
{
    let var = order[n].var;
    match facts.fact(var) {
        None => unreachable!(),
        Some(fact) => { happen(alloc, case, core, Event::Deduce { var, fact }) }
    }
}

// Deduces all of the facts, by level.
fn deduce(alloc: Global, case: &Case, core: &mut Core, facts: &Facts) -> Result<(), NoMemory>
    requires stands { StandsFor case.now core.old }
    requires room { HasRoom case.now core.old.journal }
    requires founded { AreFounded case.now.system.constraints facts.now }
    requires wide { length facts.now ≡ case.now.system.vars }
    requires begun { WorksOnSuch (HaveBegun facts.now) core.old }
    ensures stands { StandsFor case.now core.new }
    ensures same { OnOk result (IsSameButWork core.old core.new) }
    ensures all { OnOk result (WorksOnSuch (HaveAll facts.now) core.new) }
{
    let order = order_of(alloc, facts, case.system.vars)?;
    for n in 0..order.len() {
        deduce_one(alloc, case, core, facts, order.as_slice(), n)?;
    }
    Ok(())
}

// Deduces the facts of givens that don't contradict each other.
fn deduce_from(
    alloc: Global,
    case: &Case,
    core: &mut Core,
    givens: &Items<Given>,
    facts: &Facts,
) -> Result<(), NoMemory>
    requires stands { StandsFor case.now core.old }
    requires room { HasRoom case.now core.old.journal }
    requires givens { givens.now ≡ givens_of case.now core.old.journal (published core.old.journal) }
    requires opened { IsOpened case.now core.old }
    requires rule { MeetsFactRule case.now.system.vars case.now.system.constraints givens.now facts.now }
    requires holds { HoldsGivens givens.now (value_at facts.now) }
    ensures stands { StandsFor case.now core.new }
    ensures same { OnOk result (IsSameButWork core.old core.new) }
    ensures all { OnOk result (WorksOnSuch (HaveAll facts.now) core.new) }
{
    let _ = givens;
    deduce(alloc, case, core, facts)
}

// Deduces all that the givens force.
pub(crate) fn deduce_all(
    alloc: Global,
    case: &Case,
    core: &mut Core,
    givens: &Items<Given>,
) -> Result<(), NoMemory>
    requires stands { StandsFor case.now core.old }
    requires room { HasRoom case.now core.old.journal }
    requires givens { givens.now ≡ givens_of case.now core.old.journal (published core.old.journal) }
    requires opened { IsOpened case.now core.old }
    ensures stands { StandsFor case.now core.new }
    ensures same { OnOk result (IsSameButWork core.old core.new) }
    ensures quiet { OnOk result (IsQuiet case.now core.new) }
{
    facts_are_in_the_closure();
    // the case's pairs are in order, so that there are no more pins in force than changes
    let _pairs = case.pairs.count();
    match close(alloc, &case.system, givens)? {
        Closed::Board(facts) => deduce_from(alloc, case, core, givens, &facts),
        Closed::Clash { facts, at } => match at {
            ClashAt::Dead(_) => deduce_from(alloc, case, core, givens, &facts),
            ClashAt::Givens { .. } => Ok(()),
        },
    }
}
