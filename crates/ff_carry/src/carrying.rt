//! Carries facts to other givens.
ghost use Rattle.std.specs.Prelude.{◌≡◌, ℕ, ◌+◌, ◌<◌, ◌≤◌, ◌^◌, length, replicate, None, IfOk};
ghost use Rattle.ff_tables.specs.Systems.{AreFit};
ghost use Rattle.ff_propagate.specs.Closing.{GivensFit};
ghost use Rattle.ff_propagate.specs.FactRule.{MeetsFactRule};
ghost use Rattle.ff_propagate.specs.Giving.{HasGivens};
ghost use Rattle.ff_carry.specs.Keeping.{HaveReasons};
ghost use Rattle.ff_carry.specs.Placing.{IsOrder};
ghost use Rattle.ff_carry.specs.Ends.{CarriesTo, Fills, Opens};

use crate::keeping::keep_all;
use crate::placing::{Placed, order_of};
use ff_propagate::{ClashAt, Fact, Facts, give};
use ff_tables::{Constraint, Given, Items, NoMemory, System};
use std::alloc::Global;

/// What carrying gives.
#[derive(Drop)]
pub enum Opened {
    /// The facts of the new givens, and the old facts that still stand.
    Board(Facts),
    /// The second is the first new given that contradicts an earlier one, the first the first that it contradicts.
    Clash { first: u32, second: u32 },
}

// A list without facts.
fn no_facts(alloc: Global, vars: u32) -> Result<Vec<Option<Fact>>, NoMemory>
    ensures { IfOk result (λ facts. facts.items ≡ replicate vars None) }
{
    let facts = vec![in alloc; None; vars as usize]?;
    Ok(facts)
}

// Carries old facts into a list without facts. Where two of the givens contradict each other.
fn fill(
    facts: &mut [Option<Fact>],
    constraints: &[Constraint],
    old: &Facts,
    order: &[Placed],
    givens: &[Given],
) -> Option<ClashAt>
    requires wide { length facts.old ≡ length old.now }
    requires fit { AreFit (length old.now) constraints.now }
    requires rule { HaveReasons constraints.now old.now }
    requires order { IsOrder old.now order.now }
    requires givens { GivensFit (length old.now) givens.now × (length givens.now < 2 ^ 32) }
    requires first { HasGivens givens.now 0 facts.old }
    ensures { Fills (length old.now) constraints.now givens.now old.now facts.new result }
{
    let clash = give(facts, givens);
    if let Some(at) = clash {
        return Some(at);
    }
    keep_all(facts, constraints, old, order);
    None
}

// What a list that was filled gives.
fn end_of(facts: Vec<Option<Fact>>, clash: Option<ClashAt>) -> Opened
    ensures { Opens facts.items clash result }
{
    match clash {
        None => Opened::Board(Facts::of(Items::of(facts))),
        Some(ClashAt::Givens { first, second }) => Opened::Clash { first, second },
        Some(ClashAt::Dead(_)) => Opened::Board(Facts::of(Items::of(facts))),
    }
}

// Carries old facts, whose order by level is given.
fn carry_in(
    alloc: Global,
    system: &System,
    old: &Facts,
    order: &[Placed],
    givens: &[Given],
) -> Result<Opened, NoMemory>
    requires wide { length old.now ≡ system.now.vars }
    requires rule { HaveReasons system.now.constraints old.now }
    requires order { IsOrder old.now order.now }
    requires givens { GivensFit system.now.vars givens.now × (length givens.now < 2 ^ 32) }
    ensures { IfOk result (λ r. CarriesTo system.now.vars system.now.constraints givens.now old.now r) }
{
    let mut facts = no_facts(alloc, system.vars)?;
    let clash = fill(
        facts.as_mut_slice(),
        system.constraints.as_slice(),
        old,
        order,
        givens,
    );
    Ok(end_of(facts, clash))
}

/// Carries the old facts, which meet the fact rule under the old givens, to new givens: exactly those whose reasons
/// still force them stay, by level. It clashes exactly where two of the new givens contradict each other.
pub fn carry(
    alloc: Global,
    system: &System,
    old: &Facts,
    old_givens: &Items<Given>,
    givens: &Items<Given>,
) -> Result<Opened, NoMemory>
    requires rule { MeetsFactRule system.now.vars system.now.constraints old_givens.now old.now }
    requires givens { GivensFit system.now.vars givens.now × (length givens.now < 2 ^ 32) }
    ensures { IfOk result (λ r. CarriesTo system.now.vars system.now.constraints givens.now old.now r) }
{
    // the old givens are named by the contract alone
    let _ = old_givens;
    let order = order_of(alloc, old, system.vars)?;
    carry_in(alloc, system, old, order.as_slice(), givens.as_slice())
}
