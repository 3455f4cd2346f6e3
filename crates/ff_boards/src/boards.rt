//! Boards of a case, opened with what may be carried from other givens.
ghost use Rattle.std.specs.Prelude.{◌≡◌, ◌<◌, ◌^◌, IfOk, IfSome, replicate, length, None};
ghost use Rattle.ff_propagate.specs.Agreeing.{Agree};
ghost use Rattle.ff_propagate.specs.Closing.{GivensFit};
ghost use Rattle.ff_propagate.specs.FactRule.{MeetsFactRule};
ghost use Rattle.ff_board.specs.Views.{IsAt};
ghost use Rattle.ff_boards.specs.Openings.{MayOpen};

use anyhow::{Context, Error, Result};
use ff_board::{BoardSeat, EpochBoard, are_few, open_board};
use ff_carry::{Opened, carried_facts_meet_the_rule, carry};
use ff_propagate::{Facts, givens_fit};
use ff_tables::{Given, Items, NoMemory, System};
use ff_types::Case;
use std::alloc::Global;
use std::sync::Arc;

// No facts of as many variables.
fn no_facts(alloc: Global, vars: u32) -> Result<Facts, NoMemory>
    ensures { IfOk result (λ facts. facts ≡ replicate vars None) }
{
    let facts = vec![in alloc; None; vars as usize]?;
    Ok(Facts::of(Items::of(facts)))
}

// The facts of the givens, and those of old ones that still stand. None where two of the givens contradict each other.
fn carried_to(
    alloc: Global,
    system: &System,
    old: &Facts,
    old_givens: &Items<Given>,
    givens: &Items<Given>,
) -> Result<Option<Facts>, NoMemory>
    requires rule { MeetsFactRule system.now.vars system.now.constraints old_givens.now old.now }
    requires givens { GivensFit system.now.vars givens.now × (length givens.now < 2 ^ 32) }
    ensures { IfOk result (λ r. IfSome r (λ facts. Agree givens.now × MeetsFactRule system.now.vars system.now.constraints givens.now facts)) }
{
    let opened = carry(alloc, system, old, old_givens, givens)?;
    // for the facts of a board
    carried_facts_meet_the_rule();
    match opened {
        Opened::Board(facts) => Ok(Some(facts)),
        Opened::Clash { .. } => Ok(None),
    }
}

/// What is carried from old facts to other givens. An error where two of these contradict each other, or where there are
/// too many of something.
pub fn carried(
    alloc: Global,
    case: &Case,
    old: &Facts,
    old_givens: &Items<Given>,
    givens: &Items<Given>,
) -> Result<Facts>
    requires rule { MeetsFactRule case.now.system.vars case.now.system.constraints old_givens.now old.now }
    ensures { IfOk result (λ facts. MayOpen case.now givens.now facts) }
{
    if !givens_fit(case.system.vars, givens.as_slice()) || givens.as_slice().len() >= 1 << 32 {
        return Err(Error::msg("no givens of the case"));
    }
    let found = carried_to(alloc, &case.system, old, old_givens, givens)?;
    let facts = found.context("a contradiction")?;
    if !are_few(case, givens, &facts) {
        return Err(Error::msg("too many"));
    }
    Ok(facts)
}

/// The facts of givens alone.
pub fn given_facts(alloc: Global, case: &Case, givens: &Items<Given>) -> Result<Facts>
    ensures { IfOk result (λ facts. MayOpen case.now givens.now facts) }
{
    let none = no_facts(alloc, case.system.vars)?;
    let no_givens = Items::of(Vec::new(alloc));
    carried(alloc, case, &none, &no_givens, givens)
}

/// A board that is opened with the facts of givens.
pub fn opened(
    alloc: Global,
    case: &Arc<Case>,
    givens: &Items<Given>,
) -> Result<(EpochBoard, BoardSeat)>
    ensures { IfOk result (λ o. IsAt o.0 o.1) }
{
    let facts = given_facts(alloc, case, givens)?;
    Ok(open_board(alloc, Arc::try_clone(case)?, givens, &facts)?)
}
