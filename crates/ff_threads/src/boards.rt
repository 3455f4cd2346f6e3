//! Boards of cases by hand, opened with the facts of givens.
ghost use Rattle.std.specs.Prelude.{◌≡◌, ◌<◌, ◌≤◌, ◌^◌, IfOk, IfSome, length, replicate, None};
ghost use Rattle.ff_propagate.specs.Agreeing.{Agree};
ghost use Rattle.ff_propagate.specs.Closing.{GivensFit};
ghost use Rattle.ff_propagate.specs.FactRule.{MeetsFactRule};
ghost use Rattle.ff_board.specs.Views.{IsAt, GoesOn};

use ff_board::{BoardSeat, EpochBoard, Sweep, are_few, open_board};
use ff_carry::{Opened, carried_facts_meet_the_rule, carry};
use ff_propagate::{Facts, givens_fit};
use ff_tables::{Given, GivenBy, Items, NoMemory, Order, System};
use ff_types::Case;
use std::alloc::Global;
use std::sync::Arc;

/// Pins with these values.
pub fn pins(alloc: Global, values: &[(u32, Order)]) -> Result<Items<Given>, NoMemory> {
    let mut list = Vec::new(alloc);
    for &(var, value) in values {
        list.push(Given {
            var,
            value,
            by: GivenBy::Pin,
        })?;
    }
    Ok(Items::of(list))
}

// No facts of as many variables.
fn no_facts(alloc: Global, vars: u32) -> Result<Facts, NoMemory>
    ensures { IfOk result (λ facts. facts ≡ replicate vars None) }
{
    let facts = vec![in alloc; None; vars as usize]?;
    Ok(Facts::of(Items::of(facts)))
}

// The facts of givens. None where two of these contradict each other.
fn facts_of(
    alloc: Global,
    system: &System,
    givens: &Items<Given>,
) -> Result<Option<Facts>, NoMemory>
    requires { GivensFit system.now.vars givens.now × (length givens.now < 2 ^ 32) }
    ensures { IfOk result (λ r. IfSome r (λ facts. MeetsFactRule system.now.vars system.now.constraints givens.now facts × Agree givens.now)) }
{
    let none = no_facts(alloc, system.vars)?;
    let no_givens = Items::of(Vec::new(alloc));
    let opened = carry(alloc, system, &none, &no_givens, givens)?;
    // for the facts of a board
    carried_facts_meet_the_rule();
    match opened {
        Opened::Board(facts) => Ok(Some(facts)),
        Opened::Clash { .. } => Ok(None),
    }
}

/// A board of the case, opened with the facts of givens. None where two of these contradict each other, or where there are
/// too many of something.
pub fn opened(
    alloc: Global,
    case: Case,
    givens: &Items<Given>,
) -> Result<Option<(EpochBoard, BoardSeat)>, NoMemory>
    ensures { IfOk result (λ r. IfSome r (λ o. IsAt o.0 o.1)) }
{
    if !givens_fit(case.system.vars, givens.as_slice()) || givens.as_slice().len() >= 1 << 32 {
        return Ok(None);
    }
    let Some(facts) = facts_of(alloc, &case.system, givens)? else {
        return Ok(None);
    };
    if !are_few(&case, givens, &facts) {
        return Ok(None);
    }
    let case = Arc::new(alloc, case)?;
    Ok(Some(open_board(alloc, case, givens, &facts)?))
}

fn sign(value: Option<Order>) -> char {
    match value {
        None => '.',
        Some(Order::Below) => '-',
        Some(Order::Above) => '+',
    }
}

// The facts' values: `-` below, `+` above, `.` none.
fn shown(alloc: Global, facts: &Facts, vars: u32) -> Result<String, NoMemory>
    requires { vars ≤ length facts.now }
{
    let mut text = String::new(alloc);
    for var in 0..vars {
        text.push(sign(facts.fact(var).map(|fact| fact.value)))?;
    }
    Ok(text)
}

/// What a sweep comes to, and the facts that are collected then.
pub fn swept(alloc: Global, board: &EpochBoard, seat: &mut BoardSeat) -> Result<String, NoMemory>
    requires { IsAt board.now seat.old }
    ensures { GoesOn seat.old seat.new }
{
    let end = match board.sweep(seat) {
        Sweep::Closed => String::from_str(alloc, "closed")?,
        Sweep::Dead(c) => format!(in alloc; "dead {c}")?,
    };
    let facts = board.collect(alloc, seat)?;
    let values = shown(alloc, &facts, board.vars())?;
    Ok(format!(in alloc; "{} {}", end.as_str(), values.as_str())?)
}
