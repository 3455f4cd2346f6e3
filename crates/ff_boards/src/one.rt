//! One worker on a board, beside one closure.
ghost use Rattle.std.specs.Prelude.{◌≤◌, IfOk, length};
ghost use Rattle.ff_board.specs.Facts.{vars_in, cons_in};
ghost use Rattle.ff_board.specs.Views.{IsAt, GoesOn};
ghost use Rattle.ff_propagate.specs.FactRule.{MeetsFactRule};

use crate::accordion;
use crate::boards::opened;
use crate::crews::one_hand;
use crate::hands::hand_works;
use crate::telling::{tell_since, tell_system};
use anyhow::{Context, Error, Result};
use ff_board::{BoardSeat, EpochBoard, Sweep};
use ff_propagate::{Facts, close, givens_fit};
use ff_tables::{Given, Items, System};
use ff_types::Case;
use std::alloc::Global;
use std::io::{Eprint, Print};
use std::rt::Clock;
use std::sync::Arc;
use std::time::Instant;

// How often each call is timed.
const TURNS: u32 = 3;

/// One closure of the givens.
pub fn time_close(
    rt: &(impl Clock + Eprint),
    alloc: Global,
    system: &System,
    givens: &Items<Given>,
) -> Result<()> {
    let count = system.constraints.as_slice().len();
    let given = givens.as_slice();
    if !givens_fit(system.vars, given) || count >= 1 << 32 || given.len() >= 1 << 32 {
        return Err(Error::msg("no givens of the system"));
    }
    let start = Instant::now(rt)?;
    let closed = close(alloc, system, givens);
    tell_since(rt, "close", &start)?;
    closed?;
    Ok(())
}

/// A board that is opened with the facts of givens.
pub fn time_open(
    rt: &(impl Clock + Eprint),
    alloc: Global,
    case: &Arc<Case>,
    givens: &Items<Given>,
) -> Result<(EpochBoard, BoardSeat)>
    ensures { IfOk result (λ o. IsAt o.0 o.1) }
{
    let start = Instant::now(rt)?;
    let opened = opened(alloc, case, givens);
    tell_since(rt, "opened", &start)?;
    opened
}

// The work of one hand.
fn time_work(
    rt: &(impl Clock + Eprint),
    alloc: Global,
    board: &EpochBoard,
    seat: BoardSeat,
) -> Result<BoardSeat>
    requires { IsAt board.now seat }
    ensures { IfOk result (λ r. GoesOn seat r) }
{
    let (crew, hand) = one_hand(alloc)?;
    let start = Instant::now(rt)?;
    let seat = hand_works(board, seat, &crew, hand);
    tell_since(rt, "work", &start)?;
    Ok(seat)
}

// A sweep. Whether the board is closed.
fn time_sweep(rt: &(impl Clock + Eprint), board: &EpochBoard, seat: &mut BoardSeat) -> Result<bool>
    requires { IsAt board.now seat.old }
    ensures { GoesOn seat.old seat.new }
{
    let start = Instant::now(rt)?;
    let end = board.sweep(seat);
    tell_since(rt, "sweep", &start)?;
    Ok(end == Sweep::Closed)
}

// The facts of the board.
fn time_collect(
    rt: &(impl Clock + Eprint),
    alloc: Global,
    board: &EpochBoard,
    seat: &mut BoardSeat,
) -> Result<Facts>
    requires { IsAt board.now seat.old }
    ensures { IfOk result (λ facts. MeetsFactRule (vars_in board.now.opening) (cons_in board.now.opening) board.now.opening.givens facts) }
{
    let start = Instant::now(rt)?;
    let facts = board.collect(alloc, seat);
    tell_since(rt, "collect", &start)?;
    Ok(facts?)
}

// How many variables have a fact.
fn count(facts: &Facts, vars: u32) -> u32
    requires { vars ≤ length facts.now }
{
    let mut count = 0u32;
    for var in 0..vars {
        if facts.fact(var).is_some() {
            count = count.saturating_add(1);
        }
    }
    count
}

/// A sweep, and then the facts of the board.
pub fn time_end(
    rt: &(impl Clock + Print + Eprint),
    alloc: Global,
    board: &EpochBoard,
    mut seat: BoardSeat,
) -> Result<Facts>
    requires { IsAt board.now seat }
    ensures { IfOk result (λ facts. MeetsFactRule (vars_in board.now.opening) (cons_in board.now.opening) board.now.opening.givens facts) }
{
    let closed = time_sweep(rt, board, &mut seat)?;
    let facts = time_collect(rt, alloc, board, &mut seat)?;
    println!(rt; "closed {closed} facts {}", count(&facts, board.vars()))?;
    Ok(facts)
}

/// The work of one hand, a sweep, and then the facts of the board.
pub fn time_board(
    rt: &(impl Clock + Print + Eprint),
    alloc: Global,
    board: &EpochBoard,
    seat: BoardSeat,
) -> Result<Facts>
    requires { IsAt board.now seat }
    ensures { IfOk result (λ facts. MeetsFactRule (vars_in board.now.opening) (cons_in board.now.opening) board.now.opening.givens facts) }
{
    let seat = time_work(rt, alloc, board, seat)?;
    time_end(rt, alloc, board, seat)
}

// One closure, and one worker on a new board.
fn time_turn(
    rt: &(impl Clock + Print + Eprint),
    alloc: Global,
    case: &Arc<Case>,
    givens: &Items<Given>,
) -> Result<()> {
    time_close(rt, alloc, &case.system, givens)?;
    let (board, seat) = time_open(rt, alloc, case, givens)?;
    time_board(rt, alloc, &board, seat)?;
    Ok(())
}

/// One worker on the board of an accordion of so many panels, beside one closure.
pub fn time(rt: &(impl Clock + Print + Eprint), alloc: Global, panels: u32) -> Result<()> {
    let givens = accordion::givens(alloc, panels)?;
    let case = accordion::case(alloc, panels)?.context("no case")?;
    tell_system(rt, &case.system)?;
    let case = Arc::new(alloc, case)?;
    for _ in 0..TURNS {
        time_turn(rt, alloc, &case, &givens)?;
    }
    Ok(())
}
