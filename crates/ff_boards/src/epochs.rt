//! Epochs in which one pin comes and goes, beside one closure.
ghost use Rattle.std.specs.Prelude.{IfOk};
ghost use Rattle.ff_board.specs.Facts.{vars_in, cons_in};
ghost use Rattle.ff_board.specs.Views.{IsAt};
ghost use Rattle.ff_propagate.specs.FactRule.{MeetsFactRule};
ghost use Rattle.std.specs.Arc.{arc_value};
ghost use Rattle.ff_boards.specs.Openings.{MayOpen};

use crate::boards::carried;
use crate::one::{time_board, time_close, time_open};
use crate::pinning::with_pin;
use crate::reading::case_of_bytes;
use crate::telling::{tell_since, tell_system};
use anyhow::{Context, Result};
use ff_board::{BoardSeat, EpochBoard};
use ff_propagate::Facts;
use ff_tables::{Given, Items};
use ff_types::Case;
use std::alloc::Global;
use std::io::{Eprint, Print};
use std::rt::Clock;
use std::sync::Arc;
use std::time::Instant;

// How often the pin comes and goes.
const TURNS: u32 = 3;

// What is carried from the facts of a board to other givens.
fn time_carry(
    rt: &(impl Clock + Eprint),
    alloc: Global,
    board: &EpochBoard,
    facts: &Facts,
    givens: &Items<Given>,
) -> Result<Facts>
    requires { MeetsFactRule (vars_in board.now.opening) (cons_in board.now.opening) board.now.opening.givens facts.now }
    ensures { IfOk result (λ r. MayOpen (arc_value board.now.opening.case) givens.now r) }
{
    let opening = board.opening();
    let start = Instant::now(rt)?;
    let carried = carried(alloc, &opening.case, facts, &opening.givens, givens);
    tell_since(rt, "carry", &start)?;
    carried
}

// The board of the next epoch, opened with carried facts.
fn time_reopen(
    rt: &(impl Clock + Eprint),
    alloc: Global,
    board: &EpochBoard,
    facts: &Facts,
    givens: &Items<Given>,
) -> Result<(EpochBoard, BoardSeat)>
    requires { MayOpen (arc_value board.now.opening.case) givens.now facts.now }
    ensures { IfOk result (λ r. IsAt r.0 r.1) }
{
    let start = Instant::now(rt)?;
    let opened = board.reopen(alloc, givens, facts);
    tell_since(rt, "reopen", &start)?;
    Ok(opened?)
}

// The epoch after that of the board, opened with carried facts. Its board, and its facts.
fn time_next(
    rt: &(impl Clock + Print + Eprint),
    alloc: Global,
    board: &EpochBoard,
    carried: &Facts,
    givens: &Items<Given>,
) -> Result<(EpochBoard, Facts)>
    requires { MayOpen (arc_value board.now.opening.case) givens.now carried.now }
    ensures { IfOk result (λ r. MeetsFactRule (vars_in r.0.opening) (cons_in r.0.opening) r.0.opening.givens r.1) }
{
    let (next, seat) = time_reopen(rt, alloc, board, carried, givens)?;
    let found = time_board(rt, alloc, &next, seat)?;
    Ok((next, found))
}

// The epoch after that of the board, whose facts are these. Its board, and its facts.
fn time_epoch(
    rt: &(impl Clock + Print + Eprint),
    alloc: Global,
    board: &EpochBoard,
    facts: &Facts,
    givens: &Items<Given>,
) -> Result<(EpochBoard, Facts)>
    requires { MeetsFactRule (vars_in board.now.opening) (cons_in board.now.opening) board.now.opening.givens facts.now }
    ensures { IfOk result (λ r. MeetsFactRule (vars_in r.0.opening) (cons_in r.0.opening) r.0.opening.givens r.1) }
{
    let carried = time_carry(rt, alloc, board, facts, givens)?;
    time_next(rt, alloc, board, &carried, givens)
}

// The epoch in which the pin goes again.
fn time_unpin(
    rt: &(impl Clock + Print + Eprint),
    alloc: Global,
    board: &EpochBoard,
    facts: &Facts,
    givens: &Items<Given>,
) -> Result<()>
    requires { MeetsFactRule (vars_in board.now.opening) (cons_in board.now.opening) board.now.opening.givens facts.now }
{
    let start = Instant::now(rt)?;
    let ended = time_epoch(rt, alloc, board, facts, givens);
    tell_since(rt, "unpin", &start)?;
    ended?;
    Ok(())
}

// Pins a variable, and takes the pin back.
fn time_pin(
    rt: &(impl Clock + Print + Eprint),
    alloc: Global,
    board: &EpochBoard,
    facts: &Facts,
    pinned: &Items<Given>,
) -> Result<()>
    requires { MeetsFactRule (vars_in board.now.opening) (cons_in board.now.opening) board.now.opening.givens facts.now }
{
    let start = Instant::now(rt)?;
    let ended = time_epoch(rt, alloc, board, facts, pinned);
    tell_since(rt, "pin", &start)?;
    let (next, found) = ended?;
    time_unpin(rt, alloc, &next, &found, &board.opening().givens)
}

// The epochs after the first one.
fn time_pins(
    rt: &(impl Clock + Print + Eprint),
    alloc: Global,
    board: &EpochBoard,
    facts: &Facts,
) -> Result<()>
    requires { MeetsFactRule (vars_in board.now.opening) (cons_in board.now.opening) board.now.opening.givens facts.now }
{
    let pinned = with_pin(alloc, &board.opening().givens, facts, board.vars())?;
    for _ in 0..TURNS {
        time_pin(rt, alloc, board, facts, &pinned)?;
        time_close(rt, alloc, &board.opening().case.system, &pinned)?;
    }
    Ok(())
}

// The first epoch, whose givens are those of the creases, and those after it.
fn time_case(rt: &(impl Clock + Print + Eprint), alloc: Global, case: &Arc<Case>) -> Result<()> {
    let (board, seat) = time_open(rt, alloc, case, &case.starts)?;
    let facts = time_board(rt, alloc, &board, seat)?;
    time_pins(rt, alloc, &board, &facts)
}

/// The epochs of the case that the bytes spell: the first with the givens of its creases, and then so many in which one pin comes and goes.
pub fn time(rt: &(impl Clock + Print + Eprint), alloc: Global, bytes: &[u8]) -> Result<()> {
    let case = case_of_bytes(alloc, bytes)?.context("no case")?;
    tell_system(rt, &case.system)?;
    let case = Arc::new(alloc, case)?;
    time_case(rt, alloc, &case)
}
