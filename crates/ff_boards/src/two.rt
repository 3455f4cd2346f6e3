//! Two hands on two threads, beside one hand.
ghost use Rattle.ff_board.specs.Views.{IsAt};

use crate::accordion;
use crate::boards::opened;
use crate::crews::two_hands;
use crate::hands::both_work;
use crate::one::{time_board, time_end};
use crate::telling::{tell_since, tell_system};
use anyhow::{Context, Result};
use ff_board::{BoardSeat, EpochBoard};
use ff_tables::{Given, Items};
use ff_types::Case;
use std::alloc::Global;
use std::io::{Eprint, Print};
use std::rt::Clock;
use std::sync::Arc;
use std::thread::Threads;
use std::time::Instant;

// How often each call is timed.
const TURNS: u32 = 3;

// The work of two hands.
fn time_both<R: Clock + Print + Eprint + Threads + Sync>(
    rt: &R,
    alloc: Global,
    board: &EpochBoard,
    seat: BoardSeat,
) -> Result<()>
    requires { IsAt board.now seat }
{
    let (crew, first, second) = two_hands(alloc)?;
    let start = Instant::now(rt)?;
    let seat = both_work(rt, board, seat, &crew, first, second);
    tell_since(rt, "both work", &start)?;
    time_end(rt, alloc, board, seat)?;
    Ok(())
}

// One hand on a new board.
fn time_one(
    rt: &(impl Clock + Print + Eprint),
    alloc: Global,
    case: &Arc<Case>,
    givens: &Items<Given>,
) -> Result<()> {
    let (board, seat) = opened(alloc, case, givens)?;
    time_board(rt, alloc, &board, seat)?;
    Ok(())
}

// Two hands on a new board.
fn time_two<R: Clock + Print + Eprint + Threads + Sync>(
    rt: &R,
    alloc: Global,
    case: &Arc<Case>,
    givens: &Items<Given>,
) -> Result<()> {
    let (board, seat) = opened(alloc, case, givens)?;
    time_both(rt, alloc, &board, seat)
}

// The turns of both.
fn time_turns<R: Clock + Print + Eprint + Threads + Sync>(
    rt: &R,
    alloc: Global,
    case: &Arc<Case>,
    givens: &Items<Given>,
) -> Result<()> {
    for _ in 0..TURNS {
        time_one(rt, alloc, case, givens)?;
        time_two(rt, alloc, case, givens)?;
    }
    Ok(())
}

/// One hand and two hands on boards of an accordion of so many panels.
pub fn time<R: Clock + Print + Eprint + Threads + Sync>(
    rt: &R,
    alloc: Global,
    panels: u32,
) -> Result<()> {
    let givens = accordion::givens(alloc, panels)?;
    let case = accordion::case(alloc, panels)?.context("no case")?;
    tell_system(rt, &case.system)?;
    let case = Arc::new(alloc, case)?;
    time_turns(rt, alloc, &case, &givens)
}
